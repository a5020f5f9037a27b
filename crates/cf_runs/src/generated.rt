//! The script of the seed 1, beside its first and last lines as the generator's rule gives them.

use cf_gen::gen_script;
use std::test::Fail;

/// Lines 1 to 15.
const FIRST: &[u8] = b"level 7
var v0 v1 v2 v3 v4 v5 v6 v7 v8 v9 v10 v11
let f0 = v0
let f1 = v1
let f2 = v2
let f3 = v3
let f4 = v4
let f5 = v5
let f6 = v6
let f7 = v7
let f8 = v8
let f9 = v9
let f10 = v10
let f11 = v11
let f12 = lt(f9,f0)
";

/// Lines 285 to 300.
const LAST: &[u8] = b"
let s = plus(f274,f275,f276,f277,f278,f279,f280,f281)
size s
first s 0
list s 1 4
equal f280 f281
size f281
first f281 1
let w = walsh(7)
size w
let p = matmul(w,w)
let q = times(id(7),18446744073709551616)
equal p q
size p
entry p 3 3
entry p 3 4
stats
";

#[test]
fn the_script_of_the_first_seed_has_its_lines(rt: HostRuntime) -> Result<(), Fail> {
    let script = gen_script(rt.alloc(), 1)?;
    let text = script.as_slice();
    assert!(rt; text.starts_with(FIRST));
    assert!(rt; text.ends_with(LAST));
    let mut lines = 0u64;
    for b in text {
        if *b == b'\n' {
            lines = lines.saturating_add(1);
        }
    }
    assert_eq!(rt; lines, 300);
    Ok(())
}
