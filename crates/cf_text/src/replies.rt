//! The replies of statements, and the usage line. Each stands in the place of what the text held.

ghost use Rattle.std.specs.Prelude.{◌≡◌, ℕ, ◌+◌, ◌≤◌, List, take};
ghost use Rattle.cf_model.specs.Assignments.{bits};
ghost use Rattle.cf_reference.specs.Replies.{
  value_reply,
  bits_reply,
  none_reply,
  equal_reply,
  different_reply,
  size_reply,
  stats_reply,
  listed_reply,
  usage_reply,
};

use crate::text::Text;
use cf_bits::Bits;

/// The reply of a value.
pub fn value_text(v: i128, text: &mut Text)
    ensures { text.new ≡ value_reply v }
{
    text.clear();
    text.add_number(v);
    text.add(b"\n");
}

/// The reply of an assignment: its bits.
pub fn bits_text(b: Bits, text: &mut Text)
    ensures { text.new ≡ bits_reply (bits b) }
{
    text.clear();
    text.add_bits(b);
    text.add(b"\n");
}

/// The reply where no assignment is found.
pub fn none_text(text: &mut Text)
    ensures { text.new ≡ none_reply }
{
    text.clear();
    text.add(b"none\n");
}

/// The reply of two functions that are equal.
pub fn equal_text(text: &mut Text)
    ensures { text.new ≡ equal_reply }
{
    text.clear();
    text.add(b"equal\n");
}

/// The reply of two functions that differ: the bits of an assignment, and the first and the second
/// function's value there.
pub fn different_text(at: Bits, v: i128, w: i128, text: &mut Text)
    ensures { text.new ≡ different_reply (bits at) v w }
{
    text.clear();
    text.add(b"different ");
    text.add_bits(at);
    text.add(b" ");
    text.add_number(v);
    text.add(b" ");
    text.add_number(w);
    text.add(b"\n");
}

/// How large a function of a level is: its groupings on each level from 0 to that level, and its exits.
pub fn size_text(level: u8, per_level: &[u64; 8], exits: u64, text: &mut Text)
    requires { level ≤ 7 }
    ensures { text.new ≡ size_reply (take (level + 1) per_level.now) exits }
{
    text.clear();
    text.add(b"size");
    text.add_counts(&per_level[..=usize::from(level)]);
    text.add(b" exits ");
    text.add_number(exits);
    text.add(b"\n");
}

/// How many names are bound, and how many groupings there are on each level.
pub fn stats_text(names: u64, per_level: &[u64; 8], text: &mut Text)
    ensures { text.new ≡ stats_reply names per_level.now }
{
    text.clear();
    text.add(b"stats ");
    text.add_number(names);
    text.add_counts(per_level);
    text.add(b"\n");
}

/// The last line of a list: how many assignments it has.
pub fn listed_text(n: u64, text: &mut Text)
    ensures { text.new ≡ listed_reply n }
{
    text.clear();
    text.add(b"listed ");
    text.add_number(n);
    text.add(b"\n");
}

/// The words that the program takes.
pub fn usage_text(text: &mut Text)
    ensures { text.new ≡ usage_reply }
{
    text.clear();
    text.add(b"usage: cflobdd run | gen N | check A B | dump FILE\n");
}
