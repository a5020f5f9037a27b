//! Weights of sums of exit pairs, under a list of values for each of the two groupings.

ghost use Rattle.std.specs.Prelude.{◌≡◌, ◌<◌, ◌^◌, pos, ◌*ℤ◌, unsigned_abs, length, All, SomeIff};
ghost use Rattle.cf_model.specs.PairSums.{weight};
ghost use Rattle.cf_comb.specs.CombBooks.{PairsBelow};

use crate::terms::Term;

/// The greatest absolute value of a weight.
const MOST: u128 = 170_141_183_460_469_231_731_687_303_715_884_105_727;

/// The product; None where its absolute value is above 2^127 - 1.
fn bounded_product(x: i128, y: i128) -> Option<i128>
    ensures { SomeIff result (unsigned_abs (x *ℤ y) < 2 ^ 127) (x *ℤ y) }
{
    let product = x.checked_mul(y)?;
    if product == i128::MIN {
        return None;
    }
    Some(product)
}

/// The coefficient times both values; None where its absolute value is above 2^127 - 1.
fn term_weight(count: u128, x: i128, y: i128) -> Option<i128>
    requires { 0 < count }
    ensures { SomeIff result
        (unsigned_abs (pos count *ℤ (x *ℤ y)) < 2 ^ 127) (pos count *ℤ (x *ℤ y)) }
{
    if x == 0 || y == 0 {
        return Some(0);
    }
    let product = bounded_product(x, y)?;
    if count > MOST {
        return None;
    }
    bounded_product(count as i128, product)
}

/// The sum of coefficient times both values, over all pairs; None where the absolute values of these
/// terms add to more than 2^127 - 1.
pub(crate) fn weight_of(sum: &[Term], v: &[i128], w: &[i128]) -> Option<i128>
    requires positive { All (λ t. 0 < t.1) sum.now }
    requires within { PairsBelow (length v.now) (length w.now) sum.now }
    ensures { result ≡ weight v.now w.now sum.now }
{
    let mut weight = 0i128;
    let mut size = 0u128;
    for i in 0..sum.len() {
        let (pair, count) = sum[i];
        let term = term_weight(count, v[pair.0 as usize], w[pair.1 as usize])?;
        size += term.unsigned_abs();
        if size > MOST {
            return None;
        }
        weight += term;
    }
    Some(weight)
}
