//! Each operation of a word as a function of its own. A number other than 0 counts as true.
#![tactic(auto, using(crate::proofs::TermFacts::word_laws))]

ghost use Rattle.std.specs.Prelude.{◌≡◌, ℤ, pos, [], ◌∷◌, Some};
ghost use Rattle.cf_model.specs.Terms.{value1, value2, chosen, term};
ghost use Rattle.cf_model.specs.declared.terms.Word1.TheVariants.{Not, Neg};
ghost use Rattle.cf_model.specs.declared.terms.Word2.TheVariants.{And, Or, Xor, Plus, Minus, Times, Min, Max, Eq, Lt};
ghost use Rattle.cf_ops.specs.Operations.{of_one, of_two, of_three};

/// 1 for 0, and 0 for any other number.
pub fn not(x: i128) -> Option<i128>
    ensures value { result ≡ value1 Not x }
    ensures tree { result ≡ term (of_one Not) x (pos 0) (pos 0) }
{
    Some(i128::from(x == 0))
}

/// The number with the other sign; None where it doesn't fit.
pub fn neg(x: i128) -> Option<i128>
    ensures value { result ≡ value1 Neg x }
    ensures tree { result ≡ term (of_one Neg) x (pos 0) (pos 0) }
{
    x.checked_neg()
}

/// 1 where both are true, else 0.
pub fn and(x: i128, y: i128) -> Option<i128>
    ensures value { result ≡ value2 And x y }
    ensures tree { result ≡ term (of_two And) x y (pos 0) }
{
    Some(i128::from(x != 0 && y != 0))
}

/// 1 where one is true, else 0.
pub fn or(x: i128, y: i128) -> Option<i128>
    ensures value { result ≡ value2 Or x y }
    ensures tree { result ≡ term (of_two Or) x y (pos 0) }
{
    Some(i128::from(x != 0 || y != 0))
}

/// 1 where exactly one is true, else 0.
pub fn xor(x: i128, y: i128) -> Option<i128>
    ensures value { result ≡ value2 Xor x y }
    ensures tree { result ≡ term (of_two Xor) x y (pos 0) }
{
    Some(i128::from((x != 0) != (y != 0)))
}

/// The sum; None where it doesn't fit.
pub fn plus(x: i128, y: i128) -> Option<i128>
    ensures value { result ≡ value2 Plus x y }
    ensures tree { result ≡ term (of_two Plus) x y (pos 0) }
{
    x.checked_add(y)
}

/// The first less the second; None where it doesn't fit.
pub fn minus(x: i128, y: i128) -> Option<i128>
    ensures value { result ≡ value2 Minus x y }
    ensures tree { result ≡ term (of_two Minus) x y (pos 0) }
{
    x.checked_sub(y)
}

/// The product; None where it doesn't fit.
pub fn times(x: i128, y: i128) -> Option<i128>
    ensures value { result ≡ value2 Times x y }
    ensures tree { result ≡ term (of_two Times) x y (pos 0) }
{
    x.checked_mul(y)
}

/// The smaller one.
pub fn min(x: i128, y: i128) -> Option<i128>
    ensures value { result ≡ value2 Min x y }
    ensures tree { result ≡ term (of_two Min) x y (pos 0) }
{
    Some(x.min(y))
}

/// The greater one.
pub fn max(x: i128, y: i128) -> Option<i128>
    ensures value { result ≡ value2 Max x y }
    ensures tree { result ≡ term (of_two Max) x y (pos 0) }
{
    Some(x.max(y))
}

/// 1 where they are equal, else 0.
pub fn eq(x: i128, y: i128) -> Option<i128>
    ensures value { result ≡ value2 Eq x y }
    ensures tree { result ≡ term (of_two Eq) x y (pos 0) }
{
    Some(i128::from(x == y))
}

/// 1 where the first is smaller, else 0.
pub fn lt(x: i128, y: i128) -> Option<i128>
    ensures value { result ≡ value2 Lt x y }
    ensures tree { result ≡ term (of_two Lt) x y (pos 0) }
{
    Some(i128::from(x < y))
}

/// The second where the first is true, else the third.
pub fn ite(x: i128, y: i128, z: i128) -> Option<i128>
    ensures value { result ≡ chosen (Some x) (Some y) (Some z) }
    ensures tree { result ≡ term of_three x y z }
{
    Some(if x != 0 { y } else { z })
}
