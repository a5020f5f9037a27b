// Assignments of up to 128 bits.
#![tactic(auto)]

ghost use Rattle.std.specs.Prelude.{◌≡◌, ℕ, ◌+◌, ◌*◌, ◌<◌, ◌≤◌, ◌/◌, ◌%◌, ◌^◌, ◌==◌, ◌↔◌, IsTrue, IfSome, Some, length, map, take, drop, slice_get};
ghost use Rattle.std.specs.Option.{option_map};
ghost use Rattle.cf_model.specs.Assignments.{
  Assignment,
  bits,
  bits_of,
  number_of,
  digit_of,
  digits_of,
  are_digits,
  bits_of_text,
  with_bit,
  first_half,
  second_half,
  weave,
  unweave,
  row_of,
  column_of,
  is_less,
  IsLexBefore,
};
ghost use Rattle.cf_bits.specs.Numbers.{with_digit};

use std::marker::Model;

/// An assignment of 1 to 128 bits, the first variable being the highest bit of its number.
#[derive(Clone, Copy, Debug)]
pub struct Bits {
    len: u8,
    word: u128,
}

impl Model for Bits {
    ghost use Rattle.std.specs.Prelude.{ℕ, ◌≤◌, ◌<◌, ◌^◌};
    ghost use Rattle.cf_model.specs.Assignments.{Assignment};

    ghost Value = { Assignment };

    ghost view = { λ b. record { len = b.len; number = b.word } };

    ghost invariant = { λ b. (1 ≤ b.len) × (b.len ≤ 128) × (b.word < 2 ^ b.len) };

    ghost inverse = { λ v. record { len = v.len; word = v.number } };
}

impl Bits {
    /// The `len` bits whose number is `word`.
    pub fn new(len: u8, word: u128) -> Bits
        requires some { 1 ≤ len }
        requires most { len ≤ 128 }
        requires below { word < 2 ^ len }
        ensures parts { result ≡ record { len = len; number = word } }
        ensures listed { bits result ≡ bits_of len word }
    {
        Bits { len, word }
    }

    /// How many bits there are.
    pub fn len(self) -> u8
        ensures len { result ≡ self.len }
        ensures listed { result ≡ length (bits self) }
        ensures some { 1 ≤ result }
        ensures most { result ≤ 128 }
    {
        self.len
    }

    /// The number of the bits, the first one being the highest.
    pub fn number(self) -> u128
        ensures number { result ≡ self.number }
        ensures listed { result ≡ number_of (bits self) }
        ensures below { result < 2 ^ self.len }
    {
        self.word
    }

    /// Bit `i`, counted from the first.
    pub fn get(self, i: u8) -> bool
        requires { i < self.len }
        ensures { slice_get (bits self) i ≡ Some result }
    {
        is_set(self.word, self.len - 1 - i)
    }

    /// The same bits with bit `i`, counted from the first, set to `b`.
    pub fn with(self, i: u8, b: bool) -> Bits
        requires { i < self.len }
        ensures listed { bits result ≡ with_bit (bits self) i b }
        ensures len { result.len ≡ self.len }
        ensures number { result.number ≡ number_of (bits result) }
    {
        Bits::new(self.len(), self.number_with(i, b))
    }

    // The number of the bits with bit `i` set to `b`.
    fn number_with(self, i: u8, b: bool) -> u128
        requires { i < self.len }
        ensures { result ≡ number_of (with_bit (bits self) i b) }
    {
        let place = place_value(self.len() - 1 - i);
        let number = self.number();
        if self.get(i) == b {
            number
        } else if b {
            number + place
        } else {
            number - place
        }
    }

    /// The first and the second half of the bits.
    pub fn halves(self) -> (Bits, Bits)
        requires even { self.len % 2 ≡ 0 }
        ensures first { bits result.0 ≡ first_half (bits self) }
        ensures second { bits result.1 ≡ second_half (bits self) }
        ensures quotient { result.0 ≡ record { len = self.len / 2; number = self.number / 2 ^ (self.len / 2) } }
        ensures remainder { result.1 ≡ record { len = self.len / 2; number = self.number % 2 ^ (self.len / 2) } }
    {
        let half = self.len() / 2;
        let number = self.number();
        let size = place_value(half);
        (
            Bits::new(half, number / size),
            Bits::new(half, number % size),
        )
    }

    /// The bits of a row index and of a column index by turns, beginning with the row's first.
    pub fn weave(row: Bits, col: Bits) -> Bits
        requires equal { row.len ≡ col.len }
        requires most { row.len ≤ 64 }
        ensures woven { bits result ≡ weave (bits row) (bits col) }
        ensures len { result.len ≡ 2 * row.len }
        ensures number { result.number ≡ number_of (bits result) }
    {
        let length = row.len();
        let mut number = 0u128;
        for i in 0..length {
            number = push_digit(number, row.get(i));
            number = push_digit(number, col.get(i));
        }
        Bits::new(2 * length, number)
    }

    /// The row index and the column index of which these bits are woven.
    pub fn unweave(self) -> (Bits, Bits)
        requires even { self.len % 2 ≡ 0 }
        ensures unwoven { (bits result.0, bits result.1) ≡ unweave (bits self) }
        ensures woven { weave (bits result.0) (bits result.1) ≡ bits self }
        ensures row_len { result.0.len ≡ self.len / 2 }
        ensures column_len { result.1.len ≡ self.len / 2 }
        ensures row_number { result.0.number ≡ number_of (bits result.0) }
        ensures column_number { result.1.number ≡ number_of (bits result.1) }
    {
        let half = self.len() / 2;
        let mut row = 0u128;
        let mut column = 0u128;
        for i in 0..half {
            row = push_digit(row, self.get(2 * i));
            column = push_digit(column, self.get(2 * i + 1));
        }
        (Bits::new(half, row), Bits::new(half, column))
    }

    /// Whether the number is smaller than the other one.
    pub fn less(self, other: Bits) -> bool
        requires equal { self.len ≡ other.len }
        ensures number { IsTrue result ↔ (self.number < other.number) }
        ensures listed { result ≡ is_less (bits self) (bits other) }
        ensures order { IsTrue result ↔ IsLexBefore (bits self) (bits other) }
    {
        self.number() < other.number()
    }

    /// The bits that a text of 1 to 128 digits `0` and `1` spells; None at any other text.
    pub fn from_text(text: &[u8]) -> Option<Bits>
        ensures spelled { option_map bits result ≡ bits_of_text text.now }
        ensures len { IfSome result (λ b. b.len ≡ length text.now) }
        ensures number { IfSome result (λ b. b.number ≡ number_of (bits b)) }
    {
        if text.is_empty() || text.len() > 128 || !are_binary(text) {
            return None;
        }
        Some(Bits::new(text.len() as u8, number_spelled(text)))
    }

    /// Writes the bits as digits to the front of `out`, and answers how many there are.
    pub fn text(self, out: &mut [u8; 128]) -> usize
        ensures len { result ≡ self.len }
        ensures most { result ≤ 128 }
        ensures digits { take self.len out.new ≡ digits_of (bits self) }
        ensures rest { drop self.len out.new ≡ drop self.len out.old }
    {
        let len = self.len();
        for i in 0..len {
            out[usize::from(i)] = digit(self.get(i));
        }
        usize::from(len)
    }
}

fn digit(bit: bool) -> u8
    ensures { result ≡ digit_of bit }
{
    if bit { b'1' } else { b'0' }
}

fn are_binary(text: &[u8]) -> bool
    ensures { result ≡ are_digits text.now }
{
    text.iter().all(|b| *b == b'0' || *b == b'1')
}

// The number that digits spell, the first one being the highest.
fn number_spelled(digits: &[u8]) -> u128
    requires { length digits.now ≤ 128 }
    ensures number { result ≡ number_of (map (λ b. b == 49) digits.now) }
    ensures below { result < 2 ^ length digits.now }
{
    let mut number = 0u128;
    for digit in digits {
        number = 2 * number;
        if *digit == b'1' {
            number += 1;
        }
    }
    number
}

// The value of the digit that `k` digits follow.
fn place_value(k: u8) -> u128
    requires { k < 128 }
    ensures { result ≡ 2 ^ k }
{
    1u128 << k
}

// A number with one more digit behind it.
fn push_digit(number: u128, bit: bool) -> u128
    requires { number < 2 ^ 127 }
    ensures { result ≡ with_digit number bit }
{
    2 * number + u128::from(bit)
}

// Whether bit `k` of a word is set, the lowest one being 0.
fn is_set(word: u128, k: u8) -> bool
    requires { k < 128 }
    ensures { result ≡ ((word / 2 ^ k) % 2 == 1) }
{
    (word >> k) & 1 == 1
}
