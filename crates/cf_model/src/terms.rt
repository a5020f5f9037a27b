//! Terms: operations on at most three numbers, as trees.

ghost use Rattle.std.specs.Prelude.{◌≡◌, ◌↔◌, IfOk, IsTrue};
ghost use Rattle.cf_model.specs.Values.{and_then};
ghost use Rattle.cf_model.specs.Terms.{value1 as value1_of, value2 as value2_of, joined as joined_of, chosen as chosen_of, truth as truth_of, term, arity as arity_of};

use sqlite_items::{Boxed, Items};
use std::alloc::{AllocError, Global};

/// An operation on one number.
#[derive(Clone, Copy, PartialEq, Eq, Hash, Debug)]
pub enum Word1 {
    /// 1 for 0, and 0 for any other number.
    Not,
    /// The number with the other sign.
    Neg,
}

/// An operation on two numbers. A number other than 0 counts as true.
#[derive(Clone, Copy, PartialEq, Eq, Hash, Debug)]
pub enum Word2 {
    /// 1 where both are true, else 0.
    And,
    /// 1 where one is true, else 0.
    Or,
    /// 1 where exactly one is true, else 0.
    Xor,
    /// The sum.
    Plus,
    /// The first less the second.
    Minus,
    /// The product.
    Times,
    /// The smaller one.
    Min,
    /// The greater one.
    Max,
    /// 1 where they are equal, else 0.
    Eq,
    /// 1 where the first is smaller, else 0.
    Lt,
}

/// A term over the numbers X, Y and Z.
#[derive(Drop)]
pub enum Term {
    /// The first number.
    X,
    /// The second number.
    Y,
    /// The third number.
    Z,
    /// A constant.
    Num(i128),
    /// An operation on the value of a term.
    One(Word1, Boxed<Term>),
    /// An operation folded from the left over the values of terms; 0 where there are none.
    Fold(Word2, Items<Term>),
    /// The second term's value where the first one's isn't 0, else the third one's.
    Ite(Boxed<Term>, Boxed<Term>, Boxed<Term>),
}

fn truth(b: bool) -> i128
    ensures { result ≡ truth_of b }
{
    if b { 1 } else { 0 }
}

/// The value of an operation on one number, if it fits.
fn value1(word: Word1, x: i128) -> Option<i128>
    ensures { result ≡ value1_of word x }
{
    match word {
        Word1::Not => Some(truth(x == 0)),
        Word1::Neg => x.checked_neg(),
    }
}

/// The value of an operation on two numbers, if it fits.
fn value2(word: Word2, x: i128, y: i128) -> Option<i128>
    ensures { result ≡ value2_of word x y }
{
    match word {
        Word2::And => Some(truth(x != 0 && y != 0)),
        Word2::Or => Some(truth(x != 0 || y != 0)),
        Word2::Xor => Some(truth((x != 0) != (y != 0))),
        Word2::Plus => x.checked_add(y),
        Word2::Minus => x.checked_sub(y),
        Word2::Times => x.checked_mul(y),
        Word2::Min => Some(x.min(y)),
        Word2::Max => Some(x.max(y)),
        Word2::Eq => Some(truth(x == y)),
        Word2::Lt => Some(truth(x < y)),
    }
}

fn joined(word: Word2, x: Option<i128>, y: Option<i128>) -> Option<i128>
    ensures { result ≡ joined_of word x y }
{
    match (x, y) {
        (Some(x), Some(y)) => value2(word, x, y),
        _ => None,
    }
}

fn chosen(x: Option<i128>, y: Option<i128>, z: Option<i128>) -> Option<i128>
    ensures { result ≡ chosen_of x y z }
{
    match (x, y, z) {
        (Some(x), Some(y), Some(z)) => Some(if x != 0 { y } else { z }),
        _ => None,
    }
}

fn applied(word: Word1, x: Option<i128>) -> Option<i128>
    ensures { result ≡ and_then x (value1_of word) }
{
    match x {
        Some(x) => value1(word, x),
        None => None,
    }
}

impl Term {
    /// The value at three numbers, or none where a part of the term has no value that fits.
    #[tactic(auto, using(crate::proofs::TermLaws::term_laws))]
    pub fn eval(&self, x: i128, y: i128, z: i128) -> Option<i128>
        ensures { result ≡ term self.now x y z }
    {
        match self {
            Term::X => Some(x),
            Term::Y => Some(y),
            Term::Z => Some(z),
            Term::Num(n) => Some(*n),
            Term::One(word, t) => applied(*word, t.get().eval(x, y, z)),
            Term::Fold(word, ts) => {
                let ts = ts.as_slice();
                let Some((head, rest)) = ts.split_first() else {
                    return Some(0);
                };
                let mut acc = head.eval(x, y, z);
                for t in rest {
                    acc = joined(*word, acc, t.eval(x, y, z));
                }
                acc
            }
            Term::Ite(a, b, c) => chosen(
                a.get().eval(x, y, z),
                b.get().eval(x, y, z),
                c.get().eval(x, y, z),
            ),
        }
    }

    /// An equal tree.
    pub fn copy(&self, alloc: Global) -> Result<Term, AllocError>
        ensures { IfOk result (λ t. t ≡ self.now) }
    {
        match self {
            Term::X => Ok(Term::X),
            Term::Y => Ok(Term::Y),
            Term::Z => Ok(Term::Z),
            Term::Num(n) => Ok(Term::Num(*n)),
            Term::One(word, t) => Ok(Term::One(*word, Boxed::new(alloc, t.get().copy(alloc)?)?)),
            Term::Fold(word, ts) => {
                let mut all = Vec::new(alloc);
                for t in ts.as_slice() {
                    all.push(t.copy(alloc)?)?;
                }
                Ok(Term::Fold(*word, Items::from_vec(all)))
            }
            Term::Ite(a, b, c) => {
                let a = Boxed::new(alloc, a.get().copy(alloc)?)?;
                let b = Boxed::new(alloc, b.get().copy(alloc)?)?;
                let c = Boxed::new(alloc, c.get().copy(alloc)?)?;
                Ok(Term::Ite(a, b, c))
            }
        }
    }

    /// Whether the two trees are equal.
    pub fn same(&self, other: &Term) -> bool
        ensures { IsTrue result ↔ (self.now ≡ other.now) }
    {
        match (self, other) {
            (Term::X, Term::X) => true,
            (Term::Y, Term::Y) => true,
            (Term::Z, Term::Z) => true,
            (Term::Num(m), Term::Num(n)) => *m == *n,
            (Term::One(v, s), Term::One(w, t)) => *v == *w && s.get().same(t.get()),
            (Term::Ite(a, b, c), Term::Ite(d, e, f)) => {
                a.get().same(d.get()) && b.get().same(e.get()) && c.get().same(f.get())
            }
            (Term::Fold(v, ss), Term::Fold(w, ts)) => {
                let ss = ss.as_slice();
                let ts = ts.as_slice();
                if *v != *w || ss.len() != ts.len() {
                    return false;
                }
                for i in 0..ss.len() {
                    if !ss[i].same(&ts[i]) {
                        return false;
                    }
                }
                true
            }
            _ => false,
        }
    }

    /// How many numbers the term reads: 3 if Z stands in it, else 2 if Y does, else 1.
    #[tactic(auto, using(crate::proofs::TermLaws::arity_laws))]
    pub fn arity(&self) -> u8
        ensures { result ≡ arity_of self.now }
    {
        match self {
            Term::X | Term::Num(_) => 1,
            Term::Y => 2,
            Term::Z => 3,
            Term::One(_, t) => t.get().arity(),
            Term::Fold(_, ts) => {
                let mut most = 1;
                for t in ts.as_slice() {
                    most = most.max(t.arity());
                }
                most
            }
            Term::Ite(a, b, c) => a.get().arity().max(b.get().arity()).max(c.get().arity()),
        }
    }
}
