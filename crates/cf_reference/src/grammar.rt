//! What the words of a script's lines stand for.

use cf_model::terms::{Word1, Word2};

/// What the first word of a line says.
#[derive(Clone, Copy, PartialEq, Eq, Debug)]
pub enum Keyword {
    /// `level K`
    Level,
    /// `var NAME ..`
    Var,
    /// `let NAME = EXPR`
    Let,
    /// `load PREFIX FILE`
    Load,
    /// `value NAME BITS`
    Value,
    /// `first NAME NUMBER`
    First,
    /// `list NAME NUMBER MAX`
    List,
    /// `entry NAME ROW COL`
    Entry,
    /// `equal NAME NAME`
    Equal,
    /// `size NAME`
    Size,
    /// `stats`
    Stats,
}

/// What a word before `(` calls.
#[derive(Clone, Copy, PartialEq, Eq, Debug)]
pub enum Head {
    /// `const(J, V)`
    Const,
    /// An operation on one expression.
    One(Word1),
    /// An operation folded over two expressions or more.
    Fold(Word2),
    /// `ite(E, E, E)`
    Ite,
    /// `restrict(E, VAR, BIT)`
    Restrict,
    /// `exists(E, VAR, ..)`
    Exists,
    /// `forall(E, VAR, ..)`
    Forall,
    /// `sumout(E, VAR, ..)`
    SumOut,
    /// `compose(E, VAR, E)`
    Compose,
    /// `andexists(E, E, VAR, ..)`
    AndExists,
    /// `kron(E, E)`
    Kron,
    /// `matmul(E, E)`
    Matmul,
    /// `transpose(E)`
    Transpose,
    /// `id(J)`
    Id,
    /// `walsh(J)`
    Walsh,
    /// `unit(J, R, C)`
    Unit,
}

/// What an argument of a call is.
#[derive(Clone, Copy, PartialEq, Eq, Debug)]
pub enum Kind {
    Expression,
    /// `@` and a position, or a name.
    Variable,
    Natural,
    Number,
    /// `0` or `1`.
    Bit,
}
