//! Expressions and statements as trees that borrow the line that they were read from.

ghost use Rattle.std.specs.Prelude.{◌≡◌, [], ◌∷◌, ◌++◌, IfOk, OnOk, OnErr, map};

use cf_ops::{NoMemory, Word1, Word2};
use std::alloc::Global;
use std::marker::Model;

/// An expression. Its names are slices of the line.
#[derive(Drop)]
#[cycle(expr)]
pub enum Expr<'a> {
    /// A number.
    Num(i128),
    /// The bit at a position.
    At(i128),
    /// A variable or a function.
    Named(&'a [u8]),
    /// `const(J, V)`: the number V at the level J.
    Const(i128, i128),
    /// An operation on one expression.
    One(Word1, Box<Expr<'a>>),
    /// An operation folded from the left over the expressions.
    Fold(Word2, Exprs<'a>),
    /// The second of three expressions where the first one isn't 0, else the third one.
    Ite(Exprs<'a>),
    /// The expression with the variable's bit replaced by a bit.
    Restrict(Box<Expr<'a>>, Var<'a>, bool),
    /// Whether some setting of the variables' bits makes the expression nonzero.
    Exists(Box<Expr<'a>>, Vars<'a>),
    /// Whether every setting of the variables' bits makes the expression nonzero.
    Forall(Box<Expr<'a>>, Vars<'a>),
    /// One variable after another, the sum of the expression's values for both settings of its bit.
    SumOut(Box<Expr<'a>>, Vars<'a>),
    /// The first expression with the variable's bit replaced by whether the last one is nonzero.
    Compose(Box<Expr<'a>>, Var<'a>, Box<Expr<'a>>),
    /// Whether some setting of the variables' bits makes both expressions nonzero.
    AndExists(Box<Expr<'a>>, Box<Expr<'a>>, Vars<'a>),
    /// The Kronecker product of two matrices.
    Kron(Box<Expr<'a>>, Box<Expr<'a>>),
    /// The product of two matrices.
    Matmul(Box<Expr<'a>>, Box<Expr<'a>>),
    /// The matrix with its rows and columns exchanged.
    Transpose(Box<Expr<'a>>),
    /// `id(J)`: the identity matrix of the level J.
    Id(i128),
    /// `walsh(J)`: the Walsh matrix of the level J.
    Walsh(i128),
    /// `unit(J, R, C)`: the matrix of the level J that is 1 in row R and column C, and 0 elsewhere.
    Unit(i128, i128, i128),
}

/// A variable.
#[derive(Clone, Copy, Drop)]
pub enum Var<'a> {
    /// By its position.
    At(i128),
    /// By its name, a slice of the line.
    Named(&'a [u8]),
}

/// A list of variables.
#[derive(Drop)]
pub struct Vars<'a> {
    items: Vec<Var<'a>>,
}

impl<'a> Model for Vars<'a> {
    ghost use Rattle.std.specs.Prelude.{List};
    ghost use Rattle.cf_script.specs.declared.trees.Var.{Var};

    ghost Value = { List Var };

    ghost view = { λ vars. vars.items.items };
}

impl<'a> Vars<'a> {
    /// The empty list.
    pub fn new(alloc: Global) -> Vars<'a>
        ensures { result ≡ [] }
    {
        Vars {
            items: Vec::new(alloc),
        }
    }

    /// Appends a variable. Without memory the list is as before.
    pub fn push(&mut self, item: Var<'a>) -> Result<(), NoMemory>
        ensures ok { OnOk result (self.new ≡ self.old ++ item.entry ∷ []) }
        ensures err { OnErr result (self.new ≡ self.old) }
    {
        self.items.push(item)?;
        Ok(())
    }

    /// The variables in their order.
    pub fn items(&self) -> &[Var<'a>]
        ensures { result.now ≡ self.now }
    {
        self.items.as_slice()
    }
}

/// A list of expressions.
#[derive(Drop)]
#[cycle(expr)]
pub struct Exprs<'a> {
    items: Vec<Expr<'a>>,
}

impl<'a> Exprs<'a> {
    /// The empty list.
    pub fn new(alloc: Global) -> Exprs<'a>
        ensures { result.items.items ≡ [] }
    {
        Exprs {
            items: Vec::new(alloc),
        }
    }

    /// The empty list, with room for some expressions.
    pub fn with_capacity(alloc: Global, capacity: usize) -> Result<Exprs<'a>, NoMemory>
        ensures { IfOk result (λ es. es.items.items ≡ []) }
    {
        Ok(Exprs {
            items: Vec::with_capacity(alloc, capacity)?,
        })
    }

    /// Appends an expression. Without memory the list is as before.
    pub fn push(&mut self, item: Expr<'a>) -> Result<(), NoMemory>
        ensures ok { OnOk result (self.new.items.items ≡ self.old.items.items ++ item.entry ∷ []) }
        ensures err { OnErr result (self.new.items.items ≡ self.old.items.items) }
    {
        self.items.push(item)?;
        Ok(())
    }

    /// The expressions in their order.
    pub fn items(&self) -> &[Expr<'a>]
        ensures { result.now ≡ self.now.items.items }
    {
        self.items.as_slice()
    }
}

/// A list of names, which are slices of the line.
#[derive(Drop)]
pub struct NameSlices<'a> {
    items: Vec<&'a [u8]>,
}

impl<'a> Model for NameSlices<'a> {
    ghost use Rattle.std.specs.Prelude.{ℕ, List, map};

    ghost Value = { List (List ℕ) };

    ghost view = { λ n. map (λ name. name.now) n.items.items };
}

impl<'a> NameSlices<'a> {
    /// The empty list.
    pub fn new(alloc: Global) -> NameSlices<'a>
        ensures { result ≡ [] }
    {
        NameSlices {
            items: Vec::new(alloc),
        }
    }

    /// Appends a name. Without memory the list is as before.
    pub fn push(&mut self, item: &'a [u8]) -> Result<(), NoMemory>
        ensures ok { OnOk result (self.new ≡ self.old ++ item.now ∷ []) }
        ensures err { OnErr result (self.new ≡ self.old) }
    {
        self.items.push(item)?;
        Ok(())
    }

    /// The names in their order.
    pub fn items(&self) -> &[&'a [u8]]
        ensures { map (λ name. name.now) result.now ≡ self.now }
    {
        self.items.as_slice()
    }
}

/// A statement. Its names and bits are slices of the line.
#[derive(Drop)]
pub enum Statement<'a> {
    /// A line of blanks and a comment.
    Empty,
    /// `level K`
    Level(i128),
    /// `var NAME ..`
    Vars(NameSlices<'a>),
    /// `let NAME = EXPR`
    Let(&'a [u8], Expr<'a>),
    /// `load PREFIX FILE`
    Load(&'a [u8], &'a [u8]),
    /// `value NAME BITS`
    Value(&'a [u8], &'a [u8]),
    /// `first NAME NUMBER`
    First(&'a [u8], i128),
    /// `list NAME NUMBER MAX`
    List(&'a [u8], i128, i128),
    /// `entry NAME ROW COL`
    Entry(&'a [u8], i128, i128),
    /// `equal NAME NAME`
    Equal(&'a [u8], &'a [u8]),
    /// `size NAME`
    Size(&'a [u8]),
    /// `stats`
    Stats,
}
