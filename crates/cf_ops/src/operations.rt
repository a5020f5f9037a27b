//! Operations: a term, and a closure that does its work.

ghost use Rattle.std.specs.Prelude.{◌≡◌, ◌≤◌, pos};
ghost use Rattle.cf_model.specs.Terms.{arity, term};
ghost use Rattle.cf_ops.specs.Operations.{Answers1, Answers2, Answers3};

use cf_model::terms::Term;

/// An operation on one number.
#[derive(Drop)]
pub struct Op1<F> {
    pub tree: Term,
    pub call: F,
}

impl<F: Fn(i128) -> Option<i128>> Op1<F> {
    /// The operation of the tree, which the closure answers.
    pub fn new(tree: Term, call: F) -> Op1<F>
        requires answers { Answers1 (F.pre call) (F.post call) tree }
        requires arity { arity tree ≤ 1 }
        ensures tree { result.tree ≡ tree }
        ensures answers { Answers1 (F.pre result.call) (F.post result.call) tree }
    {
        Op1 { tree, call }
    }

    /// The tree.
    pub fn tree(&self) -> &Term
        ensures { result.now ≡ self.now.tree }
    {
        &self.tree
    }

    /// The tree's value at a number, as the closure answers it; None where there is none.
    pub fn call(&self, x: i128) -> Option<i128>
        requires answers { Answers1 (F.pre self.now.call) (F.post self.now.call) self.now.tree }
        ensures { result ≡ term self.now.tree x (pos 0) (pos 0) }
    {
        (self.call)(x)
    }
}

/// An operation on two numbers.
#[derive(Drop)]
pub struct Op2<F> {
    pub tree: Term,
    pub call: F,
}

impl<F: Fn(i128, i128) -> Option<i128>> Op2<F> {
    /// The operation of the tree, which the closure answers.
    pub fn new(tree: Term, call: F) -> Op2<F>
        requires answers { Answers2 (F.pre call) (F.post call) tree }
        requires arity { arity tree ≤ 2 }
        ensures tree { result.tree ≡ tree }
        ensures answers { Answers2 (F.pre result.call) (F.post result.call) tree }
    {
        Op2 { tree, call }
    }

    /// The tree.
    pub fn tree(&self) -> &Term
        ensures { result.now ≡ self.now.tree }
    {
        &self.tree
    }

    /// The tree's value at two numbers, as the closure answers it; None where there is none.
    pub fn call(&self, x: i128, y: i128) -> Option<i128>
        requires answers { Answers2 (F.pre self.now.call) (F.post self.now.call) self.now.tree }
        ensures { result ≡ term self.now.tree x y (pos 0) }
    {
        (self.call)(x, y)
    }
}

/// An operation on three numbers.
#[derive(Drop)]
pub struct Op3<F> {
    pub tree: Term,
    pub call: F,
}

impl<F: Fn(i128, i128, i128) -> Option<i128>> Op3<F> {
    /// The operation of the tree, which the closure answers.
    pub fn new(tree: Term, call: F) -> Op3<F>
        requires answers { Answers3 (F.pre call) (F.post call) tree }
        requires arity { arity tree ≤ 3 }
        ensures tree { result.tree ≡ tree }
        ensures answers { Answers3 (F.pre result.call) (F.post result.call) tree }
    {
        Op3 { tree, call }
    }

    /// The tree.
    pub fn tree(&self) -> &Term
        ensures { result.now ≡ self.now.tree }
    {
        &self.tree
    }

    /// The tree's value at three numbers, as the closure answers it; None where there is none.
    pub fn call(&self, x: i128, y: i128, z: i128) -> Option<i128>
        requires answers { Answers3 (F.pre self.now.call) (F.post self.now.call) self.now.tree }
        ensures { result ≡ term self.now.tree x y z }
    {
        (self.call)(x, y, z)
    }
}
