//! The function of a kept expression, by look-ups alone.

ghost use Rattle.std.specs.Prelude.{[], ◌∷◌, IfSome};
ghost use Rattle.cf_reference.specs.declared.grammar.Head.TheVariants.{Const, Fold, Ite};
ghost use Rattle.cf_reference.specs.Trees.{Num, At, Named, Call, Number, none, atom};
ghost use Rattle.cf_script.specs.Views.{tree_of, listed};
ghost use Rattle.cf_session.specs.Keeping.{IsKept};

use crate::session::Session;
use crate::walk::is_below;
use cf_ops::Word2;
use cf_pkg::Func;
use cf_script::Expr;

impl Session {
    /// The function of an expression each job of which is finished, where the look-ups find it. None
    /// says nothing. Calls over variables and of matrices aren't looked up.
    #[inline(always)]
    #[cycle(recall)]
    pub(crate) fn recall(&self, expr: &Expr<'_>) -> Option<Func>
        ensures { IfSome result (IsKept self.now (tree_of expr.now)) }
    {
        match expr {
            Expr::At(position) => self.recall_bit(*position),
            _ => self.recall_any(expr),
        }
    }

    /// The same. Positions, of which there are most, are looked up where an expression is met.
    #[cycle(recall)]
    fn recall_any(&self, expr: &Expr<'_>) -> Option<Func>
        ensures { IfSome result (IsKept self.now (tree_of expr.now)) }
    {
        match expr {
            Expr::Num(n) => self.recall_number(*n),
            Expr::At(position) => self.recall_bit(*position),
            Expr::Named(name) => self.recall_named(name),
            Expr::Const(level, n) => self.recall_constant(*level, *n),
            Expr::One(word, e) => {
                let f = self.recall(e)?;
                self.pkg.known_map(*word, f)
            }
            Expr::Fold(word, es) => self.recall_fold(*word, es.items()),
            Expr::Ite(es) => self.recall_choice(es.items()),
            Expr::Restrict(..) | Expr::Exists(..) | Expr::Forall(..) => None,
            Expr::SumOut(..) | Expr::Compose(..) | Expr::AndExists(..) => None,
            Expr::Kron(..) | Expr::Matmul(..) | Expr::Transpose(_) => None,
            Expr::Id(_) | Expr::Walsh(_) | Expr::Unit(..) => None,
        }
    }

    /// The function of a number.
    #[inline(always)]
    fn recall_number(&self, n: i128) -> Option<Func>
        ensures { IfSome result (IsKept self.now (Num n)) }
    {
        let level = self.level_of_variables();
        self.pkg.known_const(level, n)
    }

    /// The function of the bit at a position.
    #[inline(always)]
    fn recall_bit(&self, position: i128) -> Option<Func>
        ensures { IfSome result (IsKept self.now (At position)) }
    {
        if !is_below(position, 128) {
            return None;
        }
        let level = self.level_of_variables();
        self.pkg.known_var(level, position.unsigned_abs() as u8)
    }

    /// The function that a name stands for.
    #[inline(always)]
    fn recall_named(&self, name: &[u8]) -> Option<Func>
        ensures { IfSome result (IsKept self.now (Named name.now)) }
    {
        self.func_of(name)
    }

    /// The function of a number at a level of its own.
    #[inline(always)]
    fn recall_constant(&self, level: i128, n: i128) -> Option<Func>
        ensures { IfSome result (IsKept self.now
            (Call Const (atom (Number level) (atom (Number n) none)))) }
    {
        if !is_below(level, 8) {
            return None;
        }
        self.pkg.known_const(level.unsigned_abs() as u8, n)
    }

    /// The function of nested calls: the first two expressions' call, and then its call with each of
    /// the others.
    #[cycle(recall)]
    fn recall_fold(&self, word: Word2, es: &[Expr<'_>]) -> Option<Func>
        ensures { IfSome result (IsKept self.now (Call (Fold word) (listed es.now))) }
    {
        let (first, later) = es.split_first()?;
        let mut f = self.recall(first)?;
        for e in later {
            let g = self.recall(e)?;
            f = self.pkg.known_apply(word, f, g)?;
        }
        Some(f)
    }

    /// The function of a choice.
    #[cycle(recall)]
    fn recall_choice(&self, es: &[Expr<'_>]) -> Option<Func>
        ensures { IfSome result (IsKept self.now (Call Ite (listed es.now))) }
    {
        match es {
            [a, b, c] => {
                let f = self.recall(a)?;
                let g = self.recall(b)?;
                let h = self.recall(c)?;
                self.pkg.known_choice(f, g, h)
            }
            _ => None,
        }
    }
}
