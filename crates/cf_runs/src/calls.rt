//! Calls that no run makes, with ample memory.

use cf_names::{Name, Names};
use cf_ops::{Term, Word2};
use cf_pkg::{Job, OpFault, Pkg, Recipe};
use cf_table::laws::base_groupings;
use cf_table::{DONT_CARE, Gid, Table};
use cf_tuple::{Tid, TupleBook, compose, distinct_of, rgs_of};
use cf_values::ValueBook;
use sqlite_items::Items;
use std::alloc::Global;
use std::test::Fail;

#[test]
fn a_term_is_copied(rt: HostRuntime) -> Result<(), Fail> {
    let alloc = rt.alloc();
    let sum = vec![in alloc; Term::X, Term::Y]?;
    let term = Term::Fold(Word2::Plus, Items::from_vec(sum));
    assert!(rt; term.copy(alloc)?.same(&term));
    Ok(())
}

#[test]
fn names_are_listed(rt: HostRuntime) -> Result<(), Fail> {
    let alloc = rt.alloc();
    let mut names = Names::new(alloc);
    names.push(Name::new(alloc, b"one")?)?;
    let [one] = names.items() else {
        panic!(rt; "one name");
    };
    assert_eq!(rt; one.bytes(), b"one".as_slice());
    Ok(())
}

#[test]
fn lists_are_renumbered_and_composed(rt: HostRuntime) -> Result<(), Fail> {
    let alloc = rt.alloc();
    let list = [7, 5, 7, 9, 5];
    assert_eq!(rt; distinct_of(alloc, &list)?.as_slice(), [7, 5, 9].as_slice());
    assert_eq!(rt;
        rgs_of(alloc, &list)?.as_slice(),
        [0, 1, 0, 2, 1].as_slice()
    );
    assert_eq!(rt;
        compose(alloc, &[8, 6, 4], &[2, 0, 0])?.as_slice(),
        [4, 8, 8].as_slice()
    );
    Ok(())
}

#[test]
fn many_lists_keep_their_ids(rt: HostRuntime) -> Result<(), Fail> {
    let mut book = TupleBook::new(rt.alloc());
    for entry in 0..400_000 {
        assert_eq!(rt; book.intern(&[entry])?, Tid { at: entry });
    }
    for entry in 0..400_000 {
        let id = book.intern(&[entry])?;
        assert_eq!(rt; id, Tid { at: entry });
        assert!(rt; book.owns(id));
        assert_eq!(rt; book.get(id), [entry].as_slice());
    }
    Ok(())
}

/// Makes the constants of level 0.
struct BaseConstants;

impl Recipe for BaseConstants {
    ghost use Rattle.cf_pkg.specs.declared.jobs.Job.{Job};
    ghost use Rattle.cf_runs.specs.Recipes.{IsBaseConstant};

    ghost does = { λ recipe job. IsBaseConstant job };

    fn handles(&self, job: &Job) -> bool {
        matches!(job, Job::Const { level: 0, v: _ })
    }

    fn cook(
        &self,
        alloc: Global,
        table: &mut Table,
        _values: &ValueBook,
        job: &Job,
    ) -> Result<(Gid, Vec<i128>), OpFault> {
        let Job::Const { level: _, v } = job else {
            unreachable!();
        };
        table.law();
        base_groupings(table);
        let values = Vec::from_slice(alloc, &[*v])?;
        Ok((DONT_CARE, values))
    }
}

#[test]
fn a_recipe_makes_a_constant(rt: HostRuntime) -> Result<(), Fail> {
    let mut pkg = Pkg::new(rt.alloc())?;
    let three = pkg.constant(0, 3)?;
    let made = pkg.make(&BaseConstants, Job::Const { level: 0, v: 3 })?;
    assert_eq!(rt; made, three);
    Ok(())
}
