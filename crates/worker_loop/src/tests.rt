//! What no clause says: that a sweep gets somewhere, on a worked example.
ghost use Rattle.std.specs.Prelude.{◌≡◌, IfOk};
ghost use Rattle.region_book.specs.Examples.{script_subject, script_book};
ghost use Rattle.live_engine.specs.Engines.{EngineView};
ghost use Rattle.worker_loop.specs.Sweeps.{IsBetweenJobs};

use crate::{Swept, sweep};
use live_engine::Engine;
use region_book::Book;
use sat_terms::{Clause, Cube, CubeList, Formula, Items, Subject};
use std::alloc::{AllocError, Global};
use std::process::Abort;
use std::test::Fail;

/// The clauses `1 2` and `-1 -2`, of which both variables are shown. Its models are `-1 2` and
/// `1 -2`, found in this order, each by one leaf.
fn subject(alloc: Global) -> Result<Subject, AllocError>
    ensures { IfOk result (λ subject. subject ≡ script_subject) }
{
    let one = Clause::from_lits(alloc, &[1, 2])?;
    let other = Clause::from_lits(alloc, &[-1, -2])?;
    Ok(Subject {
        formula: Formula {
            variables: 2,
            clauses: Items::from_vec(vec![in alloc; one, other]?),
        },
        shown: Items::from_vec(vec![in alloc; 1, 2]?),
        under: Cube::from_vec(Vec::new(alloc)),
    })
}

/// A book, and an engine of its subject.
#[derive(Drop)]
struct Work {
    book: Book,
    engine: Engine,
}

/// A new book of the subject, and an engine.
fn new_work(alloc: Global) -> Result<Work, AllocError>
    ensures { IfOk result (λ work. IsBetweenJobs work.book work.engine) }
{
    region_book::laws::script_is_legal();
    crate::laws::new_books_hold_nothing();
    let subject = subject(alloc)?;
    let engine = Engine::make(alloc, &subject)?;
    let book = Book::make(alloc, subject, None, 2)?;
    Ok(Work { book, engine })
}

/// Sweeps with this allowance. It ends so, and so many leaves are spent then.
fn sweep_to(
    rt: &impl Abort,
    work: &mut Work,
    allowance: Option<u64>,
    swept: Swept,
    spent: u64,
) -> Result<(), AllocError>
    requires { IsBetweenJobs work.old.book work.old.engine }
    ensures { IsBetweenJobs work.new.book work.new.engine }
{
    let ended = sweep(&mut work.book, &mut work.engine, allowance)?;
    assert_eq!(rt; ended, swept);
    assert_eq!(rt; work.book.spent(), spent);
    Ok(())
}

#[test]
fn a_sweep_without_an_allowance_finds_each_model(rt: HostRuntime) -> Result<(), Fail> {
    let mut work = new_work(rt.alloc())?;
    sweep_to(&rt, &mut work, None, Swept::Finished, 2)?;
    let arranged = work.book.arrange();
    assert_eq!(rt; arranged.count(), 2);
    assert_eq!(rt; arranged.at(0), [-1, 2].as_slice());
    assert_eq!(rt; arranged.at(1), [1, -2].as_slice());
    Ok(())
}

#[test]
fn a_sweep_stops_at_its_allowance_and_another_goes_on(rt: HostRuntime) -> Result<(), Fail> {
    let mut work = new_work(rt.alloc())?;
    sweep_to(&rt, &mut work, Some(1), Swept::BudgetSpent, 1)?;
    sweep_to(&rt, &mut work, Some(1), Swept::BudgetSpent, 1)?;
    sweep_to(&rt, &mut work, Some(2), Swept::Finished, 2)?;
    sweep_to(&rt, &mut work, Some(1), Swept::Finished, 2)?;
    Ok(())
}

#[test]
fn without_an_allowance_of_one_leaf_nothing_is_taken(rt: HostRuntime) -> Result<(), Fail> {
    let mut work = new_work(rt.alloc())?;
    sweep_to(&rt, &mut work, Some(0), Swept::BudgetSpent, 0)?;
    assert_eq!(rt; work.book.journal().len(), 0);
    Ok(())
}
