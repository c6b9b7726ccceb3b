//! What no clause says: that the calls succeed, on a script worked by hand.
ghost use Rattle.std.specs.Prelude.{◌≡◌, true, ◌∷◌, [], IfOk};
ghost use Rattle.std.specs.List.{All};
ghost use Rattle.sat_terms.specs.Literals.{IsLiteral};
ghost use Rattle.sat_terms.specs.Cubes.{rises_above};
ghost use Rattle.region_book.specs.Examples.{script_subject, script_book, split_saved};
ghost use Rattle.region_book.specs.Examples.{first_outcome, second_outcome};

use crate::{Book, Progress, Reported, Taken};
use checkpoint::{Saved, SavedView};
use prefix_jobs::{Number, Outcome};
use sat_terms::{Clause, Cube, CubeList, Formula, Items, Subject};
use std::alloc::{AllocError, Global};
use std::process::Abort;
use std::test::Fail;

/// The number of the one prefix at the beginning, and that of what is left over.
const ALL: Number = Number { place: 0, index: 0 };

const LEFT: Number = Number { place: 2, index: 0 };

/// The clauses `1 2` and `-1 -2`, of which both variables are shown.
fn subject(alloc: Global) -> Result<Subject, AllocError>
    ensures { IfOk result (λ subject. subject ≡ script_subject) }
{
    let one = Clause::from_lits(alloc, &[1, 2])?;
    let other = Clause::from_lits(alloc, &[-1, -2])?;
    Ok(Subject {
        formula: Formula {
            variables: 2,
            clauses: Items::from_vec(vec![in alloc; one, other]?),
        },
        shown: Items::from_vec(vec![in alloc; 1, 2]?),
        under: Cube::from_vec(Vec::new(alloc)),
    })
}

fn cube(alloc: Global, lits: &[i32]) -> Result<Cube, AllocError>
    requires rising { rises_above 0 lits.now ≡ true }
    requires literals { All IsLiteral lits.now }
    ensures { IfOk result (λ cube. cube ≡ lits.now) }
{
    Ok(Cube::from_vec(lits.to_vec(alloc)?))
}

fn one_cube(alloc: Global, lits: &[i32]) -> Result<Items<Cube>, AllocError>
    requires rising { rises_above 0 lits.now ≡ true }
    requires literals { All IsLiteral lits.now }
    ensures { IfOk result (λ cubes. cubes ≡ lits.now ∷ []) }
{
    let cube = cube(alloc, lits)?;
    Ok(Items::from_vec(vec![in alloc; cube]?))
}

/// The search of everything found `-1 2`, and leaves `1` to others.
fn first_outcome(alloc: Global) -> Result<Outcome, AllocError>
    ensures { IfOk result (λ outcome. outcome ≡ first_outcome) }
{
    Ok(Outcome {
        cubes: one_cube(alloc, &[-1, 2])?,
        rest: one_cube(alloc, &[1])?,
        kept: None,
        leaves: 1,
    })
}

/// The search of `1` found `1 -2`, and leaves nothing.
fn second_outcome(alloc: Global) -> Result<Outcome, AllocError>
    ensures { IfOk result (λ outcome. outcome ≡ second_outcome) }
{
    Ok(Outcome {
        cubes: one_cube(alloc, &[1, -2])?,
        rest: Items::from_vec(Vec::new(alloc)),
        kept: None,
        leaves: 1,
    })
}

/// A book for two passes.
fn new_book(alloc: Global) -> Result<Book, AllocError>
    ensures { IfOk result (λ book. book ≡ script_book 0) }
{
    Book::make(alloc, subject(alloc)?, None, 2)
}

/// The pass takes the prefix, which is this one.
fn take_all(rt: &impl Abort, book: &mut Book) -> Result<(), AllocError>
    requires { book.old ≡ script_book 0 }
    ensures { IfOk result (λ _. book.new ≡ script_book 1) }
{
    let taken = book.take(0, ALL)?;
    let Taken::Held(prefix) = taken else {
        panic!(rt; "gone")
    };
    assert!(rt; prefix.lits().is_empty());
    Ok(())
}

/// It reports the search of it.
fn report_all(book: &mut Book, outcome: Outcome) -> Result<Reported, AllocError>
    requires book { book.old ≡ script_book 1 }
    requires outcome { outcome ≡ first_outcome }
    ensures { IfOk result (λ _. book.new ≡ script_book 2) }
{
    match book.report(0, ALL, outcome) {
        Ok(reported) => Ok(reported),
        Err((_, error)) => Err(error),
    }
}

/// The other pass takes what is left, gives it back, and takes it again.
fn take_left(rt: &impl Abort, book: &mut Book) -> Result<(), AllocError>
    requires { book.old ≡ script_book 2 }
    ensures { IfOk result (λ _. book.new ≡ script_book 5) }
{
    let taken = book.take_any(1)?;
    let Some((number, prefix)) = taken else {
        panic!(rt; "nothing is left")
    };
    assert_eq!(rt; number, LEFT);
    assert_eq!(rt; prefix.lits(), [1].as_slice());
    book.release(1, LEFT);
    let taken = book.take(1, LEFT)?;
    let Taken::Held(prefix) = taken else {
        panic!(rt; "gone")
    };
    assert_eq!(rt; prefix.lits(), [1].as_slice());
    Ok(())
}

/// It reports the search of that.
fn report_left(book: &mut Book, outcome: Outcome) -> Result<Reported, AllocError>
    requires book { book.old ≡ script_book 5 }
    requires outcome { outcome ≡ second_outcome }
    ensures { IfOk result (λ _. book.new ≡ script_book 6) }
{
    match book.report(1, LEFT, outcome) {
        Ok(reported) => Ok(reported),
        Err((_, error)) => Err(error),
    }
}

/// What is left to be done, as a digit and a number.
fn told(progress: Progress) -> (u8, Number) {
    match progress {
        Progress::Finished => (0, ALL),
        Progress::HeldByOthers(number) => (1, number),
        Progress::Unheld(number) => (2, number),
    }
}

/// What the pass 1 gets of a book of which the pass 0 holds all: nothing.
fn finds_nothing(rt: &impl Abort, book: &mut Book) -> Result<(), AllocError>
    requires { book.old ≡ script_book 1 }
    ensures { IfOk result (λ _. book.new ≡ script_book 1) }
{
    assert!(rt; matches!(book.take_any(1)?, None));
    assert!(rt; matches!(book.take(1, ALL)?, Taken::Gone));
    Ok(())
}

#[test]
fn two_passes_search_in_turns(rt: HostRuntime) -> Result<(), Fail> {
    let alloc = rt.alloc();
    let mut book = new_book(alloc)?;
    assert_eq!(rt; told(book.state()), (2, ALL));
    take_all(&rt, &mut book)?;
    assert_eq!(rt; told(book.state()), (1, ALL));
    let reported = report_all(&mut book, first_outcome(alloc)?)?;
    assert_eq!(rt; reported.place, 2);
    assert!(rt; reported.kept.is_none());
    assert_eq!(rt; reported.spent, 1);
    take_left(&rt, &mut book)?;
    let reported = report_left(&mut book, second_outcome(alloc)?)?;
    assert_eq!(rt; reported.place, 6);
    assert_eq!(rt; reported.spent, 2);
    assert_eq!(rt; told(book.state()), (0, ALL));
    let arranged = book.arrange();
    assert_eq!(rt; arranged.count(), 2);
    assert_eq!(rt; arranged.at(0), [-1, 2].as_slice());
    assert_eq!(rt; arranged.at(1), [1, -2].as_slice());
    Ok(())
}

#[test]
fn a_held_prefix_is_gone_for_others(rt: HostRuntime) -> Result<(), Fail> {
    let mut book = new_book(rt.alloc())?;
    take_all(&rt, &mut book)?;
    finds_nothing(&rt, &mut book)?;
    assert_eq!(rt; book.journal().len(), 1);
    assert_eq!(rt; book.spent(), 0);
    Ok(())
}

/// Three prefixes that were saved, not in order.
fn saved_prefixes(alloc: Global) -> Result<Saved, AllocError>
    ensures { IfOk result (λ saved. saved ≡ split_saved) }
{
    let pending = vec![in alloc;
        cube(alloc, &[1, 2])?,
        cube(alloc, &[1, -2])?,
        cube(alloc, &[-1])?,
    ]?;
    Ok(Saved {
        cubes: Items::from_vec(Vec::new(alloc)),
        pending: Items::from_vec(pending),
    })
}

#[test]
fn saved_prefixes_are_pending_and_come_in_order(rt: HostRuntime) -> Result<(), Fail> {
    let alloc = rt.alloc();
    let book = Book::make(alloc, subject(alloc)?, Some(saved_prefixes(alloc)?), 1)?;
    assert_eq!(rt; told(book.state()), (2, ALL));
    let mut arranged = book.arrange();
    assert_eq!(rt; arranged.count(), 0);
    assert_eq!(rt; arranged.pending_count(), 3);
    assert_eq!(rt; arranged.pending_at(0), [-1].as_slice());
    assert_eq!(rt; arranged.pending_at(1), [1, -2].as_slice());
    assert_eq!(rt; arranged.pending_at(2), [1, 2].as_slice());
    Ok(())
}
