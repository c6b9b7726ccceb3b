//! What no clause says: that the calls get somewhere, on the script of two passes worked by hand.
ghost use Rattle.std.specs.Prelude.{◌≡◌, ◌+◌, ◌<◌, [], ◌∷◌, Some, IfOk, length, true};
ghost use Rattle.std.specs.List.{All};
ghost use Rattle.sat_terms.specs.Literals.{IsLiteral};
ghost use Rattle.sat_terms.specs.Cubes.{rises_above};
ghost use Rattle.region_book.specs.Examples.{script_subject, script_book, script_number, first_outcome, second_outcome, left_over};
ghost use Rattle.region_ledger.specs.Hands.{subject_of, held, IsHandOf, IsFreeHand, holding};

use crate::{Ledger, Pass};
use prefix_jobs::{Number, Outcome};
use region_book::{Book, Event, Progress, Reported, Taken};
use sat_terms::{Clause, Cube, CubeList, Formula, Items, Subject};
use std::alloc::{AllocError, Global};
use std::process::Abort;
use std::sync::Wait;
use std::test::Fail;

/// The number of the one prefix at the beginning, and that of what is left over.
const ALL: Number = Number { place: 0, index: 0 };

const LEFT: Number = Number { place: 2, index: 0 };

/// The clauses `1 2` and `-1 -2`, of which both variables are shown.
fn subject(alloc: Global) -> Result<Subject, AllocError>
    ensures { IfOk result (λ subject. subject ≡ script_subject) }
{
    let one = Clause::from_lits(alloc, &[1, 2])?;
    let other = Clause::from_lits(alloc, &[-1, -2])?;
    Ok(Subject {
        formula: Formula {
            variables: 2,
            clauses: Items::from_vec(vec![in alloc; one, other]?),
        },
        shown: Items::from_vec(vec![in alloc; 1, 2]?),
        under: Cube::from_vec(Vec::new(alloc)),
    })
}

fn one_cube(alloc: Global, lits: &[i32]) -> Result<Items<Cube>, AllocError>
    requires rising { rises_above 0 lits.now ≡ true }
    requires literals { All IsLiteral lits.now }
    ensures { IfOk result (λ cubes. cubes ≡ lits.now ∷ []) }
{
    let cube = Cube::from_vec(lits.to_vec(alloc)?);
    Ok(Items::from_vec(vec![in alloc; cube]?))
}

/// The search of everything found `-1 2`, and leaves `1` to others.
fn first_outcome(alloc: Global) -> Result<Outcome, AllocError>
    ensures { IfOk result (λ outcome. outcome ≡ first_outcome) }
{
    Ok(Outcome {
        cubes: one_cube(alloc, &[-1, 2])?,
        rest: one_cube(alloc, &[1])?,
        kept: None,
        leaves: 1,
    })
}

/// The search of `1` found `1 -2`, and leaves nothing.
fn second_outcome(alloc: Global) -> Result<Outcome, AllocError>
    ensures { IfOk result (λ outcome. outcome ≡ second_outcome) }
{
    Ok(Outcome {
        cubes: one_cube(alloc, &[1, -2])?,
        rest: Items::from_vec(Vec::new(alloc)),
        kept: None,
        leaves: 1,
    })
}

/// A book for two passes.
fn new_book(alloc: Global) -> Result<Book, AllocError>
    ensures { IfOk result (λ book. book ≡ script_book 0) }
{
    region_book::laws::script_is_legal();
    Book::make(alloc, subject(alloc)?, None, 2)
}

/// A ledger, and its two passes.
fn new_ledger(alloc: Global) -> Result<(Ledger, Pass, Pass), AllocError>
    ensures subject { IfOk result (λ made. subject_of made.0 ≡ script_subject) }
    ensures size { IfOk result (λ made. made.0.passes ≡ 2) }
    ensures first { IfOk result (λ made. IsFreeHand made.0 made.1) }
    ensures second { IfOk result (λ made. IsFreeHand made.0 made.2) }
{
    match Ledger::make(alloc, new_book(alloc)?, 2) {
        Ok((ledger, passes)) => {
            let (first, second) = two_of(&ledger, passes);
            Ok((ledger, first, second))
        }
        Err((_, error)) => Err(error),
    }
}

/// The two passes of a ledger.
fn two_of(ledger: &Ledger, mut passes: Vec<Pass>) -> (Pass, Pass)
    requires free { All (IsFreeHand ledger.now) passes.items }
    requires two { length passes.items ≡ 2 }
    ensures first { IsFreeHand ledger.now result.0 }
    ensures second { IsFreeHand ledger.now result.1 }
{
    let second = last_of(ledger, &mut passes);
    let first = last_of(ledger, &mut passes);
    (first, second)
}

/// The last of some passes.
fn last_of(ledger: &Ledger, passes: &mut Vec<Pass>) -> Pass
    requires free { All (IsFreeHand ledger.now) passes.old.items }
    requires some { 0 < length passes.old.items }
    ensures last { IsFreeHand ledger.now result }
    ensures rest { All (IsFreeHand ledger.now) passes.new.items }
    ensures fewer { length passes.new.items + 1 ≡ length passes.old.items }
{
    let Some(last) = passes.pop() else {
        unreachable!()
    };
    last
}

/// The pass takes the prefix of this number.
fn take_it<R: Wait + Abort>(
    rt: &R,
    ledger: &Ledger,
    pass: &mut Pass,
    number: Number,
) -> Result<Cube, AllocError>
    requires { IsFreeHand ledger.now pass.old }
    ensures hand { IfOk result (λ _. IsHandOf ledger.now pass.new) }
    ensures holds { IfOk result (λ prefix. held ledger.now pass.new
        ≡ holding pass.new.number number (Some prefix)) }
{
    match ledger.take(rt, pass, number)? {
        Taken::Held(prefix) => Ok(prefix),
        Taken::Gone => panic!(rt; "gone"),
    }
}

/// The pass, which holds everything, reports the search of it.
fn report_all<R: Wait + Abort>(
    rt: &R,
    ledger: &Ledger,
    pass: &mut Pass,
    prefix: Cube,
    outcome: Outcome,
) -> Result<Reported, AllocError>
    requires hand { IsHandOf ledger.now pass.old }
    requires subject { subject_of ledger.now ≡ script_subject }
    requires holds { held ledger.now pass.old
        ≡ holding pass.old.number (script_number 0 0) (Some prefix) }
    requires outcome { outcome ≡ first_outcome }
    ensures { IfOk result (λ _. IsFreeHand ledger.now pass.new) }
{
    region_book::laws::script_is_legal();
    if !prefix.lits().is_empty() {
        panic!(rt; "not everything")
    }
    match ledger.report(rt, pass, ALL, outcome) {
        Ok(reported) => Ok(reported),
        Err((_, error)) => Err(error),
    }
}

/// The pass, which holds what is left, reports the search of that.
fn report_left<R: Wait + Abort>(
    rt: &R,
    ledger: &Ledger,
    pass: &mut Pass,
    prefix: Cube,
    outcome: Outcome,
) -> Result<Reported, AllocError>
    requires hand { IsHandOf ledger.now pass.old }
    requires subject { subject_of ledger.now ≡ script_subject }
    requires holds { held ledger.now pass.old
        ≡ holding pass.old.number (script_number 2 0) (Some prefix) }
    requires outcome { outcome ≡ second_outcome }
    ensures { IfOk result (λ _. IsFreeHand ledger.now pass.new) }
{
    region_book::laws::script_is_legal();
    if !is_left_over(prefix.lits()) {
        panic!(rt; "not what is left")
    }
    match ledger.report(rt, pass, LEFT, outcome) {
        Ok(reported) => Ok(reported),
        Err((_, error)) => Err(error),
    }
}

/// Whether this is what the search of everything leaves.
fn is_left_over(lits: &[i32]) -> bool
    ensures { result ≡ true → lits.now ≡ left_over }
{
    lits.len() == 1 && lits[0] == 1
}

/// The pass takes what is left, gives it back, and takes it again.
fn take_left<R: Wait + Abort>(rt: &R, ledger: &Ledger, pass: &mut Pass) -> Result<Cube, AllocError>
    requires { IsFreeHand ledger.now pass.old }
    ensures hand { IfOk result (λ _. IsHandOf ledger.now pass.new) }
    ensures holds { IfOk result (λ prefix. held ledger.now pass.new
        ≡ holding pass.new.number (script_number 2 0) (Some prefix)) }
{
    let Some((number, prefix)) = ledger.take_any(rt, pass)? else {
        panic!(rt; "nothing is left")
    };
    assert_eq!(rt; number, LEFT);
    assert_eq!(rt; prefix.lits(), [1].as_slice());
    give_back(rt, ledger, pass, number, &prefix);
    take_it(rt, ledger, pass, LEFT)
}

/// The pass gives back all that it holds.
fn give_back<R: Wait>(rt: &R, ledger: &Ledger, pass: &mut Pass, number: Number, prefix: &Cube)
    requires hand { IsHandOf ledger.now pass.old }
    requires holds { held ledger.now pass.old
        ≡ holding pass.old.number number (Some prefix.now) }
    ensures { IsFreeHand ledger.now pass.new }
{
    ledger.release(rt, pass, number);
}

/// What the pass gets where others hold all: nothing.
fn finds_nothing<R: Wait + Abort>(
    rt: &R,
    ledger: &Ledger,
    pass: &mut Pass,
) -> Result<(), AllocError>
    requires { IsFreeHand ledger.now pass.old }
    ensures { IfOk result (λ _. IsFreeHand ledger.now pass.new) }
{
    if ledger.take_any(rt, pass)?.is_some() {
        panic!(rt; "something is left")
    }
    let Taken::Gone = ledger.take(rt, pass, ALL)? else {
        panic!(rt; "nobody holds it")
    };
    Ok(())
}

/// What is left to be done, as a digit and a number, as the pass sees it.
fn look<R: Wait>(rt: &R, ledger: &Ledger, pass: &mut Pass) -> (u8, Number)
    requires { IsHandOf ledger.now pass.old }
    ensures hand { IsHandOf ledger.now pass.new }
    ensures holds { held ledger.now pass.new ≡ held ledger.now pass.old }
    ensures number { pass.new.number ≡ pass.old.number }
{
    match ledger.state(rt, pass) {
        Progress::Finished => (0, ALL),
        Progress::HeldByOthers(number) => (1, number),
        Progress::Unheld(number) => (2, number),
    }
}

/// The first pass searches everything, while the other finds nothing.
fn search_all<R: Wait + AllocGlobal + Abort>(
    rt: &R,
    ledger: &Ledger,
    first: &mut Pass,
    second: &mut Pass,
) -> Result<Reported, AllocError>
    requires subject { subject_of ledger.now ≡ script_subject }
    requires first { IsFreeHand ledger.now first.old }
    requires second { IsFreeHand ledger.now second.old }
    ensures first { IfOk result (λ _. IsFreeHand ledger.now first.new) }
    ensures second { IfOk result (λ _. IsFreeHand ledger.now second.new) }
{
    let all = take_it(rt, ledger, first, ALL)?;
    let progress = look(rt, ledger, second);
    assert_eq!(rt; progress, (1, ALL));
    finds_nothing(rt, ledger, second)?;
    report_all(rt, ledger, first, all, first_outcome(rt.alloc())?)
}

/// The second pass searches what is left.
fn search_left<R: Wait + AllocGlobal + Abort>(
    rt: &R,
    ledger: &Ledger,
    second: &mut Pass,
) -> Result<Reported, AllocError>
    requires subject { subject_of ledger.now ≡ script_subject }
    requires second { IsFreeHand ledger.now second.old }
    ensures { IfOk result (λ _. IsFreeHand ledger.now second.new) }
{
    let left = take_left(rt, ledger, second)?;
    report_left(rt, ledger, second, left, second_outcome(rt.alloc())?)
}

/// The book, and for each event the number of its pass.
fn close(
    alloc: Global,
    ledger: Ledger,
    first: Pass,
    second: Pass,
) -> Result<(Book, Vec<u32>), AllocError>
    requires size { ledger.passes ≡ 2 }
    requires first { IsFreeHand ledger first }
    requires second { IsFreeHand ledger second }
{
    let book = ledger.close(vec![in alloc; first, second]?);
    let mut passes = Vec::new(alloc);
    for event in book.journal() {
        passes.push(pass_of(event))?;
    }
    Ok((book, passes))
}

/// The pass of an event.
fn pass_of(event: &Event) -> u32 {
    match event {
        Event::Take { pass, .. } => *pass,
        Event::Report { pass, .. } => *pass,
        Event::Release { pass, .. } => *pass,
    }
}

#[test]
fn two_passes_search_in_turns(rt: HostRuntime) -> Result<(), Fail> {
    let (ledger, mut first, mut second) = new_ledger(rt.alloc())?;
    let reported = search_all(&rt, &ledger, &mut first, &mut second)?;
    assert_eq!(rt; (reported.place, reported.spent), (2, 1));
    assert!(rt; reported.kept.is_none());
    let reported = search_left(&rt, &ledger, &mut second)?;
    assert_eq!(rt; (reported.place, reported.spent), (6, 2));
    assert_eq!(rt; look(&rt, &ledger, &mut first), (0, ALL));
    let (book, passes) = close(rt.alloc(), ledger, first, second)?;
    assert_eq!(rt; passes.as_slice(), [0, 0, 1, 1, 1, 1].as_slice());
    let arranged = book.arrange();
    assert_eq!(rt; arranged.count(), 2);
    assert_eq!(rt; arranged.at(0), [-1, 2].as_slice());
    assert_eq!(rt; arranged.at(1), [1, -2].as_slice());
    Ok(())
}

/// The first pass takes what there is, and gives it back; the other sees it free then.
fn take_and_give_back<R: Wait + Abort>(
    rt: &R,
    ledger: &Ledger,
    first: &mut Pass,
    second: &mut Pass,
) -> Result<(), AllocError>
    requires first { IsFreeHand ledger.now first.old }
    requires second { IsFreeHand ledger.now second.old }
    ensures first { IfOk result (λ _. IsFreeHand ledger.now first.new) }
    ensures second { IfOk result (λ _. IsFreeHand ledger.now second.new) }
{
    let Some((number, prefix)) = ledger.take_any(rt, first)? else {
        panic!(rt; "nothing is left")
    };
    assert_eq!(rt; number, ALL);
    assert!(rt; prefix.lits().is_empty());
    finds_nothing(rt, ledger, second)?;
    give_back(rt, ledger, first, number, &prefix);
    Ok(())
}

#[test]
fn what_is_given_back_is_free_for_others(rt: HostRuntime) -> Result<(), Fail> {
    let (ledger, mut first, mut second) = new_ledger(rt.alloc())?;
    assert_eq!(rt; look(&rt, &ledger, &mut second), (2, ALL));
    take_and_give_back(&rt, &ledger, &mut first, &mut second)?;
    assert_eq!(rt; look(&rt, &ledger, &mut second), (2, ALL));
    assert_eq!(rt; ledger.spent(&rt, &mut second), 0);
    let (_, passes) = close(rt.alloc(), ledger, first, second)?;
    assert_eq!(rt; passes.as_slice(), [0, 0].as_slice());
    Ok(())
}

/// Threads may be given a value of the type, and may share one.
fn sent<T: Send>(value: T) -> T {
    value
}

fn shared<T: Sync>(value: &T) -> &T {
    value
}

#[test]
fn threads_share_a_ledger(rt: HostRuntime) -> Result<(), Fail> {
    let (ledger, first, second) = new_ledger(rt.alloc())?;
    let _ledger = shared(&ledger);
    let _passes = (sent(first), sent(second));
    Ok(())
}
