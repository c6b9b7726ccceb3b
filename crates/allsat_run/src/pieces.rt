//! For tests: a listing in pieces. A job gives branches away and may end at any leaf; what it gives
//! or leaves open is searched by jobs of their own, of the same engine.
ghost use Rattle.std.specs.Prelude.{◌≡◌, ◌≢◌, true, false, None, IfOk};
ghost use Rattle.sat_terms.specs.Cubes.{IsCube};
ghost use Rattle.sat_terms.specs.Subjects.{IsSubject, IsVariableList};

use crate::counts::Counts;
use crate::drawn::Draws;
use live_engine::{Engine, Leaf};
use prefix_jobs::Outcome;
use sat_terms::{Cube, Subject};
use std::alloc::{AllocError, Global};
use std::process::Abort;

/// At which leaves a job gives a branch away, and at which it ends.
#[derive(Debug, Drop)]
pub(crate) enum Cuts {
    /// It gives one away, where anything is untried, and ends, at its first leaf: the pieces make
    /// a chain of as many jobs as there are leaves.
    EachLeaf,
    /// It gives one away at each leaf, and ends at its last.
    EachGift,
    /// It gives one away at half of the leaves, and ends at each eighth.
    Drawn(Draws),
}

impl Cuts {
    /// Whether a job is to give a branch away at this leaf.
    fn gives(&mut self) -> bool {
        match self {
            Cuts::EachLeaf | Cuts::EachGift => true,
            Cuts::Drawn(draws) => draws.below(2) == 0,
        }
    }

    /// Whether a job is to end at a leaf.
    fn ends(&mut self, leaf: Leaf) -> bool {
        match self {
            Cuts::EachLeaf => true,
            Cuts::EachGift => leaf == Leaf::Ended,
            Cuts::Drawn(draws) => leaf == Leaf::Ended || draws.below(8) == 0,
        }
    }
}

/// The pieces so far, and the prefixes that are still to be searched.
#[derive(Debug, Drop)]
struct Pieces {
    counts: Counts,
    pending: Vec<Cube>,
}

/// No piece yet: the given literals are the first prefix.
fn none_of(alloc: Global, subject: &Subject) -> Result<Pieces, AllocError> {
    let mut pending = Vec::new(alloc);
    pending.push(subject.under.copy(alloc)?)?;
    let counts = Counts::none(alloc, subject.shown.as_slice())?;
    Ok(Pieces { counts, pending })
}

/// Takes what an outcome brings.
fn take(pieces: &mut Pieces, shown: &[u32], outcome: Outcome) -> Result<(), AllocError> {
    pieces.counts.count_all(shown, outcome.cubes.as_slice());
    for prefix in outcome.rest.into_vec() {
        pieces.pending.push(prefix)?;
    }
    Ok(())
}

/// Starts the job of a prefix.
fn start(engine: &mut Engine, prefix: &Cube) -> Result<(), AllocError>
    requires idle { engine.old.job ≡ None }
    requires prefix { IsCube engine.old.subject.shown prefix.now }
    ensures runs { IfOk result (λ _. engine.new.job ≢ None) }
    ensures subject { IfOk result (λ _. engine.new.subject ≡ engine.old.subject) }
{
    engine.start(prefix)
}

/// Goes to the next leaf.
fn next_leaf(engine: &mut Engine) -> Result<Leaf, AllocError>
    requires { engine.old.job ≢ None }
    ensures runs { IfOk result (λ _. engine.new.job ≢ None) }
    ensures subject { IfOk result (λ _. engine.new.subject ≡ engine.old.subject) }
{
    engine.leaf()
}

/// Gives a branch away, if there is one.
fn give(engine: &mut Engine) -> Result<Option<Outcome>, AllocError>
    requires { engine.old.job ≢ None }
    ensures runs { IfOk result (λ _. engine.new.job ≢ None) }
    ensures subject { IfOk result (λ _. engine.new.subject ≡ engine.old.subject) }
{
    engine.give()
}

/// Ends the job.
fn end(engine: &mut Engine) -> Result<Outcome, AllocError>
    requires { engine.old.job ≢ None }
    ensures idle { IfOk result (λ _. engine.new.job ≡ None) }
    ensures subject { IfOk result (λ _. engine.new.subject ≡ engine.old.subject) }
{
    engine.expose()
}

/// Takes what is given away, if anything is.
fn take_given(
    pieces: &mut Pieces,
    shown: &[u32],
    given: Option<Outcome>,
) -> Result<(), AllocError> {
    match given {
        Some(outcome) => take(pieces, shown, outcome),
        None => Ok(()),
    }
}

/// Gives a branch away where a job is to.
fn give_at_times(
    engine: &mut Engine,
    shown: &[u32],
    cuts: &mut Cuts,
    pieces: &mut Pieces,
) -> Result<(), AllocError>
    requires { engine.old.job ≢ None }
    ensures runs { IfOk result (λ _. engine.new.job ≢ None) }
    ensures subject { IfOk result (λ _. engine.new.subject ≡ engine.old.subject) }
{
    if !cuts.gives() {
        return Ok(());
    }
    let given = give(engine)?;
    take_given(pieces, shown, given)
}

/// Goes to the next leaf, may give a branch away there, and ends, or goes on with what it keeps.
/// Answers whether the job goes on.
fn goes_on(
    engine: &mut Engine,
    shown: &[u32],
    cuts: &mut Cuts,
    pieces: &mut Pieces,
) -> Result<bool, AllocError>
    requires { engine.old.job ≢ None }
    ensures runs { IfOk result (λ more. more ≡ true → engine.new.job ≢ None) }
    ensures idle { IfOk result (λ more. more ≡ false → engine.new.job ≡ None) }
    ensures subject { IfOk result (λ _. engine.new.subject ≡ engine.old.subject) }
{
    let leaf = next_leaf(engine)?;
    give_at_times(engine, shown, cuts, pieces)?;
    if !cuts.ends(leaf) {
        return Ok(true);
    }
    let outcome = end(engine)?;
    take(pieces, shown, outcome)?;
    Ok(false)
}

/// Searches a prefix as one job. False where it does not end within many leaves.
fn search(
    engine: &mut Engine,
    prefix: &Cube,
    shown: &[u32],
    cuts: &mut Cuts,
    pieces: &mut Pieces,
) -> Result<bool, AllocError>
    requires idle { engine.old.job ≡ None }
    requires prefix { IsCube engine.old.subject.shown prefix.now }
    ensures idle { IfOk result (λ ended. ended ≡ true → engine.new.job ≡ None) }
    ensures subject { IfOk result (λ _. engine.new.subject ≡ engine.old.subject) }
{
    start(engine, prefix)?;
    for _ in 0..100_000u32 {
        if !goes_on(engine, shown, cuts, pieces)? {
            return Ok(true);
        }
    }
    Ok(false)
}

/// The cube of these literals over the shown variables.
fn cube_over(rt: &impl Abort, alloc: Global, lits: &[i32], shown: &[u32]) -> Cube
    requires { IsVariableList shown.now }
    ensures { IsCube shown.now result }
{
    Cube::from_lits(alloc, lits, shown).expect(rt, "a cube over the shown variables")
}

/// Searches a pending prefix.
fn search_next(
    rt: &impl Abort,
    alloc: Global,
    engine: &mut Engine,
    pending: &Cube,
    shown: &[u32],
    cuts: &mut Cuts,
    pieces: &mut Pieces,
) -> Result<(), AllocError>
    requires idle { engine.old.job ≡ None }
    requires shown { engine.old.subject.shown ≡ shown.now }
    requires variables { IsVariableList shown.now }
    ensures idle { IfOk result (λ _. engine.new.job ≡ None) }
    ensures subject { IfOk result (λ _. engine.new.subject ≡ engine.old.subject) }
{
    let prefix = cube_over(rt, alloc, pending.lits(), shown);
    let ended = search(engine, &prefix, shown, cuts, pieces)?;
    assert!(rt; ended, "a job of many leaves");
    Ok(())
}

/// Searches the pending prefixes, and those that come, until none is left.
fn search_all(
    rt: &impl Abort,
    alloc: Global,
    engine: &mut Engine,
    shown: &[u32],
    cuts: &mut Cuts,
    pieces: &mut Pieces,
) -> Result<(), AllocError>
    requires idle { engine.old.job ≡ None }
    requires shown { engine.old.subject.shown ≡ shown.now }
    requires variables { IsVariableList shown.now }
{
    for _ in 0..100_000u32 {
        let Some(pending) = pieces.pending.pop() else {
            return Ok(());
        };
        search_next(rt, alloc, engine, &pending, shown, cuts, pieces)?;
    }
    assert!(rt; pieces.pending.is_empty(), "too many jobs");
    Ok(())
}

/// Searches a subject in pieces.
#[tactic(auto, using(crate::proofs::Jobs::shown_variables))]
fn search_subject(
    rt: &impl Abort,
    alloc: Global,
    subject: &Subject,
    cuts: &mut Cuts,
    pieces: &mut Pieces,
) -> Result<(), AllocError>
    requires { IsSubject subject.now.formula.variables subject.now.formula.clauses
        subject.now.shown subject.now.under }
{
    let mut engine = Engine::make(alloc, subject)?;
    search_all(
        rt,
        alloc,
        &mut engine,
        subject.shown.as_slice(),
        cuts,
        pieces,
    )
}

/// The counts of a subject's listing in pieces.
pub(crate) fn count_in_pieces(
    rt: &impl Abort,
    alloc: Global,
    subject: &Subject,
    cuts: Cuts,
) -> Result<Counts, AllocError>
    requires { IsSubject subject.now.formula.variables subject.now.formula.clauses
        subject.now.shown subject.now.under }
{
    let mut cuts = cuts;
    let mut pieces = none_of(alloc, subject)?;
    search_subject(rt, alloc, subject, &mut cuts, &mut pieces)?;
    Ok(pieces.counts)
}
