//! For tests: engines of small formulas, and their calls. Each looks first whether it may be made.
ghost use Rattle.std.specs.Prelude.{◌≡◌, ◌≢◌, ◌<◌, ◌≤◌, true, false, length, None, IfOk};
ghost use Rattle.std.specs.List.{All};
ghost use Rattle.std.specs.List.Sorted.{IsStrictlyIncreasing};
ghost use Rattle.sat_terms.specs.Literals.{IsLiteralOf};
ghost use Rattle.sat_terms.specs.Subjects.{IsFormula, IsSubject};

use super::Engine;
use crate::Leaf;
use crate::search::Phase;
use chrono_trail::Kind;
use prefix_jobs::Outcome;
use sat_terms::{Clause, Cube, Formula, Items, Subject};
use std::alloc::{AllocError, Global};
use std::process::Abort;

/// A formula over the variables 1 to `variables`, and those of them that are shown.
#[derive(Clone, Copy, Debug)]
pub(crate) struct Example {
    pub(crate) variables: u32,
    pub(crate) clauses: &'static [&'static [i32]],
    pub(crate) shown: &'static [u32],
}

/// A call of an engine, and what it has to come to.
#[derive(Clone, Copy)]
pub(crate) enum Call<'a> {
    /// The job of a prefix starts.
    Start(&'a [i32]),
    /// The next leaf is this one.
    Leaf(Leaf),
    /// So the job stands: these cubes are found, these prefixes open, the last of them being that
    /// of the search, and there were so many leaves.
    Stands(&'a [&'a [i32]], &'a [&'a [i32]], u64),
    /// The newest literal on the trail, and whether it was flipped without a lemma for it.
    Newest(i32, bool),
    /// These cubes and one prefix are given away, another prefix is kept, and so many leaves go.
    Give(&'a [&'a [i32]], &'a [i32], &'a [i32], u64),
    /// There is nothing to give.
    GiveNothing,
    /// The job ends with these cubes and prefixes, and with so many leaves.
    Expose(&'a [&'a [i32]], &'a [&'a [i32]], u64),
    /// The job ends, and what it found is lost.
    Abandon,
    /// The whole job of a prefix finds these cubes, in this order.
    List(&'a [i32], &'a [&'a [i32]]),
    /// The whole job of the empty prefix counts the assignments of the variables 1 to 4 so often.
    Count([u32; 16]),
    /// A hidden variable has this value in the last model.
    Hidden(u32, Option<bool>),
    /// A clause is imported, or is not.
    Import(&'a [i32], bool),
    /// The oldest fresh lemma is this one.
    Fresh(Option<&'a [i32]>),
    /// The lemmas of more literals are dropped.
    DropLemmas(usize),
    /// So many lemmas have more literals.
    Longer(usize, u32),
}

/// Whether these are literals of the variables 1 to `variables`.
fn are_literals(lits: &[i32], variables: u32) -> bool
    ensures { result ≡ true → All (IsLiteralOf variables) lits.now }
{
    for lit in lits {
        if *lit == 0 || lit.unsigned_abs() > variables {
            return false;
        }
    }
    true
}

/// Whether these are some of the variables 1 to `variables`.
fn are_variables(shown: &[u32], variables: u32) -> bool
    ensures { result ≡ true → All (λ v. (0 < v) × (v ≤ variables)) shown.now }
{
    for variable in shown {
        if *variable == 0 || *variable > variables {
            return false;
        }
    }
    true
}

/// Whether these numbers rise.
fn are_rising(numbers: &[u32]) -> bool
    ensures { result ≡ true → IsStrictlyIncreasing numbers.now }
{
    for place in 1..numbers.len() {
        if numbers[place] <= numbers[place - 1] {
            return false;
        }
    }
    true
}

/// The clause of these literals.
fn clause_of(
    rt: &impl Abort,
    alloc: Global,
    variables: u32,
    lits: &[i32],
) -> Result<Clause, AllocError>
    ensures named { IfOk result (λ clause. All (IsLiteralOf variables) clause) }
    ensures short { IfOk result (λ clause. length clause ≤ 1000) }
{
    assert!(rt; variables <= 1000);
    assert!(rt; lits.len() <= 1000);
    assert!(rt; are_literals(lits, variables));
    Clause::from_lits(alloc, lits)
}

/// The formula of these clauses.
fn formula_of(
    rt: &impl Abort,
    alloc: Global,
    variables: u32,
    clauses: &[&[i32]],
) -> Result<Formula, AllocError>
    ensures formula { IfOk result (λ formula. IsFormula formula.variables formula.clauses) }
    ensures variables { IfOk result (λ formula. formula.variables ≡ variables) }
{
    assert!(rt; variables <= 1000);
    assert!(rt; clauses.len() <= 1000);
    let mut list = Vec::new(alloc);
    for lits in clauses {
        list.push(clause_of(rt, alloc, variables, lits)?)?;
    }
    Ok(Formula {
        variables,
        clauses: Items::from_vec(list),
    })
}

/// The formula of these clauses with these variables shown.
fn subject_of(
    rt: &impl Abort,
    alloc: Global,
    variables: u32,
    clauses: &[&[i32]],
    shown: &[u32],
) -> Result<Subject, AllocError>
    ensures { IfOk result (λ subject. IsSubject subject.formula.variables subject.formula.clauses
        subject.shown subject.under) }
{
    assert!(rt; are_rising(shown));
    assert!(rt; are_variables(shown, variables));
    Ok(Subject {
        formula: formula_of(rt, alloc, variables, clauses)?,
        shown: Items::from_vec(shown.to_vec(alloc)?),
        under: Cube::from_vec(Vec::new(alloc)),
    })
}

/// Makes these calls, one after another, of a new engine that keeps so many lemmas at most.
pub(crate) fn play_with_lemmas(
    rt: &impl Abort,
    alloc: Global,
    example: &Example,
    most_lemmas: u32,
    calls: &[Call<'_>],
) {
    let engine = engine_of(rt, alloc, example, most_lemmas);
    play_all(rt, &mut engine.expect(rt, "memory for the engine"), calls);
}

/// The same with ample room for lemmas.
pub(crate) fn play(rt: &impl Abort, alloc: Global, example: &Example, calls: &[Call<'_>]) {
    play_with_lemmas(rt, alloc, example, 1000, calls);
}

/// An engine of the example that keeps so many lemmas at most.
fn engine_of(
    rt: &impl Abort,
    alloc: Global,
    example: &Example,
    most_lemmas: u32,
) -> Result<Engine, AllocError> {
    let subject = subject_of(rt, alloc, example.variables, example.clauses, example.shown)?;
    Engine::with_lemmas(alloc, &subject, most_lemmas)
}

/// Makes these calls, one after another.
fn play_all(rt: &impl Abort, engine: &mut Engine, calls: &[Call<'_>]) {
    for (place, call) in calls.iter().enumerate() {
        let came = comes_true(rt, engine, *call).expect(rt, "memory for a call");
        assert!(rt; came, "call {place}");
    }
}

/// Makes one call, and answers whether it came to what it has to.
fn comes_true(rt: &impl Abort, engine: &mut Engine, call: Call<'_>) -> Result<bool, AllocError> {
    match call {
        Call::Start(prefix) => start(rt, engine, prefix),
        Call::Leaf(wanted) => Ok(leaf(rt, engine)? == wanted),
        Call::Stands(cubes, open, leaves) => stands(engine, cubes, open, leaves),
        Call::Newest(lit, flipped) => Ok(is_newest(engine, lit, flipped)),
        Call::Give(cubes, prefix, kept, leaves) => gives(rt, engine, cubes, prefix, kept, leaves),
        Call::GiveNothing => gives_nothing(rt, engine),
        Call::Expose(cubes, rest, leaves) => exposes(rt, engine, cubes, rest, leaves),
        Call::Abandon => Ok(abandon(rt, engine)),
        Call::List(prefix, cubes) => lists(rt, engine, prefix, cubes),
        Call::Count(wanted) => Ok(counts(rt, engine)? == wanted),
        Call::Hidden(variable, wanted) => Ok(hidden(rt, engine, variable) == wanted),
        Call::Import(lits, wanted) => Ok(import(rt, engine, lits)? == wanted),
        Call::Fresh(wanted) => Ok(is_fresh(engine, wanted)),
        Call::DropLemmas(keep) => Ok(drop_lemmas(rt, engine, keep)),
        Call::Longer(keep, wanted) => Ok(longer_lemmas(engine, keep) == wanted),
    }
}

/// Whether the engine has a job.
fn has_job(engine: &Engine) -> bool
    ensures some { result ≡ true → engine.now.job ≢ None }
    ensures none { result ≡ false → engine.now.job ≡ None }
{
    match engine.phase {
        Phase::Idle => false,
        Phase::Running | Phase::Over => true,
    }
}

/// Starts the job of a prefix.
fn start(rt: &impl Abort, engine: &mut Engine, prefix: &[i32]) -> Result<bool, AllocError> {
    assert!(rt; !has_job(engine));
    let cube = Cube::from_lits(engine.alloc, prefix, engine.search.shown.as_slice());
    let cube = cube.expect(rt, "a cube over the shown variables");
    engine.start(&cube)?;
    Ok(true)
}

/// Goes to the next leaf.
fn leaf(rt: &impl Abort, engine: &mut Engine) -> Result<Leaf, AllocError> {
    assert!(rt; has_job(engine));
    engine.leaf()
}

/// Gives the lowest untried prefix away.
fn give(rt: &impl Abort, engine: &mut Engine) -> Result<Option<Outcome>, AllocError> {
    assert!(rt; has_job(engine));
    engine.give()
}

/// Whether this prefix is given away and that one kept, with these cubes and so many leaves.
fn gives(
    rt: &impl Abort,
    engine: &mut Engine,
    cubes: &[&[i32]],
    prefix: &[i32],
    kept: &[i32],
    leaves: u64,
) -> Result<bool, AllocError> {
    match give(rt, engine)? {
        Some(outcome) => Ok(comes_to(&outcome, cubes, &[prefix], Some(kept), leaves)),
        None => Ok(false),
    }
}

/// Whether there is nothing to give.
fn gives_nothing(rt: &impl Abort, engine: &mut Engine) -> Result<bool, AllocError> {
    Ok(give(rt, engine)?.is_none())
}

/// Ends the job.
fn expose(rt: &impl Abort, engine: &mut Engine) -> Result<Outcome, AllocError> {
    assert!(rt; has_job(engine));
    engine.expose()
}

/// Whether the job ends with these cubes and prefixes, and with so many leaves.
fn exposes(
    rt: &impl Abort,
    engine: &mut Engine,
    cubes: &[&[i32]],
    rest: &[&[i32]],
    leaves: u64,
) -> Result<bool, AllocError> {
    let outcome = expose(rt, engine)?;
    Ok(comes_to(&outcome, cubes, rest, None, leaves))
}

/// Ends the job, and loses what it found.
fn abandon(rt: &impl Abort, engine: &mut Engine) -> bool {
    assert!(rt; has_job(engine));
    engine.abandon();
    true
}

/// Imports a clause.
fn import(rt: &impl Abort, engine: &mut Engine, lits: &[i32]) -> Result<bool, AllocError> {
    assert!(rt; !has_job(engine));
    assert!(rt; are_literals(lits, engine.variables()));
    engine.import(lits)
}

/// Drops the lemmas of more than `keep` literals.
fn drop_lemmas(rt: &impl Abort, engine: &mut Engine, keep: usize) -> bool {
    assert!(rt; !has_job(engine));
    engine.drop_lemmas(keep);
    true
}

/// The value of a hidden variable in the last model.
fn hidden(rt: &impl Abort, engine: &Engine, variable: u32) -> Option<bool> {
    assert!(rt; 0 < variable);
    assert!(rt; variable <= engine.variables());
    engine.hidden(variable)
}

/// Whether the next fresh lemma is of these literals, in this order.
fn is_fresh(engine: &mut Engine, wanted: Option<&[i32]>) -> bool {
    match (engine.fresh(), wanted) {
        (Some(lemma), Some(lits)) => lemma.lits() == lits,
        (None, None) => true,
        _ => false,
    }
}

/// Whether these cubes are found, these prefixes open, first the untried ones and then the one that
/// the search is in, and so many leaves counted.
fn stands(
    engine: &Engine,
    cubes: &[&[i32]],
    open: &[&[i32]],
    leaves: u64,
) -> Result<bool, AllocError> {
    let left = engine.search.left_of(engine.alloc, engine.phase)?;
    Ok(
        are_cubes(&engine.search.found, cubes)
            && are_cubes(&left, open)
            && engine.leaves() == leaves,
    )
}

/// Whether this is the newest literal on the trail, and was flipped without a lemma, or not.
fn is_newest(engine: &Engine, lit: i32, flipped: bool) -> bool {
    match engine.search.trail.items().last() {
        Some(item) => item.lit == lit && (item.kind == Kind::Flipped) == flipped,
        None => false,
    }
}

/// How many lemmas have more literals than `keep`.
fn longer_lemmas(engine: &Engine, keep: usize) -> u32 {
    let arena = &engine.search.arena;
    let mut count: u32 = 0;
    for id in arena.base()..arena.len() {
        if arena.lits(id).len() > keep {
            count = count.saturating_add(1);
        }
    }
    count
}

/// Searches the whole prefix, of at most a thousand leaves, and gives the cubes found.
fn list(rt: &impl Abort, engine: &mut Engine, prefix: &[i32]) -> Result<Outcome, AllocError> {
    start(rt, engine, prefix)?;
    for _ in 0..1000u32 {
        if leaf(rt, engine)? == Leaf::Ended {
            break;
        }
    }
    expose(rt, engine)
}

/// Whether the whole job of a prefix finds just these cubes, in this order.
fn lists(
    rt: &impl Abort,
    engine: &mut Engine,
    prefix: &[i32],
    cubes: &[&[i32]],
) -> Result<bool, AllocError> {
    let outcome = list(rt, engine, prefix)?;
    Ok(are_cubes(outcome.cubes.as_slice(), cubes))
}

/// How many cubes of the whole job of the empty prefix hold each assignment of the variables 1 to
/// 4. The value of variable 1 is the lowest bit.
fn counts(rt: &impl Abort, engine: &mut Engine) -> Result<[u32; 16], AllocError> {
    let outcome = list(rt, engine, &[])?;
    let mut table = [0u32; 16];
    for assignment in 0..16u32 {
        table[assignment as usize] = holders(outcome.cubes.as_slice(), assignment);
    }
    Ok(table)
}

/// Whether the list holds just these cubes, in this order.
pub(crate) fn are_cubes(cubes: &[Cube], wanted: &[&[i32]]) -> bool {
    if cubes.len() != wanted.len() {
        return false;
    }
    for (cube, lits) in cubes.iter().zip(wanted.iter()) {
        if cube.lits() != *lits {
            return false;
        }
    }
    true
}

/// Whether the outcome is of these cubes and prefixes, and of so many leaves.
pub(crate) fn comes_to(
    outcome: &Outcome,
    cubes: &[&[i32]],
    rest: &[&[i32]],
    kept: Option<&[i32]>,
    leaves: u64,
) -> bool {
    let keeps = match (&outcome.kept, kept) {
        (None, None) => true,
        (Some(cube), Some(lits)) => cube.lits() == lits,
        _ => false,
    };
    keeps
        && are_cubes(outcome.cubes.as_slice(), cubes)
        && are_cubes(outcome.rest.as_slice(), rest)
        && outcome.leaves == leaves
}

/// How many of the cubes hold an assignment.
fn holders(cubes: &[Cube], assignment: u32) -> u32 {
    let mut count: u32 = 0;
    for cube in cubes {
        if holds(cube.lits(), assignment) {
            count = count.saturating_add(1);
        }
    }
    count
}

/// Whether each of the literals is true in an assignment.
fn holds(lits: &[i32], assignment: u32) -> bool {
    for lit in lits {
        if is_true(lit.unsigned_abs(), assignment) != (*lit > 0) {
            return false;
        }
    }
    true
}

/// Whether one of the variables 1 to 4 is true in an assignment.
fn is_true(variable: u32, assignment: u32) -> bool {
    0 < variable && variable <= 4 && assignment >> (variable - 1) & 1 == 1
}
