//! What no clause says of workers: that they get somewhere, alone, together, and one after another.
ghost use Rattle.std.specs.Prelude.{◌≡◌, ◌+◌, ◌<◌, ◌≤◌, None, Some, IfOk, IfSome, OnOk, length};
ghost use Rattle.std.specs.List.{All};
ghost use Rattle.sat_terms.specs.Subjects.{IsSubject};
ghost use Rattle.region_book.specs.Books.{state_of};
ghost use Rattle.region_ledger.specs.Hands.{subject_of, IsFreeHand};
ghost use Rattle.worker_loop.specs.Sweeps.{AreUnheld};
ghost use Rattle.worker_loop.specs.Workers.{IsOffWork};

use crate::examples::{Example, HIDDEN_UNIT, PARITY, example_subject};
use crate::{Gate, OpenGate, Point, Stop, Swept, Worked, sweep, work};
use clause_exchange::{Exchange, Post};
use live_engine::Engine;
use prefix_jobs::Lemma;
use region_book::{Book, Progress};
use region_ledger::{Ledger, Pass};
use sat_terms::{CubeList, Subject};
use std::alloc::{AllocError, Global};
use std::process::Abort;
use std::sync::Wait;
use std::sync::atomic::{AtomicBool, Ordering};
use std::test::Fail;
use std::thread;
use std::thread::Threads;
use steal_pool::{Bench, Pool};

/// What one worker works with, and how it ended. The parts are parameters: that a thread may be
/// given them is found through these.
#[derive(Drop)]
struct Seated<E, L, B, P> {
    engine: E,
    pass: L,
    bench: B,
    post: P,
    worked: Option<Worked>,
}

type Member = Seated<Engine, Pass, Bench, Post>;

/// Some workers that share a ledger, the one of the greatest number first.
#[derive(Drop)]
struct Crew {
    ledger: Ledger,
    members: Vec<Member>,
}

fn sent<T: Send>(value: T) -> T {
    value
}

fn shared<T: Sync>(value: &T) -> &T {
    value
}

/// A ledger of a new book, and its passes.
fn new_ledger(
    alloc: Global,
    subject: Subject,
    workers: u32,
) -> Result<(Ledger, Vec<Pass>), AllocError>
    requires subject { IsSubject subject.formula.variables subject.formula.clauses
        subject.shown subject.under }
    requires some { 1 ≤ workers }
    requires few { workers ≤ 16 }
    ensures subject { IfOk result (λ made. subject_of made.0 ≡ subject) }
    ensures size { IfOk result (λ made. made.0.passes ≡ workers) }
    ensures free { IfOk result (λ made. All (IsFreeHand made.0) made.1.items) }
{
    let book = Book::make(alloc, subject, None, workers)?;
    match Ledger::make(alloc, book, workers) {
        Ok(made) => Ok(made),
        Err((_, error)) => Err(error),
    }
}

/// So many engines of the subject.
fn new_engines(alloc: Global, subject: &Subject, count: u32) -> Result<Vec<Engine>, AllocError>
    requires { IsSubject subject.now.formula.variables subject.now.formula.clauses
        subject.now.shown subject.now.under }
    ensures { IfOk result
        (λ all. All (λ e. (e.subject ≡ subject.now) × (e.job ≡ None)) all.items) }
{
    let mut all = Vec::new(alloc);
    for _ in 0..count {
        all.push(Engine::make(alloc, subject)?)?;
    }
    Ok(all)
}

/// The last of the passes.
fn last_pass(ledger: &Ledger, passes: &mut Vec<Pass>) -> Option<Pass>
    requires { All (IsFreeHand ledger.now) passes.old.items }
    ensures last { IfSome result (IsFreeHand ledger.now) }
    ensures rest { All (IsFreeHand ledger.now) passes.new.items }
    ensures fewer { IfSome result
        (λ _. length passes.new.items + 1 ≡ length passes.old.items) }
{
    passes.pop()
}

/// The last of the engines.
fn last_engine(ledger: &Ledger, engines: &mut Vec<Engine>) -> Option<Engine>
    requires { All (λ e. (e.subject ≡ subject_of ledger.now) × (e.job ≡ None)) engines.old.items }
    ensures last { IfSome result (λ e. (e.subject ≡ subject_of ledger.now) × (e.job ≡ None)) }
    ensures rest { All (λ e. (e.subject ≡ subject_of ledger.now) × (e.job ≡ None))
        engines.new.items }
{
    engines.pop()
}

/// Each worker gets its pass, an engine, a bench and a post.
fn seat_all(
    rt: &impl Abort,
    ledger: &Ledger,
    mut passes: Vec<Pass>,
    mut engines: Vec<Engine>,
    mut benches: Vec<Bench>,
    mut posts: Vec<Post>,
    mut members: Vec<Member>,
) -> Result<Vec<Member>, AllocError>
    requires free { All (IsFreeHand ledger.now) passes.items }
    requires engines { All (λ e. (e.subject ≡ subject_of ledger.now) × (e.job ≡ None))
        engines.items }
    requires members { All (λ m. IsOffWork ledger.now m.pass.number m.pass m.engine)
        members.items }
    ensures { IfOk result (λ all. All (λ m. IsOffWork ledger.now m.pass.number m.pass m.engine)
        all.items) }
{
    while let Some(pass) = last_pass(ledger, &mut passes) {
        let engine = last_engine(ledger, &mut engines).expect(rt, "an engine for each");
        let bench = benches.pop().expect(rt, "a bench for each");
        let post = posts.pop().expect(rt, "a post for each");
        let member = Seated {
            engine,
            pass,
            bench,
            post,
            worked: None,
        };
        seat_one(ledger, &mut members, member)?;
    }
    Ok(members)
}

/// One more of them is ready.
fn seat_one(ledger: &Ledger, members: &mut Vec<Member>, member: Member) -> Result<(), AllocError>
    requires members { All (λ m. IsOffWork ledger.now m.pass.number m.pass m.engine)
        members.old.items }
    requires member { IsOffWork ledger.now member.pass.number member.pass member.engine }
    ensures { OnOk result (All (λ m. IsOffWork ledger.now m.pass.number m.pass m.engine)
        members.new.items) }
{
    members.push(member)?;
    Ok(())
}

/// Workers that have not begun.
fn new_crew(
    rt: &impl Abort,
    alloc: Global,
    example: &Example,
    workers: u32,
) -> Result<Crew, AllocError>
    requires some { 1 ≤ workers }
    requires few { workers ≤ 16 }
    ensures size { IfOk result (λ crew. crew.ledger.passes ≡ workers) }
    ensures ready { IfOk result (λ crew.
        All (λ m. IsOffWork crew.ledger m.pass.number m.pass m.engine) crew.members.items) }
{
    let subject = example_subject(rt, alloc, example)?;
    let engines = new_engines(alloc, &subject, workers)?;
    let (ledger, passes) = new_ledger(alloc, subject, workers)?;
    let benches = Pool::make(alloc, workers)?;
    let posts = Exchange::make(alloc, workers)?;
    let members = seat_all(
        rt,
        &ledger,
        passes,
        engines,
        benches,
        posts,
        Vec::new(alloc),
    )?;
    Ok(Crew { ledger, members })
}

/// Lets one of them work.
fn work_one<R: Wait, G: Gate>(rt: &R, ledger: &Ledger, member: &mut Member, gate: &G, stop: &Stop)
    requires { IsOffWork ledger.now member.old.pass.number member.old.pass member.old.engine }
    ensures { IsOffWork ledger.now member.new.pass.number member.new.pass member.new.engine }
{
    let worked = work(
        rt,
        &mut member.engine,
        ledger,
        &mut member.pass,
        &mut member.bench,
        &mut member.post,
        gate,
        stop,
    );
    member.worked = Some(worked);
}

/// Lets all of them work, each on a thread of its own.
fn work_all<R: Threads + Wait + Sync, G: Gate + Sync>(
    rt: &R,
    ledger: &Ledger,
    members: &mut [Member],
    gate: &G,
    stop: &Stop,
)
    requires some { 0 < length members.old }
    requires ready { All (λ m. IsOffWork ledger.now m.pass.number m.pass m.engine) members.old }
    ensures { All (λ m. IsOffWork ledger.now m.pass.number m.pass m.engine) members.new }
{
    thread::for_each_mut(
        rt,
        members,
        members.len(),
        &|_, member| work_one(rt, ledger, member, gate, stop),
    );
}

/// The pass of the last of them.
fn last_member(ledger: &Ledger, members: &mut Vec<Member>) -> Option<Pass>
    requires { All (λ m. IsOffWork ledger.now m.pass.number m.pass m.engine) members.old.items }
    ensures last { IfSome result (IsFreeHand ledger.now) }
    ensures rest { All (λ m. IsOffWork ledger.now m.pass.number m.pass m.engine)
        members.new.items }
    ensures fewer { IfSome result
        (λ _. length members.new.items + 1 ≡ length members.old.items) }
{
    let Seated {
        engine: _,
        pass,
        bench: _,
        post: _,
        worked: _,
    } = members.pop()?;
    Some(pass)
}

/// The book, once all of them have ended.
fn close(rt: &impl Abort, alloc: Global, workers: u32, crew: Crew) -> Result<Book, AllocError>
    requires size { crew.ledger.passes ≡ workers }
    requires ready { All (λ m. IsOffWork crew.ledger m.pass.number m.pass m.engine)
        crew.members.items }
    ensures { IfOk result (λ book. AreUnheld (state_of book).pending) }
{
    let Crew {
        ledger,
        mut members,
    } = crew;
    let mut passes = Vec::new(alloc);
    while let Some(pass) = last_member(&ledger, &mut members) {
        passes.push(pass)?;
    }
    assert!(rt; passes.len() == workers as usize);
    Ok(ledger.close(passes))
}

/// The listing is that of the odd assignments of three variables.
fn is_parity(rt: &impl Abort, book: Book) {
    assert!(rt; matches!(book.state(), Progress::Finished));
    let arranged = book.arrange();
    assert_eq!(rt; arranged.count(), 4);
    assert_eq!(rt; arranged.at(0), [-1, -2, 3].as_slice());
    assert_eq!(rt; arranged.at(1), [-1, 2, -3].as_slice());
    assert_eq!(rt; arranged.at(2), [1, -2, -3].as_slice());
    assert_eq!(rt; arranged.at(3), [1, 2, 3].as_slice());
}

/// Holds the worker that first gives until another has been at a leaf.
#[derive(Drop)]
struct HoldsTheFirst {
    /// Worker 0 was at a leaf.
    first: AtomicBool,
    /// Another was.
    second: AtomicBool,
    given: AtomicBool,
    /// It was held too long.
    late: AtomicBool,
}

/// So often the worker that is held looks.
const MOST_LOOKS: u32 = 100_000_000;

impl HoldsTheFirst {
    fn leaf_of(&self, is_first: bool) -> &AtomicBool {
        if is_first { &self.first } else { &self.second }
    }
}

impl Gate for HoldsTheFirst {
    fn at(&self, worker: u32, point: Point) {
        match point {
            Point::Begun | Point::Ended => {}
            Point::Leaf => self.leaf_of(worker == 0).store(true, Ordering::SeqCst),
            Point::Given => {
                if self.given.swap(true, Ordering::SeqCst) {
                    return;
                }
                for _ in 0..MOST_LOOKS {
                    if self.leaf_of(worker != 0).load(Ordering::SeqCst) {
                        return;
                    }
                    thread::yield_now();
                }
                self.late.store(true, Ordering::SeqCst);
            }
        }
    }
}

/// All that these workers do together finishes, and lists the odd assignments.
fn finish_parity<R: Abort + Threads + Wait + Sync, G: Gate + Sync>(
    rt: &R,
    alloc: Global,
    workers: u32,
    gate: &G,
) -> Result<(), AllocError>
    requires some { 1 ≤ workers }
    requires few { workers ≤ 16 }
{
    let mut crew = new_crew(rt, alloc, &PARITY, workers)?;
    let stop = Stop::make(None);
    assert!(rt; crew.members.len() == workers as usize);
    work_all(rt, &crew.ledger, crew.members.as_mut_slice(), gate, &stop);
    for member in crew.members.iter() {
        assert!(rt; matches!(member.worked, Some(Worked::Finished)));
    }
    is_parity(rt, close(rt, alloc, workers, crew)?);
    Ok(())
}

#[test]
fn threads_may_share_what_workers_share(rt: HostRuntime) -> Result<(), Fail> {
    let mut crew = new_crew(&rt, rt.alloc(), &PARITY, 1)?;
    assert!(rt; sent(crew.members.pop()).is_some());
    let _ledger = shared(&crew.ledger);
    let stop = Stop::make(Some(5));
    assert_eq!(rt; shared(&stop).budget(), Some(5));
    assert!(rt; !stop.asked());
    stop.ask();
    assert!(rt; stop.asked());
    Ok(())
}

#[test]
fn one_worker_finishes(rt: HostRuntime) -> Result<(), Fail> {
    finish_parity(&rt, rt.alloc(), 1, &OpenGate)?;
    Ok(())
}

#[test]
fn sixteen_workers_finish(rt: HostRuntime) -> Result<(), Fail> {
    finish_parity(&rt, rt.alloc(), 16, &OpenGate)?;
    Ok(())
}

#[test]
fn two_workers_work_at_once(rt: HostRuntime) -> Result<(), Fail> {
    let gate = HoldsTheFirst {
        first: AtomicBool::new(false),
        second: AtomicBool::new(false),
        given: AtomicBool::new(false),
        late: AtomicBool::new(false),
    };
    finish_parity(&rt, rt.alloc(), 2, &gate)?;
    assert!(rt; gate.given.load(Ordering::SeqCst));
    assert!(rt; gate.first.load(Ordering::SeqCst));
    assert!(rt; gate.second.load(Ordering::SeqCst));
    assert!(rt; !gate.late.load(Ordering::SeqCst));
    Ok(())
}

#[test]
fn two_workers_stop_at_their_budget(rt: HostRuntime) -> Result<(), Fail> {
    let mut crew = new_crew(&rt, rt.alloc(), &PARITY, 2)?;
    let stop = Stop::make(Some(1));
    assert!(rt; crew.members.len() == 2);
    work_all(
        &rt,
        &crew.ledger,
        crew.members.as_mut_slice(),
        &OpenGate,
        &stop,
    );
    for member in crew.members.iter() {
        assert!(rt; matches!(member.worked, Some(Worked::BudgetSpent)));
    }
    let book = close(&rt, rt.alloc(), 2, crew)?;
    assert!(rt; book.spent() == 1 || book.spent() == 2);
    assert!(rt; matches!(book.state(), Progress::Unheld(_)));
    Ok(())
}

/// Lets the one at this place work, and tells whether it found the budget spent.
fn finds_it_spent<R: Wait>(rt: &R, crew: &mut Crew, place: usize, stop: &Stop) -> bool
    requires place { place < length crew.old.members.items }
    requires ready { All (λ m. IsOffWork crew.old.ledger m.pass.number m.pass m.engine)
        crew.old.members.items }
    ensures ready { All (λ m. IsOffWork crew.new.ledger m.pass.number m.pass m.engine)
        crew.new.members.items }
    ensures ledger { crew.new.ledger ≡ crew.old.ledger }
    ensures count { length crew.new.members.items ≡ length crew.old.members.items }
{
    let member = &mut crew.members[place];
    work_one(rt, &crew.ledger, member, &OpenGate, stop);
    matches!(member.worked, Some(Worked::BudgetSpent))
}

/// The place and the index of the newest token on the bench of the one at this place.
fn newest_token(crew: &mut Crew, place: usize) -> Option<(u64, u32)>
    requires place { place < length crew.old.members.items }
    requires ready { All (λ m. IsOffWork crew.old.ledger m.pass.number m.pass m.engine)
        crew.old.members.items }
    ensures ready { All (λ m. IsOffWork crew.new.ledger m.pass.number m.pass m.engine)
        crew.new.members.items }
    ensures ledger { crew.new.ledger ≡ crew.old.ledger }
    ensures count { length crew.new.members.items ≡ length crew.old.members.items }
{
    let token = crew.members[place].bench.own()?;
    Some((token.number.place, token.number.index))
}

/// A sweep goes on with the book, and finds the rest.
fn go_on(rt: &impl Abort, alloc: Global, mut book: Book) -> Result<(), AllocError>
    requires { AreUnheld (state_of book).pending }
{
    let mut engine = Engine::make(alloc, book.subject())?;
    assert_eq!(rt; sweep(&mut book, &mut engine, None)?, Swept::Finished);
    is_parity(rt, book);
    Ok(())
}

#[test]
fn a_worker_that_finds_the_budget_spent_does_nothing(rt: HostRuntime) -> Result<(), Fail> {
    let mut crew = new_crew(&rt, rt.alloc(), &PARITY, 2)?;
    let stop = Stop::make(Some(1));
    assert!(rt; crew.members.len() == 2);
    assert!(rt; finds_it_spent(&rt, &mut crew, 1, &stop));
    assert_eq!(rt; newest_token(&mut crew, 1), Some((2, 0)));
    assert!(rt; finds_it_spent(&rt, &mut crew, 0, &stop));
    let book = close(&rt, rt.alloc(), 2, crew)?;
    assert_eq!(rt; book.journal().len(), 3);
    assert_eq!(rt; book.spent(), 1);
    go_on(&rt, rt.alloc(), book)?;
    Ok(())
}

/// Lets the one at this place work, and tells whether it finished.
fn finishes<R: Wait>(rt: &R, crew: &mut Crew, place: usize, stop: &Stop) -> bool
    requires place { place < length crew.old.members.items }
    requires ready { All (λ m. IsOffWork crew.old.ledger m.pass.number m.pass m.engine)
        crew.old.members.items }
    ensures ready { All (λ m. IsOffWork crew.new.ledger m.pass.number m.pass m.engine)
        crew.new.members.items }
    ensures ledger { crew.new.ledger ≡ crew.old.ledger }
    ensures count { length crew.new.members.items ≡ length crew.old.members.items }
{
    let member = &mut crew.members[place];
    work_one(rt, &crew.ledger, member, &OpenGate, stop);
    matches!(member.worked, Some(Worked::Finished))
}

/// The one at this place offers a lemma.
fn offer_from(crew: &mut Crew, place: usize, lemma: Lemma)
    requires place { place < length crew.old.members.items }
    requires ready { All (λ m. IsOffWork crew.old.ledger m.pass.number m.pass m.engine)
        crew.old.members.items }
    ensures ready { All (λ m. IsOffWork crew.new.ledger m.pass.number m.pass m.engine)
        crew.new.members.items }
    ensures ledger { crew.new.ledger ≡ crew.old.ledger }
    ensures count { length crew.new.members.items ≡ length crew.old.members.items }
{
    crew.members[place].post.offer(lemma);
}

/// The one at this place fetches a lemma.
fn fetch_at<R: Wait>(rt: &R, crew: &mut Crew, place: usize) -> Option<Lemma>
    requires place { place < length crew.old.members.items }
    requires ready { All (λ m. IsOffWork crew.old.ledger m.pass.number m.pass m.engine)
        crew.old.members.items }
    ensures ready { All (λ m. IsOffWork crew.new.ledger m.pass.number m.pass m.engine)
        crew.new.members.items }
    ensures ledger { crew.new.ledger ≡ crew.old.ledger }
    ensures count { length crew.new.members.items ≡ length crew.old.members.items }
{
    crew.members[place].post.fetch(rt)
}

/// Lets worker 0 work alone, where worker 1 has offered this lemma or none. Gives the book, and
/// what arrived at worker 1.
fn work_beside<R: Abort + Wait>(
    rt: &R,
    alloc: Global,
    lemma: Option<Lemma>,
) -> Result<(Book, Option<Lemma>), AllocError> {
    let mut crew = new_crew(rt, alloc, &HIDDEN_UNIT, 2)?;
    let stop = Stop::make(None);
    assert!(rt; crew.members.len() == 2);
    if let Some(lemma) = lemma {
        offer_from(&mut crew, 0, lemma);
    }
    assert!(rt; finishes(rt, &mut crew, 1, &stop));
    let arrived = fetch_at(rt, &mut crew, 0);
    assert!(rt; fetch_at(rt, &mut crew, 0).is_none());
    Ok((close(rt, alloc, 2, crew)?, arrived))
}

#[test]
fn a_lemma_that_arrives_spares_a_leaf(rt: HostRuntime) -> Result<(), Fail> {
    let (book, arrived) = work_beside(&rt, rt.alloc(), Some(Lemma::of(&[2])))?;
    assert!(rt; arrived.is_none());
    assert_eq!(rt; book.spent(), 1);
    let arranged = book.arrange();
    assert_eq!(rt; arranged.count(), 1);
    assert_eq!(rt; arranged.at(0), [2].as_slice());
    Ok(())
}

#[test]
fn a_lemma_that_is_learnt_is_sent(rt: HostRuntime) -> Result<(), Fail> {
    let (book, arrived) = work_beside(&rt, rt.alloc(), None)?;
    let lemma = arrived.ok_or("a lemma was learnt")?;
    assert!(rt; lemma.len == 1);
    assert_eq!(rt; lemma.lits[0], 2);
    assert!(rt; book.spent() >= 2);
    Ok(())
}
