//! The workers of a run, each with what it works with.
ghost use Rattle.std.specs.Prelude.{◌≡◌, ◌+◌, ◌<◌, ◌≤◌, ◌++◌, [], ◌∷◌, None, IfOk, length, vec_capacity};
ghost use Rattle.std.specs.List.{All};
ghost use Rattle.sat_terms.specs.Subjects.{IsSubject};
ghost use Rattle.region_ledger.specs.Hands.{subject_of, IsFreeHand};
ghost use Rattle.allsat_run.specs.Crews.{IsTool, IsSeated};

use clause_exchange::{Exchange, Post};
use live_engine::Engine;
use region_book::Book;
use region_ledger::{Ledger, Pass};
use sat_terms::Subject;
use std::alloc::{AllocError, Global};
use std::sync::Wait;
use std::thread;
use std::thread::Threads;
use steal_pool::{Bench, Pool};
use worker_loop::{Gate, Stop, Worked, work};

/// What a worker has beside its pass. Here and below the parts are parameters: that a thread may be
/// given them is found through these.
#[derive(Drop)]
pub(crate) struct Tools<E, B, P> {
    pub(crate) engine: E,
    pub(crate) bench: B,
    pub(crate) post: P,
}

pub(crate) type Toolkit = Tools<Engine, Bench, Post>;

/// A worker with its pass.
#[derive(Drop)]
pub(crate) struct Seated<T, P> {
    pub(crate) tools: T,
    pub(crate) pass: P,
    /// Whether it ended because there was no memory.
    pub(crate) was_refused: bool,
}

pub(crate) type Member = Seated<Toolkit, Pass>;

/// The tools of so many workers, with an engine of the subject each.
pub(crate) fn make_tools(
    alloc: Global,
    subject: &Subject,
    workers: u32,
) -> Result<Vec<Toolkit>, AllocError>
    requires subject { IsSubject subject.now.formula.variables subject.now.formula.clauses
        subject.now.shown subject.now.under }
    requires some { 1 ≤ workers }
    requires few { workers ≤ 16 }
    ensures count { IfOk result (λ tools. length tools.items ≡ workers) }
    ensures tools { IfOk result (λ tools. All (IsTool subject.now) tools.items) }
{
    let mut benches = Pool::make(alloc, workers)?;
    let mut posts = Exchange::make(alloc, workers)?;
    let mut all = Vec::new(alloc);
    for _worker in 0..workers {
        let engine = Engine::make(alloc, subject)?;
        let bench = take_last(&mut benches);
        let post = take_last(&mut posts);
        all.push(Tools {
            engine,
            bench,
            post,
        })?;
    }
    Ok(all)
}

/// Takes the last element of a list.
fn take_last<T>(list: &mut Vec<T>) -> T
    requires { 0 < length list.old.items }
    ensures last { list.old.items ≡ list.new.items ++ result ∷ [] }
    ensures fewer { length list.new.items + 1 ≡ length list.old.items }
    ensures room { vec_capacity list.old ≤ vec_capacity list.new }
{
    let Some(last) = list.pop() else {
        unreachable!()
    };
    last
}

/// The engine of the last tools, of which there are some for the subject of the book.
pub(crate) fn last_engine(book: &Book, mut tools: Vec<Toolkit>) -> Engine
    requires tools { All (IsTool book.now.subject) tools.items }
    requires some { 0 < length tools.items }
    ensures same { result.subject ≡ book.now.subject }
    ensures idle { result.job ≡ None }
{
    let Tools { engine, .. } = take_last(&mut tools);
    engine
}

/// Gives each pass its tools. The list of members has room for them, and that of the passes keeps
/// its own.
pub(crate) fn seat(
    ledger: &Ledger,
    passes: &mut Vec<Pass>,
    mut tools: Vec<Toolkit>,
    mut members: Vec<Member>,
) -> Vec<Member>
    requires free { All (IsFreeHand ledger.now) passes.old.items }
    requires tools { All (IsTool (subject_of ledger.now)) tools.items }
    requires even { length tools.items ≡ length passes.old.items }
    requires empty { members.items ≡ [] }
    requires room { length tools.items ≤ vec_capacity members }
    ensures ready { All (IsSeated ledger.now) result.items }
    ensures count { length result.items ≡ length passes.old.items }
    ensures none { passes.new.items ≡ [] }
    ensures room { vec_capacity passes.old ≤ vec_capacity passes.new }
{
    for _worker in 0..tools.len() {
        seat_one(ledger, &mut members, &mut tools, passes);
    }
    members
}

/// Makes a member of the last tools and the last pass. There is room for it.
fn seat_one(
    ledger: &Ledger,
    members: &mut Vec<Member>,
    tools: &mut Vec<Toolkit>,
    passes: &mut Vec<Pass>,
)
    requires ready { All (IsSeated ledger.now) members.old.items }
    requires tools { All (IsTool (subject_of ledger.now)) tools.old.items }
    requires free { All (IsFreeHand ledger.now) passes.old.items }
    requires some { 0 < length tools.old.items }
    requires even { length tools.old.items ≡ length passes.old.items }
    requires room { length members.old.items < vec_capacity members.old }
    ensures ready { All (IsSeated ledger.now) members.new.items }
    ensures tools { All (IsTool (subject_of ledger.now)) tools.new.items }
    ensures free { All (IsFreeHand ledger.now) passes.new.items }
    ensures more { length members.new.items ≡ length members.old.items + 1 }
    ensures fewer_tools { length tools.new.items + 1 ≡ length tools.old.items }
    ensures fewer_passes { length passes.new.items + 1 ≡ length passes.old.items }
    ensures room { vec_capacity passes.old ≤ vec_capacity passes.new }
    ensures member_room { vec_capacity members.old ≤ vec_capacity members.new }
{
    let member = Seated {
        tools: take_last(tools),
        pass: take_last(passes),
        was_refused: false,
    };
    if members.push(member).is_err() {
        unreachable!()
    }
}

/// Lets all members work, each on a thread of its own where threads can be had.
pub(crate) fn work_all<R: Threads + Wait + Sync, G: Gate + Sync>(
    rt: &R,
    ledger: &Ledger,
    members: &mut [Member],
    gate: &G,
    stop: &Stop,
)
    requires some { 0 < length members.old }
    requires ready { All (IsSeated ledger.now) members.old }
    ensures { All (IsSeated ledger.now) members.new }
{
    thread::for_each_mut(
        rt,
        members,
        members.len(),
        &|_, member| work_one(rt, ledger, member, gate, stop),
    );
}

/// Lets one member work.
fn work_one<R: Wait, G: Gate>(rt: &R, ledger: &Ledger, member: &mut Member, gate: &G, stop: &Stop)
    requires { IsSeated ledger.now member.old }
    ensures { IsSeated ledger.now member.new }
{
    let Seated {
        tools,
        pass,
        was_refused,
    } = member;
    let Tools {
        engine,
        bench,
        post,
    } = tools;
    *was_refused = match work(rt, engine, ledger, pass, bench, post, gate, stop) {
        Worked::OutOfMemory(_) => true,
        Worked::Finished | Worked::BudgetSpent => false,
    };
}

/// Takes the passes back into their list, which has room for them. One engine is left, and whether
/// some worker was refused memory.
pub(crate) fn unseat(
    ledger: &Ledger,
    mut members: Vec<Member>,
    passes: &mut Vec<Pass>,
) -> (Engine, bool)
    requires ready { All (IsSeated ledger.now) members.items }
    requires some { 0 < length members.items }
    requires empty { passes.old.items ≡ [] }
    requires room { length members.items ≤ vec_capacity passes.old }
    ensures free { All (IsFreeHand ledger.now) passes.new.items }
    ensures count { length passes.new.items ≡ length members.items }
    ensures idle { result.0.job ≡ None }
    ensures same { result.0.subject ≡ subject_of ledger.now }
{
    let Seated {
        tools,
        pass,
        was_refused,
    } = take_member(ledger, &mut members);
    let Tools { engine, .. } = tools;
    put_back(ledger, passes, pass);
    let mut refused = was_refused;
    for _worker in 0..members.len() {
        let Seated {
            pass,
            was_refused,
            ..
        } = take_member(ledger, &mut members);
        refused = refused || was_refused;
        put_back(ledger, passes, pass);
    }
    (engine, refused)
}

/// Takes the last of the members.
fn take_member(ledger: &Ledger, members: &mut Vec<Member>) -> Member
    requires ready { All (IsSeated ledger.now) members.old.items }
    requires some { 0 < length members.old.items }
    ensures ready { IsSeated ledger.now result }
    ensures rest { All (IsSeated ledger.now) members.new.items }
    ensures fewer { length members.new.items + 1 ≡ length members.old.items }
{
    take_last(members)
}

/// Puts a pass back into the list, which has room for it.
fn put_back(ledger: &Ledger, passes: &mut Vec<Pass>, pass: Pass)
    requires free { IsFreeHand ledger.now pass }
    requires all { All (IsFreeHand ledger.now) passes.old.items }
    requires room { length passes.old.items < vec_capacity passes.old }
    ensures all { All (IsFreeHand ledger.now) passes.new.items }
    ensures more { length passes.new.items ≡ length passes.old.items + 1 }
    ensures keeps { vec_capacity passes.old ≤ vec_capacity passes.new }
{
    if passes.push(pass).is_err() {
        unreachable!()
    }
}
