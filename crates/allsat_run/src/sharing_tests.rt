//! Runs by several workers: whatever they do at once, the listing is the same where no cube could
//! be cut in another way, and else it holds what the plain lister says.
use crate::counts::Counts;
use crate::drawn::{Draws, draw_text};
use crate::resume_tests::wanted_of;
use crate::stops::{Stop, stop_of};
use crate::{Gate, OpenGate, Point, Status, Words, run};
use fault_io::{BytesIn, BytesOut};
use std::alloc::{AllocError, Global};
use std::process::Abort;
use std::sync::Wait;
use std::sync::atomic::{AtomicBool, AtomicU64, Ordering};
use std::test::Fail;
use std::thread;
use std::thread::Threads;

/// So many bytes are room enough for any text of these formulas.
const ROOM: usize = 100_000;

/// An odd number of three variables is true. No two of its four models differ in one variable, so
/// each is a cube of its own.
const PARITY: &[u8] = b"p cnf 3 4\n1 2 3 0\n1 -2 -3 0\n-1 2 -3 0\n-1 -2 3 0\n";

const FOUR: &[u8] = b"v -1 -2 3 0\nv -1 2 -3 0\nv 1 -2 -3 0\nv 1 2 3 0\ns ALL\n";

/// The words to enumerate by so many workers, with a budget where one is given.
fn words_of(alloc: Global, workers: &str, budget: Option<&str>) -> Result<Words, AllocError> {
    let mut words = Words::make(alloc);
    words.push("enumerate")?;
    words.push("--workers")?;
    words.push(workers)?;
    if let Some(budget) = budget {
        words.push("--budget")?;
        words.push(budget)?;
    }
    Ok(words)
}

/// One run on a text, whose workers pass no gate.
fn run_by<R: Threads + Wait + Sync + AllocGlobal + Abort>(
    rt: &R,
    text: Vec<u8>,
    workers: &str,
    budget: Option<&str>,
) -> Result<Stop, AllocError> {
    run_through(rt, text, workers, budget, &OpenGate)
}

/// One run on a text, whose workers pass this gate.
fn run_through<R: Threads + Wait + Sync + AllocGlobal + Abort, G: Gate + Sync>(
    rt: &R,
    text: Vec<u8>,
    workers: &str,
    budget: Option<&str>,
    gate: &G,
) -> Result<Stop, AllocError> {
    let alloc = rt.alloc();
    let words = words_of(alloc, workers, budget)?;
    let mut input = BytesIn::make(text, 65_536, Vec::new(alloc));
    let mut out = BytesOut::make(alloc, ROOM, 65_536, Vec::new(alloc))?;
    let mut notes = BytesOut::make(alloc, 200, 200, Vec::new(alloc))?;
    let ended = run(rt, alloc, &words, &mut input, &mut out, &mut notes, gate);
    stop_of(rt, alloc, ended, &out)
}

#[test]
fn any_number_of_workers_writes_the_same_listing(rt: HostRuntime) -> Result<(), Fail> {
    for workers in ["1", "2", "16"] {
        let stop = run_by(&rt, PARITY.to_vec(rt.alloc())?, workers, None)?;
        assert_eq!(rt; stop.status, Status::Finished);
        assert_eq!(rt; stop.into_text().as_slice(), FOUR);
    }
    Ok(())
}

#[test]
fn two_workers_stop_and_their_text_is_gone_on_with(rt: HostRuntime) -> Result<(), Fail> {
    let mut stop = run_by(&rt, PARITY.to_vec(rt.alloc())?, "2", Some("1"))?;
    assert_eq!(rt; stop.status, Status::BudgetSpent);
    assert!(rt; stop.spent == 1 || stop.spent == 2);
    for _ in 0..20 {
        if stop.status == Status::Finished {
            break;
        }
        stop = run_by(&rt, stop.into_text(), "2", Some("1"))?;
    }
    assert_eq!(rt; stop.into_text().as_slice(), FOUR);
    Ok(())
}

/// A gate that holds the worker which gives first, until another was at a leaf.
#[derive(Drop)]
struct HoldingGate {
    /// Whether some worker gave.
    given: AtomicBool,
    /// A bit for each worker that was at a leaf.
    at_leaf: AtomicU64,
    /// Whether the other came in time.
    met: AtomicBool,
}

impl HoldingGate {
    /// Waits until another worker than this one was at a leaf, but not for ever.
    fn wait_for_another(&self, bit: u64) {
        for _ in 0..10_000_000 {
            if self.at_leaf.load(Ordering::SeqCst) & !bit != 0 {
                self.met.store(true, Ordering::SeqCst);
                return;
            }
            thread::yield_now();
        }
    }
}

impl Gate for HoldingGate {
    fn at(&self, worker: u32, point: Point) {
        let bit = 1 << (worker % 16) as u64;
        match point {
            Point::Leaf => {
                self.at_leaf.fetch_or(bit, Ordering::SeqCst);
            }
            Point::Given => {
                if !self.given.swap(true, Ordering::SeqCst) {
                    self.wait_for_another(bit);
                }
            }
            Point::Begun | Point::Ended => {}
        }
    }
}

#[test]
fn two_workers_work_at_once(rt: HostRuntime) -> Result<(), Fail> {
    let gate = HoldingGate {
        given: AtomicBool::new(false),
        at_leaf: AtomicU64::new(0),
        met: AtomicBool::new(false),
    };
    let stop = run_through(&rt, PARITY.to_vec(rt.alloc())?, "2", None, &gate)?;
    assert!(rt; gate.given.load(Ordering::SeqCst));
    assert!(rt; gate.met.load(Ordering::SeqCst));
    assert_eq!(rt; gate.at_leaf.load(Ordering::SeqCst), 3);
    assert_eq!(rt; stop.into_text().as_slice(), FOUR);
    Ok(())
}

/// Stops a run early, and goes on from its text. Both are right.
fn stop_and_go_on<R: Threads + Wait + Sync + AllocGlobal + Abort>(
    rt: &R,
    text: Vec<u8>,
    workers: &str,
    plain: &Counts,
) -> Result<bool, AllocError> {
    let stop = run_by(rt, text, workers, Some("5"))?;
    if stop.status == Status::Finished || !stop.is_partition_of(plain) {
        return Ok(stop.is_partition_of(plain));
    }
    let rest = run_by(rt, stop.into_text(), workers, None)?;
    Ok(rest.status == Status::Finished && rest.is_partition_of(plain))
}

/// Lists a drawn formula by two and by four workers.
fn compare<R: Threads + Wait + Sync + AllocGlobal + Abort>(
    rt: &R,
    start: u64,
) -> Result<(), AllocError> {
    let alloc = rt.alloc();
    let text = draw_text(alloc, &mut Draws::from(start))?;
    let plain = wanted_of(rt, alloc, &text)?;
    for workers in ["2", "4"] {
        let whole = run_by(rt, text.to_vec(alloc)?, workers, None)?;
        assert!(rt;
            whole.status == Status::Finished,
            "formula {start}, {workers} workers"
        );
        assert!(rt;
            whole.is_partition_of(&plain),
            "formula {start}, {workers} workers"
        );
        let goes_on = stop_and_go_on(rt, text.to_vec(alloc)?, workers, &plain)?;
        assert!(rt; goes_on, "formula {start}, {workers} workers that stop");
    }
    Ok(())
}

#[test]
fn drawn_formulas_are_listed_right_by_two_and_four_workers(rt: HostRuntime) -> Result<(), Fail> {
    for number in 0..40u64 {
        compare(&rt, number.wrapping_mul(0x9e37_79b9_7f4a_7c15))?;
    }
    Ok(())
}
