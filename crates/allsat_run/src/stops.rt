//! For tests: runs that stop and go on, and whether what each saves is a partition.
ghost use Rattle.std.specs.Prelude.{IfOk};
ghost use Rattle.sat_terms.specs.Subjects.{IsSubject};

use crate::counts::Counts;
use crate::{Ended, Status, enumerate_alone};
use checkpoint::SavedView;
use fault_io::{BytesIn, BytesOut};
use plain_search::enumerate_plain;
use region_book::ArrangedBook;
use sat_terms::{CubeList, Subject};
use std::alloc::{AllocError, Global};
use std::process::Abort;

/// So many bytes are room enough for any text of a drawn formula.
const ROOM: usize = 100_000;

/// What one run came to: how it ended, the text that it wrote, how many leaves it spent, and how
/// often each assignment lies in a published cube, and in a pending prefix.
#[derive(Drop)]
pub(crate) struct Stop {
    pub(crate) status: Status,
    pub(crate) text: Vec<u8>,
    pub(crate) spent: u64,
    pub(crate) published: Counts,
    pub(crate) pending: Counts,
}

/// The counts that a run of this subject is compared with: how often its plain list holds each
/// assignment.
pub(crate) fn count_plain(alloc: Global, subject: &Subject) -> Result<Counts, AllocError>
    requires { IsSubject subject.now.formula.variables subject.now.formula.clauses
        subject.now.shown subject.now.under }
{
    let shown = subject.shown.as_slice();
    let cubes = enumerate_plain(alloc, subject)?;
    let mut counts = Counts::none(alloc, shown)?;
    counts.count_all(shown, &cubes);
    counts.keep_within(shown, subject.under.lits());
    Ok(counts)
}

/// How often the published cubes hold each assignment.
fn count_published(alloc: Global, book: &ArrangedBook) -> Result<Counts, AllocError> {
    let shown = book.subject().shown.as_slice();
    let mut counts = Counts::none(alloc, shown)?;
    for i in 0..book.count() {
        counts.count(shown, book.at(i));
    }
    Ok(counts)
}

/// How often the pending prefixes hold each assignment.
fn count_pending(alloc: Global, book: &ArrangedBook) -> Result<Counts, AllocError> {
    let shown = book.subject().shown.as_slice();
    let mut counts = Counts::none(alloc, shown)?;
    for i in 0..book.pending_count() {
        counts.count(shown, book.prefix(i));
    }
    Ok(counts)
}

/// One run on a text, with a budget.
pub(crate) fn run_once(
    rt: &impl Abort,
    alloc: Global,
    text: Vec<u8>,
    budget: Option<u64>,
) -> Result<Stop, AllocError> {
    let mut input = BytesIn::make(text, 65_536, Vec::new(alloc));
    let mut out = BytesOut::make(alloc, ROOM, 65_536, Vec::new(alloc))?;
    let ended = enumerate_alone(alloc, &mut input, &mut out, budget);
    stop_of(rt, alloc, ended, &out)
}

/// What a run came to that ended with a book and wrote this.
pub(crate) fn stop_of(
    rt: &impl Abort,
    alloc: Global,
    ended: Ended,
    out: &BytesOut,
) -> Result<Stop, AllocError> {
    let book = ended.book.expect(rt, "a book");
    Ok(Stop {
        status: ended.status,
        text: out.bytes().to_vec(alloc)?,
        spent: book.spent(),
        published: count_published(alloc, &book)?,
        pending: count_pending(alloc, &book)?,
    })
}

/// Whether each assignment that the plain list holds lies in one published cube or one pending
/// prefix, and no other in a published cube.
pub(crate) fn is_partition(plain: &[u32], published: &[u32], pending: &[u32]) -> bool {
    for (at, wanted) in plain.iter().enumerate() {
        let found = published.get(at).copied().unwrap_or(9);
        let open = pending.get(at).copied().unwrap_or(9);
        let right = if *wanted == 1 {
            found.saturating_add(open) == 1
        } else {
            found == 0 && open <= 1
        };
        if !right {
            return false;
        }
    }
    true
}

impl Stop {
    /// The text that it wrote.
    pub(crate) fn into_text(self) -> Vec<u8> {
        self.text
    }

    /// Whether it has done what it may: the leaves within the budget, which is spent where
    /// something is pending, and a partition.
    pub(crate) fn is_right(&self, plain: &Counts, budget: Option<u64>) -> bool {
        let spends = match self.status {
            Status::Finished => budget.is_none_or(|most| self.spent <= most),
            Status::BudgetSpent => budget == Some(self.spent),
            _ => false,
        };
        spends && self.is_partition_of(plain)
    }

    /// Whether what is published and what is pending are a partition.
    pub(crate) fn is_partition_of(&self, plain: &Counts) -> bool {
        is_partition(
            plain.as_slice(),
            self.published.as_slice(),
            self.pending.as_slice(),
        )
    }
}
