//! How a run ended.
ghost use Rattle.std.specs.Prelude.{◌≡◌, None};

use cube_check::Verdict;
use dimacs_front::TextRefused;
use region_book::ArrangedBook;

/// How a run ended.
#[derive(Clone, Copy, Debug, PartialEq, Eq)]
pub enum Status {
    /// The listing is written, whole; of a drill its summary, of a check that all is right.
    Finished,
    /// The words are no command.
    WordsRefused,
    /// The input is refused.
    InputRefused(TextRefused),
    /// As many leaves were searched as the budget says, and something is pending; the saved text is
    /// written.
    BudgetSpent,
    /// There was no memory. Where the search had begun and something is pending, the saved text is
    /// written, and else nothing.
    OutOfMemory,
    /// The input failed in this line, counted from 1.
    ReadFault(u64),
    /// The output failed; a front of what was to be written is there.
    WriteFault,
    /// The check of a met text found this, which is not that it is right; the verdict's line is
    /// written.
    CheckedNo(Verdict),
}

impl Status {
    ghost use Rattle.allsat_run.specs.Status.{code_of};

    /// The exit code of the program.
    pub fn code(&self) -> u8
        ensures { result ≡ code_of self.now }
    {
        match self {
            Status::Finished => 0,
            Status::WordsRefused => 1,
            Status::InputRefused(_) => 2,
            Status::BudgetSpent => 3,
            Status::OutOfMemory => 4,
            Status::ReadFault(_) => 5,
            Status::WriteFault => 6,
            Status::CheckedNo(_) => 7,
        }
    }
}

/// What a run leaves behind.
#[derive(Drop)]
pub struct Ended {
    pub status: Status,
    /// The book of the search, where it had begun.
    pub book: Option<ArrangedBook>,
}

impl Ended {
    /// An end without a book.
    pub(crate) fn alone(status: Status) -> Ended
        ensures status { result.status ≡ status }
        ensures book { result.book ≡ None }
    {
        Ended { status, book: None }
    }
}
