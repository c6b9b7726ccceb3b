//! Why a text is refused: the name, the line, and the number in notes to the user.
ghost use Rattle.std.specs.Prelude.{◌≡◌};
ghost use Rattle.dimacs_front.specs.Numbering.{number_of, name_of, line_of};

use std::alloc::AllocError;
use thiserror::Error;

/// Why a text is refused, with the line, counted from 1.
#[derive(Clone, Copy, Debug, PartialEq, Eq, Error)]
pub enum TextRefused {
    /// Before the header stands something that is neither a comment nor a header.
    #[error("line {line}: neither a comment nor a header")]
    BadStart { line: u64 },
    /// The header is not `p cnf` with two numbers.
    #[error("line {line}: the header is not `p cnf` with two numbers")]
    BadHeader { line: u64 },
    /// A second header.
    #[error("line {line}: a second header")]
    HeaderTwice { line: u64 },
    /// The text ends without a header.
    #[error("line {line}: there is no header")]
    NoHeader { line: u64 },
    /// A token among the clauses is no number.
    #[error("line {line}: a token of a clause is no number")]
    BadNumber { line: u64 },
    /// A literal's variable is above the header's number of variables.
    #[error("line {line}: a variable is above the header's number")]
    VariableTooLarge { line: u64 },
    /// The last clause has literals and no 0.
    #[error("line {line}: the last clause has no 0")]
    Unfinished { line: u64 },
    /// The header names another number of clauses than there are.
    #[error("line {line}: the header says {said} clauses, and there are {found}")]
    ClauseCount { line: u64, said: u32, found: u32 },
    /// A show line holds something that is no variable of the text.
    #[error("line {line}: a show line holds something that is no variable")]
    ShowBad { line: u64 },
    /// A show line has no 0.
    #[error("line {line}: a show line has no 0")]
    ShowUnended { line: u64 },
    /// The header names too many variables.
    #[error("line {line}: too many variables")]
    TooManyVariables { line: u64 },
    /// The header names, or the text has, too many clauses.
    #[error("line {line}: too many clauses")]
    TooManyClauses { line: u64 },
    /// The clauses have too many literals.
    #[error("line {line}: too many literals")]
    TooManyLiterals { line: u64 },
    /// Too many variables are shown.
    #[error("line {line}: too many variables are shown")]
    TooManyShown { line: u64 },
    /// The text has too many bytes.
    #[error("line {line}: the text is too long")]
    TextTooLong { line: u64 },
    /// An under line holds something that is no literal, one of a variable that is not shown, or
    /// one whose negation is given before it.
    #[error("line {line}: an under line holds what is no literal that can be given")]
    UnderBad { line: u64 },
    /// An under line has no 0.
    #[error("line {line}: an under line has no 0")]
    UnderUnended { line: u64 },
    /// In a saved or a met text, the first line has no version that is known, a line of its own
    /// holds no cube, or one that is not over the shown variables within the given literals, or
    /// hidden literals that are of no hidden variable, the end line has a further token, or one of
    /// these stands behind the end line.
    #[error("line {line}: a line of a saved or a met text is not what it has to be")]
    SavedBad { line: u64 },
    /// A saved or a met text has no end line.
    #[error("line {line}: a saved or a met text has no end line")]
    SavedUnended { line: u64 },
    /// The text is no met text, where one is asked for. No text is refused so by the reader.
    #[error("line {line}: the text is no met text")]
    NoMetText { line: u64 },
}

impl TextRefused {
    /// The number of the refusal in notes to the user.
    pub fn number(&self) -> u8
        ensures { result ≡ number_of self.now }
    {
        match self {
            TextRefused::BadStart { .. } => 1,
            TextRefused::BadHeader { .. } => 2,
            TextRefused::HeaderTwice { .. } => 3,
            TextRefused::NoHeader { .. } => 4,
            TextRefused::BadNumber { .. } => 5,
            TextRefused::VariableTooLarge { .. } => 6,
            TextRefused::Unfinished { .. } => 7,
            TextRefused::ClauseCount { .. } => 8,
            TextRefused::ShowBad { .. } => 9,
            TextRefused::ShowUnended { .. } => 10,
            TextRefused::TooManyVariables { .. } => 11,
            TextRefused::TooManyClauses { .. } => 12,
            TextRefused::TooManyLiterals { .. } => 13,
            TextRefused::TooManyShown { .. } => 14,
            TextRefused::TextTooLong { .. } => 15,
            TextRefused::SavedBad { .. } => 16,
            TextRefused::SavedUnended { .. } => 17,
            TextRefused::NoMetText { .. } => 19,
            TextRefused::UnderBad { .. } => 21,
            TextRefused::UnderUnended { .. } => 22,
        }
    }

    /// The name of the refusal in notes to the user.
    pub fn name(&self) -> &'static str
        ensures { result.now ≡ name_of self.now }
    {
        match self {
            TextRefused::BadStart { .. } => "BadStart",
            TextRefused::BadHeader { .. } => "BadHeader",
            TextRefused::HeaderTwice { .. } => "HeaderTwice",
            TextRefused::NoHeader { .. } => "NoHeader",
            TextRefused::BadNumber { .. } => "BadNumber",
            TextRefused::VariableTooLarge { .. } => "VariableTooLarge",
            TextRefused::Unfinished { .. } => "Unfinished",
            TextRefused::ClauseCount { .. } => "ClauseCount",
            TextRefused::ShowBad { .. } => "ShowBad",
            TextRefused::ShowUnended { .. } => "ShowUnended",
            TextRefused::TooManyVariables { .. } => "TooManyVariables",
            TextRefused::TooManyClauses { .. } => "TooManyClauses",
            TextRefused::TooManyLiterals { .. } => "TooManyLiterals",
            TextRefused::TooManyShown { .. } => "TooManyShown",
            TextRefused::TextTooLong { .. } => "TextTooLong",
            TextRefused::SavedBad { .. } => "SavedBad",
            TextRefused::SavedUnended { .. } => "SavedUnended",
            TextRefused::NoMetText { .. } => "NoMetText",
            TextRefused::UnderBad { .. } => "UnderBad",
            TextRefused::UnderUnended { .. } => "UnderUnended",
        }
    }

    /// The line that is refused.
    pub fn line(&self) -> u64
        ensures { result ≡ line_of self.now }
    {
        match self {
            TextRefused::BadStart { line } => *line,
            TextRefused::BadHeader { line } => *line,
            TextRefused::HeaderTwice { line } => *line,
            TextRefused::NoHeader { line } => *line,
            TextRefused::BadNumber { line } => *line,
            TextRefused::VariableTooLarge { line } => *line,
            TextRefused::Unfinished { line } => *line,
            TextRefused::ClauseCount { line, .. } => *line,
            TextRefused::ShowBad { line } => *line,
            TextRefused::ShowUnended { line } => *line,
            TextRefused::TooManyVariables { line } => *line,
            TextRefused::TooManyClauses { line } => *line,
            TextRefused::TooManyLiterals { line } => *line,
            TextRefused::TooManyShown { line } => *line,
            TextRefused::TextTooLong { line } => *line,
            TextRefused::SavedBad { line } => *line,
            TextRefused::SavedUnended { line } => *line,
            TextRefused::NoMetText { line } => *line,
            TextRefused::UnderBad { line } => *line,
            TextRefused::UnderUnended { line } => *line,
        }
    }
}

/// Why nothing was read.
#[derive(Clone, Copy, Debug, PartialEq, Eq, Error)]
pub enum ReadRefused {
    /// The text is refused.
    #[error(transparent)]
    Text(TextRefused),
    /// The source failed in this line, counted from 1.
    #[error("line {0}: the source failed")]
    ReadFault(u64),
    /// There was no memory.
    #[error("out of memory")]
    OutOfMemory(AllocError),
}

impl From<AllocError> for ReadRefused {
    ghost use Rattle.std.specs.Prelude.{◌≡◌};
    ghost use Rattle.dimacs_front.specs.declared.refused.ReadRefused.TheVariants.{OutOfMemory};

    ghost from_gives = { λ error refused. refused ≡ OutOfMemory error };

    fn from(error: AllocError) -> ReadRefused {
        ReadRefused::OutOfMemory(error)
    }
}
