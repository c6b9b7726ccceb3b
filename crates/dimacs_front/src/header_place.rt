//! The header's line, token by token.
ghost use Rattle.std.specs.Prelude.{◌≡◌};
ghost use Rattle.dimacs_tokens.specs.Numbers.{value_of};
ghost use Rattle.dimacs_front.specs.HeaderLines.{natural};
ghost use Rattle.dimacs_front.specs.MachineHeader.{header_begun, header_after, behind_variables};
ghost use Rattle.dimacs_front.specs.MachineHeader.{behind_clauses};

use dimacs_tokens::{Numeral, Seen};

/// The place in a header's line, with what its tokens said so far.
#[derive(Clone, Copy)]
pub enum HeaderPlace {
    /// Behind `p`.
    Word,
    /// Behind `cnf`.
    Variables,
    /// Behind the number of variables.
    Clauses { variables: u32 },
    /// Behind the number of clauses.
    End { variables: u32, clauses: u32 },
    /// Behind a token that no header has there.
    Broken,
}

impl HeaderPlace {
    /// The place behind the line's first token.
    pub fn first(token: &Seen) -> HeaderPlace
        ensures { result ≡ header_begun token.now }
    {
        if token.is_word(b"p") {
            HeaderPlace::Word
        } else {
            HeaderPlace::Broken
        }
    }

    /// The place behind one more token.
    pub fn after(self, token: &Seen) -> HeaderPlace
        ensures { result ≡ header_after self token.now }
    {
        match self {
            HeaderPlace::Word if token.is_word(b"cnf") => HeaderPlace::Variables,
            HeaderPlace::Variables => behind_variables(natural(token.number())),
            HeaderPlace::Clauses { variables } => behind_clauses(
                variables,
                natural(token.number()),
            ),
            _ => HeaderPlace::Broken,
        }
    }
}

/// The value of a number token without a minus.
pub fn natural(number: Numeral) -> Option<u32>
    ensures { result ≡ natural (value_of number) }
{
    match number {
        Numeral::Whole {
            negative: false,
            size,
        } => Some(size),
        _ => None,
    }
}

fn behind_variables(variables: Option<u32>) -> HeaderPlace
    ensures { result ≡ behind_variables variables }
{
    match variables {
        Some(variables) => HeaderPlace::Clauses { variables },
        None => HeaderPlace::Broken,
    }
}

fn behind_clauses(variables: u32, clauses: Option<u32>) -> HeaderPlace
    ensures { result ≡ behind_clauses variables clauses }
{
    match clauses {
        Some(clauses) => HeaderPlace::End { variables, clauses },
        None => HeaderPlace::Broken,
    }
}
