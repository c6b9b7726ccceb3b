//! For tests: texts of small hard formulas, drawn without a pattern, the same ones each time.
ghost use Rattle.std.specs.Prelude.{◌<◌, ◌≤◌, nat_abs};

use itoa::Buffer;
use std::alloc::{AllocError, Global};

/// At most so many variables of a drawn formula are shown.
pub(crate) const MOST_SHOWN: u32 = 9;

/// Numbers without a pattern: shifts and sums without carry of 64 bits (Marsaglia, Xorshift RNGs,
/// 2003).
#[derive(Debug, Drop)]
pub(crate) struct Draws {
    state: u64,
}

impl Draws {
    /// The numbers that this one starts; 0 starts those of 1.
    pub(crate) fn from(start: u64) -> Draws {
        Draws {
            state: start.max(1),
        }
    }

    /// A number below the end.
    pub(crate) fn below(&mut self, end: u32) -> u32
        requires { 0 < end }
        ensures { result < end }
    {
        self.state ^= self.state << 13;
        self.state ^= self.state >> 7;
        self.state ^= self.state << 17;
        (self.state % end as u64) as u32
    }

    /// A literal of a variable.
    fn literal_of(&mut self, variable: u32) -> i32
        requires { variable ≤ 13 }
        ensures { nat_abs result ≤ 13 }
    {
        if self.below(2) == 0 {
            variable as i32
        } else {
            -(variable as i32)
        }
    }

    /// A literal of the variables 1 to `variables`.
    fn literal(&mut self, variables: u32) -> i32
        requires some { 0 < variables }
        requires few { variables ≤ 13 }
        ensures { nat_abs result ≤ 13 }
    {
        let variable = self.below(variables) + 1;
        self.literal_of(variable)
    }
}

/// Writes a number and a space.
fn put(text: &mut Vec<u8>, number: i32) -> Result<(), AllocError> {
    let mut buffer = Buffer::new();
    text.extend_from_slice(buffer.format(number).as_bytes())?;
    text.push(b' ')?;
    Ok(())
}

/// Writes a clause of three or four literals. One of them may stand twice, or beside its negation.
fn put_clause(text: &mut Vec<u8>, draws: &mut Draws, variables: u32) -> Result<(), AllocError>
    requires some { 0 < variables }
    requires few { variables ≤ 13 }
{
    for _ in 0..3 + draws.below(2) {
        put(text, draws.literal(variables))?;
    }
    text.extend_from_slice(b"0\n")
}

/// Writes a clause of three literals.
fn put_three(text: &mut Vec<u8>, first: i32, second: i32, third: i32) -> Result<(), AllocError> {
    put(text, first)?;
    put(text, second)?;
    put(text, third)?;
    text.extend_from_slice(b"0\n")
}

/// Writes the four clauses by which an odd number of three literals is true.
fn put_parity(text: &mut Vec<u8>, draws: &mut Draws, variables: u32) -> Result<(), AllocError>
    requires some { 0 < variables }
    requires few { variables ≤ 13 }
{
    let first = draws.literal(variables);
    let second = draws.literal(variables);
    let third = draws.literal(variables);
    put_three(text, first, second, third)?;
    put_three(text, first, -second, -third)?;
    put_three(text, -first, second, -third)?;
    put_three(text, -first, -second, third)
}

/// Writes the show line, and one that gives some literals of shown variables.
fn put_shown(text: &mut Vec<u8>, draws: &mut Draws, variables: u32) -> Result<(), AllocError>
    requires { variables ≤ 13 }
{
    let mut given = Vec::new(*text.allocator());
    let mut count: u32 = 0;
    let one_in = 3 + draws.below(20);
    text.extend_from_slice(b"c p show ")?;
    for below in 0..variables {
        if count < MOST_SHOWN && draws.below(4) > 0 {
            count += 1;
            put(text, below as i32 + 1)?;
            if draws.below(one_in) == 0 {
                put(&mut given, draws.literal_of(below + 1))?;
            }
        }
    }
    text.extend_from_slice(b"0\nc p under ")?;
    text.extend_from_slice(&given)?;
    text.extend_from_slice(b"0\n")
}

/// A formula of 9 to 13 variables, with three to five times as many clauses, and up to two parities
/// of three literals. At most nine variables are shown. About three of four have a solution.
pub(crate) fn draw_text(alloc: Global, draws: &mut Draws) -> Result<Vec<u8>, AllocError> {
    let variables = 9 + draws.below(5);
    let clauses = variables * (3 + draws.below(3));
    let parities = draws.below(3);
    let mut text = Vec::new(alloc);
    text.extend_from_slice(b"p cnf ")?;
    put(&mut text, variables as i32)?;
    put(&mut text, (clauses + 4 * parities) as i32)?;
    text.push(b'\n')?;
    put_shown(&mut text, draws, variables)?;
    for _ in 0..clauses {
        put_clause(&mut text, draws, variables)?;
    }
    for _ in 0..parities {
        put_parity(&mut text, draws, variables)?;
    }
    Ok(text)
}
