//! The ground of every reader of DIMACS text: what ends a line, what parts tokens, and which tokens
//! are numbers. It says what lines and tokens of a whole text are, and offers what a reader keeps
//! of a token while its bytes come. It rests on the standard library and a vector of fixed
//! capacity.
#![tactic(auto)]

pub mod bytes;
pub mod laws;
mod numerals;
mod tokens;

pub use numerals::Numeral;
pub use tokens::Seen;

#[cfg(test)]
mod tests;
