//! The words after the program's name, and the command that they make.
//!
//! Which words make which command is a definition over their bytes, in `specs/Commands.antt`. A
//! small recogniser of those words stands before `clap`, which reads them.
#![tactic(auto)]

mod command;
mod fault;
mod number;
mod options;
mod parsing;
mod reading;
mod words;

pub use command::{Command, read_words};
pub use fault::WordsFault;
pub use words::Words;

#[cfg(test)]
mod tests;
