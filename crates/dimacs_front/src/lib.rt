//! The reader of DIMACS CNF text.
//!
//! `read_subject` takes comments, projection lines, a header, clauses that span or share lines, and
//! a line that ends the formula, texts that a stopped run has saved, and met texts, which tell of
//! cubes why they are right. It judges a text token by token while its bytes come, so a line of any
//! length costs no memory, and gives the formula as it was written. It rests on the tokens of
//! DIMACS text, on sources of bytes and on the terms.
#![tactic(auto)]

mod comment_place;
mod header_place;
mod input;
#[cfg(test)]
mod length_tests;
#[cfg(test)]
mod limit_tests;
mod limits;
mod line_place;
#[cfg(test)]
mod made_text;
mod met_lines;
mod read;
pub mod refusal_laws;
mod refused;
mod saved_lines;
mod saved_place;
mod show_lines;
pub mod text_laws;
mod text_reader;
#[cfg(test)]
mod text_rows;
mod text_state;
mod under_lines;
mod written;

pub use input::Input;
pub use limits::{MOST_BYTES, MOST_CLAUSES, MOST_LITERALS, MOST_SHOWN, MOST_VARIABLES};
pub use read::read_subject;
pub use refused::{ReadRefused, TextRefused};

#[cfg(test)]
mod tests;
