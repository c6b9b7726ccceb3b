//! The whole program as one call: words and bytes in, a listing or a saved text and a status out.
#![tactic(auto)]

#[cfg(test)]
mod check_tests;
mod checking;
#[cfg(test)]
mod counts;
mod crew;
#[cfg(test)]
mod drawn;
#[cfg(test)]
mod drill_tests;
mod drilling;
mod enumerate;
#[cfg(test)]
mod fault_tests;
pub mod laws;
mod notes;
#[cfg(test)]
mod one_job;
#[cfg(test)]
mod pieces;
#[cfg(test)]
mod random_tests;
mod reading;
#[cfg(test)]
mod resume_tests;
#[cfg(test)]
mod saved_tests;
mod search;
mod sharing;
#[cfg(test)]
mod sharing_tests;
mod status;
#[cfg(test)]
mod stops;

pub use command_words::Words;
pub use cube_check::Verdict;
pub use dimacs_front::TextRefused;
pub use enumerate::{enumerate_alone, run};
pub use notes::write_note;
pub use status::{Ended, Status};
pub use worker_loop::{Gate, OpenGate, Point};

#[cfg(test)]
mod tests;
