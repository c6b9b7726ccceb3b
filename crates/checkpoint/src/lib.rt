//! What a stopped run leaves behind: the cubes that it found, and the prefixes that are pending;
//! and the text that it is saved as.
//!
//! It stands on the terms of cubes, on lines of numbers, and on sinks that may fail at any call.
#![tactic(auto)]

mod cube_line;
mod saved;
mod saved_text;
mod saved_view;

pub use cube_line::{CubeLineRefused, read_cube_line};
pub use saved::Saved;
pub use saved_text::write_saved;
pub use saved_view::SavedView;

#[cfg(test)]
mod tests;
