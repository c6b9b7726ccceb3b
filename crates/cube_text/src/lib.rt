//! The listing of cubes as bytes, and the buffered writer that puts them out.
//!
//! Nothing here takes memory. It rests on the terms of cubes and on sinks that may fail at any
//! call.
#![tactic(auto)]

mod buffered;
pub mod laws;
mod line_front;
mod lines;
mod listing;

pub use buffered::Buffered;
pub use line_front::shared_front;
pub use lines::put_line;
pub use listing::write_listing;

#[cfg(test)]
mod tests;
