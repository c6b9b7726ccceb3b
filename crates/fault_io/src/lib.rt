//! The outside: where bytes come from and where they go, with a count of faults.
//!
//! A `Source` and a `Sink` may fail at any call. What a contract knows of them is what they tell:
//! the bytes that moved, and that the count rose where a call failed.
#![tactic(auto)]

mod bytes_in;
mod bytes_out;
mod sink;
mod source;
mod std_sink;
mod std_source;
mod whole;

pub use bytes_in::BytesIn;
pub use bytes_out::BytesOut;
pub use sink::Sink;
pub use source::{Failed, Source};
pub use std_sink::StdSink;
pub use std_source::StdSource;
pub use whole::{WriteFault, write_whole};

/// How often a call on a stream of std is tried at most, where each is interrupted.
pub const MOST_TRIES: usize = 1_000;

#[cfg(test)]
mod tests;
