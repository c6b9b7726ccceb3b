//! Benches on which workers leave tokens for each other.
//!
//! Each worker has a bench. It puts tokens on its own, takes the newest of them back, and steals
//! the oldest of another's. A bench is a deque of `crossbeam_deque`, and under its rule each token
//! that was put is taken once or is left. Whether some worker is hungry is told as advice.
#![tactic(auto)]

mod bench;
mod other;
mod pool;
mod rule;
mod taking;

pub use bench::Bench;
pub use pool::Pool;
pub use rule::Hand;

#[cfg(test)]
mod tests;
