//! Where a thief steals.
ghost use Rattle.std.specs.Prelude.{◌≡◌};
ghost use Rattle.crossbeam_deque.specs.Handles.{IsPassOf, stealer_deque, stealer_flavor};

use crossbeam_deque::protocol::Protocol;
use crossbeam_deque::{Pass, Stealer};
use prefix_jobs::Token;
use std::alloc::Global;

/// The deque of another, with the thief's pass there.
#[derive(Drop)]
pub struct Other<V, P: Protocol<Token, V>> {
    pub(crate) deque: Stealer<Token, Global, V, P>,
    pub(crate) pass: Pass<Token, V>,
    ghost fits: { IsPassOf (stealer_deque deque) pass },
    ghost newest: { stealer_flavor deque ≡ 1 },
}
