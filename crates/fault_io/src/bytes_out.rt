//! A sink in memory, which tells its bytes and fails at chosen calls.
ghost use Rattle.std.specs.Prelude.{◌≡◌, ℕ, ◌<◌, ◌≤◌, ◌↔◌, ◌⊎◌, false, [], length, IsErr, IfOk, OnOk, OnErr};
ghost use Rattle.fault_io.specs.Sinks.{TakesSome, Finishes};
ghost use Rattle.fault_io.specs.BytesOut.{sink_of, FailsNext, IsFullFor, put_count, after_put, after_finish, after_fault};

use crate::{Failed, Sink};
use std::alloc::{AllocError, Global};
use std::marker::Model;

/// Holds up to `room` bytes, and takes at most `step` at a call. Calls of `put` and of `finish` are
/// numbered together from 1, up to the last value of a `u64`, at which the number stays; those in
/// `fails` fail.
#[derive(Drop)]
pub struct BytesOut {
    bytes: Vec<u8>,
    room: usize,
    step: usize,
    fails: Vec<u64>,
    calls: u64,
    faults: u64,
    finished: bool,
}

impl Model for BytesOut {
    ghost use Rattle.std.specs.Prelude.{ℕ, ◌<◌, ◌≤◌, vec_len, vec_capacity};
    ghost use Rattle.fault_io.specs.BytesOut.{BytesOutView};

    ghost Value = { BytesOutView };

    ghost view = { λ s. record {
      bytes = s.bytes.items;
      room = s.room;
      step = s.step;
      fails = s.fails.items;
      calls = s.calls;
      faults = s.faults;
      finished = s.finished;
    } };

    ghost invariant = { λ s.
        (vec_len s.bytes ≤ s.room) × (s.room ≤ vec_capacity s.bytes) × (0 < s.step) };
}

impl BytesOut {
    /// Takes the memory for all the room at once, so that no later call takes any.
    pub fn make(
        alloc: Global,
        room: usize,
        step: usize,
        fails: Vec<u64>,
    ) -> Result<BytesOut, AllocError>
        requires { 0 < step }
        ensures { IfOk result (λ s. s ≡ record {
          bytes = [];
          room = room;
          step = step;
          fails = fails.items;
          calls = 0;
          faults = 0;
          finished = false;
        }) }
    {
        Ok(BytesOut {
            bytes: Vec::with_capacity(alloc, room)?,
            room,
            step,
            fails,
            calls: 0,
            faults: 0,
            finished: false,
        })
    }

    /// What it holds.
    pub fn bytes(&self) -> &[u8]
        ensures bytes { result.now ≡ self.now.bytes }
        ensures within { length result.now ≤ self.now.room }
    {
        &self.bytes
    }
}

impl Sink for BytesOut {
    ghost shows = { λ s. sink_of s };

    fn put(&mut self, piece: &[u8]) -> Result<usize, Failed>
        ensures takes { TakesSome (sink_of self.old) (sink_of self.new) piece.now result }

        // Which call fails, and how much every other one takes.
        ensures failing { IsErr result ↔ (FailsNext self.old ⊎ IsFullFor self.old piece.now) }
        ensures count { IfOk result (λ n. n ≡ put_count self.old (length piece.now)) }
        ensures ok { IfOk result (λ n. self.new ≡ after_put self.old piece.now n) }
        ensures err { OnErr result (self.new ≡ after_fault self.old) }
    {
        self.calls = self.calls.saturating_add(1);
        let free = self.room - self.bytes.len();
        if self.fails.contains(&self.calls) || (free == 0 && !piece.is_empty()) {
            self.faults = self.faults.saturating_add(1);
            return Err(Failed);
        }
        let count = self.step.min(piece.len()).min(free);
        if self.bytes.extend_from_slice(&piece[..count]).is_err() {
            unreachable!();
        }
        if count > 0 {
            self.finished = false;
        }
        Ok(count)
    }

    fn finish(&mut self) -> Result<(), Failed>
        ensures finishes { Finishes (sink_of self.old) (sink_of self.new) result }
        ensures failing { IsErr result ↔ FailsNext self.old }
        ensures ok { OnOk result (self.new ≡ after_finish self.old) }
        ensures err { OnErr result (self.new ≡ after_fault self.old) }
    {
        self.calls = self.calls.saturating_add(1);
        if self.fails.contains(&self.calls) {
            self.faults = self.faults.saturating_add(1);
            return Err(Failed);
        }
        self.finished = true;
        Ok(())
    }
}
