//! A source in memory, which tells its bytes and fails at chosen calls.
ghost use Rattle.std.specs.Prelude.{◌≡◌, ℕ, ◌<◌, ◌↔◌, length, IsErr, IfOk, OnErr};
ghost use Rattle.std.specs.Io.{ReadsAtMost};
ghost use Rattle.fault_io.specs.Sources.{GivesInto};
ghost use Rattle.fault_io.specs.BytesIn.{source_of, FailsNext, taken_count, after_take, after_fault};

use crate::{Failed, Source};
use std::marker::Model;

/// Bytes to be taken, at most `step` at a call. Calls of `take` are numbered from 1, up to the last
/// value of a `u64`, at which the number stays; those in `fails` fail.
#[derive(Drop)]
pub struct BytesIn {
    bytes: Vec<u8>,
    at: usize,
    step: usize,
    fails: Vec<u64>,
    calls: u64,
    faults: u64,
}

impl Model for BytesIn {
    ghost use Rattle.std.specs.Prelude.{ℕ, ◌<◌, ◌≤◌, drop, vec_len};
    ghost use Rattle.fault_io.specs.BytesIn.{BytesInView};

    ghost Value = { BytesInView };

    ghost view = { λ s. record {
      left = drop s.at s.bytes.items;
      step = s.step;
      fails = s.fails.items;
      calls = s.calls;
      faults = s.faults;
    } };

    ghost invariant = { λ s. (s.at ≤ vec_len s.bytes) × (0 < s.step) };
}

impl BytesIn {
    /// Takes no memory.
    pub fn make(bytes: Vec<u8>, step: usize, fails: Vec<u64>) -> BytesIn
        requires { 0 < step }
        ensures { result ≡ record {
          left = bytes.items;
          step = step;
          fails = fails.items;
          calls = 0;
          faults = 0;
        } }
    {
        BytesIn {
            bytes,
            at: 0,
            step,
            fails,
            calls: 0,
            faults: 0,
        }
    }
}

impl Source for BytesIn {
    ghost shows = { λ s. source_of s };

    fn take(&mut self, buf: &mut [u8]) -> Result<usize, Failed>
        requires { 0 < length buf.old }
        ensures bound { ReadsAtMost result buf.new }
        ensures gives { GivesInto (source_of self.old) (source_of self.new) buf.new result }

        // Which call fails, and how much every other one moves.
        ensures failing { IsErr result ↔ FailsNext self.old }
        ensures count { IfOk result (λ n. n ≡ taken_count self.old (length buf.old)) }
        ensures ok { IfOk result (λ n. self.new ≡ after_take self.old n) }
        ensures err { OnErr result (self.new ≡ after_fault self.old) }
    {
        self.calls = self.calls.saturating_add(1);
        if self.fails.contains(&self.calls) {
            self.faults = self.faults.saturating_add(1);
            return Err(Failed);
        }
        let left = &self.bytes[self.at..];
        let count = self.step.min(buf.len()).min(left.len());
        buf[..count].copy_from_slice(&left[..count]);
        self.at += count;
        Ok(count)
    }
}
