//! An under line: literals that are given, and a 0 that ends them.
ghost use Rattle.std.specs.Prelude.{◌≡◌, OnOk};
ghost use Rattle.dimacs_front.specs.Machine.{under_eaten};

use super::TextState;
use crate::line_place::LinePlace;
use crate::{MOST_VARIABLES, TextRefused};
use std::alloc::AllocError;

impl TextState {
    /// Takes a token of an under line, by its value.
    pub fn eat_given(&mut self, line: u64, value: Option<i64>) -> Result<(), AllocError>
        ensures { OnOk result (self.new ≡ under_eaten line self.old value) }
    {
        match value {
            Some(0) => self.place = LinePlace::UnderEnd,
            Some(literal) if literal.unsigned_abs() <= u64::from(MOST_VARIABLES) => {
                self.under.add(literal as i32, line)?;
            }
            _ => self.place = LinePlace::Refused(TextRefused::UnderBad { line }),
        }
        Ok(())
    }
}
