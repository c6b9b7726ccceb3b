//! A show line: variables, and a 0 that ends them.
ghost use Rattle.std.specs.Prelude.{◌≡◌, OnOk};
ghost use Rattle.dimacs_front.specs.Machine.{shown_eaten};

use super::TextState;
use crate::line_place::LinePlace;
use crate::{MOST_VARIABLES, TextRefused};
use std::alloc::AllocError;

impl TextState {
    /// Takes a token of a show line, by its value.
    pub fn eat_shown(&mut self, line: u64, variable: Option<u32>) -> Result<(), AllocError>
        ensures { OnOk result (self.new ≡ shown_eaten line self.old variable) }
    {
        match variable {
            Some(0) => {
                self.given = true;
                self.place = LinePlace::ShowEnd;
            }
            Some(variable) if variable <= MOST_VARIABLES => {
                self.named.add(variable, line)?;
            }
            _ => self.place = LinePlace::Refused(TextRefused::ShowBad { line }),
        }
        Ok(())
    }
}
