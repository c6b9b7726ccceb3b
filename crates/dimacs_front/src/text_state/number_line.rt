//! A line of numbers: a 0 ends the clause, and any other number is its next literal.
ghost use Rattle.std.specs.Prelude.{◌≡◌, OnOk, ◌<◌, nat_abs};
ghost use Rattle.dimacs_front.specs.Machine.{zero_eaten, literal_eaten, number_eaten};

use super::TextState;
use crate::line_place::LinePlace;
use crate::{MOST_CLAUSES, MOST_LITERALS, TextRefused};
use std::alloc::AllocError;

impl TextState {
    /// Takes a token of a clause, by its value.
    pub fn eat_number(&mut self, line: u64, value: Option<i64>) -> Result<(), AllocError>
        ensures { OnOk result (self.new ≡ number_eaten line self.old value) }
    {
        match value {
            Some(0) => self.eat_zero(line),
            Some(literal) => self.eat_literal(line, literal),
            None => {
                self.place = LinePlace::Refused(TextRefused::BadNumber { line });
                Ok(())
            }
        }
    }

    /// Takes the 0 of a clause.
    fn eat_zero(&mut self, line: u64) -> Result<(), AllocError>
        ensures { OnOk result (self.new ≡ zero_eaten line self.old) }
    {
        if self.formula.found() >= MOST_CLAUSES {
            self.place = LinePlace::Refused(TextRefused::TooManyClauses { line });
            return Ok(());
        }
        self.formula.end_clause()?;
        self.place = LinePlace::Numbers;
        Ok(())
    }

    /// Takes a literal.
    fn eat_literal(&mut self, line: u64, literal: i64) -> Result<(), AllocError>
        requires { 0 < nat_abs literal }
        ensures { OnOk result (self.new ≡ literal_eaten line self.old literal) }
    {
        if literal.unsigned_abs() > u64::from(self.formula.variables()) {
            self.place = LinePlace::Refused(TextRefused::VariableTooLarge { line });
            return Ok(());
        }
        if self.formula.literals() >= MOST_LITERALS {
            self.place = LinePlace::Refused(TextRefused::TooManyLiterals { line });
            return Ok(());
        }
        self.formula.add_literal(literal as i32)?;
        self.place = LinePlace::Numbers;
        Ok(())
    }
}
