//! The lines that a saved text or a met text has of its own: the version, their lists, and the
//! end.
ghost use Rattle.std.specs.Prelude.{◌≡◌, OnOk};
ghost use Rattle.dimacs_front.specs.Machine.{saved_eaten, listed_eaten, list_ended};
ghost use Rattle.dimacs_front.specs.Machine.{version_eaten, met_version_eaten};

use super::TextState;
use crate::line_place::LinePlace;
use crate::saved_place::{OpenList, SavedPlace};
use crate::{MOST_VARIABLES, TextRefused};
use cube_check::Met;
use dimacs_tokens::Seen;
use sat_terms::Cube;
use std::alloc::AllocError;
use std::mem;

impl TextState {
    /// Takes a token of such a line.
    pub fn eat_saved(
        &mut self,
        line: u64,
        place: SavedPlace,
        token: &Seen,
    ) -> Result<(), AllocError>
        ensures { OnOk result (self.new ≡ saved_eaten place line self.old token.now) }
    {
        match place {
            SavedPlace::First => self.eat_version(line, token),
            SavedPlace::MetFirst => self.eat_met_version(line, token),
            SavedPlace::Listed(list) => {
                return self.eat_listed(line, list, token.number().value());
            }
            SavedPlace::Complete | SavedPlace::End => {
                self.place = LinePlace::Refused(TextRefused::SavedBad { line });
            }
        }
        Ok(())
    }

    /// Takes the version of a saved text.
    fn eat_version(&mut self, line: u64, token: &Seen)
        ensures { self.new ≡ version_eaten line self.old token.now }
    {
        if token.is_word(b"1") || token.is_word(b"2") {
            self.saved.name();
            self.place = LinePlace::Saved(SavedPlace::Complete);
        } else {
            self.place = LinePlace::Refused(TextRefused::SavedBad { line });
        }
    }

    /// Takes the version of a met text.
    fn eat_met_version(&mut self, line: u64, token: &Seen)
        ensures { self.new ≡ met_version_eaten line self.old token.now }
    {
        if token.is_word(b"1") {
            self.saved.name_met();
            self.place = LinePlace::Saved(SavedPlace::Complete);
        } else {
            self.place = LinePlace::Refused(TextRefused::SavedBad { line });
        }
    }

    /// Takes a token of a list, by its value.
    fn eat_listed(
        &mut self,
        line: u64,
        list: OpenList,
        value: Option<i64>,
    ) -> Result<(), AllocError>
        ensures { OnOk result (self.new ≡ listed_eaten list line self.old value) }
    {
        match value {
            Some(0) => return self.end_list(line, list),
            Some(literal)
                if literal.unsigned_abs() <= u64::from(MOST_VARIABLES)
                    && literal.unsigned_abs() > u64::from(self.lits.last_variable()) => {
                self.lits.add(literal as i32)?;
            }
            _ => self.place = LinePlace::Refused(TextRefused::SavedBad { line }),
        }
        Ok(())
    }

    /// Takes the 0 of a list.
    fn end_list(&mut self, line: u64, list: OpenList) -> Result<(), AllocError>
        ensures { OnOk result (self.new ≡ list_ended list line self.old) }
    {
        let lits = self.lits.take(self.alloc)?;
        match list {
            OpenList::Line(kind) => self.saved.add(kind, line, lits)?,
            OpenList::Shown => {
                self.first = lits;
                self.place = LinePlace::Saved(SavedPlace::Listed(OpenList::Hidden));
                return Ok(());
            }
            OpenList::Hidden => {
                let none = Cube::from_vec(Vec::new(self.alloc));
                let cube = mem::replace(&mut self.first, none);
                self.saved.add_met(line, Met { cube, hidden: lits })?;
            }
        }
        self.place = LinePlace::Saved(SavedPlace::Complete);
        Ok(())
    }
}
