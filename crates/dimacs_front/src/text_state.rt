//! What the tokens of a text say so far.
ghost use Rattle.std.specs.Prelude.{◌≡◌, [], OnOk};
ghost use Rattle.dimacs_front.specs.MachinePlaces.{refusal_at};
ghost use Rattle.dimacs_front.specs.Machine.{nothing_said_yet, below_begun, line_begun, eaten};
ghost use Rattle.dimacs_front.specs.Machine.{formula_begun, header_ended, closed};
ghost use Rattle.sat_terms.specs.Subjects.{IsVariableList};
ghost use Rattle.dimacs_front.specs.TextEnds.{first_misplaced, lowest_outside};
ghost use Rattle.dimacs_front.specs.MachineEnd.{end_refusal, with_saved_lines, with_under, end_of};
ghost use Rattle.dimacs_front.specs.Pieces.{Answered};

use crate::comment_place::CommentPlace;
use crate::header_place::{HeaderPlace, natural};
use crate::line_place::LinePlace;
use crate::saved_lines::{Own, RisingLits, SavedLines};
use crate::saved_place::SavedPlace;
use crate::show_lines::ShowLines;
use crate::under_lines::UnderLines;
use crate::written::Written;
use crate::{Input, MOST_CLAUSES, MOST_VARIABLES, ReadRefused, TextRefused};
use dimacs_tokens::Seen;
use sat_terms::{Cube, Items, Subject};
use std::alloc::{AllocError, Global};
use std::marker::Model;

mod number_line;
mod saved_line;
mod show_line;
mod under_line;

/// The place in the line, whether there was a header, the formula below it, whether a show line was
/// ended, the variables of all show lines, each once, the literals of the under lines, the lines of
/// a saved or a met text's own, the literals of the open list of one of these, and the cube of the
/// open met line.
#[derive(Drop)]
pub struct TextState {
    alloc: Global,
    place: LinePlace,
    started: bool,
    formula: Written,
    given: bool,
    named: ShowLines,
    under: UnderLines,
    saved: SavedLines,
    lits: RisingLits,
    first: Cube,
}

impl Model for TextState {
    ghost use Rattle.dimacs_front.specs.Machine.{StateView};

    ghost Value = { StateView };

    ghost view = { λ s. record {
      place = s.place;
      started = s.started;
      formula = s.formula;
      given = s.given;
      named = s.named;
      under = s.under;
      saved = s.saved;
      lits = s.lits;
      first = s.first;
    } };
}

impl TextState {
    /// Before the first token. Takes no memory yet.
    pub fn make(alloc: Global) -> Self
        ensures { result ≡ nothing_said_yet }
    {
        TextState {
            alloc,
            place: LinePlace::Beginning,
            started: false,
            formula: Written::make(alloc, 0, 0),
            given: false,
            named: ShowLines::make(alloc),
            under: UnderLines::make(alloc),
            saved: SavedLines::make(alloc),
            lits: RisingLits::make(alloc),
            first: Cube::from_vec(Vec::new(alloc)),
        }
    }

    /// Takes the next token, in this line.
    #[tactic(auto, unfolding(crate::specs::Machine::eaten))]
    pub fn eat(&mut self, line: u64, token: &Seen) -> Result<(), AllocError>
        ensures { OnOk result (self.new ≡ eaten line self.old token.now) }
    {
        match self.place {
            LinePlace::Beginning => return self.begin_line(line, token),
            LinePlace::Header(header) => self.place = LinePlace::Header(header.after(token)),
            LinePlace::Numbers => return self.eat_number(line, token.number().value()),
            LinePlace::Comment(words) => {
                self.place = LinePlace::in_comment(&self.saved, line, words.after(line, token));
            }
            LinePlace::Show => return self.eat_shown(line, natural(token.number())),
            LinePlace::ShowEnd => self.place = LinePlace::Refused(TextRefused::ShowBad { line }),
            LinePlace::Under => return self.eat_given(line, token.number().value()),
            LinePlace::UnderEnd => self.place = LinePlace::Refused(TextRefused::UnderBad { line }),
            LinePlace::Saved(place) => return self.eat_saved(line, place, token),
            LinePlace::Over | LinePlace::Refused(_) => {}
        }
        Ok(())
    }

    /// Takes the first token of a line.
    fn begin_line(&mut self, line: u64, token: &Seen) -> Result<(), AllocError>
        ensures { OnOk result (self.new ≡ line_begun line self.old token.now) }
    {
        if token.begins_with(b'c') {
            self.place = LinePlace::in_comment(&self.saved, line, CommentPlace::first(token));
            return Ok(());
        }
        if self.started {
            return self.begin_below(line, token);
        }
        self.place = LinePlace::above_begun(line, token);
        Ok(())
    }

    /// Takes the first token of a line below the header, which begins no comment.
    fn begin_below(&mut self, line: u64, token: &Seen) -> Result<(), AllocError>
        ensures { OnOk result (self.new ≡ below_begun line self.old token.now) }
    {
        if token.begins_with(b'p') {
            self.place = LinePlace::Refused(TextRefused::HeaderTwice { line });
            return Ok(());
        }
        if token.begins_with(b'%') {
            self.place = LinePlace::Over;
            return Ok(());
        }
        self.eat_number(line, token.number().value())
    }

    /// Ends this line.
    #[tactic(auto, unfolding(crate::specs::Machine::closed))]
    pub fn close(&mut self, line: u64)
        ensures { self.new ≡ closed line self.old }
    {
        match self.place {
            LinePlace::Header(header) => self.end_header(line, header),
            LinePlace::Saved(SavedPlace::End) => {
                self.saved.end();
                self.place = LinePlace::Beginning;
            }
            place => self.place = place.closed(line),
        }
    }

    /// Ends the header's line.
    fn end_header(&mut self, line: u64, header: HeaderPlace)
        ensures { self.new ≡ header_ended header line self.old }
    {
        match header {
            HeaderPlace::End { variables, clauses } => self.begin_formula(line, variables, clauses),
            _ => self.place = LinePlace::Refused(TextRefused::BadHeader { line }),
        }
    }

    /// Begins the formula below a header with these numbers.
    fn begin_formula(&mut self, line: u64, variables: u32, clauses: u32)
        ensures { self.new ≡ formula_begun line self.old variables clauses }
    {
        if variables > MOST_VARIABLES {
            self.place = LinePlace::Refused(TextRefused::TooManyVariables { line });
        } else if clauses > MOST_CLAUSES {
            self.place = LinePlace::Refused(TextRefused::TooManyClauses { line });
        } else {
            self.formula = Written::make(self.alloc, variables, clauses);
            self.started = true;
            self.place = LinePlace::Beginning;
        }
    }

    /// The refusal of a line, if there is one.
    pub fn refusal(&self) -> Option<TextRefused>
        ensures { result ≡ refusal_at self.now.place }
    {
        self.place.refusal()
    }

    /// The first refusal of the end, but for too many shown variables.
    #[tactic(auto, unfolding(crate::specs::MachineEnd::end_refusal))]
    fn end_refusal(&self, line: u64) -> Option<TextRefused>
        ensures { result ≡ end_refusal line self.now }
    {
        if !self.started {
            return Some(TextRefused::NoHeader { line });
        }
        if !self.formula.is_ended() {
            return Some(TextRefused::Unfinished { line });
        }
        if self.saved.has_end_line() && !self.saved.is_ended() {
            return Some(TextRefused::SavedUnended { line });
        }
        let said = self.formula.said();
        let found = self.formula.found();
        if found != said {
            return Some(TextRefused::ClauseCount { line, said, found });
        }
        match self.named.first_above(self.formula.variables()) {
            Some(line) => Some(TextRefused::ShowBad { line }),
            None => None,
        }
    }

    /// The input of a text that ends in this line, or why it is refused.
    #[tactic(auto, unfolding(crate::specs::MachineEnd::end_of))]
    pub fn finish(self, line: u64) -> Result<Input, ReadRefused>
        ensures { Answered (end_of line self) result }
    {
        if let Some(refusal) = self.end_refusal(line) {
            return Err(ReadRefused::Text(refusal));
        }
        let variables = self.formula.variables();
        match self.named.shown(self.alloc, self.given, variables)? {
            Some(shown) => self.with_under(shown),
            None => Err(ReadRefused::Text(TextRefused::TooManyShown { line })),
        }
    }

    /// The input with these shown variables, or why its given literals are refused.
    fn with_under(self, shown: Items<u32>) -> Result<Input, ReadRefused>
        requires { IsVariableList shown }
        ensures { Answered (with_under self.formula self.under self.saved shown
            (first_misplaced shown [] self.under)) result }
    {
        match self.under.cube(self.alloc, shown.as_slice())? {
            Ok(under) => self.with_saved(shown, under),
            Err(line) => Err(ReadRefused::Text(TextRefused::UnderBad { line })),
        }
    }

    /// The input with these given literals, or why its saved lines or its met lines are refused.
    fn with_saved(self, shown: Items<u32>, under: Cube) -> Result<Input, ReadRefused>
        requires { IsVariableList shown }
        ensures { Answered (with_saved_lines self.formula shown under self.saved
            (lowest_outside shown under self.saved)) result }
    {
        if let Some(line) = self.saved.lowest_outside(shown.as_slice(), under.lits()) {
            return Err(ReadRefused::Text(TextRefused::SavedBad { line }));
        }
        let variables = self.formula.variables();
        let unmet = self
            .saved
            .first_unmet(variables, shown.as_slice(), under.lits());
        if let Some(line) = unmet {
            return Err(ReadRefused::Text(TextRefused::SavedBad { line }));
        }
        let Own { saved, met } = self.saved.into_own(self.alloc)?;
        let formula = self.formula.into_formula();
        Ok(Input {
            subject: Subject {
                formula,
                shown,
                under,
            },
            saved,
            met,
        })
    }
}
