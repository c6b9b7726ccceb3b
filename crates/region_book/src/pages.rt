//! What a book holds, and how each event changes it.
ghost use Rattle.std.specs.Prelude.{◌≡◌, ◌+◌, ◌-◌, ◌<◌, ◌^◌, [], IfOk, IfErr, length, min};
ghost use Rattle.region_book.specs.declared.event.Event.TheVariants.{Release};
ghost use Rattle.region_book.specs.Starts.{start_of};
ghost use Rattle.region_book.specs.Pages.{IsSameState, state_of_pages, ArePages, HasEventRoom};
ghost use Rattle.region_book.specs.Pages.{HasOutcomeRoom, BeginsWith, IsSame, Enters, TakesPrefix};
ghost use Rattle.region_book.specs.Pages.{IsHeldIn, Reports};

use crate::answers::{Reported, Taken};
use crate::event::Event;
use crate::left_prefixes::copy_prefix;
use crate::slot::Standing;
use crate::slots::{Slots, add_free};
use checkpoint::Saved;
use cube_merge::Runs;
use prefix_jobs::{Number, Outcome};
use sat_terms::Subject;
use std::alloc::{AllocError, Global};

/// At so many leaves the number of those reported stands still.
const MOST_SPENT: u64 = 1 << 62;

/// The journal of a book, and what its events made. A published cube is named by where it stands,
/// and so is a pending prefix, by its number: no cube and no prefix is kept twice. Names of cubes
/// stand in parts, one for each pass, of what it reported, and then one of what was saved. The
/// journal has room for one event more for each prefix that is held, so that a release takes no
/// memory; a take and a report make that room for each prefix that is pending.
#[derive(Drop)]
pub(crate) struct Pages {
    pub(crate) journal: Vec<Event>,
    pub(crate) published: Runs,
    pub(crate) slots: Slots,
    pub(crate) spent: u64,
}

impl Pages {
    /// The pages of a book without events, for so many passes: what was saved, or else the given
    /// literals as the one prefix.
    pub(crate) fn start(
        alloc: Global,
        subject: &Subject,
        saved: &Option<Saved>,
        passes: u32,
    ) -> Result<Pages, AllocError>
        requires { length (start_of subject.now saved.now).pending < 2 ^ 32 }
        ensures journal { IfOk result (λ pages. pages.journal.items ≡ []) }
        ensures parts { IfOk result (λ pages. length pages.published ≡ passes + 1) }
        ensures state { IfOk result (λ pages. IsSameState (start_of subject.now saved.now)
            (state_of_pages subject.now saved.now pages)) }
        ensures pages { IfOk result ArePages }
    {
        match saved {
            None => Pages::with(alloc, passes, 0, 1),
            Some(saved) => {
                let cubes = saved.cubes.as_slice().len();
                let prefixes = saved.pending.as_slice().len();
                Pages::with(alloc, passes, cubes, prefixes)
            }
        }
    }

    /// So many cubes and so many prefixes of the beginning, and no event. The cubes are in the part
    /// behind those of the passes.
    fn with(alloc: Global, passes: u32, cubes: usize, prefixes: usize) -> Result<Pages, AllocError>
        requires { prefixes < 2 ^ 32 }
        ensures { IfOk result (BeginsWith passes cubes prefixes) }
    {
        let saved = passes as usize;
        let mut published = Runs::make(alloc, saved + 1)?;
        published.add(saved, 0, cubes)?;
        let mut slots = Vec::with_capacity(alloc, prefixes)?;
        add_free(&mut slots, 0, prefixes);
        Ok(Pages {
            journal: Vec::new(alloc),
            published,
            slots: Slots::from_vec(slots),
            spent: 0,
        })
    }

    /// Takes the prefix of this number for the pass, if nobody holds it. The prefixes are those of
    /// this beginning.
    pub(crate) fn take(
        &mut self,
        alloc: Global,
        subject: &Subject,
        saved: &Option<Saved>,
        pass: u32,
        number: Number,
    ) -> Result<Taken, AllocError>
        requires { ArePages self.old }
        ensures takes { IfOk result
            (λ taken. TakesPrefix subject.now saved.now self.old self.new pass number taken) }
        ensures unchanged { IfErr result (λ _. IsSame self.old self.new) }
    {
        let found = self.slots.find_free(number);
        let Some(at) = found else {
            return Ok(Taken::Gone);
        };
        let prefix = copy_prefix(alloc, subject, saved, &self.journal, number)?;
        self.make_room()?;
        self.slots.set_standing(at, Standing::Held(pass));
        self.journal.push_reserved(Event::Take { pass, number });
        Ok(Taken::Held(prefix))
    }

    /// Lets the prefix go. The place in the journal was kept free.
    pub(crate) fn release(&mut self, pass: u32, number: Number)
        requires pages { ArePages self.old }
        requires held { IsHeldIn pass number self.old }
        ensures { Enters (Release pass number) self.old self.new }
    {
        let found = self.slots.find_held(pass, number);
        let Some(at) = found else { unreachable!() };
        self.slots.set_standing(at, Standing::Free);
        self.journal.push_reserved(Event::Release { pass, number });
    }

    /// Makes room for what the outcome leaves, and for the event.
    pub(crate) fn prepare(&mut self, outcome: &Outcome) -> Result<(), AllocError>
        requires pages { ArePages self.old }
        requires few { length outcome.now.rest < 2 ^ 32 - 1 }
        ensures same { IsSame self.old self.new }
        ensures room { IfOk result (λ _. HasOutcomeRoom self.new outcome.now) }
    {
        self.slots.reserve(outcome.rest.as_slice().len() + 1)?;
        self.make_room()
    }

    /// Enters the report of an outcome, for which there is room but for the names of its cubes. Its
    /// cubes are published, and what it leaves to be searched is pending, where they stand.
    pub(crate) fn report(
        &mut self,
        pass: u32,
        number: Number,
        outcome: Outcome,
    ) -> Result<Reported, (Outcome, AllocError)>
        requires pages { ArePages self.old }
        requires part { pass < length self.old.published }
        requires held { IsHeldIn pass number self.old }
        requires few { length outcome.rest < 2 ^ 32 - 1 }
        requires room { HasOutcomeRoom self.old outcome }
        ensures reports { IfOk result
            (λ reported. Reports self.old self.new pass number outcome reported) }
        ensures unchanged { IfErr result (λ refused. self.new ≡ self.old) }
        ensures given_back { IfErr result (λ refused. refused.0 ≡ outcome) }
    {
        let found = self.slots.find_held(pass, number);
        let Some(at) = found else { unreachable!() };
        let place = self.journal.len() + 1;
        let cubes = outcome.cubes.as_slice().len();
        if let Err(error) = self.published.add(pass as usize, place, cubes) {
            return Err((outcome, error));
        }
        self.slots.set_standing(at, Standing::Gone);
        self.slots.squeeze_if_sparse();
        self.slots.append(place as u64, pass, &outcome);
        self.spent = more_spent(self.spent, outcome.leaves);
        let index = outcome.rest.as_slice().len() as u32;
        let keeps = outcome.kept.is_some();
        self.journal.push_reserved(Event::Report {
            pass,
            number,
            outcome,
        });
        let place = place as u64;
        Ok(Reported {
            place,
            kept: keeps.then_some(Number { place, index }),
            spent: self.spent,
        })
    }

    /// Room in the journal for one event, and for one more for each pending prefix.
    fn make_room(&mut self) -> Result<(), AllocError>
        requires { ArePages self.old }
        ensures same { IsSame self.old self.new }
        ensures room { IfOk result (λ _. HasEventRoom self.new) }
        ensures others { self.new ≡ record self.old { journal = self.new.journal } }
    {
        self.journal.reserve(self.slots.slots.len() + 1)
    }
}

/// So many leaves more; the number stands still at 2^62.
fn more_spent(spent: u64, leaves: u64) -> u64
    ensures { result ≡ min (spent + leaves) (2 ^ 62) }
{
    spent.saturating_add(leaves).min(MOST_SPENT)
}
