//! The numbers of the pending prefixes, in order, and who holds each.
ghost use Rattle.std.specs.Prelude.{◌≡◌, ℕ, ◌+◌, ◌<◌, ◌≤◌, ◌-◌, ◌^◌, ◌++◌, IfOk, length, filter, slice_index_or, slice_set, vec_capacity};
ghost use Rattle.std.specs.List.{All, position};
ghost use Rattle.region_book.specs.declared.slot.Slot.{Slot};
ghost use Rattle.region_book.specs.Slots.{has_slot_number, is_free_slot, is_held_slot, is_live, stands_held};
ghost use Rattle.region_book.specs.Slots.{NumbersRise, Finds, AreTakenUpTo, IsFirstFree, AreSlots};
ghost use Rattle.region_book.specs.Slots.{free_slots, slots_of, taken_up_to};
ghost use Rattle.region_book.specs.Slots.{IsLowestFreeSlot, IsLowestHeldSlot};

use crate::slot::{Slot, Standing};
use prefix_jobs::{Number, Outcome};
use std::alloc::AllocError;

/// Slots whose numbers rise, so that one is found by halves. New numbers are always the greatest,
/// and stand at the end. A slot whose prefix is gone stays until the gone ones are more than half;
/// then they are squeezed out. So an event costs a search by halves, and its share of the squeezes.
#[derive(Drop)]
pub(crate) struct Slots {
    pub(crate) slots: Vec<Slot>,
    /// How many slots were let go since the last squeeze: when to squeeze rests on it, and nothing
    /// else.
    gone: usize,
    /// The place of the first free slot; that of the end where none is free.
    first_free: usize,
}

impl Slots {
    /// Slots whose numbers rise.
    pub(crate) fn from_vec(slots: Vec<Slot>) -> Slots
        requires { NumbersRise slots.items }
        ensures same { result.slots.items ≡ slots.items }
        ensures are { AreSlots result }
    {
        let first_free = first_free_from(&slots, 0);
        Slots {
            slots,
            gone: 0,
            first_free,
        }
    }

    /// The place of the slot of this number, if nobody holds its prefix.
    pub(crate) fn find_free(&self, number: Number) -> Option<usize>
        requires { AreSlots self.now }
        ensures { Finds (is_free_slot number) self.now.slots.items result }
    {
        let at = place_of(&self.slots, number)?;
        self.slots[at].is_free().then_some(at)
    }

    /// The place of the slot of this number, if this pass holds its prefix.
    pub(crate) fn find_held(&self, pass: u32, number: Number) -> Option<usize>
        requires { AreSlots self.now }
        ensures { Finds (is_held_slot pass number) self.now.slots.items result }
    {
        let at = place_of(&self.slots, number)?;
        self.slots[at].is_held_by(pass).then_some(at)
    }

    /// The lowest number of a prefix that nobody holds. Constant time.
    pub(crate) fn lowest_free(&self) -> Option<Number>
        requires { AreSlots self.now }
        ensures { IsLowestFreeSlot self.now.slots.items result }
    {
        if self.first_free < self.slots.len() {
            Some(self.slots[self.first_free].number)
        } else {
            None
        }
    }

    /// The lowest number of a prefix that some pass holds. A walk up to it.
    pub(crate) fn lowest_held(&self) -> Option<Number>
        requires { AreSlots self.now }
        ensures { IsLowestHeldSlot self.now.slots.items result }
    {
        let at = first_held(&self.slots)?;
        Some(self.slots[at].number)
    }

    /// Changes how the prefix of a place stands.
    pub(crate) fn set_standing(&mut self, at: usize, standing: Standing)
        requires inside { at < length self.old.slots.items }
        requires are { AreSlots self.old }
        ensures slots { (d : Slot) → self.new.slots.items ≡ slice_set self.old.slots.items at
            (record (slice_index_or self.old.slots.items at d) { standing = standing }) }
        ensures are { AreSlots self.new }
        ensures room { vec_capacity self.new.slots ≡ vec_capacity self.old.slots }
    {
        let slot = &mut self.slots[at];
        slot.standing = standing;
        self.gone = more_gone(self.gone, standing);
        self.first_free = first_free_from(&self.slots, taken_up_to(self.first_free, at, standing));
    }

    /// Takes room for so many slots more.
    pub(crate) fn reserve(&mut self, count: usize) -> Result<(), AllocError>
        requires { AreSlots self.old }
        ensures same { self.new.slots.items ≡ self.old.slots.items }
        ensures are { AreSlots self.new }
        ensures room { IfOk result
            (λ _. length self.new.slots.items + count ≤ vec_capacity self.new.slots) }
    {
        self.slots.reserve(count)
    }

    /// Adds the slots of what an outcome leaves, which the pass reports at this place. There is
    /// room for them, and older numbers have lower places.
    pub(crate) fn append(&mut self, place: u64, pass: u32, outcome: &Outcome)
        requires are { AreSlots self.old }
        requires older { All (λ s. s.number.place < place) self.old.slots.items }
        requires few { length outcome.now.rest < 2 ^ 32 - 1 }
        requires room { length self.old.slots.items + (length outcome.now.rest + 1)
            ≤ vec_capacity self.old.slots }
        ensures slots { self.new.slots.items
            ≡ self.old.slots.items ++ slots_of place pass outcome.now }
        ensures are { AreSlots self.new }
    {
        add_slots(&mut self.slots, place, pass, outcome);
        self.first_free = first_free_from(&self.slots, self.first_free);
    }

    /// The slots.
    pub(crate) fn into_vec(self) -> Vec<Slot>
        ensures { result.items ≡ self.slots.items }
    {
        let Slots { slots, .. } = self;
        slots
    }

    /// Squeezes out the slots whose prefixes are gone, if these are more than half. It takes no
    /// memory.
    pub(crate) fn squeeze_if_sparse(&mut self)
        requires { AreSlots self.old }
        ensures live { filter is_live self.new.slots.items ≡ filter is_live self.old.slots.items }
        ensures placed { (m : ℕ) → All (λ s. s.number.place ≤ m) self.old.slots.items →
            All (λ s. s.number.place ≤ m) self.new.slots.items }
        ensures are { AreSlots self.new }
        ensures fewer { length self.new.slots.items ≤ length self.old.slots.items }
        ensures room { vec_capacity self.new.slots ≡ vec_capacity self.old.slots }
    {
        if self.gone > self.slots.len() / 2 {
            self.squeeze();
        }
    }

    /// Squeezes out the slots whose prefixes are gone. It takes no memory.
    pub(crate) fn squeeze(&mut self)
        requires { AreSlots self.old }
        ensures live { self.new.slots.items ≡ filter is_live self.old.slots.items }
        ensures are { AreSlots self.new }
        ensures room { vec_capacity self.new.slots ≡ vec_capacity self.old.slots }
    {
        self.slots.retain(|slot| slot.is_live());
        self.gone = 0;
        self.first_free = first_free_from(&self.slots, 0);
    }
}

/// One more, if the prefix of a slot goes.
fn more_gone(gone: usize, standing: Standing) -> usize {
    match standing {
        Standing::Gone => gone.saturating_add(1),
        Standing::Free | Standing::Held(_) => gone,
    }
}

/// Up to where no slot is free after a change at a place, if none was before the first free one.
fn taken_up_to(first_free: usize, at: usize, standing: Standing) -> usize
    ensures { result ≡ taken_up_to standing first_free at }
{
    match standing {
        Standing::Free => first_free.min(at),
        Standing::Held(_) | Standing::Gone => first_free,
    }
}

/// Adds the slots of what an outcome leaves: those of its rest, which are free, and that of what
/// the pass keeps.
fn add_slots(slots: &mut Vec<Slot>, place: u64, pass: u32, outcome: &Outcome)
    requires few { length outcome.now.rest < 2 ^ 32 - 1 }
    requires room { length slots.old.items + (length outcome.now.rest + 1)
        ≤ vec_capacity slots.old }
    ensures { slots.new.items ≡ slots.old.items ++ slots_of place pass outcome.now }
{
    let rest = outcome.rest.as_slice().len();
    add_free(slots, place, rest);
    if outcome.kept.is_some() {
        let number = Number {
            place,
            index: rest as u32,
        };
        slots.push_reserved(Slot {
            number,
            standing: Standing::Held(pass),
        });
    }
}

/// Adds the slots of so many free prefixes of a place, where there is room for them.
pub(crate) fn add_free(slots: &mut Vec<Slot>, place: u64, count: usize)
    requires few { count ≤ 2 ^ 32 }
    requires room { length slots.old.items + count ≤ vec_capacity slots.old }
    ensures slots { slots.new.items ≡ slots.old.items ++ free_slots place 0 count }
    ensures room { vec_capacity slots.new ≡ vec_capacity slots.old }
{
    for index in 0..count {
        slots.push_reserved(Slot {
            number: Number {
                place,
                index: index as u32,
            },
            standing: Standing::Free,
        });
    }
}

/// The place of the slot of this number, if there is one. It is looked for by halves.
fn place_of(slots: &[Slot], number: Number) -> Option<usize>
    requires { NumbersRise slots.now }
    ensures { Finds (has_slot_number number) slots.now result }
{
    let at = slots.partition_point(|slot| slot.number.before(number));
    let slot = slots.get(at)?;
    slot.has_number(number).then_some(at)
}

/// The place of the first slot whose prefix is held, if one is.
fn first_held(slots: &[Slot]) -> Option<usize>
    ensures { result ≡ position stands_held slots.now }
{
    slots.iter().position(|slot| slot.is_held())
}

/// The place of the first free slot, where none is free before this place; the end where none is.
fn first_free_from(slots: &[Slot], from: usize) -> usize
    requires { AreTakenUpTo slots.now from }
    ensures { IsFirstFree slots.now result }
{
    let mut at = from;
    while at < slots.len() && !slots[at].is_free() {
        at += 1;
    }
    at
}
