//! The arena: the clauses of a formula, and after them the lemmas.
ghost use Rattle.std.specs.Prelude.{◌≡◌, ◌+◌, ◌-◌, ◌<◌, ◌≤◌, ◌^◌, ◌++◌, true, [], ◌∷◌};
ghost use Rattle.std.specs.Prelude.{length, map, take};
ghost use Rattle.std.specs.Prelude.{slice_index_or, slice_index, slice_range, IfOk, IfErr};
ghost use Rattle.std.specs.List.{All};
ghost use Rattle.sat_terms.specs.Literals.{IsLiteral, IsLiteralOf};
ghost use Rattle.sat_terms.specs.Subjects.{IsFormula};
ghost use Rattle.clause_arena.specs.Once.{once, HasEachOnce};
ghost use Rattle.clause_arena.specs.Clauses.{IsArena, HasDistinctVariables, has_room, without_long};

use crate::appending::append_once;
use crate::dropping::drop_long;
use sat_terms::Formula;
use std::alloc::{AllocError, Global};
use std::marker::Model;

/// The most lemmas of an arena.
const LEMMAS: usize = 1_000_000;

/// The most literals of its lemmas together.
const LEMMA_LITERALS: usize = 16_000_000;

/// A list of clauses, of which the first `base` are those of the formula, and the others lemmas.
/// Clauses of the formula stay; lemmas come and go at the end. A literal stands in a clause once. A
/// clause of the formula may have it beside its negation, a lemma not.
#[derive(Debug, Drop)]
pub struct Arena {
    lits: Vec<i32>,
    ends: Vec<u32>,
    base: u32,
}

impl Model for Arena {
    ghost use Rattle.clause_arena.specs.Clauses.{Clauses};
    ghost use Rattle.clause_arena.specs.Layout.{pieces, IsLaidOut};

    ghost Value = { Clauses };

    ghost view = { λ arena. record {
      clauses = pieces arena.lits.items 0 arena.ends.items;
      base = arena.base;
    } };

    ghost invariant = { λ arena. IsLaidOut arena.lits.items arena.ends.items arena.base };
}

/// The place at which a clause begins: where the one before it ends.
pub(crate) fn start_of(ends: &[u32], id: u32) -> u32
    requires { id ≤ length ends.now }
    ensures { result ≡ slice_index (0 ∷ ends.now) id }
{
    if id == 0 {
        return 0;
    }
    ends[id as usize - 1]
}

/// The literals from one place to another.
fn piece(lits: &[i32], start: u32, end: u32) -> &[i32]
    requires order { start ≤ end }
    requires inside { end ≤ length lits.now }
    ensures { result.now ≡ slice_range lits.now start end }
{
    &lits[start as usize..end as usize]
}

impl Arena {
    /// The arena of a formula's clauses, without lemmas. A literal that is repeated in a clause is
    /// kept once, at its first place. The time is that of one walk over the formula, with a table
    /// of its literals.
    pub fn make(alloc: Global, formula: &Formula) -> Result<Arena, AllocError>
        requires { IsFormula formula.now.variables formula.now.clauses }
        ensures clauses { IfOk result (λ arena. arena.clauses ≡ map once formula.now.clauses) }
        ensures base { IfOk result (λ arena. arena.base ≡ length formula.now.clauses) }
        ensures variables { IfOk result
            (λ arena. All (All (IsLiteralOf formula.now.variables)) arena.clauses) }
    {
        let mut lits = Vec::new(alloc);
        let mut ends = Vec::new(alloc);
        let places = 2 * (formula.variables as usize + 1);
        let mut stamps = vec![in alloc; 0u32; places]?;
        for (id, clause) in formula.clauses.as_slice().iter().enumerate() {
            append_once(&mut lits, &mut stamps, id as u32 + 1, clause.lits())?;
            ends.push(lits.len() as u32)?;
        }
        let base = ends.len() as u32;
        Ok(Arena { lits, ends, base })
    }

    /// Appends a lemma, and answers its id, which is the old length. Without memory for it the
    /// arena stays as it is.
    pub fn add(&mut self, lits: &[i32]) -> Result<u32, AllocError>
        requires literals { All IsLiteral lits.now }
        requires distinct { HasDistinctVariables lits.now }
        requires room { has_room self.old (length lits.now) ≡ true }
        ensures id { IfOk result (λ id. id ≡ length self.old.clauses) }
        ensures clauses { IfOk result (λ _. self.new.clauses ≡ self.old.clauses ++ lits.now ∷ []) }
        ensures base { self.new.base ≡ self.old.base }
        ensures unchanged { IfErr result (λ _. self.new ≡ self.old) }
    {
        let id = self.ends.len() as u32;
        // Room for the end comes first: once the literals are in, nothing may fail.
        self.ends.reserve(1)?;
        self.lits.extend_from_slice(lits)?;
        match self.ends.push(self.lits.len() as u32) {
            Ok(()) => Ok(id),
            Err(_) => unreachable!(),
        }
    }

    /// Whether a lemma of so many literals stays within the limits of an arena: 1,000,000 lemmas,
    /// with 16,000,000 literals together.
    pub fn has_room(&self, count: usize) -> bool
        ensures { result ≡ has_room self.now count }
    {
        let lemmas = self.ends.len() - self.base as usize;
        let literals = self.lits.len() - start_of(&self.ends, self.base) as usize;
        lemmas < LEMMAS && count <= LEMMA_LITERALS - literals
    }

    /// Takes the last lemma away. There has to be one.
    pub fn pop(&mut self)
        requires { self.old.base < length self.old.clauses }
        ensures clauses { self.new.clauses ≡ take (length self.old.clauses - 1) self.old.clauses }
        ensures base { self.new.base ≡ self.old.base }
    {
        let last = self.ends.len() - 1;
        let start = start_of(&self.ends, last as u32);
        self.ends.truncate(last);
        self.lits.truncate(start as usize);
    }

    /// Drops the lemmas of more than `keep` literals. The others stay, in their order, as do the
    /// clauses of the formula, but the ids of lemmas change. It takes no memory. The time is that
    /// of one walk over the lemmas.
    pub fn drop_lemmas(&mut self, keep: usize)
        ensures clauses { self.new.clauses ≡ without_long self.old.base keep self.old.clauses }
        ensures base { self.new.base ≡ self.old.base }
    {
        drop_long(&mut self.lits, &mut self.ends, self.base, keep);
    }

    /// The literals of a clause, in the order in which it was given. Constant time.
    pub fn lits(&self, id: u32) -> &[i32]
        requires { id < length self.now.clauses }
        ensures clause { result.now ≡ slice_index_or self.now.clauses id [] }
        ensures literals { All IsLiteral result.now }
        ensures once { HasEachOnce result.now }
        ensures lemma { self.now.base ≤ id → HasDistinctVariables result.now }
    {
        let start = start_of(&self.ends, id);
        piece(&self.lits, start, self.ends[id as usize])
    }

    /// How many clauses there are, lemmas among them.
    pub fn len(&self) -> u32
        ensures length { result ≡ length self.now.clauses }
        ensures few { length self.now.clauses < 2 ^ 30 + 1000000 }
        ensures arena { IsArena self.now }
    {
        self.ends.len() as u32
    }

    /// How many of them are the formula's.
    pub fn base(&self) -> u32
        ensures base { result ≡ self.now.base }
        ensures within { self.now.base ≤ length self.now.clauses }
    {
        self.base
    }
}
