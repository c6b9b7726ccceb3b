//! Imports: clauses of others, kept where unit propagation shows that they follow.
ghost use Rattle.std.specs.Prelude.{◌≡◌, ◌<◌, ◌≤◌, ◌^◌, ◌++◌, true, false, [], ◌∷◌, length, map};
ghost use Rattle.std.specs.Prelude.{vec_capacity, IfOk, IfErr};
ghost use Rattle.std.specs.List.{All};
ghost use Rattle.sat_terms.specs.Literals.{IsLiteralOf};
ghost use Rattle.sat_terms.specs.Cubes.{has_pair};
ghost use Rattle.search_region.specs.Steady.{Follows};
ghost use Rattle.clause_arena.specs.Clauses.{HasDistinctVariables, has_room};
ghost use Rattle.clause_arena.specs.Once.{once};
ghost use Rattle.chrono_trail.specs.Trails.{IsTrail};
ghost use Rattle.live_engine.specs.Searching.{IsGround, search_formula};
ghost use Rattle.live_engine.specs.Imports.{Imports, NegationsTell, assumed_negation};
ghost use Rattle.live_engine.specs.Sending.{FindsShort, Skips, SendsNext};
ghost use Rattle.std.specs.Prelude.{◌+◌};

use crate::search::Search;
use chrono_trail::{Kind, Trail};
use clause_arena::Arena;
use prefix_jobs::Lemma;
use propagation::Propagated;
use std::alloc::{AllocError, Global};

/// A lemma of more literals is not sent.
const MOST_LITERALS: usize = 8;

/// What the negations of a clause's literals come to.
#[derive(Clone, Copy, Debug)]
pub(crate) enum Negations {
    /// They hold a literal and its negation.
    Pair,
    /// Unit propagation from them comes to a conflict.
    Conflict,
    /// It ends quietly.
    Quiet,
}

impl Search {
    /// Whether unit propagation refutes the negations of a clause's literals; then it is kept as a
    /// lemma, where there is room. The search has no job. Whatever the answer, the trail is without
    /// any item afterwards.
    pub(crate) fn import(&mut self, alloc: Global, lits: &[i32]) -> Result<bool, AllocError>
        requires ground { IsGround self.old }
        requires named { All (IsLiteralOf self.old.variables) lits.now }
        ensures imports { IfOk result (λ refuted. Imports self.old self.new lits.now refuted) }
        ensures ground { IsGround self.new }
        ensures unchanged { IfErr result (λ _. self.new ≡ record self.old {
          propagator = self.new.propagator;
          trail = self.new.trail;
        }) }
    {
        let mut lemma = Vec::with_capacity(alloc, lits.len())?;
        match self.try_negations(lits, &mut lemma) {
            Negations::Quiet => Ok(false),
            Negations::Pair => Ok(true),
            Negations::Conflict => {
                if !self.arena.has_room(lemma.len()) {
                    return Ok(true);
                }
                self.keep(&lemma)?;
                Ok(true)
            }
        }
    }

    /// From now on no lemma that stands is one to be sent.
    pub(crate) fn skip_lemmas(&mut self)
        ensures { Skips self.old self.new }
    {
        self.sent = self.arena.len() - self.arena.base();
    }

    /// The oldest lemma that is still to be sent, of at most 8 literals. The search goes on behind
    /// it at the next call. None where there is none.
    pub(crate) fn next_unsent(&mut self) -> Option<Lemma>
        requires { self.old.arena.base + self.old.sent ≤ length self.old.arena.clauses }
        ensures { SendsNext self.old self.new result }
    {
        let base = self.arena.base();
        let end = self.arena.len();
        match first_short(&self.arena, base + self.sent, end) {
            Some(id) => {
                self.sent = id + 1 - base;
                Some(Lemma::of(self.arena.lits(id)))
            }
            None => None,
        }
    }

    /// Keeps a clause that follows as the last lemma. Without memory for it all stays as it was.
    fn keep(&mut self, lits: &[i32]) -> Result<(), AllocError>
        requires ground { IsGround self.old }
        requires empty { self.old.trail.items ≡ [] }
        requires named { All (IsLiteralOf self.old.variables) lits.now }
        requires distinct { HasDistinctVariables lits.now }
        requires follows { Follows (search_formula self.old) lits.now }
        requires room { has_room self.old.arena (length lits.now) ≡ true }
        ensures clauses { IfOk result
            (λ _. self.new.arena.clauses ≡ self.old.arena.clauses ++ lits.now ∷ []) }
        ensures base { IfOk result (λ _. self.new.arena.base ≡ self.old.arena.base) }
        ensures ground { IfOk result (λ _. IsGround self.new) }
        ensures rest { IfOk result (λ _. self.new ≡ record self.old {
          arena = self.new.arena;
          propagator = self.new.propagator;
          trail = self.new.trail;
        }) }
        ensures unchanged { IfErr result (λ _. self.new ≡ self.old) }
    {
        let id = self.arena.add(lits)?;
        match self.propagator.learn(&self.arena, &mut self.trail, id) {
            Ok(()) => Ok(()),
            Err(error) => {
                self.arena.pop();
                Err(error)
            }
        }
    }

    /// Assumes the negations of a clause's literals, on a trail without any item, and propagates.
    /// The literals are put into `lemma`, each once, in the memory that it has. Afterwards the
    /// trail is without any item again.
    fn try_negations(&mut self, lits: &[i32], lemma: &mut Vec<i32>) -> Negations
        requires ground { IsGround self.old }
        requires named { All (IsLiteralOf self.old.variables) lits.now }
        requires none { lemma.old.items ≡ [] }
        requires room { length lits.now ≤ vec_capacity lemma.old }
        ensures tells { NegationsTell self.old.arena.clauses lits.now result }
        ensures lemma { has_pair lits.now ≡ false → lemma.new.items ≡ once lits.now }
        ensures ground { IsGround self.new }
        ensures empty { self.new.trail.items ≡ [] }
        ensures rest { self.new ≡ record self.old {
          propagator = self.new.propagator;
          trail = self.new.trail;
        } }
    {
        self.trail.clear();
        if assume_negations(&mut self.trail, lits, lemma) {
            self.trail.clear();
            return Negations::Pair;
        }
        let propagated = self.propagator.propagate(&self.arena, &mut self.trail);
        self.trail.clear();
        match propagated {
            Propagated::Conflict(_) => Negations::Conflict,
            Propagated::Quiet => Negations::Quiet,
        }
    }
}

/// Puts the negations of these literals on an empty trail, each once, and the literals into
/// `lemma`. Where they hold a literal and its negation it stops at the second of the two, and
/// answers true.
fn assume_negations(trail: &mut Trail, lits: &[i32], lemma: &mut Vec<i32>) -> bool
    requires small { trail.old.variables < 2 ^ 31 }
    requires empty { trail.old.items ≡ [] }
    requires lowest { trail.old.level ≡ 0 }
    requires named { All (IsLiteralOf trail.old.variables) lits.now }
    requires none { lemma.old.items ≡ [] }
    requires room { length lits.now ≤ vec_capacity lemma.old }
    ensures pair { result ≡ has_pair lits.now }
    ensures lemma { has_pair lits.now ≡ false → lemma.new.items ≡ once lits.now }
    ensures items { has_pair lits.now ≡ false →
        trail.new.items ≡ map assumed_negation (once lits.now) }
    ensures level { trail.new.level ≡ 0 }
    ensures variables { trail.new.variables ≡ trail.old.variables }
    ensures seen { trail.new.seen ≡ trail.old.seen }
    ensures trail { IsTrail trail.new.variables trail.new.items trail.new.level }
{
    for lit in lits {
        match trail.value(*lit) {
            Some(true) => return true,
            Some(false) => {}
            None => {
                trail.assign(-*lit, 0, Kind::Assumed);
                lemma.push_reserved(*lit);
            }
        }
    }
    false
}

/// The first clause, from this number on, of at most 8 literals. There are `end` clauses.
fn first_short(arena: &Arena, from: u32, end: u32) -> Option<u32>
    requires { end ≡ length arena.now.clauses }
    ensures { FindsShort arena.now.clauses from result }
{
    for id in from..end {
        if arena.lits(id).len() <= MOST_LITERALS {
            return Some(id);
        }
    }
    None
}
