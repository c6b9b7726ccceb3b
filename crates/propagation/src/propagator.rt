//! The propagator.
ghost use Rattle.std.specs.Prelude.{◌≡◌, ◌+◌, ◌<◌, ◌≤◌, ◌^◌, length, take};
ghost use Rattle.std.specs.Prelude.{IfOk, IfErr};
ghost use Rattle.std.specs.List.{All};
ghost use Rattle.chrono_trail.specs.Trails.{IsTrail};
ghost use Rattle.sat_terms.specs.Literals.{IsLiteralOf};
ghost use Rattle.propagation.specs.Settled.{Watches, IsSettled};
ghost use Rattle.propagation.specs.Steps.{Propagates, CameTo};

use crate::short::{Short, take_up, unmark};
use crate::unseeing::unsee;
use crate::walking::follow;
use chrono_trail::Trail;
use clause_arena::Arena;
use std::alloc::{AllocError, Global};
use std::marker::Model;

/// What propagation came to.
#[derive(Clone, Copy, Debug, PartialEq, Eq)]
pub enum Propagated {
    /// No clause is false, and at level 0 none is unit.
    Quiet,
    /// This clause is false.
    Conflict(u32),
}

/// Propagates over the clauses of one arena.
#[derive(Debug, Drop)]
pub struct Propagator {
    variables: u32,
    known: u32,
    places: u32,
    watches: watch_lists::Watches,
}

impl Model for Propagator {
    ghost use Rattle.propagation.specs.Settled.{PropagatorView, HasPlaces};

    ghost Value = { PropagatorView };

    ghost view = { λ p. record {
      variables = p.variables;
      known = p.known;
      places = p.places;
      lists = p.watches;
    } };

    ghost invariant = { λ p. HasPlaces p.variables p.places p.watches };
}

impl Propagator {
    /// A propagator for the clauses of this arena, over the variables 1 to `variables`.
    pub fn make(alloc: Global, arena: &Arena, variables: u32) -> Result<Propagator, AllocError>
        requires small { variables < 2 ^ 31 }
        requires clauses { All (All (IsLiteralOf variables)) arena.now.clauses }
        ensures variables { IfOk result (λ propagator. propagator.variables ≡ variables) }
        ensures known { IfOk result (λ propagator. propagator.known ≡ length arena.now.clauses) }
        ensures places { IfOk result (λ propagator. propagator.places ≡ length arena.now.clauses) }
        ensures watches { IfOk result (λ propagator. Watches arena.now.clauses propagator) }
    {
        let known = arena.len();
        Ok(Propagator {
            variables,
            known,
            places: known,
            watches: watch_lists::Watches::make(alloc, arena, variables)?,
        })
    }

    /// Takes up the lemma that was just added to the arena. It may mark fewer items of the trail as
    /// seen. Without memory the propagator and the trail stay as they are: the arena has to take
    /// the lemma away again.
    pub fn learn(&mut self, arena: &Arena, trail: &mut Trail, id: u32) -> Result<(), AllocError>
        requires next { id ≡ self.old.known }
        requires added { length arena.now.clauses ≡ id + 1 }
        requires variables { trail.old.variables ≡ self.old.variables }
        requires clauses { All (All (IsLiteralOf self.old.variables)) arena.now.clauses }
        requires settled { IsSettled (take id arena.now.clauses) self.old trail.old }
        ensures settled { IfOk result (λ _. IsSettled arena.now.clauses self.new trail.new) }
        ensures known { IfOk result (λ _. self.new.known ≡ id + 1) }
        ensures places { IfOk result (λ _. id + 1 ≤ self.new.places) }
        ensures places_stay { self.old.places ≤ self.new.places }
        ensures variables { self.new.variables ≡ self.old.variables }
        ensures trail { IfOk result (λ _. trail.new ≡ record trail.old { seen = trail.new.seen }) }
        ensures seen { trail.new.seen ≤ trail.old.seen }
        ensures unchanged { IfErr result (λ _. self.new ≡ self.old) }
        ensures trail_unchanged { IfErr result (λ _. trail.new ≡ trail.old) }
    {
        let known = arena.len();
        self.watches.attach(arena, id)?;
        unsee(trail, arena.lits(id));
        self.known = known;
        self.places = self.places.max(known);
        Ok(())
    }

    /// Takes up the clauses of an arena anew, as after its lemmas were dropped. It takes no memory.
    pub fn rebuild(&mut self, arena: &Arena)
        requires room { length arena.now.clauses ≤ self.old.places }
        requires clauses { All (All (IsLiteralOf self.old.variables)) arena.now.clauses }
        ensures watches { Watches arena.now.clauses self.new }
        ensures known { self.new.known ≡ length arena.now.clauses }
        ensures places { self.new.places ≡ self.old.places }
        ensures variables { self.new.variables ≡ self.old.variables }
    {
        self.watches.rebuild(arena);
        self.known = arena.len();
    }

    /// Appends what the clauses imply, until one is false or there is nothing more to do. How much
    /// it appends above level 0 no clause says. It takes no memory. The time is that of one walk
    /// over the list of each literal that became false since the last call, with the clauses whose
    /// other watched literal is not true; where no item is marked, also that of one look at each
    /// clause's length.
    pub fn propagate(&mut self, arena: &Arena, trail: &mut Trail) -> Propagated
        requires variables { trail.old.variables ≡ self.old.variables }
        requires clauses { All (All (IsLiteralOf self.old.variables)) arena.now.clauses }
        requires settled { IsSettled arena.now.clauses self.old trail.old }
        ensures settled { IsSettled arena.now.clauses self.new trail.new }
        ensures steps { Propagates arena.now.clauses trail.old.items trail.new.items }
        ensures outcome { CameTo arena.now.clauses trail.new result }
        ensures trail { IsTrail trail.new.variables trail.new.items trail.new.level }
        ensures level { trail.new.level ≡ trail.old.level }
        ensures variables { trail.new.variables ≡ trail.old.variables }
        ensures known { self.new.known ≡ self.old.known }
        ensures places { self.new.places ≡ self.old.places }
        ensures own_variables { self.new.variables ≡ self.old.variables }
    {
        let short = take_up(arena, trail);
        if let Short::Wrong(id) = short {
            return Propagated::Conflict(id);
        }
        let wrong = follow(&mut self.watches, arena, trail);
        unmark(trail, short);
        if let Some(id) = wrong {
            return Propagated::Conflict(id);
        }
        Propagated::Quiet
    }
}
