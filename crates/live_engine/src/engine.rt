//! The engine, as its callers see it.
ghost use Rattle.std.specs.Prelude.{◌≡◌, ◌≢◌, ◌-◌, ◌<◌, ◌≤◌, [], None, Some, IfOk, IfErr, filter, nat_le, length};
ghost use Rattle.sat_terms.specs.Cubes.{IsCube};
ghost use Rattle.sat_terms.specs.Subjects.{IsSubject};
ghost use Rattle.live_engine.specs.Engines.{HasStarted, Leafs, FitsJob, outcome_of, value_told};
ghost use Rattle.live_engine.specs.Gives.{GivesOrNot};
ghost use Rattle.live_engine.specs.Lemmas.{HasImported, TakesFresh};
ghost use Rattle.sat_terms.specs.Literals.{IsLiteralOf};
ghost use Rattle.std.specs.List.{All};
ghost use Rattle.std.specs.Prelude.{map};
ghost use Rattle.clause_arena.specs.Once.{once};
ghost use Rattle.clause_arena.specs.Clauses.{without_long};

use crate::search::{Leaf, Phase, Search, Step};
use prefix_jobs::{Lemma, Outcome};
use sat_terms::{Cube, Items, Subject};
use std::alloc::{AllocError, Global};
use std::marker::Model;
use std::mem::replace;
use std::snapshot::Snapshot;

/// So many lemmas are kept at most.
const MOST_LEMMAS: u32 = 1_000_000;

/// Searches prefixes of one subject, one after another, and each leaf by leaf.
#[derive(Drop)]
pub struct Engine {
    alloc: Global,
    subject: Snapshot<Subject>,
    search: Search,
    phase: Phase,
    /// Where a cube is read off. It is taken once, with room for each shown variable.
    spare: Vec<i32>,
}

impl Model for Engine {
    ghost use Rattle.live_engine.specs.Engines.{EngineView, engine_view, IsEngine};

    ghost Value = { EngineView };

    ghost view = { λ e. engine_view e.subject.value e.search e.phase };

    ghost invariant = { λ e. IsEngine e.subject.value e.search e.phase };
}

impl Engine {
    /// An engine of the subject, without a job. It keeps a copy of the clauses, each literal once.
    pub fn make(alloc: Global, subject: &Subject) -> Result<Engine, AllocError>
        requires { IsSubject subject.now.formula.variables subject.now.formula.clauses
            subject.now.shown subject.now.under }
        ensures { IfOk result (λ engine. engine ≡ record {
          subject = subject.now;
          job = None;
          found = [];
          untried = [];
          here = None;
          leaves = 0;
          model = None;
          clauses = map once subject.now.formula.clauses;
          unsent = [];
        }) }
    {
        Engine::with_lemmas(alloc, subject, MOST_LEMMAS)
    }

    /// The same, keeping so many lemmas at most.
    pub(crate) fn with_lemmas(
        alloc: Global,
        subject: &Subject,
        most_lemmas: u32,
    ) -> Result<Engine, AllocError>
        requires { IsSubject subject.now.formula.variables subject.now.formula.clauses
            subject.now.shown subject.now.under }
        ensures { IfOk result (λ engine. engine ≡ record {
          subject = subject.now;
          job = None;
          found = [];
          untried = [];
          here = None;
          leaves = 0;
          model = None;
          clauses = map once subject.now.formula.clauses;
          unsent = [];
        }) }
    {
        Ok(Engine {
            alloc,
            subject: Snapshot::of(subject),
            search: Search::make(alloc, subject, most_lemmas)?,
            phase: Phase::Idle,
            spare: Vec::new(alloc),
        })
    }

    /// Starts the job of a prefix.
    pub fn start(&mut self, prefix: &Cube) -> Result<(), AllocError>
        requires idle { self.old.job ≡ None }
        requires prefix { IsCube self.old.subject.shown prefix.now }
        ensures started { IfOk result (λ _. HasStarted self.old self.new prefix.now) }
        ensures unchanged { IfErr result (λ _. self.new ≡ self.old) }
    {
        let prefix = prefix.copy(self.alloc)?;
        self.search.begin(prefix);
        self.search.skip_lemmas();
        self.phase = Phase::Running;
        Ok(())
    }

    /// Searches up to the next leaf. A conflict whose decision is hidden is none. The memory
    /// without which a cube could not be kept is taken first.
    pub fn leaf(&mut self) -> Result<Leaf, AllocError>
        requires running { self.old.job ≢ None }
        ensures leaf { IfOk result (λ leaf. Leafs self.old self.new leaf) }
        ensures fits { IfOk result (λ _. FitsJob self.new) }
        ensures unchanged { IfErr result (λ _. self.new ≡ self.old) }
    {
        match self.phase {
            Phase::Idle => unreachable!(),
            Phase::Over => Ok(Leaf::Ended),
            Phase::Running => {
                self.spare.clear();
                self.spare.reserve(self.search.shown.len())?;
                self.search.found.reserve(1)?;
                match self.search.next_leaf(self.alloc, &mut self.spare) {
                    Step::Goes(leaf) => Ok(leaf),
                    Step::Last(leaf) => {
                        self.phase = Phase::Over;
                        Ok(leaf)
                    }
                }
            }
        }
    }

    /// Gives the lowest untried prefix away, so that others can search it while the job goes on
    /// with what is left of its own. With it go the cubes found outside the prefix that the job
    /// keeps, and the leaves counted before the search came into this. None where nothing is
    /// untried.
    pub fn give(&mut self) -> Result<Option<Outcome>, AllocError>
        requires running { self.old.job ≢ None }
        ensures gives { IfOk result (λ given. GivesOrNot self.old self.new given) }
        ensures fits { IfOk result (λ _. FitsJob self.new) }
        ensures unchanged { IfErr result (λ _. self.new ≡ self.old) }
    {
        match self.phase {
            Phase::Idle => unreachable!(),
            Phase::Over => Ok(None),
            Phase::Running => self.search.give(self.alloc),
        }
    }

    /// Ends the job. Its outcome keeps nothing: what is left open is to be searched by others.
    pub fn expose(&mut self) -> Result<Outcome, AllocError>
        requires running { self.old.job ≢ None }
        ensures outcome { IfOk result (λ outcome. outcome ≡ outcome_of self.old) }
        ensures fits { IfOk result (λ _. FitsJob self.old) }
        ensures ended { IfOk result (λ _. self.new ≡ record self.old {
          job = None;
          found = [];
          untried = [];
          here = None;
          leaves = 0;
          model = self.old.model;
        }) }
        ensures unchanged { IfErr result (λ _. self.new ≡ self.old) }
    {
        let rest = self.search.left_of(self.alloc, self.phase)?;
        let found = replace(&mut self.search.found, Vec::new(self.alloc));
        let leaves = self.search.leaves;
        self.search.leaves = 0;
        self.phase = Phase::Idle;
        Ok(Outcome {
            cubes: Items::from_vec(found),
            rest: Items::from_vec(rest),
            kept: None,
            leaves,
        })
    }

    /// Ends the job. What it found is lost.
    pub fn abandon(&mut self)
        requires { self.old.job ≢ None }
        ensures { self.new ≡ record self.old {
          job = None;
          found = [];
          untried = [];
          here = None;
          leaves = 0;
          model = self.old.model;
        } }
    {
        self.search.found.clear();
        self.search.leaves = 0;
        self.phase = Phase::Idle;
    }

    /// Whether unit propagation from the negations of these literals over the engine's clauses
    /// comes to a conflict; a list with a literal and its negation counts as one. Then the clause
    /// of them follows from the formula, and is kept as a lemma, where there is room and it holds
    /// no such pair. It is not fresh.
    pub fn import(&mut self, lits: &[i32]) -> Result<bool, AllocError>
        requires idle { self.old.job ≡ None }
        requires literals { All (IsLiteralOf self.old.subject.formula.variables) lits.now }
        ensures imports { IfOk result
            (λ refuted. HasImported self.old self.new lits.now refuted) }
        ensures unchanged { IfErr result (λ _. self.new ≡ self.old) }
    {
        let refuted = self.search.import(self.alloc, lits)?;
        self.search.skip_lemmas();
        Ok(refuted)
    }

    /// The oldest lemma of at most 8 literals that was learnt since the job began and has not been
    /// an answer of this call. None where there is none.
    pub fn fresh(&mut self) -> Option<Lemma>
        ensures { TakesFresh self.old self.new result }
    {
        self.search.next_unsent()
    }

    /// How many leaves the job had so far; the number stands still at 2^62.
    pub fn leaves(&self) -> u64
        ensures { result ≡ self.now.leaves }
    {
        self.search.leaves
    }

    /// The value that a hidden variable had in the last model of which a cube was found. None where
    /// the variable is shown, or there was no such model since the engine was made.
    pub fn hidden(&self, variable: u32) -> Option<bool>
        requires some { 0 < variable }
        requires within { variable ≤ self.now.subject.formula.variables }
        ensures { result ≡ value_told self.now.model variable }
    {
        self.search.hidden_value(variable)
    }

    /// Drops the lemmas of more than `keep` literals; none of the others is fresh. It takes no
    /// memory. The time is that of one walk over the lemmas.
    pub fn drop_lemmas(&mut self, keep: usize)
        requires { self.old.job ≡ None }
        ensures { self.new ≡ record self.old {
          clauses = without_long (length self.old.subject.formula.clauses) keep self.old.clauses;
          unsent = [];
        } }
    {
        self.search.drop_lemmas(keep);
        self.search.skip_lemmas();
    }

    /// How many lemmas it keeps.
    pub fn lemmas(&self) -> u32
        ensures { result ≡ length self.now.clauses - length self.now.subject.formula.clauses }
    {
        self.search.arena.len() - self.search.arena.base()
    }

    /// The variables of the formula are 1 to this one.
    pub fn variables(&self) -> u32
        ensures { result ≡ self.now.subject.formula.variables }
    {
        self.search.variables
    }
}

#[cfg(test)]
mod calls;
#[cfg(test)]
mod lemma_tests;
#[cfg(test)]
mod prefix_tests;
#[cfg(test)]
mod tests;
