//! Starts: the search of a subject, and a job of it from a prefix.
ghost use Rattle.std.specs.Prelude.{◌≡◌, ◌<◌, ◌^◌, [], true, false, List, ℤ, IfOk, length};
ghost use Rattle.std.specs.List.{All};
ghost use Rattle.sat_terms.specs.Literals.{IsLiteralOf};
ghost use Rattle.sat_terms.specs.Cubes.{IsCube, rises_above};
ghost use Rattle.sat_terms.specs.Subjects.{IsSubject};
ghost use Rattle.search_job.specs.Reasons.{assume_all};
ghost use Rattle.chrono_trail.specs.Trails.{IsTrail};
ghost use Rattle.chrono_trail.specs.Pictures.{picture_of};
ghost use Rattle.chrono_trail.specs.Reasons.{AreReasoned};
ghost use Rattle.live_engine.specs.Searching.{IsGround};
ghost use Rattle.live_engine.specs.Starts.{AreOf, IsOf, Begins};

use crate::search::Search;
use chrono_trail::{Kind, Trail};
use clause_arena::Arena;
use conflict_analysis::Analyser;
use implicant_shrink::Shrinker;
use projected_decide::{Order, marks_of};
use propagation::Propagator;
use sat_terms::{Cube, Subject};
use std::alloc::{AllocError, Global};

/// What a search works with: the clauses, and what looks at them.
#[derive(Drop)]
struct Machines {
    /// The clauses of the formula, and no lemma.
    arena: Arena,
    propagator: Propagator,
    /// Nothing is assigned.
    trail: Trail,
    order: Order,
    analyser: Analyser,
    shrinker: Shrinker,
}

impl Machines {
    /// Those of a subject. They are apart from the search, since the proof of a call that can fail
    /// carries what is known of all that was made before it.
    fn make(alloc: Global, subject: &Subject) -> Result<Machines, AllocError>
        requires { IsSubject subject.now.formula.variables subject.now.formula.clauses
            subject.now.shown subject.now.under }
        ensures { IfOk result (AreOf subject.now) }
    {
        let variables = subject.formula.variables;
        let arena = Arena::make(alloc, &subject.formula)?;
        let propagator = Propagator::make(alloc, &arena, variables)?;
        let shrinker = Shrinker::make(alloc, &arena, variables)?;
        Ok(Machines {
            arena,
            propagator,
            trail: Trail::make(alloc, variables)?,
            order: Order::make(alloc, variables, subject.shown.as_slice())?,
            analyser: Analyser::make(alloc, variables)?,
            shrinker,
        })
    }
}

impl Search {
    /// A search of the subject, without a job, which keeps so many lemmas at most.
    pub(crate) fn make(
        alloc: Global,
        subject: &Subject,
        most_lemmas: u32,
    ) -> Result<Search, AllocError>
        requires { IsSubject subject.now.formula.variables subject.now.formula.clauses
            subject.now.shown subject.now.under }
        ensures ground { IfOk result IsGround }
        ensures subject { IfOk result (IsOf subject.now) }
        ensures found { IfOk result (λ search. search.found.items ≡ []) }
        ensures leaves { IfOk result (λ search. search.leaves ≡ 0) }
        ensures model { IfOk result (λ search. search.has_model ≡ false) }
        ensures clauses { IfOk result (λ search. length search.arena.clauses ≡ search.arena.base) }
        ensures sent { IfOk result (λ search. search.sent ≡ 0) }
    {
        let variables = subject.formula.variables;
        let machines = Machines::make(alloc, subject)?;
        let shown = subject.shown.as_slice();
        Ok(Search {
            variables,
            arena: machines.arena,
            propagator: machines.propagator,
            trail: machines.trail,
            order: machines.order,
            analyser: machines.analyser,
            most_lemmas,
            shrinker: machines.shrinker,
            shown: shown.to_vec(alloc)?,
            is_shown: marks_of(alloc, variables, shown)?,
            prefix: Cube::from_vec(Vec::new(alloc)),
            base: 0,
            counts: vec![in alloc; 0u64; variables as usize + 1]?,
            leaves: 0,
            values: vec![in alloc; false; variables as usize + 1]?,
            has_model: false,
            copied: 0,
            sent: 0,
            found: Vec::new(alloc),
        })
    }

    /// Starts the job of a prefix: its literals are assumed, on a trail without any item, so that
    /// none of them is found implied.
    pub(crate) fn begin(&mut self, prefix: Cube)
        requires ground { IsGround self.old }
        requires prefix { IsCube self.old.shown.items prefix }
        requires found { self.old.found.items ≡ [] }
        ensures { Begins self.old self.new prefix }
    {
        self.trail.clear();
        assume(&mut self.trail, prefix.lits());
        self.prefix = prefix;
        self.order.put_back_all();
        self.copied = 0;
        self.base = 0;
        self.leaves = 0;
    }
}

/// Puts the literals of a prefix on an empty trail.
fn assume(trail: &mut Trail, prefix: &[i32])
    requires small { trail.old.variables < 2 ^ 31 }
    requires empty { trail.old.items ≡ [] }
    requires lowest { trail.old.level ≡ 0 }
    requires rising { rises_above 0 prefix.now ≡ true }
    requires named { All (IsLiteralOf trail.old.variables) prefix.now }
    ensures items { (f : List (List ℤ)) → picture_of f trail.new.items ≡ assume_all prefix.now [] }
    ensures reasoned { (f : List (List ℤ)) → AreReasoned f trail.new.items }
    ensures level { trail.new.level ≡ 0 }
    ensures variables { trail.new.variables ≡ trail.old.variables }
    ensures seen { trail.new.seen ≡ trail.old.seen }
    ensures trail { IsTrail trail.new.variables trail.new.items trail.new.level }
{
    for lit in prefix {
        trail.assign(*lit, 0, Kind::Assumed);
    }
}
