//! A bench: the deque of one worker, and its passes at the deques of the others.
ghost use Rattle.std.specs.Prelude.{◌≡◌, ◌≤◌, [], length, IfOk, IfErr, IfSome, IfNone, OnOk};
ghost use Rattle.steal_pool.specs.Stealing.{visit_of, visits_of};
ghost use Rattle.steal_pool.specs.Benches.{bench_with_put, bench_with_taken, IsStolen, IsAlone, new_visit};

use crate::other::Other;
use crate::rule::{Counting, Cut, Fair, Hand, Putting, Taking};
use crate::taking::{steal_from, take_newest};
use crossbeam_deque::Worker;
use prefix_jobs::Token;
use std::alloc::{AllocError, Global};
use std::marker::Model;
use std::sync::atomic::{AtomicU64, Ordering};
use std::sync::{Arc, Wait};

/// For so many tokens a bench has room from the start.
const FIRST_ROOM: usize = 64;

pub(crate) type Owner = Worker<Token, Global, Hand, Fair>;

/// The bench of one worker. Contracts see its deque, for how many tokens it has room for sure, what
/// its owner put there and took, and what it stole from the others.
#[derive(Drop)]
pub struct Bench {
    deque: Owner,
    others: Vec<Other<Hand, Fair>>,
    sure: usize,
    is_hungry: bool,
    hungry: Arc<AtomicU64, Global>,
}

impl Model for Bench {
    ghost use Rattle.steal_pool.specs.Benches.{BenchView, bench_view, IsStocked};

    ghost Value = { BenchView };

    ghost view = { λ b. bench_view b.sure b.deque b.others.items };

    ghost invariant = { λ b. IsStocked b.sure b.deque };
}

impl Bench {
    /// A bench whose worker steals nowhere yet. It begins hungry, and is counted so already.
    pub(crate) fn alone(alloc: Global, hungry: Arc<AtomicU64, Global>) -> Result<Bench, AllocError>
        ensures { IfOk result (λ bench. IsAlone bench) }
    {
        let deque = Owner::lifo_as(alloc, FIRST_ROOM)?;
        let sure = deque.capacity();
        Ok(Bench {
            deque,
            others: Vec::new(alloc),
            sure,
            is_hungry: true,
            hungry,
        })
    }

    /// A pass at this bench, for another worker.
    pub(crate) fn invite(&mut self) -> Result<Other<Hand, Fair>, AllocError>
        ensures unchanged { self.new ≡ self.old }
        ensures visit { IfOk result (λ other. visit_of other ≡ new_visit self.old.deque) }
    {
        let deque = self.deque.stealer()?;
        let pass = self.deque.another::<Cut>();
        Ok(Other { deque, pass })
    }

    /// From now on its worker steals by these passes.
    pub(crate) fn visit(&mut self, others: Vec<Other<Hand, Fair>>)
        ensures { self.new ≡ record self.old { visits = visits_of others.items } }
    {
        self.others = others;
    }

    /// Puts the token. `Err` hands it back, and comes only where so many tokens were put on this
    /// bench before as it had room for: it is want of memory, or the end of the deque.
    pub fn put(&mut self, token: Token) -> Result<(), Token>
        ensures puts { OnOk result (self.new ≡ bench_with_put self.old token) }
        ensures back { IfErr result (λ back. back ≡ token) }
        ensures unchanged { IfErr result (λ _. self.new ≡ self.old) }
        ensures sure { IfErr result (λ _. self.old.sure ≤ length self.old.hand.put) }
    {
        self.deque.push_as::<Putting>(token)
    }

    /// Takes the newest token that is left. None comes only where the bench was empty at a moment
    /// of the call.
    pub fn own(&mut self) -> Option<Token>
        ensures taken { IfSome result (λ t. self.new ≡ bench_with_taken self.old t) }
        ensures unchanged { IfNone result (self.new ≡ self.old) }
    {
        take_newest::<Hand, Fair, Taking>(&mut self.deque)
    }

    /// Steals the oldest token of another bench. It tries again where a race was lost. None comes
    /// only where each other bench held at most one token at a moment of the call, which its owner
    /// may have been taking.
    pub fn steal<R: Wait>(&mut self, rt: &R) -> Option<Token>
        ensures taken { IfSome result (λ t. IsStolen self.old self.new t) }
        ensures unchanged { IfNone result (self.new ≡ self.old) }
    {
        steal_from::<R, Hand, Fair, Taking>(rt, &mut self.others)
    }

    /// Whether no token lies on it, at a moment of the call. It is advice: others steal meanwhile.
    pub fn is_empty(&mut self) -> bool
        ensures { self.new ≡ self.old }
    {
        self.deque.len_as::<Counting>() == 0
    }

    /// Says whether its worker is hungry. It is advice: no contract rests on it.
    pub fn hungry(&mut self, yes: bool)
        ensures { self.new ≡ self.old }
    {
        if yes && !self.is_hungry {
            self.hungry.fetch_add(1, Ordering::SeqCst);
        }
        if !yes && self.is_hungry {
            self.hungry.fetch_sub(1, Ordering::SeqCst);
        }
        self.is_hungry = yes;
    }

    /// Whether the worker of some bench said so, and not yet that it is not.
    pub fn anyone_hungry(&self) -> bool {
        self.hungry.load(Ordering::SeqCst) > 0
    }
}
