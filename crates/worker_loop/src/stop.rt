//! When workers that share a ledger stop early.
ghost use Rattle.std.specs.Prelude.{◌≡◌};

use std::marker::Model;
use std::sync::atomic::{AtomicBool, Ordering};

/// The leaves that workers may spend together, and whether one of them found these spent. Contracts
/// see the budget.
#[derive(Drop)]
pub struct Stop {
    budget: Option<u64>,
    asked: AtomicBool,
}

impl Model for Stop {
    ghost use Rattle.std.specs.Prelude.{ℕ, Option};

    ghost Value = { Option ℕ };

    ghost view = { λ s. s.budget };
}

impl Stop {
    /// Nobody has asked yet. Without a budget nobody will.
    pub fn make(budget: Option<u64>) -> Stop
        ensures { result ≡ budget }
    {
        Stop {
            budget,
            asked: AtomicBool::new(false),
        }
    }

    /// How many leaves may be spent in all, where they are limited.
    pub fn budget(&self) -> Option<u64>
        ensures { result ≡ self.now }
    {
        self.budget
    }

    /// Asks all workers to stop. It is advice: who is asked looks itself at what is spent.
    pub fn ask(&self) {
        self.asked.store(true, Ordering::SeqCst);
    }

    /// Whether some worker asked.
    pub fn asked(&self) -> bool {
        self.asked.load(Ordering::SeqCst)
    }
}
