//! The analyser.
ghost use Rattle.std.specs.Prelude.{◌≡◌, ◌<◌, ◌^◌, true, [], length, slice_index_or, IfOk};
ghost use Rattle.std.specs.List.{All};
ghost use Rattle.std.specs.Borrow.{sem};
ghost use Rattle.sat_terms.specs.Literals.{IsLiteralOf};
ghost use Rattle.chrono_trail.specs.Clauses.{is_false_clause};
ghost use Rattle.chrono_trail.specs.Reasons.{AreReasoned};
ghost use Rattle.conflict_analysis.specs.Lemmas.{IsLearnt};

use crate::walk::{asserted, settle, walk};
use chrono_trail::{Trail, level_of_rest};
use clause_arena::Arena;
use std::alloc::{AllocError, Global};
use std::marker::Model;

/// What a conflict taught.
#[derive(Clone, Copy, Debug, Drop)]
pub struct Learnt<'a> {
    /// The literals of the clause, which are all false. The two of the highest levels come first,
    /// the others by rising level.
    pub lits: &'a [i32],
    /// The greatest level of a literal of the false clause, or 0 where it is empty.
    pub conflict_level: u32,
    /// The greatest level of the literals other than the asserted one, or 0.
    pub rest_level: u32,
    /// The negation of the decision of the conflict's level, where the clause has it.
    pub asserts: Option<i32>,
}

/// Analyses conflicts, with a mark for each variable and a place for each literal to learn.
#[derive(Debug, Drop)]
pub struct Analyser {
    marks: Vec<bool>,
    lits: Vec<i32>,
}

impl Model for Analyser {
    ghost use Rattle.std.specs.Prelude.{ℕ, length, ◌-◌, vec_capacity};
    ghost use Rattle.conflict_analysis.specs.Marks.{IsRested};

    ghost Value = { ℕ };

    ghost view = { λ a. length a.marks.items - 1 };

    ghost invariant = { λ a. IsRested a.marks.items (vec_capacity a.lits) };
}

impl Analyser {
    ghost use Rattle.conflict_analysis.specs.Lent.{EndsSame};

    /// An analyser for the variables 1 to `variables`. It takes all its memory here.
    pub fn make(alloc: Global, variables: u32) -> Result<Analyser, AllocError>
        requires { variables < 2 ^ 31 }
        ensures { IfOk result (λ analyser. analyser ≡ variables) }
    {
        Ok(Analyser {
            marks: vec![in alloc; false; variables as usize + 1]?,
            lits: Vec::with_capacity(alloc, variables as usize)?,
        })
    }

    /// The clause that resolution comes to from the false clause `id`, back through the reasons of
    /// the trail. It takes no memory. The time is that of one walk over the items from the newest
    /// one to the oldest that takes part, and over their reasons.
    pub fn analyse(&mut self, arena: &Arena, trail: &Trail, id: u32) -> Learnt<'_>
        requires variables { trail.now.variables ≡ self.old }
        requires clauses { All (All (IsLiteralOf trail.now.variables)) arena.now.clauses }
        requires reasons { AreReasoned arena.now.clauses trail.now.items }
        requires inside { id < length arena.now.clauses }
        requires wrong { is_false_clause trail.now.items
            (slice_index_or arena.now.clauses id []) ≡ true }
        ensures* kept { sem 𝓛 (EndsSame self.entry) }
        ensures learnt { IsLearnt arena.now.clauses trail.now.variables trail.now.items id
            result.lits.now result.conflict_level result.rest_level result.asserts }
    {
        self.lits.clear();
        walk(&mut self.marks, &mut self.lits, arena, trail, id);
        settle(&mut self.lits);
        let conflict_level = level_of_rest(trail, arena.lits(id), 0);
        let lits = self.lits.as_slice();
        let asserts = asserted(trail, lits, conflict_level);
        let rest_level = level_of_rest(trail, lits, asserts.unwrap_or(0));
        Learnt {
            lits,
            conflict_level,
            rest_level,
            asserts,
        }
    }
}
