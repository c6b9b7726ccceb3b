//! Shrinking again and again over one formula.
ghost use Rattle.std.specs.Prelude.{◌≡◌, ◌+◌, ◌<◌, ◌^◌, ◌≤◌, false, length, nat_abs, IfOk};
ghost use Rattle.std.specs.List.{All, list_any};
ghost use Rattle.sat_terms.specs.Literals.{IsLiteralOf};
ghost use Rattle.chrono_trail.specs.Clauses.{is_false_clause};
ghost use Rattle.implicant_shrink.specs.Levels.{marked, is_kept_at};
ghost use Rattle.implicant_shrink.specs.Shrinking.{formula_of, CanShrink, IsLevelOf, IsFor};
ghost use Rattle.implicant_shrink.specs.Shrinking.{RisesOver};

use crate::levels::{flips_level, least};
use crate::pairs::find_pairs;
use chrono_trail::Trail;
use clause_arena::Arena;
use std::alloc::{AllocError, Global};
use std::marker::Model;

/// What shrinking keeps of a formula: the literal that met each clause last, which is tried first
/// in the next call, and the clause that raised the level last, with which the next call begins.
/// Neither changes what a call comes to.
#[derive(Debug, Drop)]
pub struct Shrinker {
    pairs: Vec<bool>,
    tried: Vec<i32>,
    first: u32,
}

impl Model for Shrinker {
    ghost use Rattle.implicant_shrink.specs.Shrinking.{ShrinkerView};

    ghost Value = { ShrinkerView };

    ghost view = { λ s. record { pairs = s.pairs.items; tried = s.tried.items } };
}

impl Shrinker {
    /// A shrinker for the formula of this arena, over the variables 1 to `variables`. No later call
    /// takes memory. The time is that of two walks over the formula.
    pub fn make(alloc: Global, arena: &Arena, variables: u32) -> Result<Shrinker, AllocError>
        requires small { variables < 2 ^ 31 }
        requires clauses { All (All (IsLiteralOf variables)) arena.now.clauses }
        ensures { IfOk result (λ shrinker. IsFor (formula_of arena.now) shrinker) }
    {
        let pairs = find_pairs(alloc, arena, variables)?;
        let tried = vec![in alloc; 0i32; arena.base() as usize]?;
        Ok(Shrinker {
            pairs,
            tried,
            first: 0,
        })
    }

    /// The least level, not below `base`, whose shown literals and all hidden ones meet the
    /// formula. No clause of it is false. A clause is looked at only where its literal to try first
    /// is not enough, and then up to the first literal that is; none is once the level is that of
    /// the trail.
    pub fn level(&mut self, arena: &Arena, shown: &[bool], trail: &Trail, base: u32) -> u32
        requires formula { IsFor (formula_of arena.now) self.old }
        requires full { CanShrink arena.now shown.now trail.now }
        requires met { list_any (is_false_clause trail.now.items) (formula_of arena.now) ≡ false }
        ensures least { IsLevelOf arena.now shown.now trail.now base result }
        ensures formula { IsFor (formula_of arena.now) self.new }
    {
        let clauses = arena.base();
        let first = self.first.min(clauses);
        let flips = base.max(flips_level(trail, shown));
        let level = self.rise(arena, shown, trail, first, clauses, flips);
        self.rise(arena, shown, trail, 0, first, level)
    }

    /// The least level from this one on that meets the clauses from the one of number `from` to the
    /// one before `end`, or one that is as needed by others.
    fn rise(
        &mut self,
        arena: &Arena,
        shown: &[bool],
        trail: &Trail,
        from: u32,
        end: u32,
        level: u32,
    ) -> u32
        requires formula { IsFor (formula_of arena.now) self.old }
        requires full { CanShrink arena.now shown.now trail.now }
        requires met { list_any (is_false_clause trail.now.items) (formula_of arena.now) ≡ false }
        requires within { end ≤ length (formula_of arena.now) }
        ensures rises { RisesOver arena.now shown.now trail.now from end level result }
        ensures formula { IsFor (formula_of arena.now) self.new }
    {
        let mut level = level;
        let top = trail.level();
        if level >= top {
            return level;
        }
        for id in from..end {
            let place = id as usize;
            if is_kept(trail, shown, self.tried[place], level) {
                continue;
            }
            let met = least(trail, shown, arena.lits(id), level).unwrap();
            self.tried[place] = met.lit;
            if met.level > level && !self.pairs[place] {
                level = met.level;
                self.first = id;
                if level >= top {
                    return level;
                }
            }
        }
        level
    }
}

/// Whether the literal is true, and hidden or of level at most this one.
fn is_kept(trail: &Trail, shown: &[bool], lit: i32, level: u32) -> bool
    requires table { length shown.now ≡ trail.now.variables + 1 }
    requires named { nat_abs lit ≤ trail.now.variables }
    ensures { result ≡ is_kept_at (marked shown.now) level trail.now.items lit }
{
    match trail.level_of_true(lit) {
        Some(own) => own <= level || !shown[lit.unsigned_abs() as usize],
        None => false,
    }
}
