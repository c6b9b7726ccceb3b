//! Shrinking without a state of its own.
ghost use Rattle.std.specs.Prelude.{◌≡◌, neg_ℤ};
ghost use Rattle.std.specs.List.{All};
ghost use Rattle.sat_terms.specs.Literals.{IsLiteral};
ghost use Rattle.sat_terms.specs.Cubes.{has_literal, has_pair};
ghost use Rattle.implicant_shrink.specs.Shrinking.{CanShrink, Shrinks};

use crate::levels::{greatest_flip, least};
use chrono_trail::Trail;
use clause_arena::Arena;

/// What shrinking came to.
#[derive(Clone, Copy, Debug, PartialEq, Eq)]
pub enum Shrunk {
    /// The least level that is enough.
    Level(u32),
    /// This clause of the formula is false, and none before it.
    Missed(u32),
}

/// The least level, not below `base`, whose shown literals and all hidden ones meet the formula. It
/// walks over the formula once, and takes no memory. A clause that raises the level is looked
/// through for a pair in quadratic time.
pub fn shrink(arena: &Arena, shown: &[bool], trail: &Trail, base: u32) -> Shrunk
    requires { CanShrink arena.now shown.now trail.now }
    ensures { Shrinks arena.now shown.now trail.now base result }
{
    let mut level = base.max(greatest_flip(trail.items(), shown));
    for id in 0..arena.base() {
        let clause = arena.lits(id);
        match least(trail, shown, clause, level) {
            Some(met) => {
                if met.level > level && !has_pair(clause) {
                    level = met.level;
                }
            }
            None => return Shrunk::Missed(id),
        }
    }
    Shrunk::Level(level)
}

/// Whether the clause holds a literal and its negation.
fn has_pair(clause: &[i32]) -> bool
    requires { All IsLiteral clause.now }
    ensures { result ≡ has_pair clause.now }
{
    for lit in clause {
        if holds(clause, -*lit) {
            return true;
        }
    }
    false
}

/// Whether the clause holds this literal.
fn holds(clause: &[i32], lit: i32) -> bool
    ensures { result ≡ has_literal clause.now lit }
{
    for other in clause {
        if *other == lit {
            return true;
        }
    }
    false
}
