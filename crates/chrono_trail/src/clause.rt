//! What a clause is under a trail: false, unit or neither, and the level of what it implies.
ghost use Rattle.std.specs.Prelude.{◌≡◌, true};
ghost use Rattle.std.specs.List.{All};
ghost use Rattle.chrono_trail.specs.Items.{are_distinct};
ghost use Rattle.chrono_trail.specs.Clauses.{IsScan, rest_level};
ghost use Rattle.sat_terms.specs.Literals.{IsLiteralOf};

use crate::trail::Trail;

/// What a clause is under a trail, taken as the set of its literals.
#[derive(Clone, Copy, Debug, PartialEq, Eq)]
pub enum Scanned {
    /// Each literal is false.
    False,
    /// This literal is unassigned, and each other one is false.
    Unit(i32),
    /// Some literal is true, or two different ones are unassigned.
    Neither,
}

/// What the clause is. A clause that holds a literal and its negation is never false or unit.
pub fn scan(trail: &Trail, clause: &[i32]) -> Scanned
    requires variables { All (IsLiteralOf trail.now.variables) clause.now }
    requires distinct { are_distinct trail.now.items ≡ true }
    ensures { IsScan trail.now.items clause.now result }
{
    let mut free = None;
    for lit in clause {
        match trail.value(*lit) {
            Some(true) => return Scanned::Neither,
            Some(false) => {}
            None => match free {
                None => free = Some(*lit),
                Some(other) => {
                    if other != *lit {
                        return Scanned::Neither;
                    }
                }
            },
        }
    }
    match free {
        None => Scanned::False,
        Some(lit) => Scanned::Unit(lit),
    }
}

/// The greatest level of the literals of the clause other than this one, or 0.
pub fn level_of_rest(trail: &Trail, clause: &[i32], lit: i32) -> u32
    requires { All (IsLiteralOf trail.now.variables) clause.now }
    ensures { result ≡ rest_level trail.now.items lit clause.now }
{
    let mut greatest = 0;
    for other in clause {
        if *other != lit {
            if let Some(level) = trail.level_of(other.unsigned_abs()) {
                greatest = level.max(greatest);
            }
        }
    }
    greatest
}
