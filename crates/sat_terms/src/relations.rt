//! How two cubes lie to each other: apart, within, and their order.
ghost use Rattle.std.specs.Prelude.{◌≡◌, true};
ghost use Rattle.sat_terms.specs.Cubes.{rises_above, apart, within};
ghost use Rattle.sat_terms.specs.CubeOrder.{cube_order};

use crate::literal::place_of;
use std::cmp::Ordering;

/// Compares two cubes by the keys of their literals at the first difference; a proper prefix stands
/// before the longer cube. Time is that of the shorter list.
pub fn compare(c: &[i32], d: &[i32]) -> Ordering
    ensures { result ≡ cube_order c.now d.now }
{
    c.iter()
        .map(|lit| place_of(*lit))
        .cmp(d.iter().map(|lit| place_of(*lit)))
}

/// Whether some literal of `c` is negated in `d`, so that no assignment lies in both. One walk over
/// both cubes.
pub fn apart(c: &[i32], d: &[i32]) -> bool
    requires left { rises_above 0 c.now ≡ true }
    requires right { rises_above 0 d.now ≡ true }
    ensures { result ≡ apart c.now d.now }
{
    let mut i = 0;
    let mut j = 0;
    while i < c.len() && j < d.len() {
        let left = c[i].unsigned_abs();
        let right = d[j].unsigned_abs();
        if left < right {
            i += 1;
        } else if right < left {
            j += 1;
        } else if c[i] == d[j] {
            i += 1;
            j += 1;
        } else {
            return true;
        }
    }
    false
}

/// Whether each literal of `d` is in `c`, so that each assignment of `c` lies in `d`. One walk over
/// both cubes.
pub fn within(c: &[i32], d: &[i32]) -> bool
    requires inner { rises_above 0 c.now ≡ true }
    requires outer { rises_above 0 d.now ≡ true }
    ensures { result ≡ within c.now d.now }
{
    let mut i = 0;
    let mut j = 0;
    while j < d.len() {
        if i == c.len() {
            return false;
        }
        if c[i].unsigned_abs() < d[j].unsigned_abs() {
            i += 1;
        } else if c[i] == d[j] {
            i += 1;
            j += 1;
        } else {
            return false;
        }
    }
    true
}
