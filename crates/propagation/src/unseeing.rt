//! Which items have to be walked again for a lemma that joins.
ghost use Rattle.std.specs.Prelude.{◌≡◌, ◌<◌, ◌≤◌, true, false, length, take};
ghost use Rattle.std.specs.List.{All, list_any};
ghost use Rattle.sat_terms.specs.Literals.{IsLiteralOf};
ghost use Rattle.propagation.specs.Settled.{IsEasedBy};
ghost use Rattle.propagation.specs.Walking.{IsUnseenFor, is_of_either};

use crate::values::{is_false, is_true};
use chrono_trail::{Item, Trail};

/// How many of the items stand before the first one of either variable.
fn before_either(items: &[Item], one: u32, other: u32) -> usize
    ensures within { result ≤ length items.now }
    ensures none { list_any (is_of_either one other) (take result items.now) ≡ false }
{
    for (place, item) in items.iter().enumerate() {
        let variable = item.lit.unsigned_abs();
        if variable == one || variable == other {
            return place;
        }
    }
    items.len()
}

/// Whether a clause that watches the two literals asks for a walk where the first one is false: the
/// other one is false too, or at level 0 is not true.
fn asks(trail: &Trail, one: i32, other: i32) -> bool
    requires one { IsLiteralOf trail.now.variables one }
    requires other { IsLiteralOf trail.now.variables other }
    ensures { result ≡ false → IsEasedBy trail.now one other }
{
    let level = trail.level();
    if !is_false(trail, one) {
        return false;
    }
    if level > 0 {
        return is_false(trail, other);
    }
    !is_true(trail, other)
}

/// Marks fewer items as seen, where the lemma asks for it: those of its first two literals are not.
pub(crate) fn unsee(trail: &mut Trail, lemma: &[i32])
    requires named { All (IsLiteralOf trail.old.variables) lemma.now }
    ensures trail { trail.new ≡ record trail.old { seen = trail.new.seen } }
    ensures seen { trail.new.seen ≤ trail.old.seen }
    ensures unseen { IsUnseenFor trail.new lemma.now }
{
    if lemma.len() < 2 {
        trail.see(0);
        return;
    }
    let one = lemma[0];
    let other = lemma[1];
    if asks(trail, one, other) || asks(trail, other, one) {
        let place = before_either(trail.items(), one.unsigned_abs(), other.unsigned_abs());
        trail.see(place.min(trail.seen()));
    }
}
