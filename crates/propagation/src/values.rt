//! Whether a literal is true or false under a trail.
ghost use Rattle.std.specs.Prelude.{◌≡◌, true};
ghost use Rattle.chrono_trail.specs.Items.{are_distinct};
ghost use Rattle.chrono_trail.specs.Clauses.{is_true, is_false};
ghost use Rattle.sat_terms.specs.Literals.{IsLiteralOf};

use chrono_trail::Trail;

/// Whether the literal is true.
pub(crate) fn is_true(trail: &Trail, lit: i32) -> bool
    requires named { IsLiteralOf trail.now.variables lit }
    requires distinct { are_distinct trail.now.items ≡ true }
    ensures { result ≡ is_true trail.now.items lit }
{
    match trail.value(lit) {
        Some(value) => value,
        None => false,
    }
}

/// Whether the literal is false.
pub(crate) fn is_false(trail: &Trail, lit: i32) -> bool
    requires named { IsLiteralOf trail.now.variables lit }
    requires distinct { are_distinct trail.now.items ≡ true }
    ensures { result ≡ is_false trail.now.items lit }
{
    match trail.value(lit) {
        Some(value) => !value,
        None => false,
    }
}
