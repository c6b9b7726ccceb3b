//! The levels from which on literals, clauses and flips are met.
ghost use Rattle.std.specs.Prelude.{◌≡◌, ℕ, ◌+◌, ◌<◌, ◌≤◌, ◌||◌, true, cond, nat_le, length, List, ℤ, nat_abs};
ghost use Rattle.std.specs.Prelude.{IfSome, MatchOption, take};
ghost use Rattle.std.specs.List.{All, list_all};
ghost use Rattle.sat_terms.specs.Literals.{IsLiteralOf};
ghost use Rattle.sat_terms.specs.Cubes.{has_literal};
ghost use Rattle.search_region.specs.Model.{keeps_flips};
ghost use Rattle.chrono_trail.specs.Items.{item_of, is_upto, HasPlace};
ghost use Rattle.chrono_trail.specs.Pictures.{picture_of};
ghost use Rattle.implicant_shrink.specs.Levels.{marked, is_flip, is_at_most, level_by, is_met_at, met_level};
ghost use Rattle.implicant_shrink.specs.Levels.{is_flip_of_shown, AreNoFlips, IsLastFlip};

use chrono_trail::{Item, Kind, Trail};

/// A literal that meets a clause, and the level from which on it does.
#[derive(Clone, Copy, Debug)]
pub(crate) struct Met {
    /// The literal, which is true.
    pub(crate) lit: i32,
    /// Its level, or 0 where it is hidden.
    pub(crate) level: u32,
}

/// The greatest level of a shown literal that was flipped; 0 where there is none. A cube has to
/// hold these, or it would overlap one that was found on the other side. Where flips stand in the
/// order of their levels, the walk ends at the last one; else it goes over all items.
pub(crate) fn flips_level(trail: &Trail, shown: &[bool]) -> u32
    requires { length shown.now ≡ trail.now.variables + 1 }
    ensures { (clauses : List (List ℤ)) (b : ℕ) →
        keeps_flips (marked shown.now) b (picture_of clauses trail.now.items) ≡ nat_le result b }
{
    let items = trail.items();
    match last_flip(items, shown) {
        None => 0,
        Some(place) => {
            let level = items[place].level;
            if are_upto(trail, place, level) {
                level
            } else {
                greatest_flip(items, shown)
            }
        }
    }
}

/// Whether the items before this place are surely of at most this level.
fn are_upto(trail: &Trail, place: usize, level: u32) -> bool
    ensures { result ≡ true → list_all (is_upto level) (take place trail.now.items) ≡ true }
{
    level >= trail.level() || trail.decision(level + 1) >= place
}

/// The place of the last shown literal that was flipped.
fn last_flip(items: &[Item], shown: &[bool]) -> Option<usize>
    requires { All (HasPlace (length shown.now)) items.now }
    ensures { MatchOption result (AreNoFlips (marked shown.now) items.now 0)
        (IsLastFlip (marked shown.now) items.now) }
{
    let mut end = items.len();
    while end > 0 {
        end -= 1;
        if is_shown_flip(shown, &items[end]) {
            return Some(end);
        }
    }
    None
}

/// The greatest level of a shown literal that was flipped; 0 where there is none.
pub(crate) fn greatest_flip(items: &[Item], shown: &[bool]) -> u32
    requires { All (HasPlace (length shown.now)) items.now }
    ensures { (clauses : List (List ℤ)) (b : ℕ) →
        keeps_flips (marked shown.now) b (picture_of clauses items.now) ≡ nat_le result b }
{
    let mut level = 0;
    for item in items {
        if is_shown_flip(shown, item) {
            level = item.level.max(level);
        }
    }
    level
}

/// Whether this is a shown literal that was flipped without a lemma for it.
fn is_shown_flip(shown: &[bool], item: &Item) -> bool
    requires { HasPlace (length shown.now) item.now }
    ensures { result ≡ is_flip_of_shown (marked shown.now) item.now }
{
    is_flip(item.kind) && shown[item.lit.unsigned_abs() as usize]
}

/// Whether a literal was flipped without a lemma for it.
fn is_flip(kind: Kind) -> bool
    ensures { result ≡ is_flip kind }
{
    match kind {
        Kind::Flipped => true,
        Kind::Assumed | Kind::Decided | Kind::Turned(_) | Kind::Implied(_) => false,
    }
}

/// The level from which on a literal is kept: its own for a true shown one, and 0 for a true hidden
/// one. None where it is not true.
pub(crate) fn literal_level(trail: &Trail, shown: &[bool], lit: i32) -> Option<u32>
    requires table { length shown.now ≡ trail.now.variables + 1 }
    requires named { nat_abs lit ≤ trail.now.variables }
    ensures { result ≡ level_by (marked shown.now) lit (item_of trail.now.items (nat_abs lit)) }
{
    let own = trail.level_of_true(lit)?;
    Some(needed_level(shown, lit.unsigned_abs(), own))
}

/// The level of a shown variable, and 0 of a hidden one.
fn needed_level(shown: &[bool], variable: u32, level: u32) -> u32
    requires { variable < length shown.now }
    ensures { result ≡ cond (marked shown.now variable) level 0 }
{
    if shown[variable as usize] { level } else { 0 }
}

/// A literal that is kept at this level, or else one that is kept from the least level on. None
/// where no literal is true.
pub(crate) fn least(trail: &Trail, shown: &[bool], clause: &[i32], level: u32) -> Option<Met>
    requires table { length shown.now ≡ trail.now.variables + 1 }
    requires named { All (IsLiteralOf trail.now.variables) clause.now }
    ensures level { (b : ℕ) → level ≤ b →
        is_met_at (marked shown.now) b trail.now.items clause.now
        ≡ is_at_most b (met_level result) }
    ensures among { IfSome result (λ met. has_literal clause.now met.lit ≡ true) }
{
    let mut best = None;
    for lit in clause {
        if let Some(found) = literal_level(trail, shown, *lit) {
            let met = Met {
                lit: *lit,
                level: found,
            };
            if found <= level {
                return Some(met);
            }
            best = Some(lower(best, met));
        }
    }
    best
}

/// The one of lower level.
fn lower(first: Option<Met>, second: Met) -> Met
    ensures level { (b : ℕ) → nat_le result.level b
        ≡ (is_at_most b (met_level first) || nat_le second.level b) }
    ensures among { (c : List ℤ) → IfSome first (λ met. has_literal c met.lit ≡ true) →
        has_literal c second.lit ≡ true → has_literal c result.lit ≡ true }
{
    match first {
        Some(met) => {
            if met.level <= second.level {
                met
            } else {
                second
            }
        }
        None => second,
    }
}
