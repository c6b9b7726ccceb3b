//! The trail, with a table of its items by variable.
ghost use Rattle.std.specs.Prelude.{◌≡◌, ℕ, ◌+◌, ◌<◌, ◌≤◌, ◌^◌, ◌++◌, true, false, cond, [], ◌∷◌};
ghost use Rattle.std.specs.Prelude.{None, IfOk, nat_abs, length, slice_set, slice_index_or, filter};
ghost use Rattle.std.specs.Prelude.{take, nat_eq, vec_capacity};
ghost use Rattle.std.specs.List.{All, list_all};
ghost use Rattle.chrono_trail.specs.Items.{item_of, level_in, level_if_true, value_in};
ghost use Rattle.chrono_trail.specs.Items.{is_decision, is_upto};
ghost use Rattle.chrono_trail.specs.Items.{depth_from, may_all_stand, decisions_from};
ghost use Rattle.chrono_trail.specs.Items.{IsDecisionAt, IsAboveAt, HasPlace, goes};
ghost use Rattle.chrono_trail.specs.Trails.{IsTrail, seen_back};

use crate::item::{Item, Kind};
use crate::table::ItemTable;
use std::alloc::{AllocError, Global};
use std::marker::Model;

/// The literals that are assigned, oldest first, and the current level.
#[derive(Debug, Drop)]
pub struct Trail {
    items: Vec<Item>,
    given: ItemTable,
    decided: Vec<u32>,
    level: u32,
    seen: usize,
}

impl Model for Trail {
    ghost use Rattle.std.specs.Prelude.{length, ◌-◌, vec_capacity};
    ghost use Rattle.chrono_trail.specs.Trails.{TrailView, IsKept};

    ghost Value = { TrailView };

    ghost view = { λ t. record {
      variables = length t.given - 1;
      items = t.items.items;
      level = t.level;
      seen = t.seen;
    } };

    ghost invariant = { λ t. IsKept t.items.items t.given t.decided.items t.seen t.level
        (vec_capacity t.items) (vec_capacity t.decided) };
}

impl Trail {
    /// A trail of no items at level 0, for the variables 1 to `variables`. It takes the memory for
    /// an item of each; no later call takes any.
    pub fn make(alloc: Global, variables: u32) -> Result<Trail, AllocError>
        requires { variables < 2 ^ 31 }
        ensures variables { IfOk result (λ trail. trail.variables ≡ variables) }
        ensures items { IfOk result (λ trail. trail.items ≡ []) }
        ensures level { IfOk result (λ trail. trail.level ≡ 0) }
        ensures seen { IfOk result (λ trail. trail.seen ≡ 0) }
    {
        let places = variables as usize + 1;
        Ok(Trail {
            items: Vec::with_capacity(alloc, variables as usize)?,
            given: ItemTable::make(alloc, places)?,
            decided: Vec::with_capacity(alloc, variables as usize)?,
            level: 0,
            seen: 0,
        })
    }

    /// The items, the oldest first.
    pub fn items(&self) -> &[Item]
        ensures items { result.now ≡ self.now.items }
        ensures trail { IsTrail self.now.variables self.now.items self.now.level }
    {
        self.items.as_slice()
    }

    /// The current level: that of the last decision, or 0.
    pub fn level(&self) -> u32
        ensures level { result ≡ self.now.level }
        ensures trail { IsTrail self.now.variables self.now.items self.now.level }
    {
        self.level
    }

    /// Whether a literal is true or false; None where its variable is unassigned. It looks at one
    /// place.
    pub fn value(&self, lit: i32) -> Option<bool>
        requires { nat_abs lit ≤ self.now.variables }
        ensures { result ≡ value_in lit (item_of self.now.items (nat_abs lit)) }
    {
        self.given.value(lit)
    }

    /// The level of a variable; None where it is unassigned. It looks at one place.
    pub fn level_of(&self, variable: u32) -> Option<u32>
        requires { variable ≤ self.now.variables }
        ensures { result ≡ level_in (item_of self.now.items variable) }
    {
        match self.item(variable) {
            Some(item) => Some(item.level),
            None => None,
        }
    }

    /// The level of a literal that is true; None where it is not. It looks at one place.
    pub fn level_of_true(&self, lit: i32) -> Option<u32>
        requires { nat_abs lit ≤ self.now.variables }
        ensures { result ≡ level_if_true lit (item_of self.now.items (nat_abs lit)) }
    {
        self.given.level_of_true(lit)
    }

    /// The item of a variable; None where it is unassigned. It looks at one place.
    pub fn item(&self, variable: u32) -> Option<Item>
        requires { variable ≤ self.now.variables }
        ensures { result ≡ item_of self.now.items variable }
    {
        self.given.item(variable)
    }

    /// The place of the decision of a level among the items. It looks at one place.
    pub fn decision(&self, level: u32) -> usize
        requires some { 0 < level }
        requires within { level ≤ self.now.level }
        ensures { IsDecisionAt level self.now.items result }
    {
        place_of(self.items.as_slice(), self.decided.as_slice(), level)
    }

    /// How many of the oldest items are marked as seen. The mark is its user's, who propagates them
    /// in this order.
    pub fn seen(&self) -> usize
        ensures seen { result ≡ self.now.seen }
        ensures within { result ≤ length self.now.items }
    {
        self.seen
    }

    /// Marks the oldest items as seen, so many of them, and no other.
    pub fn see(&mut self, count: usize)
        requires { count ≤ length self.old.items }
        ensures { self.new ≡ record self.old { seen = count } }
    {
        self.seen = count;
    }

    /// Appends a literal of an unassigned variable, on the current level or one below.
    pub fn assign(&mut self, lit: i32, level: u32, kind: Kind)
        requires named { 0 < nat_abs lit }
        requires within { nat_abs lit ≤ self.old.variables }
        requires unassigned { item_of self.old.items (nat_abs lit) ≡ None }
        requires below { level ≤ self.old.level }
        requires undecided { is_decision kind ≡ false }
        ensures items { self.new.items
            ≡ self.old.items ++ record { lit = lit; level = level; kind = kind } ∷ [] }
        ensures level { self.new.level ≡ self.old.level }
        ensures variables { self.new.variables ≡ self.old.variables }
        ensures seen { self.new.seen ≡ self.old.seen }
        ensures trail { IsTrail self.new.variables self.new.items self.new.level }
    {
        put(&mut self.items, &mut self.given, Item { lit, level, kind });
    }

    /// Decides a literal of an unassigned variable: opens the next level with it.
    pub fn decide(&mut self, lit: i32)
        requires named { 0 < nat_abs lit }
        requires within { nat_abs lit ≤ self.old.variables }
        requires unassigned { item_of self.old.items (nat_abs lit) ≡ None }
        ensures items { self.new.items
            ≡ self.old.items
            ++ record { lit = lit; level = self.old.level + 1; kind = Kind.Decided } ∷ [] }
        ensures level { self.new.level ≡ self.old.level + 1 }
        ensures variables { self.new.variables ≡ self.old.variables }
        ensures seen { self.new.seen ≡ self.old.seen }
        ensures trail { IsTrail self.new.variables self.new.items self.new.level }
    {
        let level = self.level + 1;
        let place = self.items.len() as u32;
        put(
            &mut self.items,
            &mut self.given,
            Item {
                lit,
                level,
                kind: Kind::Decided,
            },
        );
        self.decided.push_reserved(place);
        self.level = level;
    }

    /// Takes the levels above this one back: what stands on this level or below stays, in its
    /// order. It looks at no item before the first one that goes.
    pub fn backtrack(&mut self, level: u32)
        requires { level ≤ self.old.level }
        ensures items { self.new.items ≡ filter (is_upto level) self.old.items }
        ensures level { self.new.level ≡ level }
        ensures variables { self.new.variables ≡ self.old.variables }
        ensures seen { self.new.seen ≡ seen_back level self.old }
        ensures trail { IsTrail self.new.variables self.new.items self.new.level }
    {
        if level == self.level {
            self.seen = seen_at(level, self.seen);
            return;
        }
        let start = place_of(self.items.as_slice(), self.decided.as_slice(), level + 1);
        free(&mut self.given, &self.items[start..], level + 1);
        let kept = keep_upto(&mut self.items, start, level, self.seen);
        self.seen = seen_at(level, kept);
        self.decided.truncate(level as usize);
        self.level = level;
    }

    /// Takes every item off, those of level 0 too.
    pub fn clear(&mut self)
        ensures items { self.new.items ≡ [] }
        ensures level { self.new.level ≡ 0 }
        ensures variables { self.new.variables ≡ self.old.variables }
        ensures seen { self.new.seen ≡ 0 }
    {
        free(&mut self.given, self.items.as_slice(), 0);
        self.items.clear();
        self.decided.clear();
        self.level = 0;
        self.seen = 0;
    }
}

/// Appends an item, and puts it in its variable's place.
fn put(items: &mut Vec<Item>, given: &mut ItemTable, item: Item)
    requires room { length items.old.items < vec_capacity items.old }
    requires named { 0 < nat_abs item.lit }
    requires place { nat_abs item.lit < length given.old }
    ensures items { items.new.items ≡ items.old.items ++ item ∷ [] }
    ensures given { given.new ≡ slice_set given.old (nat_abs item.lit) (Some item) }
    ensures capacity { vec_capacity items.new ≡ vec_capacity items.old }
{
    items.push_reserved(item);
    given.set(item);
}

/// The place of the decision of a level. The stack tells it.
fn place_of(items: &[Item], decided: &[u32], level: u32) -> usize
    requires stack { decided.now ≡ decisions_from 0 items.now }
    requires stands { may_all_stand 0 items.now ≡ true }
    requires some { 0 < level }
    requires within { level ≤ depth_from 0 items.now }
    ensures { IsDecisionAt level items.now result }
{
    decided[level as usize - 1] as usize
}

/// How many items are marked as seen on a level, where so many of the marked ones stayed.
fn seen_at(level: u32, kept: usize) -> usize
    ensures { result ≡ cond (nat_eq level 0) 0 kept }
{
    if level == 0 { 0 } else { kept }
}

/// Empties the places of those of the items whose level is at least `least`.
fn free(given: &mut ItemTable, items: &[Item], least: u32)
    requires small { length given.old ≤ 2 ^ 31 }
    requires places { All (HasPlace (length given.old)) items.now }
    ensures length { length given.new ≡ length given.old }
    ensures places { (v : ℕ) → slice_index_or given.new v None
        ≡ cond (goes least items.now v) None (slice_index_or given.old v None) }
{
    for item in items {
        if item.level >= least {
            given.empty(item.lit.unsigned_abs());
        }
    }
}

/// Keeps the items of this level and below, in their order. Those before `start` are, and are not
/// looked at; the one at `start` goes. Literals of low levels may stand anywhere behind it, so that
/// the walk goes on to the newest item. Answers how many of the first `seen` it keeps.
fn keep_upto(items: &mut Vec<Item>, start: usize, level: u32, seen: usize) -> usize
    requires within { start ≤ length items.old.items }
    requires first { IsAboveAt level items.old.items start }
    requires low { list_all (is_upto level) (take start items.old.items) ≡ true }
    ensures items { items.new.items ≡ filter (is_upto level) items.old.items }
    ensures capacity { vec_capacity items.new ≡ vec_capacity items.old }
    ensures seen { result ≡ length (filter (is_upto level) (take seen items.old.items)) }
{
    let mut kept = start;
    let mut kept_seen = start.min(seen);
    for at in start..items.len() {
        let item = items[at];
        if item.level <= level {
            items[kept] = item;
            kept += 1;
            if at < seen {
                kept_seen += 1;
            }
        }
    }
    items.truncate(kept);
    kept_seen
}

#[cfg(test)]
mod tests {
    use super::*;
    use std::test::Fail;

    /// The second implied literal needs no decision, so it stands on level 0 and survives.
    #[test]
    fn a_literal_of_level_zero_survives_backtracking(rt: HostRuntime) -> Result<(), Fail> {
        let mut trail = Trail::make(rt.alloc(), 3)?;
        trail.decide(-1);
        trail.assign(2, 1, Kind::Implied(0));
        trail.assign(-3, 0, Kind::Implied(1));
        assert_eq!(rt; trail.level(), 1);
        assert_eq!(rt; trail.decision(1), 0);
        assert_eq!(rt; trail.item(3).map(|item| item.level), Some(0));
        assert_eq!(rt; trail.value(1), Some(false));
        assert_eq!(rt; trail.level_of(2), Some(1));
        trail.see(3);
        trail.backtrack(0);
        assert_eq!(rt; trail.seen(), 0);
        assert_eq!(rt;
            trail.items(),
            [Item {
                lit: -3,
                level: 0,
                kind: Kind::Implied(1)
            }]
            .as_slice()
        );
        assert_eq!(rt; trail.value(2), None);
        trail.clear();
        assert_eq!(rt; trail.items().len(), 0);
        Ok(())
    }
}
