//! The order of decisions, and the place from which on the next one is looked for.
ghost use Rattle.std.specs.Prelude.{◌≡◌, ◌<◌, ◌≤◌, ◌^◌, true, false, IfOk, length, take, filter, min, slice_index};
ghost use Rattle.std.specs.List.{All, list_all};
ghost use Rattle.sat_terms.specs.Subjects.{IsShown};
ghost use Rattle.chrono_trail.specs.Items.{is_upto};
ghost use Rattle.projected_decide.specs.Orders.{order_of, is_set, next_decision, place_in, HasPassed};

use crate::making::{in_order, places_of};
use chrono_trail::Trail;
use std::alloc::{AllocError, Global};
use std::marker::Model;

/// All variables in the order in which they are decided, with the place of each.
#[derive(Debug, Drop)]
pub struct Order {
    order: Vec<u32>,
    places: Vec<u32>,
    from: usize,
}

impl Model for Order {
    ghost use Rattle.std.specs.Prelude.{length, ◌-◌};
    ghost use Rattle.projected_decide.specs.Orders.{OrderView, TellsPlaces};

    ghost Value = { OrderView };

    ghost view = { λ o. record {
      variables = length o.places.items - 1;
      order = o.order.items;
      from = o.from;
    } };

    ghost invariant = { λ o. TellsPlaces o.order.items o.places.items };
}

impl Order {
    /// The order of the variables 1 to `variables`, of which these are shown, with its place at the
    /// first one. No later call takes memory.
    pub fn make(alloc: Global, variables: u32, shown: &[u32]) -> Result<Order, AllocError>
        requires small { variables < 2 ^ 31 }
        requires shown { IsShown variables shown.now }
        ensures variables { IfOk result (λ order. order.variables ≡ variables) }
        ensures order { IfOk result (λ order. order.order ≡ order_of variables shown.now) }
        ensures from { IfOk result (λ order. order.from ≡ 0) }
    {
        let order = in_order(alloc, variables, shown)?;
        let places = places_of(alloc, variables, order.as_slice())?;
        Ok(Order {
            order,
            places,
            from: 0,
        })
    }

    /// The literal to decide next: the first unassigned variable's, false; None where each is
    /// assigned. The place moves on to this variable, and not past it. The time is that of the
    /// places that it passes; none is looked at where there is an item of each variable.
    pub fn next(&mut self, trail: &Trail) -> Option<i32>
        requires variables { self.old.variables ≡ trail.now.variables }
        requires passed { HasPassed trail.now.items self.old }
        ensures next { result ≡ next_decision trail.now.items self.old.order }
        ensures passed { HasPassed trail.now.items self.new }
        ensures order { self.new ≡ record self.old { from = self.new.from } }
    {
        if trail.items().len() + 1 >= self.places.len() {
            return None;
        }
        self.from = first_free(trail, self.order.as_slice(), self.from);
        if self.from < self.order.len() {
            Some(-(self.order[self.from] as i32))
        } else {
            None
        }
    }

    /// Puts back a variable that is to be unassigned: the place moves back to it, where it has
    /// passed it. Constant time.
    pub fn put_back(&mut self, variable: u32)
        requires { variable ≤ self.old.variables }
        ensures { self.new
            ≡ record self.old { from = min self.old.from (place_in variable self.old.order) } }
    {
        self.from = self.from.min(self.places[variable as usize] as usize);
    }

    /// Puts back each variable that is unassigned once the levels above this one are taken back.
    /// The time is that of a walk over the items from the first that goes.
    pub fn put_back_above(&mut self, trail: &Trail, level: u32)
        requires variables { self.old.variables ≡ trail.now.variables }
        requires passed { HasPassed trail.now.items self.old }
        requires level { level ≤ trail.now.level }
        ensures passed { HasPassed (filter (is_upto level) trail.now.items) self.new }
        ensures order { self.new ≡ record self.old { from = self.new.from } }
    {
        if level == trail.level() {
            return;
        }
        for item in &trail.items()[trail.decision(level + 1)..] {
            if item.level > level {
                self.put_back(item.lit.unsigned_abs());
            }
        }
    }

    /// Puts back every variable.
    pub fn put_back_all(&mut self)
        ensures { self.new ≡ record self.old { from = 0 } }
    {
        self.from = 0;
    }
}

/// The place of the first variable that is unassigned, and their number where each is assigned.
/// Those before the place `from` are assigned.
fn first_free(trail: &Trail, order: &[u32], from: usize) -> usize
    requires variables { All (λ v. v ≤ trail.now.variables) order.now }
    requires before { list_all (is_set trail.now.items) (take from order.now) ≡ true }
    ensures set { list_all (is_set trail.now.items) (take result order.now) ≡ true }
    ensures free { result < length order.now →
        is_set trail.now.items (slice_index order.now result) ≡ false }
{
    for place in from..order.len() {
        if trail.item(order[place]).is_none() {
            return place;
        }
    }
    order.len()
}
