//! Decisions: the lowest free variable, false first.
ghost use Rattle.std.specs.Prelude.{◌≡◌, ◌+◌, ◌<◌, ◌≤◌, length, take, slice_index_or};
ghost use Rattle.std.specs.List.{All};
ghost use Rattle.plain_search.specs.Walks.{IsUnset, AreSet, AreSetUpto, HasReached, IsNextVariable};
ghost use Rattle.plain_search.specs.Searching.{IsListing};
ghost use Rattle.plain_search.specs.Steps.{DecidesOrEnds};

use crate::search::Search;
use chrono_trail::Trail;
use sat_terms::Subject;

/// How far the walk for the lowest free variable has come. It starts again where a decision is
/// flipped.
#[derive(Clone, Copy, Debug)]
pub(crate) struct Reached {
    /// So many of the shown variables, the first ones, are set.
    pub(crate) shown: usize,
    /// The variables 1 to this one are set.
    pub(crate) variable: u32,
}

impl Reached {
    /// Before the first variable.
    pub(crate) fn none() -> Reached
        ensures shown { result.shown ≡ 0 }
        ensures variable { result.variable ≡ 0 }
    {
        Reached {
            shown: 0,
            variable: 0,
        }
    }
}

impl Search {
    /// Decides the lowest free variable false, on a new level. False where each variable is set.
    pub(crate) fn decide(&mut self, subject: &Subject) -> bool
        requires { IsListing subject.now self.old }
        ensures { DecidesOrEnds subject.now self.old self.new result }
    {
        let variables = subject.formula.variables;
        let shown = subject.shown.as_slice();
        match lowest_free(&self.trail, shown, variables, &mut self.reached) {
            Some(variable) => {
                self.trail.decide(-(variable as i32));
                true
            }
            None => false,
        }
    }
}

/// The lowest free variable: of the shown ones first, and then of all. None where each is set. The
/// walk goes on from where it came to before.
fn lowest_free(trail: &Trail, shown: &[u32], variables: u32, reached: &mut Reached) -> Option<u32>
    requires shown { All (λ v. (0 < v) × (v ≤ variables)) shown.now }
    requires variables { variables ≤ trail.now.variables }
    requires before { HasReached trail.now.items shown.now reached.old }
    ensures next { IsNextVariable trail.now.items variables shown.now result }
    ensures after { HasReached trail.now.items shown.now reached.new }
{
    reached.shown = first_free_shown(trail, shown, reached.shown);
    if reached.shown < shown.len() {
        return Some(shown[reached.shown]);
    }
    reached.variable = last_set(trail, variables, reached.variable);
    if reached.variable < variables {
        Some(reached.variable + 1)
    } else {
        None
    }
}

/// The place of the first shown variable that is free, and their number where each is set. Those
/// before the place `from` are set.
fn first_free_shown(trail: &Trail, shown: &[u32], from: usize) -> usize
    requires variables { All (λ v. v ≤ trail.now.variables) shown.now }
    requires before { AreSet trail.now.items (take from shown.now) }
    ensures set { AreSet trail.now.items (take result shown.now) }
    ensures free { result < length shown.now →
        IsUnset trail.now.items (slice_index_or shown.now result 0) }
{
    for place in from..shown.len() {
        if trail.item(shown[place]).is_none() {
            return place;
        }
    }
    shown.len()
}

/// The last variable before the first free one of 1 to `variables`, and `variables` where each is
/// set. Those up to `from` are set.
fn last_set(trail: &Trail, variables: u32, from: u32) -> u32
    requires variables { variables ≤ trail.now.variables }
    requires before { AreSetUpto trail.now.items from }
    ensures set { AreSetUpto trail.now.items result }
    ensures free { result < variables → IsUnset trail.now.items (result + 1) }
{
    for below in from..variables {
        if trail.item(below + 1).is_none() {
            return below;
        }
    }
    variables
}
