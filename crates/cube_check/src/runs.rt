//! The cubes of a listing in their order, with what neighbours begin with: a tree of their
//! literals, in which a branch is passed over at one step.
ghost use Rattle.std.specs.Prelude.{◌≡◌, ◌≢◌, true, ◌<◌, ◌≤◌, ◌+◌, ℕ, length, IfOk, slice_index_or};
ghost use Rattle.std.specs.List.{All};
ghost use Rattle.sat_terms.specs.Literals.{IsLiteral};
ghost use Rattle.sat_terms.specs.Cubes.{rises_above};
ghost use Rattle.cube_check.specs.Verdicts.{met_at};
ghost use Rattle.cube_check.specs.Runs.{ArePlaces, AreShared, ArePast, AreRuns, IsFirstFewer};

use crate::met::Met;
use cube_text::shared_front;
use sat_terms::compare;
use std::alloc::{AllocError, Global};
use std::marker::Model;

/// The places of the cubes in the order of cubes. Beside each stands how many literals its cube
/// shares with the one before it, and the first place behind it where that is fewer.
#[derive(Drop)]
pub(crate) struct Runs {
    places: Vec<usize>,
    shared: Vec<usize>,
    past: Vec<usize>,
}

impl Model for Runs {
    ghost use Rattle.cube_check.specs.Runs.{RunsView};

    ghost Value = { RunsView };

    ghost view = { λ r. record {
      places = r.places.items;
      shared = r.shared.items;
      past = r.past.items;
    } };
}

impl Runs {
    /// Brings the cubes into order. Where they are in order, as in a listing, the time is that of
    /// one walk over their literals. It takes 24 bytes for each cube.
    pub(crate) fn make(alloc: Global, met: &[Met]) -> Result<Runs, AllocError>
        ensures { IfOk result (AreRuns met.now) }
    {
        let places = sorted_places(alloc, met)?;
        let shared = shared_fronts(alloc, met, &places)?;
        let past = ends_of_runs(alloc, &shared)?;
        Ok(Runs {
            places,
            shared,
            past,
        })
    }

    /// How many cubes there are.
    pub(crate) fn count(&self) -> usize
        ensures { result ≡ length self.now.places }
    {
        self.places.len()
    }

    /// The place of the cube that stands at `at` in the order.
    pub(crate) fn place(&self, at: usize) -> usize
        requires { at < length self.now.places }
        ensures { result ≡ slice_index_or self.now.places at 0 }
    {
        self.places[at]
    }

    /// How many literals the cube there shares with the one before it.
    pub(crate) fn shared(&self, at: usize) -> usize
        requires { at < length self.now.shared }
        ensures { result ≡ slice_index_or self.now.shared at 0 }
    {
        self.shared[at]
    }

    /// Where the cubes end that share the first `front` literals of the cube at `at`.
    pub(crate) fn behind(&self, at: usize, front: usize) -> usize
        requires past { ArePast self.now.shared self.now.past 0 }
        requires inside { at < length self.now.shared }
        ensures { IsFirstFewer self.now.shared at front result }
    {
        first_fewer(&self.shared, &self.past, at, front)
    }
}

/// The literals of the cube at a place; none behind the last one.
pub(crate) fn cube_at(met: &[Met], place: usize) -> &[i32]
    ensures same { result.now ≡ (met_at met.now place).cube }
    ensures rising { rises_above 0 (met_at met.now place).cube ≡ true }
    ensures literals { All IsLiteral (met_at met.now place).cube }
{
    match met.get(place) {
        Some(line) => line.cube.lits(),
        None => &[],
    }
}

/// The places of the cubes, sorted by the order of cubes.
fn sorted_places(alloc: Global, met: &[Met]) -> Result<Vec<usize>, AllocError>
    ensures { IfOk result (λ places. ArePlaces (length met.now) places.items) }
{
    let mut places = first_places(alloc, met.len())?;
    places.sort_unstable_by(|a, b| compare(cube_at(met, *a), cube_at(met, *b)));
    Ok(places)
}

/// The places from 0 on, so many.
fn first_places(alloc: Global, count: usize) -> Result<Vec<usize>, AllocError>
    ensures { IfOk result (λ places. ArePlaces count places.items) }
{
    let mut places = Vec::with_capacity(alloc, count)?;
    for place in 0..count {
        places.push(place)?;
    }
    Ok(places)
}

/// For each place how many literals its cube shares with the one before it; 0 for the first.
fn shared_fronts(alloc: Global, met: &[Met], places: &[usize]) -> Result<Vec<usize>, AllocError>
    ensures { IfOk result (λ shared. AreShared met.now places.now shared.items) }
{
    let mut shared = vec![in alloc; 0usize; places.len()]?;
    for at in 1..places.len() {
        shared[at] = shared_front(cube_at(met, places[at - 1]), cube_at(met, places[at]));
    }
    Ok(shared)
}

/// For each place the first one behind it that shares fewer literals than it does, or the end. From
/// the last place to the first, each run is passed at one step, so the time is linear.
fn ends_of_runs(alloc: Global, shared: &[usize]) -> Result<Vec<usize>, AllocError>
    ensures { IfOk result (λ past. ArePast shared.now past.items 0) }
{
    let mut past = vec![in alloc; 0usize; shared.len()]?;
    for at in (0..shared.len()).rev() {
        past[at] = first_fewer(shared, &past, at, shared[at]);
    }
    Ok(past)
}

/// The first place behind `at` that shares fewer than `front` literals with the one before it.
fn first_fewer(shared: &[usize], past: &[usize], at: usize, front: usize) -> usize
    requires past { ArePast shared.now past.now (at + 1) }
    requires inside { at < length shared.now }
    ensures { IsFirstFewer shared.now at front result }
{
    let mut next = at + 1;
    while next < shared.len() && shared[next] >= front {
        next = past[next];
    }
    next
}
