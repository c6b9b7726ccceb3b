//! The end of a job: what it has left open, as cubes.
ghost use Rattle.std.specs.Prelude.{◌≡◌, ◌<◌, ◌≤◌, ◌+◌, ◌^◌, ◌++◌, option_to_list, Option, None, Some, cond, not, ◌&&◌, IfOk, length, filter_map, ℤ};
ghost use Rattle.std.specs.Prelude.{slice_index_or, slice_set, nat_abs};
ghost use Rattle.search_region.specs.Region.{is_open};
ghost use Rattle.sat_terms.specs.Cubes.{is_among};
ghost use Rattle.search_job.specs.Open.{left_cubes};
ghost use Rattle.chrono_trail.specs.Pictures.{pictured};
ghost use Rattle.live_engine.specs.Searching.{IsGround, IsSearching, pictured_trail, model_of};
ghost use Rattle.live_engine.specs.Marks.{AreMarks, plain_literal};
ghost use Rattle.live_engine.specs.Engines.{IsInPhase, untried_of, here_of, value_told};

use crate::search::{Phase, Search};
use chrono_trail::{Item, Kind};
use sat_terms::{Cube, is_shown};
use std::alloc::{AllocError, Global};

impl Search {
    /// What is left open of the job: nothing, where it is done or there is none.
    pub(crate) fn left_of(&self, alloc: Global, phase: Phase) -> Result<Vec<Cube>, AllocError>
        requires { IsInPhase self.now phase }
        ensures { IfOk result (λ cubes. cubes.items
            ≡ untried_of self.now phase ++ option_to_list (here_of self.now phase)) }
    {
        match phase {
            Phase::Running => self.open_cubes(alloc),
            Phase::Idle | Phase::Over => Ok(Vec::new(alloc)),
        }
    }

    /// The prefixes still to be tried, the lowest branch first, and then the one that the search is
    /// in. Takes one walk over the items, and one over the shown variables for each cube.
    fn open_cubes(&self, alloc: Global) -> Result<Vec<Cube>, AllocError>
        requires { IsSearching self.now }
        ensures { IfOk result (λ cubes. cubes.items
            ≡ left_cubes self.now.shown.items self.now.base (pictured_trail self.now)) }
    {
        let mut marks = vec![in alloc; None; self.variables as usize + 1]?;
        let mut cubes = Vec::new(alloc);
        for item in self.trail.items() {
            if self.is_open(*item) {
                mark(&mut marks, item.lit.unsigned_abs(), Some(-item.lit));
                cubes.push(self.marked_cube(alloc, &marks)?)?;
            }
            mark(&mut marks, item.lit.unsigned_abs(), plain_literal(*item));
        }
        cubes.push(self.marked_cube(alloc, &marks)?)?;
        Ok(cubes)
    }

    /// The value of a hidden variable in the last model, where there was one.
    pub(crate) fn hidden_value(&self, variable: u32) -> Option<bool>
        requires ground { IsGround self.now }
        requires some { 0 < variable }
        requires within { variable ≤ self.now.variables }
        ensures { result ≡ value_told (model_of self.now) variable }
    {
        let shows = self.is_shown[variable as usize];
        value_if(self.has_model, shows, self.values[variable as usize])
    }

    /// Whether the other side of the item is still to be tried.
    fn is_open(&self, item: Item) -> bool
        requires ground { IsGround self.now }
        requires small { nat_abs item.lit < 2 ^ 31 }
        ensures { result ≡ is_open (is_among self.now.shown.items) self.now.base
            (pictured self.now.arena.clauses item) }
    {
        item.kind.is_decided()
            && is_shown(self.shown.as_slice(), item.lit.unsigned_abs())
            && self.base < item.level
    }

    /// The cube of the literals that are marked at the shown variables.
    pub(crate) fn marked_cube(
        &self,
        alloc: Global,
        marks: &[Option<i32>],
    ) -> Result<Cube, AllocError>
        requires ground { IsGround self.now }
        requires long { length marks.now ≡ self.now.variables + 1 }
        requires marks { AreMarks self.now.variables marks.now }
        ensures { IfOk result (λ cube. cube
            ≡ filter_map (λ v. slice_index_or marks.now v None) self.now.shown.items) }
    {
        let mut lits = Vec::new(alloc);
        for variable in self.shown.as_slice() {
            if let Some(lit) = marked(marks, *variable) {
                lits.push(lit)?;
            }
        }
        Ok(Cube::from_vec(lits))
    }
}

/// The value of a variable, where there is a model and the variable is none of the shown ones.
fn value_if(has_model: bool, shows: bool, value: bool) -> Option<bool>
    ensures { result ≡ cond (has_model && not shows) (Some value) None }
{
    if has_model && !shows {
        Some(value)
    } else {
        None
    }
}

/// The literal that is marked at a variable.
fn marked(marks: &[Option<i32>], variable: u32) -> Option<i32>
    requires { variable < length marks.now }
    ensures { result ≡ slice_index_or marks.now variable None }
{
    marks[variable as usize]
}

/// Marks a literal at a variable, or none.
pub(crate) fn mark(marks: &mut Vec<Option<i32>>, variable: u32, lit: Option<i32>)
    requires { variable < length marks.old.items }
    ensures { marks.new.items ≡ slice_set marks.old.items variable lit }
{
    marks[variable as usize] = lit;
}

/// The literal of an item that no clause implied.
pub(crate) fn plain_literal(item: Item) -> Option<i32>
    ensures { result ≡ plain_literal item }
{
    match item.kind {
        Kind::Implied(_) => None,
        Kind::Assumed | Kind::Decided | Kind::Flipped | Kind::Turned(_) => Some(item.lit),
    }
}
