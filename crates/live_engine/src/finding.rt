//! Models: their cubes, and what follows them.
ghost use Rattle.std.specs.Prelude.{◌≡◌, ◌<◌, ◌≤◌, [], length, vec_capacity};
ghost use Rattle.sat_terms.specs.Cubes.{rises_above};
ghost use Rattle.sat_terms.specs.Literals.{IsLiteral};
ghost use Rattle.std.specs.List.{All};
ghost use Rattle.std.specs.Prelude.{true};
ghost use Rattle.chrono_trail.specs.Items.{HasPlace, are_distinct};
ghost use Rattle.live_engine.specs.Values.{AreCopied};
ghost use Rattle.propagation.specs.Steps.{IsQuiet};
ghost use Rattle.live_engine.specs.Searching.{IsSearching};
ghost use Rattle.live_engine.specs.Steps.{AreAllSet, ComesTo, ShrinksModel, CopiesModel, cube_at_level};

use crate::search::{Leaf, Search, Step, counted};
use chrono_trail::Item;
use sat_terms::Cube;
use std::alloc::Global;
use std::mem::replace;

impl Search {
    /// Takes a model: its cube is found, of the shown literals up to the least level that is
    /// enough, and the decision of this level is flipped. Where that is the base, nothing is left
    /// to try. The cube takes the memory of `spare` where there is no other, and a place that is
    /// kept free among the found ones.
    pub(crate) fn on_model(&mut self, alloc: Global, spare: &mut Vec<i32>) -> Step
        requires searching { IsSearching self.old }
        requires quiet { IsQuiet self.old.arena.clauses self.old.trail }
        requires full { AreAllSet self.old.variables self.old.trail.items }
        requires empty { spare.old.items ≡ [] }
        requires room { length self.old.shown.items ≤ vec_capacity spare.old }
        requires place { length self.old.found.items < vec_capacity self.old.found }
        ensures { ComesTo self.old self.new result }
    {
        let level = self.least_level();
        self.read_cube(alloc, spare, level);
        self.copy_model();
        self.found.push_reserved(exact_cube(alloc, spare));
        self.leaves = counted(self.leaves);
        if level <= self.base {
            return Step::Last(Leaf::Found);
        }
        self.flip(level);
        Step::Goes(Leaf::Found)
    }

    /// The least level, from the base on, whose shown literals and all hidden ones meet the
    /// formula.
    fn least_level(&mut self) -> u32
        requires searching { IsSearching self.old }
        requires quiet { IsQuiet self.old.arena.clauses self.old.trail }
        requires full { AreAllSet self.old.variables self.old.trail.items }
        ensures { ShrinksModel self.old self.new result }
    {
        self.shrinker.level(
            &self.arena,
            self.is_shown.as_slice(),
            &self.trail,
            self.base,
        )
    }

    /// Copies the values of a model. Those that its trail shares with the last one are there.
    fn copy_model(&mut self)
        requires { IsSearching self.old }
        ensures { CopiesModel self.old self.new }
    {
        let items = self.trail.items();
        copy_values(&mut self.values, items, self.copied);
        self.copied = items.len();
        self.has_model = true;
    }

    /// Reads off the shown literals up to this level.
    fn read_cube(&self, alloc: Global, spare: &mut Vec<i32>, level: u32)
        requires searching { IsSearching self.now }
        requires empty { spare.old.items ≡ [] }
        requires room { length self.now.shown.items ≤ vec_capacity spare.old }
        ensures cube { spare.new.items ≡ cube_at_level self.now level }
        ensures rising { rises_above 0 spare.new.items ≡ true }
        ensures literals { All IsLiteral spare.new.items }
    {
        // Taken out, so that its place and length need not be written for each literal.
        let mut lits = replace(spare, Vec::new(alloc));
        for variable in self.shown.as_slice() {
            if let Some(item) = self.trail.item(*variable) {
                if item.level <= level {
                    lits.push_reserved(item.lit);
                }
            }
        }
        *spare = lits;
    }
}

/// Copies the values of the items from a place on. Those of the items before it are there.
fn copy_values(values: &mut Vec<bool>, items: &[Item], from: usize)
    requires places { All (HasPlace (length values.old.items)) items.now }
    requires distinct { are_distinct items.now ≡ true }
    requires before { AreCopied items.now from values.old.items }
    ensures long { length values.new.items ≡ length values.old.items }
    ensures copied { AreCopied items.now (length items.now) values.new.items }
{
    for place in from..items.len() {
        let lit = items[place].lit;
        values[lit.unsigned_abs() as usize] = lit > 0;
    }
}

/// The cube of these literals, in memory of its own and no more than it takes. Without such memory
/// it is handed out in that of `spare`.
fn exact_cube(alloc: Global, spare: &mut Vec<i32>) -> Cube
    requires rising { rises_above 0 spare.old.items ≡ true }
    requires literals { All IsLiteral spare.old.items }
    ensures { result ≡ spare.old.items }
{
    match spare.as_slice().to_vec(alloc) {
        Ok(lits) => Cube::from_vec(lits),
        Err(_) => Cube::from_vec(replace(spare, Vec::new(alloc))),
    }
}
