//! The lines that a saved text or a met text has of its own.
ghost use Rattle.std.specs.Prelude.{◌≡◌, ◌<◌, true, ◌||◌, [], ◌++◌, ◌∷◌, nat_abs, IfOk, OnOk};
ghost use Rattle.std.specs.List.{list_all};
ghost use Rattle.sat_terms.specs.Literals.{IsLiteral};
ghost use Rattle.sat_terms.specs.Cubes.{is_among, last_variable, rises_above};
ghost use Rattle.sat_terms.specs.Subjects.{IsVariableList};
ghost use Rattle.dimacs_front.specs.SavedTexts.{nothing_saved, with_line, with_met};
ghost use Rattle.dimacs_front.specs.TextEnds.{is_saved_cube, first_outside, lower_line};
ghost use Rattle.dimacs_front.specs.TextEnds.{lowest_outside};
ghost use Rattle.dimacs_front.specs.TextEnds.{cubes_of, saved_if, saved_of};
ghost use Rattle.dimacs_front.specs.TextEnds.{first_unmet, met_if, met_of};

use crate::met_lines::{MetLine, first_unmet, mets_of};
use checkpoint::Saved;
use cube_check::Met;
use sat_terms::{Cube, Items, is_shown, within};
use std::alloc::{AllocError, Global};
use std::marker::Model;

/// Which list a line goes to.
#[derive(Clone, Copy)]
pub enum SavedList {
    /// The cubes that were found.
    Cubes,
    /// The prefixes that are pending.
    Pending,
}

/// A cube line or an open line: its number, and its cube.
#[derive(Drop)]
pub struct SavedLine {
    pub line: u64,
    pub cube: Cube,
}

/// What the lines say so far: whether the first line names a saved text, the cube lines and the
/// open lines, in order, whether it names a met text, the met lines, and whether the end line
/// stood.
#[derive(Drop)]
pub struct SavedLines {
    named: bool,
    cubes: Vec<SavedLine>,
    pending: Vec<SavedLine>,
    met: bool,
    mets: Vec<MetLine>,
    ended: bool,
}

impl Model for SavedLines {
    ghost use Rattle.dimacs_front.specs.SavedTexts.{SavedSaid};

    ghost Value = { SavedSaid };

    ghost view = { λ s. record {
      named = s.named;
      cubes = s.cubes.items;
      pending = s.pending.items;
      met = s.met;
      mets = s.mets.items;
      ended = s.ended;
    } };
}

impl SavedLines {
    /// No such line. Takes no memory yet.
    pub fn make(alloc: Global) -> Self
        ensures { result ≡ nothing_saved }
    {
        SavedLines {
            named: false,
            cubes: Vec::new(alloc),
            pending: Vec::new(alloc),
            met: false,
            mets: Vec::new(alloc),
            ended: false,
        }
    }

    /// Whether the first line names a saved text.
    pub fn is_named(&self) -> bool
        ensures { result ≡ self.now.named }
    {
        self.named
    }

    /// Whether the first line names a met text.
    pub fn is_met(&self) -> bool
        ensures { result ≡ self.now.met }
    {
        self.met
    }

    /// Whether the text has an end line of its own, as a saved text and a met text do.
    pub fn has_end_line(&self) -> bool
        ensures { result ≡ (self.now.named || self.now.met) }
    {
        self.named || self.met
    }

    /// Whether the end line stood.
    pub fn is_ended(&self) -> bool
        ensures { result ≡ self.now.ended }
    {
        self.ended
    }

    /// The first line names a saved text.
    pub fn name(&mut self)
        ensures { self.new ≡ record self.old { named = true } }
    {
        self.named = true;
    }

    /// The first line names a met text.
    pub fn name_met(&mut self)
        ensures { self.new ≡ record self.old { met = true } }
    {
        self.met = true;
    }

    /// The end line stood.
    pub fn end(&mut self)
        ensures { self.new ≡ record self.old { ended = true } }
    {
        self.ended = true;
    }

    /// Keeps a cube line or an open line.
    pub fn add(&mut self, list: SavedList, line: u64, cube: Cube) -> Result<(), AllocError>
        ensures { OnOk result
            (self.new ≡ with_line list self.old (record { line = line; cube = cube })) }
    {
        match list {
            SavedList::Cubes => self.cubes.push(SavedLine { line, cube })?,
            SavedList::Pending => self.pending.push(SavedLine { line, cube })?,
        }
        Ok(())
    }

    /// Keeps a met line.
    pub fn add_met(&mut self, line: u64, met: Met) -> Result<(), AllocError>
        ensures { OnOk result
            (self.new ≡ with_met self.old (record { line = line; met = met })) }
    {
        self.mets.push(MetLine { line, met })?;
        Ok(())
    }

    /// The lowest line whose cube has a variable that is none of these, or lacks a given literal.
    /// Takes one search of `shown` by halves for each literal, and one walk over `under` a line.
    pub fn lowest_outside(&self, shown: &[u32], under: &[i32]) -> Option<u64>
        requires shown { IsVariableList shown.now }
        requires under { rises_above 0 under.now ≡ true }
        ensures { result ≡ lowest_outside shown.now under.now self.now }
    {
        let cubes = first_outside(&self.cubes, shown, under);
        let pending = first_outside(&self.pending, shown, under);
        lower_line(cubes, pending)
    }

    /// The first met line that does not show a cube. Takes the same time.
    pub fn first_unmet(&self, variables: u32, shown: &[u32], under: &[i32]) -> Option<u64>
        requires shown { IsVariableList shown.now }
        requires under { rises_above 0 under.now ≡ true }
        ensures { result ≡ first_unmet variables shown.now under.now self.now.mets }
    {
        first_unmet(&self.mets, variables, shown, under)
    }

    /// What is saved, where the text is a saved text, and what is met, where it is a met text.
    pub fn into_own(self, alloc: Global) -> Result<Own, AllocError>
        ensures saved { IfOk result (λ own. own.saved ≡ saved_of self) }
        ensures met { IfOk result (λ own. own.met ≡ met_of self) }
    {
        let saved = saved_of(alloc, self.named, self.cubes, self.pending)?;
        let met = met_of(alloc, self.met, self.mets)?;
        Ok(Own { saved, met })
    }
}

/// What a saved text has besides its subject, and what a met text has.
#[derive(Drop)]
pub struct Own {
    pub saved: Option<Saved>,
    pub met: Option<Items<Met>>,
}

/// The cubes and the prefixes of these lines, where the text is a saved text.
fn saved_of(
    alloc: Global,
    named: bool,
    cubes: Vec<SavedLine>,
    pending: Vec<SavedLine>,
) -> Result<Option<Saved>, AllocError>
    ensures { IfOk result (λ saved. saved ≡ saved_if named cubes.items pending.items) }
{
    if !named {
        return Ok(None);
    }
    let cubes = cubes_of(alloc, cubes)?;
    let pending = cubes_of(alloc, pending)?;
    Ok(Some(Saved { cubes, pending }))
}

/// What these lines hold, where the text is a met text.
fn met_of(alloc: Global, met: bool, mets: Vec<MetLine>) -> Result<Option<Items<Met>>, AllocError>
    ensures { IfOk result (λ held. held ≡ met_if met mets.items) }
{
    if !met {
        return Ok(None);
    }
    Ok(Some(mets_of(alloc, mets)?))
}

/// The first of the lines whose cube cannot be saved.
fn first_outside(lines: &[SavedLine], shown: &[u32], under: &[i32]) -> Option<u64>
    requires shown { IsVariableList shown.now }
    requires under { rises_above 0 under.now ≡ true }
    ensures { result ≡ first_outside shown.now under.now lines.now }
{
    for line in lines {
        if !is_saved_cube(&line.cube, shown, under) {
            return Some(line.line);
        }
    }
    None
}

/// Whether the cube can be saved: all its variables are shown, and it has all given literals.
pub fn is_saved_cube(cube: &Cube, shown: &[u32], under: &[i32]) -> bool
    requires shown { IsVariableList shown.now }
    requires under { rises_above 0 under.now ≡ true }
    ensures { result ≡ is_saved_cube shown.now under.now cube.now }
{
    are_shown(cube.lits(), shown) && within(cube.lits(), under)
}

/// Whether all variables of the literals are shown.
fn are_shown(lits: &[i32], shown: &[u32]) -> bool
    requires { IsVariableList shown.now }
    ensures { result ≡ list_all (λ l. is_among shown.now (nat_abs l)) lits.now }
{
    for lit in lits {
        if !is_shown(shown, lit.unsigned_abs()) {
            return false;
        }
    }
    true
}

/// The lower one of two lines, where there are two.
fn lower_line(left: Option<u64>, right: Option<u64>) -> Option<u64>
    ensures { result ≡ lower_line left right }
{
    match (left, right) {
        (Some(left), Some(right)) => Some(if left <= right { left } else { right }),
        (Some(left), None) => Some(left),
        (None, right) => right,
    }
}

/// The cubes of the lines, without a copy of their literals.
fn cubes_of(alloc: Global, lines: Vec<SavedLine>) -> Result<Items<Cube>, AllocError>
    ensures { IfOk result (λ cubes. cubes ≡ cubes_of lines.items) }
{
    let mut cubes = Vec::new(alloc);
    for line in lines {
        cubes.push(line.cube)?;
    }
    Ok(Items::from_vec(cubes))
}

/// The literals of the open line, whose variables rise, and the variable of the last one.
#[derive(Drop)]
pub struct RisingLits {
    lits: Vec<i32>,
    last: u32,
}

impl Model for RisingLits {
    ghost use Rattle.std.specs.Prelude.{◌≡◌, true, List, ℤ};
    ghost use Rattle.std.specs.List.{All};
    ghost use Rattle.sat_terms.specs.Literals.{IsLiteral};
    ghost use Rattle.sat_terms.specs.Cubes.{last_variable, rises_above};

    ghost Value = { List ℤ };

    ghost view = { λ lits. lits.lits.items };

    ghost invariant = { λ lits. (last_variable 0 lits.lits.items ≡ lits.last)
        × ((rises_above 0 lits.lits.items ≡ true) × All IsLiteral lits.lits.items) };
}

impl RisingLits {
    /// No literal. Takes no memory yet.
    pub fn make(alloc: Global) -> Self
        ensures { result ≡ [] }
    {
        RisingLits {
            lits: Vec::new(alloc),
            last: 0,
        }
    }

    /// The variable of the last literal, or 0.
    pub fn last_variable(&self) -> u32
        ensures { result ≡ last_variable 0 self.now }
    {
        self.last
    }

    /// Puts one more literal behind these.
    pub fn add(&mut self, literal: i32) -> Result<(), AllocError>
        requires literal { IsLiteral literal }
        requires rises { last_variable 0 self.old < nat_abs literal }
        ensures { OnOk result (self.new ≡ self.old ++ literal ∷ []) }
    {
        self.lits.push(literal)?;
        self.last = literal.unsigned_abs();
        Ok(())
    }

    /// The cube of the literals, which are let go.
    pub fn take(&mut self, alloc: Global) -> Result<Cube, AllocError>
        ensures cube { IfOk result (λ cube. cube ≡ self.old) }
        ensures empty { OnOk result (self.new ≡ []) }
    {
        let cube = Cube::from_vec(self.lits.as_slice().to_vec(alloc)?);
        self.lits.clear();
        self.last = 0;
        Ok(cube)
    }
}
