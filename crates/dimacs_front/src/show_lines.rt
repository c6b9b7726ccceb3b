//! The variables that are shown.
ghost use Rattle.std.specs.Prelude.{◌≡◌, ◌<◌, ◌≤◌, ℕ, [], not, false, get_or, vec_len, IfOk, OnOk};
ghost use Rattle.dimacs_front.specs.Machine.{is_named, name_once};
ghost use Rattle.dimacs_front.specs.MachineEnd.{first_name_above, few, or_named, names_shown};

use crate::{MOST_SHOWN, MOST_VARIABLES};
use sat_terms::Items;
use std::alloc::{AllocError, Global};
use std::marker::Model;

/// A variable of a show line, and the line's number.
#[derive(Clone, Copy)]
pub struct Named {
    pub variable: u32,
    pub line: u64,
}

/// The variables of the show lines, each once, with the first line that names it, and beside them a
/// mark for each number up to the largest, which says whether it is one of them.
#[derive(Drop)]
pub struct ShowLines {
    named: Vec<Named>,
    marks: Vec<bool>,
}

impl Model for ShowLines {
    ghost use Rattle.std.specs.Prelude.{◌≡◌, ℕ, List, false, get_or};
    ghost use Rattle.dimacs_front.specs.declared.show_lines.Named.{Named};
    ghost use Rattle.dimacs_front.specs.Machine.{is_named};

    ghost Value = { List Named };

    ghost view = { λ s. s.named.items };

    ghost invariant = { λ s. (v : ℕ) → get_or s.marks.items v false ≡ is_named s.named.items v };
}

impl ShowLines {
    /// No show line. Takes no memory yet.
    pub fn make(alloc: Global) -> Self
        ensures { result ≡ [] }
    {
        ShowLines {
            named: Vec::new(alloc),
            marks: Vec::new(alloc),
        }
    }

    /// Keeps a variable that this line names, unless it was named before. Its cost is constant on
    /// average.
    pub fn add(&mut self, variable: u32, line: u64) -> Result<(), AllocError>
        ensures { OnOk result
            (self.new ≡ name_once self.old (record { variable = variable; line = line })) }
    {
        if self.names(variable) {
            return Ok(());
        }
        reach(&mut self.marks, variable)?;
        self.named.push(Named { variable, line })?;
        self.marks[variable as usize] = true;
        Ok(())
    }

    /// Whether a show line names the variable.
    pub fn names(&self, variable: u32) -> bool
        ensures { result ≡ is_named self.now variable }
    {
        self.marks.get(variable as usize).copied().unwrap_or(false)
    }

    /// The line of the first show line that names a variable above this one.
    pub fn first_above(&self, variables: u32) -> Option<u64>
        ensures { result ≡ first_name_above variables self.now }
    {
        for name in &self.named {
            if name.variable > variables {
                return Some(name.line);
            }
        }
        None
    }

    /// Whether the variable is shown: each is, where no show line was given.
    fn shows(&self, given: bool, variable: u32) -> bool
        ensures { result ≡ or_named (not given) self.now variable }
    {
        !given || self.names(variable)
    }

    /// The variables from 1 to this one that are shown, where they are not too many. All of them
    /// are shown where no show line was given.
    pub fn shown(
        &self,
        alloc: Global,
        given: bool,
        variables: u32,
    ) -> Result<Option<Items<u32>>, AllocError>
        requires { variables ≤ MOST_VARIABLES }
        ensures { IfOk result (λ shown. shown ≡ few (names_shown given self.now variables)) }
    {
        let mut shown = Vec::new(alloc);
        for variable in 1..variables + 1 {
            if self.shows(given, variable) {
                if shown.len() >= MOST_SHOWN {
                    return Ok(None);
                }
                shown.push(variable)?;
            }
        }
        Ok(Some(Items::from_vec(shown)))
    }
}

/// Makes a mark for each number up to this one. The room at least doubles where it grows.
fn reach(marks: &mut Vec<bool>, number: u32) -> Result<(), AllocError>
    ensures reached { OnOk result (number < vec_len marks.new) }
    ensures same { (v : ℕ) → get_or marks.new.items v false ≡ get_or marks.old.items v false }
{
    let count = number as usize + 1;
    if marks.len() < count {
        marks.resize(count, false)?;
    }
    Ok(())
}
