//! The given literals.
ghost use Rattle.std.specs.Prelude.{◌≡◌, ◌<◌, ◌^◌, true, ◌++◌, ◌∷◌, [], flat_map, List, ℤ, neg_ℤ, OnOk, IfOk};
ghost use Rattle.sat_terms.specs.Literals.{IsLiteral};
ghost use Rattle.sat_terms.specs.Cubes.{has_literal};
ghost use Rattle.sat_terms.specs.Subjects.{IsVariableList};
ghost use Rattle.dimacs_front.specs.MachineUnder.{AreSigns, signed, JudgesGiven};
ghost use Rattle.dimacs_front.specs.TextEnds.{is_placed};

use crate::show_lines::ShowLines;
use sat_terms::{Cube, is_shown};
use std::alloc::{AllocError, Global};
use std::marker::Model;

/// A literal of an under line, and the line's number.
#[derive(Clone, Copy)]
pub struct Given {
    pub literal: i32,
    pub line: u64,
}

/// The literals of the under lines, in order.
#[derive(Drop)]
pub struct UnderLines {
    given: Vec<Given>,
}

impl Model for UnderLines {
    ghost use Rattle.std.specs.Prelude.{List};
    ghost use Rattle.std.specs.List.{All};
    ghost use Rattle.sat_terms.specs.Literals.{IsLiteral};
    ghost use Rattle.dimacs_front.specs.declared.under_lines.Given.{Given};

    ghost Value = { List Given };

    ghost view = { λ u. u.given.items };

    ghost invariant = { λ u. All (λ g. IsLiteral (Given.literal g)) u.given.items };
}

impl UnderLines {
    /// No under line. Takes no memory yet.
    pub fn make(alloc: Global) -> Self
        ensures { result ≡ [] }
    {
        UnderLines {
            given: Vec::new(alloc),
        }
    }

    /// Keeps a literal of this line.
    pub fn add(&mut self, literal: i32, line: u64) -> Result<(), AllocError>
        requires { IsLiteral literal }
        ensures { OnOk result
            (self.new ≡ self.old ++ record { literal = literal; line = line } ∷ []) }
    {
        self.given.push(Given { literal, line })?;
        Ok(())
    }
}

impl UnderLines {
    /// The cube of the literals, or the line of the first one that is misplaced: its variable is
    /// none of these, or its negation stands before it. Takes one search of `shown` by halves for
    /// each literal.
    pub fn cube(&self, alloc: Global, shown: &[u32]) -> Result<Result<Cube, u64>, AllocError>
        requires { IsVariableList shown.now }
        ensures { IfOk result (λ r. JudgesGiven shown.now self.now r) }
    {
        let mut signs = Signs::make(alloc);
        for given in &self.given {
            if !signs.place(shown, *given)? {
                return Ok(Err(given.line));
            }
        }
        Ok(Ok(signs.cube(alloc, shown)?))
    }
}

/// The variables that are given so far, and those whose negations are.
#[derive(Drop)]
struct Signs {
    positive: ShowLines,
    negative: ShowLines,
}

impl Signs {
    /// Nothing is given. Takes no memory yet.
    fn make(alloc: Global) -> Self
        ensures { AreSigns result.positive result.negative [] }
    {
        Signs {
            positive: ShowLines::make(alloc),
            negative: ShowLines::make(alloc),
        }
    }

    /// Gives one more literal, unless its variable is none of these, or its negation is given.
    fn place(&mut self, shown: &[u32], given: Given) -> Result<bool, AllocError>
        requires shown { IsVariableList shown.now }
        requires literal { IsLiteral given.literal }
        ensures tells { IfOk result (λ placed. (ls : List ℤ) →
            AreSigns self.old.positive self.old.negative ls →
            placed ≡ is_placed shown.now ls given.literal) }
        ensures given { IfOk result (λ placed. (ls : List ℤ) →
            AreSigns self.old.positive self.old.negative ls → placed ≡ true →
            AreSigns self.new.positive self.new.negative (ls ++ given.literal ∷ [])) }
    {
        let literal = given.literal;
        if !is_shown(shown, literal.unsigned_abs()) || self.has_negation(literal) {
            return Ok(false);
        }
        self.add(given)?;
        Ok(true)
    }

    /// Gives one more literal.
    fn add(&mut self, given: Given) -> Result<(), AllocError>
        requires { IsLiteral given.literal }
        ensures { OnOk result ((ls : List ℤ) → AreSigns self.old.positive self.old.negative ls →
            AreSigns self.new.positive self.new.negative (ls ++ given.literal ∷ [])) }
    {
        let variable = given.literal.unsigned_abs();
        if given.literal > 0 {
            self.positive.add(variable, given.line)
        } else {
            self.negative.add(variable, given.line)
        }
    }

    /// Whether the negation of this literal is given.
    fn has_negation(&self, literal: i32) -> bool
        requires { IsLiteral literal }
        ensures { (ls : List ℤ) → AreSigns self.now.positive self.now.negative ls →
            result ≡ has_literal ls (neg_ℤ literal) }
    {
        let variable = literal.unsigned_abs();
        if literal > 0 {
            self.negative.names(variable)
        } else {
            self.positive.names(variable)
        }
    }

    /// Puts the literal of the variable behind these, if one is given.
    fn put(&self, lits: &mut Vec<i32>, variable: u32) -> Result<(), AllocError>
        requires { variable < 2 ^ 31 }
        ensures { OnOk result (lits.new.items ≡
            lits.old.items ++ signed self.now.positive self.now.negative variable) }
    {
        if self.positive.names(variable) {
            lits.push(variable as i32)?;
        } else if self.negative.names(variable) {
            lits.push(-(variable as i32))?;
        }
        Ok(())
    }

    /// The literals of these variables that are given.
    fn cube(&self, alloc: Global, shown: &[u32]) -> Result<Cube, AllocError>
        requires { IsVariableList shown.now }
        ensures { IfOk result (λ cube. cube ≡
            flat_map (signed self.now.positive self.now.negative) shown.now) }
    {
        let mut lits = Vec::new(alloc);
        for variable in shown {
            self.put(&mut lits, *variable)?;
        }
        Ok(Cube::from_vec(lits))
    }
}
