//! What the header and the clauses of a text say so far.
ghost use Rattle.std.specs.Prelude.{◌≡◌, ◌≤◌, ◌<◌, length, OnOk};
ghost use Rattle.sat_terms.specs.Literals.{IsLiteral};
ghost use Rattle.dimacs_tokens.specs.Seen.{is_nil};
ghost use Rattle.dimacs_front.specs.Machine.{nothing_written, clause_written, literal_written};

use crate::{MOST_CLAUSES, MOST_LITERALS, MOST_VARIABLES};
use sat_terms::{Clause, Formula, Items};
use std::alloc::{AllocError, Global};
use std::marker::Model;

/// The header's numbers, the clauses that are ended, the literals of the next one, and how many
/// literals there are in all.
#[derive(Drop)]
pub struct Written {
    alloc: Global,
    variables: u32,
    said: u32,
    clauses: Vec<Clause>,
    open_clause: Vec<i32>,
    literals: u32,
}

impl Model for Written {
    ghost use Rattle.std.specs.Prelude.{◌≤◌, length};
    ghost use Rattle.std.specs.List.{All};
    ghost use Rattle.sat_terms.specs.Literals.{IsLiteral};
    ghost use Rattle.dimacs_front.specs.Machine.{WrittenView};
    ghost use Rattle.dimacs_front.specs.Limits.{most_variables, most_clauses};

    ghost Value = { WrittenView };

    ghost view = { λ w. record {
      variables = w.variables;
      said = w.said;
      clauses = w.clauses.items;
      open_clause = w.open_clause.items;
      literals = w.literals;
    } };

    ghost invariant = { λ w. (w.variables ≤ most_variables)
        × ((length w.clauses.items ≤ most_clauses) × All IsLiteral w.open_clause.items) };
}

impl Written {
    /// Below a header with these numbers. Takes no memory yet.
    pub fn make(alloc: Global, variables: u32, said: u32) -> Self
        requires { variables ≤ MOST_VARIABLES }
        ensures { result ≡ nothing_written variables said }
    {
        Written {
            alloc,
            variables,
            said,
            clauses: Vec::new(alloc),
            open_clause: Vec::new(alloc),
            literals: 0,
        }
    }

    /// The number of variables by the header.
    pub fn variables(&self) -> u32
        ensures same { result ≡ self.now.variables }
        ensures limit { result ≤ MOST_VARIABLES }
    {
        self.variables
    }

    /// The number of clauses by the header.
    pub fn said(&self) -> u32
        ensures { result ≡ self.now.said }
    {
        self.said
    }

    /// How many clauses are ended.
    pub fn found(&self) -> u32
        ensures { result ≡ length self.now.clauses }
    {
        self.clauses.len() as u32
    }

    /// How many literals there are.
    pub fn literals(&self) -> u32
        ensures { result ≡ self.now.literals }
    {
        self.literals
    }

    /// Whether no literal stands behind the last clause.
    pub fn is_ended(&self) -> bool
        ensures { result ≡ is_nil self.now.open_clause }
    {
        self.open_clause.is_empty()
    }

    /// Ends the clause.
    pub fn end_clause(&mut self) -> Result<(), AllocError>
        requires { length self.old.clauses < MOST_CLAUSES }
        ensures { OnOk result (self.new ≡ clause_written self.old) }
    {
        let clause = Clause::from_lits(self.alloc, &self.open_clause)?;
        self.clauses.push(clause)?;
        self.open_clause.clear();
        Ok(())
    }

    /// Puts a literal behind the last clause.
    pub fn add_literal(&mut self, literal: i32) -> Result<(), AllocError>
        requires literal { IsLiteral literal }
        requires room { self.old.literals < MOST_LITERALS }
        ensures { OnOk result (self.new ≡ literal_written self.old literal) }
    {
        self.open_clause.push(literal)?;
        self.literals += 1;
        Ok(())
    }

    /// The formula of the clauses that are ended.
    pub fn into_formula(self) -> Formula
        ensures variables { result.variables ≡ self.variables }
        ensures clauses { result.clauses ≡ self.clauses }
    {
        Formula {
            variables: self.variables,
            clauses: Items::from_vec(self.clauses),
        }
    }
}
