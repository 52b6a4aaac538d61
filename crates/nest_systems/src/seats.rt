// Where a statement's variables stand in a system.
ghost use Rattle.std.specs.Prelude.{◌≡◌, ◌+◌, ◌<◌, ◌≤◌, ◌^◌, length, IfOk};

use chill_base::{List, NoMemory};
use int_rows::{Aff, Row};
use int_sets::System;
use std::alloc::Global;

/// Where the variables of one statement stand in a system that it may share with another.
#[derive(Drop)]
pub struct Seats {
    pub params: usize,
    pub levels: usize,
    /// The variable of the first level.
    pub first_level: usize,
    /// The variable of each term that has one.
    pub terms: List<Option<usize>>,
    /// How many variables the system has.
    pub vars: usize,
    ghost own: { params + levels ≤ vars },
    ghost levels_within: { first_level + levels ≤ vars },
    ghost room: { params + levels + length terms < 2 ^ 64 },
}

/// Where the parts of a system begin.
#[derive(Clone, Copy)]
pub struct Places {
    pub params: usize,
    pub first_level: usize,
    pub first_term: usize,
    pub first_end: usize,
    pub vars: usize,
}

/// The coefficient of a variable in a row of a system; 0 for a variable that it doesn't have.
fn row_number(system: &System, row: usize, var: usize) -> i128
    requires { row < length system.now.rows }
{
    if var < system.vars() {
        system.coef(row, var)
    } else {
        0
    }
}

impl Seats {
    /// Whether a term is the first that stands at its variable.
    fn is_first(&self, term: usize) -> bool
        requires { term < length self.now.terms }
    {
        for i in 0..term {
            if self.terms.as_slice()[i] == self.terms.as_slice()[term] {
                return false;
            }
        }
        true
    }

    /// The coefficient of a term in a row of the system; of equal terms the first one has it.
    fn term_coef(&self, system: &System, row: usize, term: usize) -> i128
        requires row { row < length system.now.rows }
        requires term { term < length self.now.terms }
    {
        match self.terms.as_slice()[term] {
            Some(var) if self.is_first(term) => row_number(system, row, var),
            _ => 0,
        }
    }

    /// A row of the system as one of the statement, over its parameters, levels and terms, and behind them the reads
    /// that only ranges brought.
    pub fn back(&self, alloc: Global, system: &System, row: usize) -> Result<Row, NoMemory>
        requires { row < length system.now.rows }
        ensures { IfOk result (λ r. length r.form.coefs ≡ self.now.params + self.now.levels + length self.now.terms) }
    {
        let mut coefs = List::new(alloc);
        for var in 0..self.params {
            coefs.push(row_number(system, row, var))?;
        }
        for level in 0..self.levels {
            coefs.push(row_number(system, row, self.first_level + level))?;
        }
        for term in 0..self.terms.len() {
            coefs.push(self.term_coef(system, row, term))?;
        }
        Ok(Row {
            equal: system.equal(row),
            form: Aff {
                coefs,
                constant: system.constant(row),
            },
        })
    }
}
