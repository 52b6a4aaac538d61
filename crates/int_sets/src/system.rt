// A system of rows.
ghost use Rattle.std.specs.Prelude.{◌≡◌, [], pos, length, ◌<◌, IsTrue, IsFalse, slice_get, IfSome, IfOk, OnOk, filter, not};
ghost use Rattle.std.specs.List.{list_any};
ghost use Rattle.int_rows.specs.Rows.{coef_at};
ghost use Rattle.int_rows.specs.Elimination.{is_small};
ghost use Rattle.int_rows.specs.Exclusion.{is_plain as is_plain_of, is_impossible};
ghost use Rattle.int_rows.specs.Systems.{with_rows, pushed, substituted, eliminated, excluded as excluded_of, implied as implied_of};
ghost use Rattle.int_sets.specs.Answers.{Answers, Decides};

use crate::decide::{any_impossible, negation, without_plain};
use crate::gather::gather;
use crate::keep::MOST_ROWS;
use crate::numbers::{complement, first_large};
use crate::packed::PackedRows;
use crate::replace::replaced_rows;
use crate::views::row_ref;
use chill_base::{NoMemory, Stop};
use int_rows::{Aff, Excess, Row};
use std::alloc::Global;
use std::marker::Model;

/// Why a call on a system gave no answer: a limit that it passed, or want of memory.
pub type SetFault = Stop<Excess>;

/// A system of at most 4,096 rows over the same variables, with numbers of at most 2^126 in size. A call that
/// gives no answer leaves it as it was.
#[derive(Drop)]
pub struct System {
    alloc: Global,
    list: PackedRows,
}

impl Model for System {
    ghost use Rattle.int_rows.specs.Systems.{Rows, IsSystem};

    ghost Value = { Rows };

    ghost view = { λ s. s.list };

    ghost invariant = { λ s. IsSystem s.list };
}

impl System {
    /// A system without rows.
    pub fn new(alloc: Global, vars: usize) -> System
        ensures { result ≡ record { vars = vars; rows = [] } }
    {
        System {
            alloc,
            list: PackedRows::new(alloc, vars),
        }
    }

    /// A copy.
    pub fn copy(&self, alloc: Global) -> Result<System, NoMemory>
        ensures { IfOk result (λ s. s ≡ self.now) }
    {
        Ok(System {
            alloc,
            list: self.list.copy(alloc)?,
        })
    }

    /// Appends a row.
    pub fn push(&mut self, row: Row) -> Result<(), SetFault>
        requires { length row.form.coefs ≡ self.old.vars }
        ensures answer { Answers result self.old self.new (pushed self.old row) }
        ensures vars { self.new.vars ≡ self.old.vars }
    {
        if let Some(var) = first_large(row.form.coefs.as_slice(), row.form.constant) {
            return Err(Stop::Refused(Excess::Large { var }));
        }
        if self.list.len() >= MOST_ROWS {
            return Err(Stop::Refused(Excess::Many {
                var: self.list.vars(),
            }));
        }
        self.list.push(&row_ref(&row))?;
        Ok(())
    }

    /// Puts a form in place of a variable in each row, in one step.
    pub fn substitute(&mut self, var: usize, by: &Aff) -> Result<(), SetFault>
        requires var { var < self.old.vars }
        requires width { length by.now.coefs ≡ self.old.vars }
        ensures answer { Answers result self.old self.new (substituted var by.now self.old) }
        ensures vars { self.new.vars ≡ self.old.vars }
    {
        self.list = replaced_rows(self.alloc, var, by, &self.list)?;
        Ok(())
    }

    /// Eliminates a variable.
    pub fn eliminate(&mut self, var: usize) -> Result<(), SetFault>
        requires { var < self.old.vars }
        ensures answer { Answers result self.old self.new (eliminated var self.old) }
        ensures vars { self.new.vars ≡ self.old.vars }
    {
        let kept = gather(self.alloc, var, &self.list)?;
        if kept.is_many() {
            return Err(Stop::Refused(Excess::Many { var }));
        }
        self.list = kept.into_rows();
        Ok(())
    }

    /// Whether the elimination of all variables shows that the system has no integer point.
    pub fn excluded(&self, alloc: Global) -> Result<bool, SetFault>
        ensures { Decides result (excluded_of self.now) }
    {
        let mut system = self.copy(alloc)?;
        let mut left = self.vars();
        while left > 0 {
            if system.is_impossible() {
                return Ok(true);
            }
            system.drop_plain()?;
            left -= 1;
            system.eliminate(left)?;
        }
        Ok(system.is_impossible())
    }

    /// Whether an inequality follows from the rows.
    pub fn implied(&self, alloc: Global, row: &Row) -> Result<bool, SetFault>
        requires width { length row.now.form.coefs ≡ self.now.vars }
        requires inequality { IsFalse row.now.equal }
        ensures { Decides result (implied_of self.now row.now.form) }
    {
        let constant = complement(row.form.constant);
        if let Some(var) = first_large(row.form.coefs.as_slice(), constant) {
            return Err(Stop::Refused(Excess::Large { var }));
        }
        let mut system = self.copy(alloc)?;
        system.push(negation(alloc, &row.form)?)?;
        system.excluded(alloc)
    }

    /// How many variables there are.
    pub fn vars(&self) -> usize
        ensures { result ≡ self.now.vars }
    {
        self.list.vars()
    }

    /// How many rows there are.
    pub fn rows(&self) -> usize
        ensures { result ≡ length self.now.rows }
    {
        self.list.len()
    }

    /// Whether a row is an equality.
    pub fn equal(&self, row: usize) -> bool
        requires { row < length self.now.rows }
        ensures { IfSome (slice_get self.now.rows row) (λ r. result ≡ r.equal) }
    {
        self.list.row(row).equal
    }

    /// The coefficient of a variable in a row.
    pub fn coef(&self, row: usize, var: usize) -> i128
        requires row { row < length self.now.rows }
        requires var { var < self.now.vars }
        ensures value { IfSome (slice_get self.now.rows row) (λ r. result ≡ coef_at var r) }
        ensures small { IsTrue (is_small result) }
    {
        self.list.row(row).form.coefs[var]
    }

    /// The constant of a row.
    pub fn constant(&self, row: usize) -> i128
        requires { row < length self.now.rows }
        ensures value { IfSome (slice_get self.now.rows row) (λ r. result ≡ r.form.constant) }
        ensures small { IsTrue (is_small result) }
    {
        self.list.row(row).form.constant
    }

    // Whether a row shows that there is no integer point.
    fn is_impossible(&self) -> bool
        ensures { result ≡ list_any is_impossible self.now.rows }
    {
        any_impossible(&self.list)
    }

    // Drops the rows without variables.
    fn drop_plain(&mut self) -> Result<(), NoMemory>
        ensures { OnOk result (self.new ≡ with_rows self.old (filter (λ r. not (is_plain_of r)) self.old.rows)) }
    {
        self.list = without_plain(self.alloc, &self.list)?;
        Ok(())
    }
}
