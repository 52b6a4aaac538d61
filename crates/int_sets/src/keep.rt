// Rows that are made are kept: of inequalities with equal coefficients the least constant, of equal equalities the first.
ghost use Rattle.std.specs.Prelude.{◌≡◌, ◌++◌, ◌∷◌, [], false, length, OnOk, List};
ghost use Rattle.std.specs.List.{AllZip};
ghost use Rattle.int_rows.specs.Elimination.{absorbed};
ghost use Rattle.int_rows.specs.Systems.{with_rows};
ghost use Rattle.int_rows.specs.declared.row.Row.{Row as RowOf};
ghost use Rattle.int_sets.specs.Keys.{IsKeyOf};
ghost use Rattle.int_sets.specs.Gathering.{Keeps};
ghost use Rattle.int_sets.specs.Views.{row_of};

use crate::key::{RowKey, row_key};
use crate::packed::PackedRows;
use crate::views::RowRef;
use chill_base::NoMemory;
use indexmap::IndexSet;
use std::alloc::Global;
use std::marker::Model;

/// The most rows that a system holds.
pub const MOST_ROWS: usize = 4096;

/// Keeps one more row among rows of which no two are alike, each at the place of its key.
fn absorb(
    alloc: Global,
    rows: &mut PackedRows,
    places: &mut IndexSet<RowKey>,
    row: &RowRef,
) -> Result<(), NoMemory>
    requires width { length row.now.form.coefs.now ≡ rows.old.vars }
    requires keys { AllZip IsKeyOf places.old.keys rows.old.rows }
    ensures rows { OnOk result (rows.new.rows ≡ absorbed rows.old.rows (row_of row.now)) }
    ensures vars { rows.new.vars ≡ rows.old.vars }
    ensures keys { AllZip IsKeyOf places.new.keys rows.new.rows }
{
    let (place, is_new) = places.insert_full(row_key(alloc, row)?)?;
    if !is_new {
        rows.lower(place, row.form.constant);
        return Ok(());
    }
    if rows.push(row).is_err() {
        places.truncate(rows.len());
        return Err(NoMemory);
    }
    Ok(())
}

/// The rows that are kept of those made so far, unless these are too many.
#[derive(Drop)]
pub struct Kept {
    rows: PackedRows,
    places: IndexSet<RowKey>,
    many: bool,
}

impl Model for Kept {
    ghost use Rattle.std.specs.List.{AllZip};
    ghost use Rattle.int_sets.specs.Keys.{IsKeyOf};
    ghost use Rattle.int_sets.specs.KeptRows.{KeptRows};

    ghost Value = { KeptRows };

    ghost view = { λ k. record { kept = k.rows; many = k.many } };

    ghost invariant = { λ k. AllZip IsKeyOf k.places.keys k.rows.rows };
}

impl Kept {
    /// Nothing is kept yet of rows over so many variables.
    pub fn new(alloc: Global, vars: usize) -> Kept
        ensures kept { result.kept ≡ record { vars = vars; rows = [] } }
        ensures many { result.many ≡ false }
    {
        Kept {
            rows: PackedRows::new(alloc, vars),
            places: IndexSet::new(alloc),
            many: false,
        }
    }

    /// Keeps one more row.
    pub fn keep(&mut self, alloc: Global, row: &RowRef) -> Result<(), NoMemory>
        requires { length row.now.form.coefs.now ≡ self.old.kept.vars }
        ensures kept { OnOk result ((before : List RowOf) → Keeps before self.old.many self.old.kept.rows → Keeps (before ++ row_of row.now ∷ []) self.new.many self.new.kept.rows) }
        ensures vars { self.new.kept.vars ≡ self.old.kept.vars }
    {
        if self.many {
            return Ok(());
        }
        absorb(alloc, &mut self.rows, &mut self.places, row)?;
        if self.rows.len() > MOST_ROWS {
            self.many = true;
        }
        Ok(())
    }

    /// Whether there were too many rows.
    pub fn is_many(&self) -> bool
        ensures { result ≡ self.now.many }
    {
        self.many
    }

    /// The rows that are kept.
    pub fn into_rows(self) -> PackedRows
        ensures { result ≡ self.kept }
    {
        self.rows
    }
}
