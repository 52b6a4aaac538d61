// Rows that lie in one list of numbers.
ghost use Rattle.std.specs.Prelude.{◌≡◌, ◌<◌, ◌+◌, ◌*◌, ◌++◌, ◌∷◌, [], length, take, drop, pos, Some, slice_get, slice_index_or, slice_set, IfSome, IfOk, OnOk, OnErr};
ghost use Rattle.std.specs.Int.{int_min};
ghost use Rattle.int_rows.specs.Systems.{with_rows};
ghost use Rattle.int_sets.specs.Views.{row_of, lowered};

use crate::views::{AffRef, RowRef};
use chill_base::NoMemory;
use std::alloc::Global;
use std::marker::Model;

/// Rows over the same variables, in one list of numbers: the coefficients of a row, and behind them its constant.
#[derive(Drop)]
pub struct PackedRows {
    vars: usize,
    kinds: Vec<bool>,
    numbers: Vec<i128>,
}

impl Model for PackedRows {
    ghost use Rattle.int_rows.specs.Systems.{Rows};
    ghost use Rattle.int_sets.specs.Packing.{unpacked, IsPacked};

    ghost Value = { Rows };

    ghost view = { λ s. record { vars = s.vars; rows = unpacked s.vars s.kinds.items s.numbers.items } };

    ghost invariant = { λ s. IsPacked s.vars s.kinds.items s.numbers.items };
}

/// Appends a row's numbers.
fn append(numbers: &mut Vec<i128>, form: &AffRef) -> Result<(), NoMemory>
    ensures ok { OnOk result (numbers.new.items ≡ numbers.old.items ++ (form.now.coefs.now ++ form.now.constant ∷ [])) }
    ensures err { OnErr result (numbers.new.items ≡ numbers.old.items) }
{
    let end = numbers.len();
    numbers.extend_from_slice(form.coefs)?;
    if numbers.push(form.constant).is_err() {
        numbers.truncate(end);
        return Err(NoMemory);
    }
    Ok(())
}

/// The form whose numbers begin at a position.
fn form_at(numbers: &[i128], start: usize, vars: usize) -> AffRef<'_>
    requires { start + vars < length numbers.now }
    ensures coefs { result.coefs.now ≡ take vars (drop start numbers.now) }
    ensures constant { result.constant ≡ slice_index_or numbers.now (start + vars) (pos 0) }
{
    AffRef {
        coefs: &numbers[start..start + vars],
        constant: numbers[start + vars],
    }
}

/// Puts a number in the place of a greater one.
fn lower_at(numbers: &mut Vec<i128>, place: usize, by: i128)
    requires { place < length numbers.old.items }
    ensures { numbers.new.items ≡ slice_set numbers.old.items place (int_min (slice_index_or numbers.old.items place (pos 0)) by) }
{
    if by < numbers[place] {
        numbers[place] = by;
    }
}

impl PackedRows {
    /// No rows over so many variables.
    pub fn new(alloc: Global, vars: usize) -> PackedRows
        ensures { result ≡ record { vars = vars; rows = [] } }
    {
        PackedRows {
            vars,
            kinds: Vec::new(alloc),
            numbers: Vec::new(alloc),
        }
    }

    /// How many variables there are.
    pub fn vars(&self) -> usize
        ensures { result ≡ self.now.vars }
    {
        self.vars
    }

    /// How many rows there are.
    pub fn len(&self) -> usize
        ensures { result ≡ length self.now.rows }
    {
        self.kinds.len()
    }

    /// A copy.
    pub fn copy(&self, alloc: Global) -> Result<PackedRows, NoMemory>
        ensures { IfOk result (λ s. s ≡ self.now) }
    {
        Ok(PackedRows {
            vars: self.vars,
            kinds: Vec::from_slice(alloc, &self.kinds)?,
            numbers: Vec::from_slice(alloc, &self.numbers)?,
        })
    }

    /// The row at a position.
    pub fn row(&self, at: usize) -> RowRef<'_>
        requires { at < length self.now.rows }
        ensures row { slice_get self.now.rows at ≡ Some (row_of result) }
        ensures width { length result.form.coefs.now ≡ self.now.vars }
    {
        let start = at * (self.vars + 1);
        RowRef {
            equal: self.kinds[at],
            form: form_at(&self.numbers, start, self.vars),
        }
    }

    /// Appends a row.
    pub fn push(&mut self, row: &RowRef) -> Result<(), NoMemory>
        requires { length row.now.form.coefs.now ≡ self.old.vars }
        ensures ok { OnOk result (self.new ≡ with_rows self.old (self.old.rows ++ row_of row.now ∷ [])) }
        ensures err { OnErr result (self.new ≡ self.old) }
    {
        self.kinds.push(row.equal)?;
        if append(&mut self.numbers, &row.form).is_err() {
            self.kinds.pop();
            return Err(NoMemory);
        }
        Ok(())
    }

    /// Gives a row the lesser of its constant and another.
    pub fn lower(&mut self, at: usize, constant: i128)
        requires { at < length self.old.rows }
        ensures { IfSome (slice_get self.old.rows at) (λ r. self.new ≡ with_rows self.old (slice_set self.old.rows at (lowered r constant))) }
    {
        let start = at * (self.vars + 1);
        lower_at(&mut self.numbers, start + self.vars, constant);
    }
}
