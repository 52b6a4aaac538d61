// A form in place of a variable.
ghost use Rattle.std.specs.Prelude.{◌≡◌, length, ◌<◌, IfOk, map};
ghost use Rattle.int_rows.specs.Systems.{with_rows, without as without_of, replaced, replaced_past, first_of};
ghost use Rattle.int_sets.specs.Gathering.{Combines, Replaces};
ghost use Rattle.int_sets.specs.Views.{form_of, row_of};

use crate::combine::combine;
use crate::packed::PackedRows;
use crate::views::{AffRef, RowRef, aff_ref, row_ref};
use chill_base::{List, NoMemory, Stop};
use int_rows::{Aff, Excess, Row};
use std::alloc::Global;

/// A copy of the form without the summand of the variable.
fn without(alloc: Global, var: usize, form: &AffRef) -> Result<Aff, NoMemory>
    requires { var < length form.now.coefs.now }
    ensures { IfOk result (λ f. f ≡ without_of var (form_of form.now)) }
{
    let mut coefs = List::from_slice(alloc, form.coefs)?;
    coefs.set(var, 0);
    Ok(Aff {
        coefs,
        constant: form.constant,
    })
}

/// The row with the form in place of the variable, or the position of the first number that passes the limit.
fn replaced_row(alloc: Global, var: usize, by: &AffRef, row: &RowRef) -> Result<Row, Stop<usize>>
    requires inside { var < length row.now.form.coefs.now }
    requires width { length by.now.coefs.now ≡ length row.now.form.coefs.now }
    ensures { Combines (replaced_past var (form_of by.now) (row_of row.now)) (replaced var (form_of by.now) (row_of row.now)) result }
{
    let rest = without(alloc, var, &row.form)?;
    let form = combine(alloc, 1, &aff_ref(&rest), row.form.coefs[var], by)?;
    Ok(Row {
        equal: row.equal,
        form,
    })
}

/// The rows with the form in place of the variable, or the position of the first number that passes the limit.
pub fn replaced_rows(
    alloc: Global,
    var: usize,
    by: &Aff,
    rows: &PackedRows,
) -> Result<PackedRows, Stop<Excess>>
    requires inside { var < rows.now.vars }
    requires width { length by.now.coefs ≡ rows.now.vars }
    ensures { Replaces (first_of (map (replaced_past var by.now) rows.now.rows)) (with_rows rows.now (map (replaced var by.now) rows.now.rows)) result }
{
    let by = aff_ref(by);
    let mut new = PackedRows::new(alloc, rows.vars());
    for i in 0..rows.len() {
        match replaced_row(alloc, var, &by, &rows.row(i)) {
            Ok(row) => new.push(&row_ref(&row))?,
            Err(Stop::Refused(var)) => return Err(Stop::Refused(Excess::Large { var })),
            Err(Stop::NoMemory) => return Err(Stop::NoMemory),
        }
    }
    Ok(new)
}
