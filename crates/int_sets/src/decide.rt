// Rows that decide a system, and rows that say nothing.
ghost use Rattle.std.specs.Prelude.{◌≡◌, ◌%◌, IsTrue, nat_eq, neg_ℤ, map, filter, not, IfOk, unsigned_abs};
ghost use Rattle.std.specs.List.{list_all, list_any};
ghost use Rattle.std.specs.Ordering.{int_eq};
ghost use Rattle.int_rows.specs.Elimination.{is_small};
ghost use Rattle.int_rows.specs.Exclusion.{is_plain as is_plain_of, is_impossible as is_impossible_of};
ghost use Rattle.int_rows.specs.Systems.{with_rows, negation as negation_of};
ghost use Rattle.int_sets.specs.Views.{row_of};

use crate::numbers::{complement, gcd_all, room};
use crate::packed::PackedRows;
use crate::views::RowRef;
use chill_base::NoMemory;
use int_rows::{Aff, Row};
use std::alloc::Global;

/// Whether a row has no variables.
pub fn is_plain(row: &RowRef) -> bool
    ensures { result ≡ is_plain_of (row_of row.now) }
{
    row.form.coefs.iter().all(|c| *c == 0)
}

/// Whether a divisor divides a number. 0 divides 0 alone.
fn divides(by: u128, z: i128) -> bool
    ensures { result ≡ nat_eq (unsigned_abs z % by) 0 }
{
    if by == 0 {
        z == 0
    } else {
        z.unsigned_abs() % by == 0
    }
}

/// Whether no integer point meets a row, by the divisor test or the sign test.
pub fn is_impossible(row: &RowRef) -> bool
    ensures { result ≡ is_impossible_of (row_of row.now) }
{
    if row.equal {
        !divides(gcd_all(row.form.coefs), row.form.constant)
    } else {
        is_plain(row) && row.form.constant < 0
    }
}

/// Whether a row of the list is impossible.
pub fn any_impossible(rows: &PackedRows) -> bool
    ensures { result ≡ list_any is_impossible_of rows.now.rows }
{
    for i in 0..rows.len() {
        if is_impossible(&rows.row(i)) {
            return true;
        }
    }
    false
}

/// The rows that have variables.
pub fn without_plain(alloc: Global, rows: &PackedRows) -> Result<PackedRows, NoMemory>
    ensures { IfOk result (λ s. s ≡ with_rows rows.now (filter (λ r. not (is_plain_of r)) rows.now.rows)) }
{
    let mut kept = PackedRows::new(alloc, rows.vars());
    for i in 0..rows.len() {
        let row = rows.row(i);
        if !is_plain(&row) {
            kept.push(&row)?;
        }
    }
    Ok(kept)
}

/// The inequality that holds where another doesn't.
pub fn negation(alloc: Global, form: &Aff) -> Result<Row, NoMemory>
    requires { IsTrue (list_all is_small form.now.coefs) }
    ensures { IfOk result (λ r. r ≡ negation_of form.now) }
{
    let mut coefs = room(alloc, form.coefs.len())?;
    for c in form.coefs.as_slice() {
        coefs.push(-*c)?;
    }
    Ok(Row {
        equal: false,
        form: Aff {
            coefs,
            constant: complement(form.constant),
        },
    })
}
