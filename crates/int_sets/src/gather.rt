// The rows that an elimination makes, and what is kept of them.
ghost use Rattle.std.specs.Prelude.{◌≡◌, ◌≢◌, pos, length, ◌<◌, ◌≤◌, map, filter, flat_map, take, drop, ◌∷◌, []};
ghost use Rattle.std.specs.List.{AllByRecursion, position_or_len};
ghost use Rattle.int_rows.specs.Rows.{coef_at};
ghost use Rattle.int_rows.specs.Elimination.{stays, canceled, substituted, paired, made, holds_not as holds_not_of, is_below as is_below_of, is_above as is_above_of, is_equality_with as is_equality_with_of};
ghost use Rattle.int_rows.specs.Systems.{IsRowOf};
ghost use Rattle.int_sets.specs.Gathering.{Gathers, GathersAll};
ghost use Rattle.int_sets.specs.Views.{row_of};

use crate::cancel::cancel;
use crate::keep::Kept;
use crate::packed::PackedRows;
use crate::signs::{holds_not, is_above, is_below, is_equality_with};
use crate::views::{RowRef, row_ref};
use chill_base::Stop;
use int_rows::Excess;
use std::alloc::Global;

/// The position of the first equality that holds the variable, or how many rows there are.
fn first_equality(rows: &PackedRows, var: usize) -> usize
    requires { var < rows.now.vars }
    ensures { result ≡ position_or_len (is_equality_with_of var) rows.now.rows }
{
    for i in 0..rows.len() {
        if is_equality_with(&rows.row(i), var) {
            return i;
        }
    }
    rows.len()
}

/// Makes the row in which the variable falls out of the first by the second, which holds it, and keeps it.
fn keep_canceled(
    alloc: Global,
    kept: &mut Kept,
    var: usize,
    first: &RowRef,
    second: &RowRef,
) -> Result<(), Stop<Excess>>
    requires inside { var < kept.old.kept.vars }
    requires first_row { IsRowOf kept.old.kept.vars (row_of first.now) }
    requires second_row { IsRowOf kept.old.kept.vars (row_of second.now) }
    requires held { coef_at var (row_of second.now) ≢ pos 0 }
    ensures kept { Gathers var (canceled var (row_of first.now) (row_of second.now) ∷ []) kept.old.many kept.old.kept.rows kept.new.many kept.new.kept.rows result }
    ensures vars { kept.new.kept.vars ≡ kept.old.kept.vars }
{
    let made = cancel(alloc, var, first, second)?;
    kept.keep(alloc, &row_ref(&made))?;
    Ok(())
}

/// Puts the equality in for the variable in a row, and keeps that.
fn keep_substituted(
    alloc: Global,
    kept: &mut Kept,
    var: usize,
    equality: &RowRef,
    row: &RowRef,
) -> Result<(), Stop<Excess>>
    requires inside { var < kept.old.kept.vars }
    requires equality_row { IsRowOf kept.old.kept.vars (row_of equality.now) }
    requires row { IsRowOf kept.old.kept.vars (row_of row.now) }
    requires held { coef_at var (row_of equality.now) ≢ pos 0 }
    ensures kept { Gathers var (substituted var (row_of equality.now) (row_of row.now) ∷ []) kept.old.many kept.old.kept.rows kept.new.many kept.new.kept.rows result }
    ensures vars { kept.new.kept.vars ≡ kept.old.kept.vars }
{
    if holds_not(row, var) {
        kept.keep(alloc, row)?;
        return Ok(());
    }
    keep_canceled(alloc, kept, var, row, equality)
}

/// Puts an equality in for the variable in the rows from one position to another.
fn substitute_rows(
    alloc: Global,
    kept: &mut Kept,
    var: usize,
    equality: &RowRef,
    rows: &PackedRows,
    start: usize,
    end: usize,
) -> Result<(), Stop<Excess>>
    requires inside { var < rows.now.vars }
    requires equality_row { IsRowOf rows.now.vars (row_of equality.now) }
    requires held { coef_at var (row_of equality.now) ≢ pos 0 }
    requires each_row { AllByRecursion (IsRowOf rows.now.vars) rows.now.rows }
    requires end { end ≤ length rows.now.rows }
    requires start { start ≤ end }
    requires vars { kept.old.kept.vars ≡ rows.now.vars }
    ensures kept { Gathers var (map (substituted var (row_of equality.now)) (drop start (take end rows.now.rows))) kept.old.many kept.old.kept.rows kept.new.many kept.new.kept.rows result }
    ensures vars { kept.new.kept.vars ≡ kept.old.kept.vars }
{
    for i in start..end {
        keep_substituted(alloc, kept, var, equality, &rows.row(i))?;
    }
    Ok(())
}

/// The rows without the variable stay.
fn keep_rows(
    alloc: Global,
    kept: &mut Kept,
    var: usize,
    rows: &PackedRows,
) -> Result<(), Stop<Excess>>
    requires inside { var < rows.now.vars }
    requires vars { kept.old.kept.vars ≡ rows.now.vars }
    ensures kept { Gathers var (map stays (filter (holds_not_of var) rows.now.rows)) kept.old.many kept.old.kept.rows kept.new.many kept.new.kept.rows result }
    ensures vars { kept.new.kept.vars ≡ kept.old.kept.vars }
{
    for i in 0..rows.len() {
        let row = rows.row(i);
        if holds_not(&row, var) {
            kept.keep(alloc, &row)?;
        }
    }
    Ok(())
}

/// Joins a row of positive coefficient with each row of negative coefficient.
fn join_below(
    alloc: Global,
    kept: &mut Kept,
    var: usize,
    first: &RowRef,
    rows: &PackedRows,
) -> Result<(), Stop<Excess>>
    requires inside { var < rows.now.vars }
    requires first_row { IsRowOf rows.now.vars (row_of first.now) }
    requires each_row { AllByRecursion (IsRowOf rows.now.vars) rows.now.rows }
    requires vars { kept.old.kept.vars ≡ rows.now.vars }
    ensures kept { Gathers var (map (canceled var (row_of first.now)) (filter (is_below_of var) rows.now.rows)) kept.old.many kept.old.kept.rows kept.new.many kept.new.kept.rows result }
    ensures vars { kept.new.kept.vars ≡ kept.old.kept.vars }
{
    for i in 0..rows.len() {
        let second = rows.row(i);
        if is_below(&second, var) {
            keep_canceled(alloc, kept, var, first, &second)?;
        }
    }
    Ok(())
}

/// Joins each row of positive coefficient with each row of negative coefficient.
fn join_pairs(
    alloc: Global,
    kept: &mut Kept,
    var: usize,
    rows: &PackedRows,
) -> Result<(), Stop<Excess>>
    requires inside { var < rows.now.vars }
    requires each_row { AllByRecursion (IsRowOf rows.now.vars) rows.now.rows }
    requires vars { kept.old.kept.vars ≡ rows.now.vars }
    ensures kept { Gathers var (flat_map (λ r. map (canceled var r) (filter (is_below_of var) rows.now.rows)) (filter (is_above_of var) rows.now.rows)) kept.old.many kept.old.kept.rows kept.new.many kept.new.kept.rows result }
    ensures vars { kept.new.kept.vars ≡ kept.old.kept.vars }
{
    for i in 0..rows.len() {
        let first = rows.row(i);
        if is_above(&first, var) {
            join_below(alloc, kept, var, &first, rows)?;
        }
    }
    Ok(())
}

/// What is kept of the rows that the equality at `at` makes of all others.
fn gather_by_equality(
    alloc: Global,
    var: usize,
    at: usize,
    rows: &PackedRows,
) -> Result<Kept, Stop<Excess>>
    requires inside { var < rows.now.vars }
    requires each_row { AllByRecursion (IsRowOf rows.now.vars) rows.now.rows }
    requires found { at ≡ position_or_len (is_equality_with_of var) rows.now.rows }
    requires row { at < length rows.now.rows }
    ensures { GathersAll rows.now.vars var (made var rows.now.rows) result }
{
    let equality = rows.row(at);
    let end = rows.len();
    let mut kept = Kept::new(alloc, rows.vars());
    substitute_rows(alloc, &mut kept, var, &equality, rows, 0, at)?;
    substitute_rows(alloc, &mut kept, var, &equality, rows, at + 1, end)?;
    Ok(kept)
}

/// What is kept where no equality holds the variable.
fn gather_pairs(alloc: Global, var: usize, rows: &PackedRows) -> Result<Kept, Stop<Excess>>
    requires inside { var < rows.now.vars }
    requires each_row { AllByRecursion (IsRowOf rows.now.vars) rows.now.rows }
    requires none { position_or_len (is_equality_with_of var) rows.now.rows ≡ length rows.now.rows }
    ensures { GathersAll rows.now.vars var (made var rows.now.rows) result }
{
    let mut kept = Kept::new(alloc, rows.vars());
    keep_rows(alloc, &mut kept, var, rows)?;
    join_pairs(alloc, &mut kept, var, rows)?;
    Ok(kept)
}

/// What is kept of all rows that the elimination of the variable makes.
pub fn gather(alloc: Global, var: usize, rows: &PackedRows) -> Result<Kept, Stop<Excess>>
    requires inside { var < rows.now.vars }
    requires each_row { AllByRecursion (IsRowOf rows.now.vars) rows.now.rows }
    ensures { GathersAll rows.now.vars var (made var rows.now.rows) result }
{
    let at = first_equality(rows, var);
    if at < rows.len() {
        gather_by_equality(alloc, var, at, rows)
    } else {
        gather_pairs(alloc, var, rows)
    }
}
