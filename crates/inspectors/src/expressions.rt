// The expressions of an inspector.
ghost use Rattle.std.specs.Prelude.{◌≡◌, IfOk};
ghost use Rattle.inspectors.specs.Expressions as spec;
ghost use Rattle.inspectors.specs.Numbers.{IsKept, IsSmall};

use crate::level::{Compacted, Group};
use crate::numbers::Sum;
use crate::sums::{high_sum, low_sum, offset_sum, value_sum, width_sum};
use crate::trees::{entry_name, minus, plus_one, read, row_name, with_constant, with_multiple};
use c_tree::{Index, Matrix};
use chill_base::{Boxed, Name, NoMemory};
use std::alloc::Global;

/// The column of an entry.
pub fn column(alloc: Global, matrix: &Matrix) -> Result<Index, NoMemory>
    ensures { IfOk result (λ e. e ≡ spec.column matrix.now) }
{
    read(alloc, matrix.col, Index::Var(entry_name()))
}

/// Whether a matrix has as many rows as columns by its signature.
fn is_square(matrix: &Matrix) -> bool
    ensures { result ≡ spec.is_square matrix.now }
{
    matrix.rows.bytes() == matrix.cols.bytes()
}

/// Multiples of the numbers of rows and columns.
#[tactic(auto, unfolding(crate::specs::Expressions::with_sizes))]
fn with_sizes(
    alloc: Global,
    matrix: &Matrix,
    cols_first: bool,
    sum: Sum,
    before: Option<Index>,
) -> Result<Option<Index>, NoMemory>
    requires { IsSmall sum }
    ensures { IfOk result (λ new. new ≡ spec.with_sizes matrix.now cols_first sum before) }
{
    let rows = Index::Var(matrix.rows);
    let cols = Index::Var(matrix.cols);
    if is_square(matrix) {
        return with_multiple(alloc, before, sum.rows + sum.cols, rows);
    }
    if cols_first {
        let first = with_multiple(alloc, before, sum.cols, cols)?;
        return with_multiple(alloc, first, sum.rows, rows);
    }
    let first = with_multiple(alloc, before, sum.rows, rows)?;
    with_multiple(alloc, first, sum.cols, cols)
}

/// A sum as it is printed: the row, the numbers of rows and columns, the column, the constant.
#[tactic(auto, unfolding(crate::specs::Expressions::sum_text))]
fn sum_text(alloc: Global, matrix: &Matrix, cols_first: bool, sum: Sum) -> Result<Index, NoMemory>
    requires { IsSmall sum }
    ensures { IfOk result (λ e. e ≡ spec.sum_text matrix.now cols_first sum) }
{
    let row = with_multiple(alloc, None, sum.row, Index::Var(row_name()))?;
    let sizes = with_sizes(alloc, matrix, cols_first, sum, row)?;
    let column = with_multiple(alloc, sizes, sum.column, column(alloc, matrix)?)?;
    with_constant(alloc, column, sum.constant)
}

fn text_of(alloc: Global, of: &Compacted, sum: Sum) -> Result<Index, NoMemory>
    requires { IsSmall sum }
    ensures { IfOk result (λ e. e ≡ spec.text_of of.now sum) }
{
    sum_text(alloc, &of.matrix, of.cols_first, sum)
}

fn quotient(alloc: Global, of: &Compacted, sum: Sum) -> Result<Index, NoMemory>
    requires { IsSmall sum }
    ensures { IfOk result (λ e. e ≡ spec.quotient of.now sum) }
{
    let text = text_of(alloc, of, sum)?;
    Ok(Index::Floor(Boxed::new(alloc, text)?, of.form.divisor))
}

/// The value of an entry.
#[tactic(auto, unfolding(crate::specs::Expressions::value))]
pub fn value(alloc: Global, of: &Compacted) -> Result<Index, NoMemory>
    requires { IsKept of.now.form }
    ensures { IfOk result (λ e. e ≡ spec.value of.now) }
{
    if of.form.divisor == 1 {
        return text_of(alloc, of, value_sum(of.form));
    }
    quotient(alloc, of, value_sum(of.form))
}

/// The value less the least one.
#[tactic(auto, unfolding(crate::specs::Expressions::offset))]
pub fn offset(alloc: Global, of: &Compacted) -> Result<Index, NoMemory>
    requires { IsKept of.now.form }
    ensures { IfOk result (λ e. e ≡ spec.offset of.now) }
{
    if of.form.divisor == 1 {
        return text_of(alloc, of, offset_sum(of.form));
    }
    let value = quotient(alloc, of, value_sum(of.form))?;
    let low = quotient(alloc, of, low_sum(of.form))?;
    minus(alloc, value, low)
}

/// How many values there may be.
#[tactic(auto, unfolding(crate::specs::Expressions::width))]
pub fn width(alloc: Global, of: &Compacted) -> Result<Index, NoMemory>
    requires { IsKept of.now.form }
    ensures { IfOk result (λ e. e ≡ spec.width of.now) }
{
    if of.form.divisor == 1 {
        return text_of(alloc, of, width_sum(of.form));
    }
    let high = quotient(alloc, of, high_sum(of.form))?;
    let low = quotient(alloc, of, low_sum(of.form))?;
    plus_one(alloc, minus(alloc, high, low)?)
}

fn rows_below(alloc: Global, rows: i64, of: Name) -> Result<Index, NoMemory>
    ensures { IfOk result (λ e. e ≡ spec.rows_below rows of) }
{
    if rows == 1 {
        return Ok(Index::Var(of));
    }
    Ok(Index::Floor(Boxed::new(alloc, Index::Var(of))?, rows))
}

fn rows_above(alloc: Global, rows: i64, of: Name) -> Result<Index, NoMemory>
    ensures { IfOk result (λ e. e ≡ spec.rows_above rows of) }
{
    if rows == 1 {
        return Ok(Index::Var(of));
    }
    Ok(Index::Ceil(Boxed::new(alloc, Index::Var(of))?, rows))
}

/// The group of a row.
pub fn group(alloc: Global, group: Group) -> Result<Index, NoMemory>
    ensures { IfOk result (λ e. e ≡ spec.group group) }
{
    match group {
        Group::All => Ok(Index::Const(0)),
        Group::Rows(rows) => rows_below(alloc, rows, row_name()),
    }
}

/// The group behind that of a row.
pub fn next_group(alloc: Global, group: Group) -> Result<Index, NoMemory>
    ensures { IfOk result (λ e. e ≡ spec.next_group group) }
{
    match group {
        Group::All => Ok(Index::Const(1)),
        Group::Rows(rows) => plus_one(alloc, rows_below(alloc, rows, row_name())?),
    }
}

/// One more than there are groups.
pub fn pointers(alloc: Global, matrix: &Matrix, group: Group) -> Result<Index, NoMemory>
    ensures { IfOk result (λ e. e ≡ spec.pointers matrix.now group) }
{
    match group {
        Group::All => Ok(Index::Const(2)),
        Group::Rows(rows) => plus_one(alloc, rows_above(alloc, rows, matrix.rows)?),
    }
}
