// The lines that pad rows to the length of the longest.
ghost use Rattle.std.specs.Prelude.{◌≡◌, IfOk};
ghost use Rattle.inspectors.specs.Rows as spec;

use crate::expressions::column;
use crate::marks::{over_entries, over_rows};
use crate::names::RowNames;
use crate::store::add_value;
use crate::trees::{
    cell, cell_of_two, entry_name, minus, one, plus_one, read, read_first, row_name, then, with_all,
};
use c_tree::{Cell, Cmp, Index, Kind, Matrix, Stmt, Test};
use chill_base::{List, Name, NoMemory};
use std::alloc::Global;

/// The length of a row.
fn row_length(alloc: Global, matrix: &Matrix) -> Result<Index, NoMemory>
    ensures { IfOk result (λ e. e ≡ spec.row_length matrix.now) }
{
    let next = plus_one(alloc, Index::Var(row_name()))?;
    let end = read(alloc, matrix.index, next)?;
    let begin = read(alloc, matrix.index, Index::Var(row_name()))?;
    minus(alloc, end, begin)
}

/// The test whether a row is longer than all before it.
fn longer(alloc: Global, matrix: &Matrix, names: &RowNames) -> Result<Test, NoMemory>
    ensures { IfOk result (λ t. t ≡ spec.longer matrix.now names.now) }
{
    let left = read_first(alloc, names.wid)?;
    Ok(Test {
        left,
        cmp: Cmp::Less,
        right: row_length(alloc, matrix)?,
    })
}

/// The width becomes the length of the row.
fn put_width(alloc: Global, matrix: &Matrix, names: &RowNames) -> Result<Stmt, NoMemory>
    ensures { IfOk result (λ t. t ≡ spec.put_width matrix.now names.now) }
{
    let target = cell(alloc, names.wid, Index::Const(0))?;
    Ok(Stmt::Put {
        target,
        value: row_length(alloc, matrix)?,
    })
}

/// The width becomes the length of the row, where that is longer.
fn widen(alloc: Global, matrix: &Matrix, names: &RowNames) -> Result<Stmt, NoMemory>
    ensures { IfOk result (λ t. t ≡ spec.widen matrix.now names.now) }
{
    let tests = one(alloc, longer(alloc, matrix, names)?)?;
    Ok(Stmt::If {
        tests,
        body: one(alloc, put_width(alloc, matrix, names)?)?,
    })
}

/// The lines that find the length of the longest row.
fn widths(alloc: Global, matrix: &Matrix, names: &RowNames) -> Result<List<Stmt>, NoMemory>
    ensures { IfOk result (λ list. list ≡ spec.widths matrix.now names.now) }
{
    let declare = Stmt::Declare {
        name: names.wid,
        kind: Kind::Position,
        inner: List::new(alloc),
    };
    let grow = Stmt::Grow {
        name: names.wid,
        by: Index::Const(1),
    };
    let head = then(one(alloc, declare)?, grow)?;
    let body = one(alloc, widen(alloc, matrix, names)?)?;
    then(head, over_rows(matrix.rows, body))
}

/// The declaration of an array of padded rows.
fn declare(alloc: Global, name: Name, kind: Kind, names: &RowNames) -> Result<Stmt, NoMemory>
    ensures { IfOk result (λ t. t ≡ spec.declare name kind names.now) }
{
    let inner = one(alloc, read_first(alloc, names.wid)?)?;
    Ok(Stmt::Declare { name, kind, inner })
}

/// The growth of an array to as many rows as the matrix has.
fn grow(matrix: &Matrix, name: Name) -> Stmt
    ensures { result ≡ spec.grow matrix.now name }
{
    Stmt::Grow {
        name,
        by: Index::Var(matrix.rows),
    }
}

/// The arrays of padded rows.
fn arrays(alloc: Global, matrix: &Matrix, names: &RowNames) -> Result<List<Stmt>, NoMemory>
    ensures { IfOk result (λ list. list ≡ spec.arrays matrix.now names.now) }
{
    let values = one(alloc, declare(alloc, names.lay, Kind::Number, names)?)?;
    let columns = declare(alloc, names.lcol, Kind::Position, names)?;
    let both = then(values, columns)?;
    grown(both, matrix, names)
}

fn grown(list: List<Stmt>, matrix: &Matrix, names: &RowNames) -> Result<List<Stmt>, NoMemory>
    ensures { IfOk result (λ new. new ≡ spec.grown list matrix.now names.now) }
{
    let first = then(list, grow(matrix, names.lay))?;
    then(first, grow(matrix, names.lcol))
}

/// An entry's cell of an array of padded rows.
fn cell_in_row(alloc: Global, matrix: &Matrix, array: Name) -> Result<Cell, NoMemory>
    ensures { IfOk result (λ c. c ≡ spec.cell_in_row matrix.now array) }
{
    let begin = read(alloc, matrix.index, Index::Var(row_name()))?;
    let place = minus(alloc, Index::Var(entry_name()), begin)?;
    cell_of_two(alloc, array, Index::Var(row_name()), place)
}

fn put_column(alloc: Global, matrix: &Matrix, names: &RowNames) -> Result<Stmt, NoMemory>
    ensures { IfOk result (λ t. t ≡ spec.put_column matrix.now names.now) }
{
    let target = cell_in_row(alloc, matrix, names.lcol)?;
    Ok(Stmt::Put {
        target,
        value: column(alloc, matrix)?,
    })
}

/// What is done at an entry: its value and its column are put into its row.
fn padded(alloc: Global, matrix: &Matrix, names: &RowNames) -> Result<List<Stmt>, NoMemory>
    ensures { IfOk result (λ list. list ≡ spec.padded matrix.now names.now) }
{
    let cell = cell_in_row(alloc, matrix, names.lay)?;
    let value = one(alloc, add_value(alloc, matrix, cell)?)?;
    then(value, put_column(alloc, matrix, names)?)
}

/// The loops over all entries.
fn over_all(alloc: Global, matrix: &Matrix, names: &RowNames) -> Result<Stmt, NoMemory>
    ensures { IfOk result (λ t. t ≡ spec.over_all matrix.now names.now) }
{
    let body = padded(alloc, matrix, names)?;
    let entries = one(alloc, over_entries(alloc, matrix.index, body)?)?;
    Ok(over_rows(matrix.rows, entries))
}

/// The lines of padded rows.
#[tactic(auto, unfolding(crate::specs::Rows::padded_lines))]
pub fn rows_inspector(
    alloc: Global,
    matrix: &Matrix,
    names: &RowNames,
) -> Result<List<Stmt>, NoMemory>
    ensures { IfOk result (λ list. list ≡ spec.padded_lines matrix.now names.now) }
{
    let first = widths(alloc, matrix, names)?;
    let second = with_all(first, arrays(alloc, matrix, names)?)?;
    then(second, over_all(alloc, matrix, names)?)
}
