// The lines of a layout.
ghost use Rattle.std.specs.Prelude.{◌≡◌, IfOk};
ghost use Rattle.inspectors.specs.Layouts as spec;
ghost use Rattle.inspectors.specs.Numbers.{IsKept};

use crate::expressions::{column, offset, value};
use crate::layout::Layout;
use crate::level::Compacted;
use crate::names::MarkNames;
use crate::trees::{
    cell, cell_of_three, cell_of_two, entry_name, minus, one, read, row_name, then,
};
use c_tree::{Cell, Expr, How, Index, Kind, Matrix, Stmt};
use chill_base::{Boxed, List, Name, NoMemory};
use std::alloc::Global;

/// The declaration of an array with two inner extents.
fn declare_block(alloc: Global, name: Name, rows: i64, cols: i64) -> Result<Stmt, NoMemory>
    ensures { IfOk result (λ t. t ≡ spec.declared_block name rows cols) }
{
    let inner = one(alloc, Index::Const(rows))?;
    Ok(Stmt::Declare {
        name,
        kind: Kind::Number,
        inner: then(inner, Index::Const(cols))?,
    })
}

/// The declaration of the layout.
pub fn declaration(alloc: Global, matrix: &Matrix, layout: &Layout) -> Result<List<Stmt>, NoMemory>
    ensures { IfOk result (λ list. list ≡ spec.declaration matrix.now layout.now) }
{
    match *layout {
        Layout::Plain => Ok(List::new(alloc)),
        Layout::Block { lay, rows, cols } => { one(alloc, declare_block(alloc, lay, rows, cols)?) }
        Layout::Diag { lay } => {
            let inner = one(alloc, Index::Var(matrix.rows))?;
            let declare = Stmt::Declare {
                name: lay,
                kind: Kind::Number,
                inner,
            };
            one(alloc, declare)
        }
    }
}

fn grow_by_one(alloc: Global, name: Name) -> Result<List<Stmt>, NoMemory>
    ensures { IfOk result (λ list. list ≡ spec.grow_by_one name) }
{
    let grow = Stmt::Grow {
        name,
        by: Index::Const(1),
    };
    one(alloc, grow)
}

/// The growth of the layout at a new value.
pub fn growth(alloc: Global, layout: &Layout) -> Result<List<Stmt>, NoMemory>
    ensures { IfOk result (λ list. list ≡ spec.growth layout.now) }
{
    match *layout {
        Layout::Plain => Ok(List::new(alloc)),
        Layout::Block {
            lay,
            rows: _,
            cols: _,
        } => grow_by_one(alloc, lay),
        Layout::Diag { lay } => grow_by_one(alloc, lay),
    }
}

/// The position of an entry's value.
fn place(alloc: Global, of: &Compacted, names: &MarkNames) -> Result<Index, NoMemory>
    requires { IsKept of.now.form }
    ensures { IfOk result (λ e. e ≡ spec.place of.now names.now) }
{
    let mark = read(alloc, names.mark, offset(alloc, of)?)?;
    minus(alloc, mark, Index::Const(1))
}

/// The multiple of an expression.
fn times(alloc: Global, number: i64, e: Index) -> Result<Index, NoMemory>
    ensures { IfOk result (λ t. t ≡ spec.times number e) }
{
    Ok(Index::Times(number, Boxed::new(alloc, e)?))
}

/// The row of an entry in its block.
fn row_in_block(alloc: Global, rows: i64) -> Result<Index, NoMemory>
    ensures { IfOk result (λ e. e ≡ spec.row_in_block rows) }
{
    if rows == 1 {
        return Ok(Index::Const(0));
    }
    let group = Index::Floor(Boxed::new(alloc, Index::Var(row_name()))?, rows);
    minus(alloc, Index::Var(row_name()), times(alloc, rows, group)?)
}

/// The column of an entry in its block.
fn column_in_block(alloc: Global, of: &Compacted, cols: i64) -> Result<Index, NoMemory>
    requires { IsKept of.now.form }
    ensures { IfOk result (λ e. e ≡ spec.column_in_block of.now cols) }
{
    if cols == 1 {
        return Ok(Index::Const(0));
    }
    let column = column(alloc, &of.matrix)?;
    let first = times(alloc, cols, value(alloc, of)?)?;
    minus(alloc, column, first)
}

/// The cell of an entry in the blocks.
fn cell_of_block(
    alloc: Global,
    of: &Compacted,
    names: &MarkNames,
    lay: Name,
    rows: i64,
    cols: i64,
) -> Result<Cell, NoMemory>
    requires { IsKept of.now.form }
    ensures { IfOk result (λ c. c ≡ spec.cell_of_block of.now names.now lay rows cols) }
{
    let place = place(alloc, of, names)?;
    let row = row_in_block(alloc, rows)?;
    let column = column_in_block(alloc, of, cols)?;
    cell_of_three(alloc, lay, place, row, column)
}

/// The cell of an entry in the diagonals.
fn cell_of_diagonal(
    alloc: Global,
    of: &Compacted,
    names: &MarkNames,
    lay: Name,
) -> Result<Cell, NoMemory>
    requires { IsKept of.now.form }
    ensures { IfOk result (λ c. c ≡ spec.cell_of_diagonal of.now names.now lay) }
{
    let place = place(alloc, of, names)?;
    cell_of_two(alloc, lay, place, Index::Var(row_name()))
}

/// The matrix's value of an entry is added to a cell.
pub fn add_value(alloc: Global, matrix: &Matrix, target: Cell) -> Result<Stmt, NoMemory>
    ensures { IfOk result (λ t. t ≡ spec.add_value matrix.now target) }
{
    let value = cell(alloc, matrix.value, Index::Var(entry_name()))?;
    Ok(Stmt::Assign {
        target,
        how: How::Add,
        value: Expr::At(value),
    })
}

/// The store of an entry in the layout.
pub fn store(
    alloc: Global,
    of: &Compacted,
    names: &MarkNames,
    layout: &Layout,
) -> Result<List<Stmt>, NoMemory>
    requires { IsKept of.now.form }
    ensures { IfOk result (λ list. list ≡ spec.store of.now names.now layout.now) }
{
    match *layout {
        Layout::Plain => Ok(List::new(alloc)),
        Layout::Block { lay, rows, cols } => {
            let cell = cell_of_block(alloc, of, names, lay, rows, cols)?;
            one(alloc, add_value(alloc, &of.matrix, cell)?)
        }
        Layout::Diag { lay } => {
            let cell = cell_of_diagonal(alloc, of, names, lay)?;
            one(alloc, add_value(alloc, &of.matrix, cell)?)
        }
    }
}
