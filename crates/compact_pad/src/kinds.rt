// The statement, the arrays and the lines of each kind of padding.
ghost use Rattle.std.specs.Prelude.{◌≡◌, length, IfOk, IsTrue};
ghost use Rattle.nest_core.specs.Shapes.{vars_of, IsShapedNest};
ghost use Rattle.pad_layouts.specs.Moved.{is_pick};
ghost use Rattle.compact_pad.specs.Entering as spec;

use crate::made::{block_arrays, diag_arrays, row_arrays};
use crate::names::KeptNames;
use c_tree::{Matrix, Program, Stmt};
use chill_base::{List, Name, NoMemory};
use inspectors::{RowNames, block_inspector, diag_inspector, rows_inspector};
use nest_tree::{Made, Nest};
use pad_layouts::{KeptArrays, Plan, RowArrays, Sides, block_nest, diag_nest, is_name, row_nest};
use std::alloc::Global;

/// What a padding brings into a kernel.
#[derive(Drop)]
pub struct Entered {
    pub nest: Nest,
    pub made: List<Made>,
    pub lines: List<Stmt>,
}

/// Whether the number of columns stands before the number of rows in the signature.
fn is_cols_first(params: &[Name], matrix: &Matrix) -> bool
    ensures { result ≡ spec.is_cols_first matrix.now params.now }
{
    for param in params {
        if is_name(*param, matrix.rows) {
            return false;
        }
        if is_name(*param, matrix.cols) {
            return true;
        }
    }
    false
}

fn kept_arrays(names: &KeptNames) -> KeptArrays
    ensures { result ≡ spec.kept_arrays names.now }
{
    KeptArrays {
        pointer: names.marks.ptr,
        kept: names.marks.val,
        layout: names.layout,
    }
}

fn padded_arrays(names: &RowNames) -> RowArrays
    ensures { result ≡ spec.padded_arrays names.now }
{
    RowArrays {
        width: names.wid,
        layout: names.lay,
        columns: names.lcol,
    }
}

/// The lines of blocks.
fn block_lines(
    alloc: Global,
    head: &Program,
    plan: &Plan,
    sides: Sides,
    names: &KeptNames,
) -> Result<List<Stmt>, NoMemory>
    ensures { IfOk result (λ ls. ls ≡ spec.block_lines head.now.params plan.now.matrix sides names.now) }
{
    let matrix = &plan.matrix;
    let cols_first = is_cols_first(head.params.as_slice(), matrix);
    let marks = &names.marks;
    let (rows, cols) = (sides.rows, sides.cols);
    block_inspector(alloc, matrix, cols_first, rows, cols, marks, names.layout)
}

/// What blocks bring into a kernel.
pub fn enter_blocks(
    alloc: Global,
    head: &Program,
    nest: &Nest,
    plan: &Plan,
    sides: Sides,
    names: &KeptNames,
) -> Result<Entered, NoMemory>
    requires shaped { IsShapedNest head.now nest.now }
    requires depth { length nest.now.levels ≡ 5 }
    ensures value { IfOk result (λ e. e ≡ spec.blocks head.now.params nest.now plan.now sides names.now) }
    ensures shaped { IfOk result (λ e. IsShapedNest head.now e.nest) }
{
    let lines = block_lines(alloc, head, plan, sides, names)?;
    let made = block_arrays(alloc, names, plan.number, sides.rows, sides.cols)?;
    let value = plan.matrix.value;
    let nest = block_nest(alloc, head, nest, value, sides, &kept_arrays(names))?;
    Ok(Entered { nest, made, lines })
}

/// What diagonals bring into a kernel.
pub fn enter_diagonals(
    alloc: Global,
    head: &Program,
    nest: &Nest,
    plan: &Plan,
    names: &KeptNames,
) -> Result<Entered, NoMemory>
    requires shaped { IsShapedNest head.now nest.now }
    requires depth { length nest.now.levels ≡ 3 }
    ensures value { IfOk result (λ e. e ≡ spec.diagonals head.now.params nest.now plan.now names.now) }
    ensures shaped { IfOk result (λ e. IsShapedNest head.now e.nest) }
{
    let matrix = &plan.matrix;
    let cols_first = is_cols_first(head.params.as_slice(), matrix);
    let lines = diag_inspector(alloc, matrix, cols_first, &names.marks, names.layout)?;
    let made = diag_arrays(alloc, names, plan.number)?;
    let nest = diag_nest(alloc, head, nest, matrix, &kept_arrays(names))?;
    Ok(Entered { nest, made, lines })
}

/// What padded rows bring into a kernel.
pub fn enter_rows(
    alloc: Global,
    head: &Program,
    nest: &Nest,
    plan: &Plan,
    names: &RowNames,
) -> Result<Entered, NoMemory>
    requires shaped { IsShapedNest head.now nest.now }
    requires depth { length nest.now.levels ≡ 2 }
    requires column { IsTrue (is_pick (vars_of (length head.now.params) nest.now) plan.now.column) }
    ensures value { IfOk result (λ e. e ≡ spec.rows head.now.params nest.now plan.now names.now) }
    ensures shaped { IfOk result (λ e. IsShapedNest head.now e.nest) }
{
    let lines = rows_inspector(alloc, &plan.matrix, names)?;
    let made = row_arrays(alloc, names, plan.number)?;
    let value = plan.matrix.value;
    let nest = row_nest(alloc, head, nest, value, &padded_arrays(names), plan.column)?;
    Ok(Entered { nest, made, lines })
}
