// Blocks.
ghost use Rattle.std.specs.Prelude.{◌≡◌, ◌≤◌, ◌<◌, ◌+◌, ◌^◌, length, IfOk, IsTrue, OnOk};
ghost use Rattle.std.specs.List.{list_all};
ghost use Rattle.nest_core.specs.Shapes.{vars_of, is_row_over};
ghost use Rattle.pad_layouts.specs.Kinds as spec;

use crate::forms::{last_of, list_of_three, negative, one, two, wide};
use crate::kept::{kept_rows, push_missing};
use crate::parts::{KeptArrays, Parts, kept_terms, picks_of, push_pointer_rows};
use chill_base::{List, Name, NoMemory};
use nest_tree::{Access, KernelRow, Nest};
use std::alloc::Global;

/// A block's sides, and whether its rows are the inner loop.
#[derive(Clone, Copy)]
pub struct Sides {
    pub rows: i64,
    pub cols: i64,
    pub swapped: bool,
}

/// The variable of the row: the third level, or the fourth.
fn row_var(params: usize, sides: Sides) -> usize
    requires { params + 4 < 2 ^ 64 }
    ensures { result ≡ spec.row_var params sides }
{
    if sides.swapped {
        params + 3
    } else {
        params + 2
    }
}

/// The variable of the column: the other one.
fn column_var(params: usize, sides: Sides) -> usize
    requires { params + 4 < 2 ^ 64 }
    ensures { result ≡ spec.column_var params sides }
{
    if sides.swapped {
        params + 2
    } else {
        params + 3
    }
}

fn row_level(sides: Sides) -> usize
    ensures { result ≡ spec.row_level sides }
{
    if sides.swapped { 4 } else { 3 }
}

fn column_level(sides: Sides) -> usize
    ensures { result ≡ spec.column_level sides }
{
    if sides.swapped { 3 } else { 4 }
}

/// Appends the bounds of a member in a group of so many, where there aren't such.
fn push_group_rows(
    alloc: Global,
    rows: &mut List<KernelRow>,
    vars: usize,
    own: usize,
    member: usize,
    group: usize,
    side: i64,
) -> Result<(), NoMemory>
    ensures { OnOk result (rows.new ≡ spec.with_group vars own member group side rows.old) }
{
    let low = two(alloc, vars, member, 1, group, negative(side), 0)?;
    push_missing(rows, own, low)?;
    let high = two(alloc, vars, group, wide(side), member, -1, last_of(side))?;
    push_missing(rows, own, high)
}

/// The rows: those kept, those of the kept value's place, those of the row in its group, those of the column in its.
#[tactic(auto, unfolding(crate::specs::Kinds::block_rows))]
fn block_rows(
    alloc: Global,
    params: usize,
    sides: Sides,
    nest: &Nest,
    picks: &[Option<usize>],
) -> Result<List<KernelRow>, NoMemory>
    requires rows { IsTrue (list_all (is_row_over (vars_of params nest.now) (length nest.now.levels)) nest.now.rows) }
    requires picks { IsTrue (list_all (spec.is_pick (vars_of params nest.now)) picks.now) }
    requires depth { length nest.now.levels ≡ 5 }
    requires room { params + 7 < 2 ^ 64 }
    ensures { IfOk result (λ rs. rs ≡ spec.block_rows params sides picks.now nest.now.rows) }
{
    let (vars, kept) = (params + 7, params + 4);
    let mut rows = kept_rows(alloc, params, 4, params + 4, picks, nest)?;
    push_pointer_rows(alloc, &mut rows, vars, 2, params + 1, params + 5)?;
    let row = row_var(params, sides);
    push_group_rows(
        alloc,
        &mut rows,
        vars,
        row_level(sides),
        row,
        params,
        sides.rows,
    )?;
    let column = column_var(params, sides);
    push_group_rows(
        alloc,
        &mut rows,
        vars,
        column_level(sides),
        column,
        kept,
        sides.cols,
    )?;
    Ok(rows)
}

/// The cell of an entry: its block, its row and its column in the block.
#[tactic(auto, unfolding(crate::specs::Kinds::block_cell))]
fn block_cell(alloc: Global, params: usize, sides: Sides, layout: Name) -> Result<Access, NoMemory>
    requires { params + 7 < 2 ^ 64 }
    ensures { IfOk result (λ a. a ≡ spec.block_cell params sides layout) }
{
    let vars = params + 7;
    let place = one(alloc, vars, params + 1, 0)?;
    let row = two(
        alloc,
        vars,
        row_var(params, sides),
        1,
        params,
        negative(sides.rows),
        0,
    )?;
    let column = column_var(params, sides);
    let column = two(alloc, vars, column, 1, params + 4, negative(sides.cols), 0)?;
    Ok(Access {
        array: layout,
        at: list_of_three(alloc, place, row, column)?,
    })
}

/// The parts of a statement over blocks: its levels are the group of rows, the place of a kept value, row and column in
/// their order.
#[tactic(auto, unfolding(crate::specs::Kinds::block_parts))]
pub fn block_parts(
    alloc: Global,
    params: usize,
    sides: Sides,
    arrays: &KeptArrays,
    nest: &Nest,
) -> Result<Parts, NoMemory>
    requires rows { IsTrue (list_all (is_row_over (vars_of params nest.now) (length nest.now.levels)) nest.now.rows) }
    requires depth { length nest.now.levels ≡ 5 }
    requires room { params + 7 < 2 ^ 64 }
    ensures { IfOk result (λ p. p ≡ spec.block_parts params sides arrays.now nest.now.rows) }
{
    let more = [
        Some(params),
        None,
        Some(params + 2),
        Some(params + 3),
        Some(params + 1),
        None,
        None,
    ];
    let picks = picks_of(alloc, params, &more)?;
    let rows = block_rows(alloc, params, sides, nest, picks.as_slice())?;
    let group = one(alloc, params + 7, params, 0)?;
    let next = one(alloc, params + 7, params, 1)?;
    Ok(Parts {
        depth: 4,
        picks,
        terms: kept_terms(alloc, params + 7, arrays, params + 1, group, next)?,
        rows,
        cell: block_cell(alloc, params, sides, arrays.layout)?,
    })
}
