// Rows of one width.
ghost use Rattle.std.specs.Prelude.{◌≡◌, ◌≤◌, ◌<◌, ◌+◌, ◌^◌, length, IfOk, IsTrue, OnOk};
ghost use Rattle.std.specs.List.{list_all};
ghost use Rattle.nest_core.specs.Shapes.{vars_of, is_row_over};
ghost use Rattle.pad_layouts.specs.Kinds as spec;

use crate::forms::{fixed, list_of_two, one, push_bound, two};
use crate::kept::kept_rows;
use crate::parts::{Parts, RowArrays, picks_of, read};
use chill_base::{List, Name, NoMemory};
use nest_tree::{Access, KernelRow, Nest, Term};
use std::alloc::Global;

/// How many variables there are: the read of a column is one where the statement has one.
fn row_vars(params: usize, column: Option<usize>) -> usize
    requires { params + 4 < 2 ^ 64 }
    ensures { result ≡ spec.row_vars params column }
{
    match column {
        Some(_) => params + 4,
        None => params + 3,
    }
}

/// What the new variables stand for.
fn row_picks(
    alloc: Global,
    params: usize,
    column: Option<usize>,
) -> Result<List<Option<usize>>, NoMemory>
    ensures { IfOk result (λ ps. ps ≡ spec.row_picks params column) }
{
    match column {
        Some(_) => picks_of(alloc, params, &[Some(params), None, None, column]),
        None => picks_of(alloc, params, &[Some(params), None, None]),
    }
}

/// The cell of a row at a place in it.
fn row_cell(alloc: Global, vars: usize, params: usize, array: Name) -> Result<Access, NoMemory>
    requires { params + 1 < 2 ^ 64 }
    ensures { IfOk result (λ a. a ≡ spec.row_cell vars params array) }
{
    let row = one(alloc, vars, params, 0)?;
    let place = one(alloc, vars, params + 1, 0)?;
    Ok(Access {
        array,
        at: list_of_two(alloc, row, place)?,
    })
}

/// The read of a column.
fn column_term(alloc: Global, vars: usize, params: usize, array: Name) -> Result<Term, NoMemory>
    requires { params + 1 < 2 ^ 64 }
    ensures { IfOk result (λ t. t ≡ spec.column_term vars params array) }
{
    let row = one(alloc, vars, params, 0)?;
    let place = one(alloc, vars, params + 1, 0)?;
    Ok(Term {
        array,
        at: list_of_two(alloc, row, place)?,
    })
}

/// The width, and the column where the statement reads it.
fn row_terms(
    alloc: Global,
    params: usize,
    arrays: &RowArrays,
    column: Option<usize>,
) -> Result<List<Term>, NoMemory>
    requires { params + 4 < 2 ^ 64 }
    ensures { IfOk result (λ ts. ts ≡ spec.row_terms params arrays.now column) }
{
    let vars = row_vars(params, column);
    let mut terms = List::new(alloc);
    terms.push(read(alloc, arrays.width, fixed(alloc, vars, 0)?)?)?;
    match column {
        Some(_) => {
            terms.push(column_term(alloc, vars, params, arrays.columns)?)?;
            Ok(terms)
        }
        None => Ok(terms),
    }
}

/// The rows: those kept, and those of the place in a row.
#[tactic(auto, unfolding(crate::specs::Kinds::row_rows))]
fn row_rows(
    alloc: Global,
    params: usize,
    column: Option<usize>,
    nest: &Nest,
    picks: &[Option<usize>],
) -> Result<List<KernelRow>, NoMemory>
    requires rows { IsTrue (list_all (is_row_over (vars_of params nest.now) (length nest.now.levels)) nest.now.rows) }
    requires picks { IsTrue (list_all (spec.is_pick (vars_of params nest.now)) picks.now) }
    requires depth { length nest.now.levels ≡ 2 }
    requires room { params + 4 < 2 ^ 64 }
    ensures { IfOk result (λ rs. rs ≡ spec.row_rows params column picks.now nest.now.rows) }
{
    let vars = row_vars(params, column);
    let mut rows = kept_rows(alloc, params, 2, params + 1, picks, nest)?;
    push_bound(&mut rows, 2, one(alloc, vars, params + 1, 0)?)?;
    push_bound(
        &mut rows,
        2,
        two(alloc, vars, params + 2, 1, params + 1, -1, -1)?,
    )?;
    Ok(rows)
}

/// The parts of a statement over padded rows: its levels are the row and the place in it. `column` is the variable of the
/// read of an entry's column, where the statement has it.
#[tactic(auto, unfolding(crate::specs::Kinds::row_parts))]
pub fn row_parts(
    alloc: Global,
    params: usize,
    arrays: &RowArrays,
    column: Option<usize>,
    nest: &Nest,
) -> Result<Parts, NoMemory>
    requires rows { IsTrue (list_all (is_row_over (vars_of params nest.now) (length nest.now.levels)) nest.now.rows) }
    requires depth { length nest.now.levels ≡ 2 }
    requires column { IsTrue (spec.is_pick (vars_of params nest.now) column) }
    requires room { params + 4 < 2 ^ 64 }
    ensures { IfOk result (λ p. p ≡ spec.row_parts params arrays.now column nest.now.rows) }
{
    let picks = row_picks(alloc, params, column)?;
    let rows = row_rows(alloc, params, column, nest, picks.as_slice())?;
    Ok(Parts {
        depth: 2,
        picks,
        terms: row_terms(alloc, params, arrays, column)?,
        rows,
        cell: row_cell(alloc, row_vars(params, column), params, arrays.layout)?,
    })
}
