// Diagonals.
ghost use Rattle.std.specs.Prelude.{◌≡◌, ◌<◌, ◌+◌, ◌^◌, length, IfOk, OnOk};
ghost use Rattle.pad_layouts.specs.Kinds as spec;

use crate::forms::{fixed, form_with, list_of_two, named, one, push_bound, two};
use crate::parts::{KeptArrays, Parts, kept_terms, picks_of, push_pointer_rows};
use c_tree::Matrix;
use chill_base::{List, Name, NoMemory};
use int_rows::Aff;
use nest_tree::{Access, KernelRow};
use std::alloc::Global;

/// The named parameter less 1, the row, and perhaps the kept value.
#[tactic(auto, unfolding(crate::specs::Kinds::below))]
fn below(
    alloc: Global,
    params: &[Name],
    name: Name,
    row: usize,
    other: usize,
) -> Result<Aff, NoMemory>
    requires { length params.now + 5 < 2 ^ 64 }
    ensures { IfOk result (λ f. f ≡ spec.below params.now name row other) }
{
    let base = named(alloc, params, name)?;
    let vars = params.len() + 5;
    form_with(alloc, vars, base.as_slice(), row, -1, other, -1, -1)
}

/// The rows of the row and of the column, which is the row and the kept value.
#[tactic(auto, unfolding(crate::specs::Kinds::square_rows))]
fn square_rows(alloc: Global, params: &[Name], matrix: &Matrix) -> Result<List<KernelRow>, NoMemory>
    requires { length params.now + 5 < 2 ^ 64 }
    ensures { IfOk result (λ rs. rs ≡ spec.square_rows params.now matrix.now) }
{
    let (vars, row, kept) = (params.len() + 5, params.len() + 1, params.len() + 2);
    let mut rows = List::new(alloc);
    push_bound(&mut rows, 2, one(alloc, vars, row, 0)?)?;
    push_bound(&mut rows, 2, below(alloc, params, matrix.rows, row, row)?)?;
    push_bound(&mut rows, 2, two(alloc, vars, row, 1, kept, 1, 0)?)?;
    push_bound(&mut rows, 2, below(alloc, params, matrix.cols, row, kept)?)?;
    Ok(rows)
}

/// The cell of an entry: its diagonal, and its row.
#[tactic(auto, unfolding(crate::specs::Kinds::diag_cell))]
fn diag_cell(alloc: Global, params: usize, layout: Name) -> Result<Access, NoMemory>
    requires { params + 5 < 2 ^ 64 }
    ensures { IfOk result (λ a. a ≡ spec.diag_cell params layout) }
{
    let place = one(alloc, params + 5, params, 0)?;
    let row = one(alloc, params + 5, params + 1, 0)?;
    Ok(Access {
        array: layout,
        at: list_of_two(alloc, place, row)?,
    })
}

/// The parts of a statement over diagonals: its levels are the place of a kept value, and the row.
#[tactic(auto, unfolding(crate::specs::Kinds::diag_parts))]
pub fn diag_parts(
    alloc: Global,
    params: &[Name],
    matrix: &Matrix,
    arrays: &KeptArrays,
) -> Result<Parts, NoMemory>
    requires { length params.now + 5 < 2 ^ 64 }
    ensures { IfOk result (λ p. p ≡ spec.diag_parts params.now matrix.now arrays.now) }
{
    let (vars, first) = (params.len() + 5, params.len());
    let more = [None, Some(first + 1), Some(first), None, None];
    let picks = picks_of(alloc, first, &more)?;
    let mut rows = square_rows(alloc, params, matrix)?;
    push_pointer_rows(alloc, &mut rows, vars, 1, first, first + 3)?;
    let group = fixed(alloc, vars, 0)?;
    let next = fixed(alloc, vars, 1)?;
    Ok(Parts {
        depth: 2,
        picks,
        terms: kept_terms(alloc, vars, arrays, first, group, next)?,
        rows,
        cell: diag_cell(alloc, first, arrays.layout)?,
    })
}
