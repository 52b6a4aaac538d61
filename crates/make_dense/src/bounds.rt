// The bounds of a level that goes over the entries of a row.
ghost use Rattle.std.specs.Prelude.{◌≡◌, ◌+◌, ◌<◌, ◌≤◌, ◌^◌, length, IfOk};
ghost use Rattle.make_dense.specs.Bounds as spec;

use crate::forms::{is_difference, reads_at};
use c_tree::{Matrix, Program};
use chill_base::{List, Name, NoMemory};
use int_rows::Aff;
use nest_systems::copy_form;
use nest_tree::{KernelRow, Nest, Term};
use std::alloc::Global;

/// A side on which a level is bounded.
#[derive(Clone, Copy)]
pub enum Side {
    Low,
    High,
}

/// Whether the form is the level's bound on this side by the term, a read of the array at a row: `level - array[row]` or
/// `array[row+1] - 1 - level`.
#[tactic(auto, unfolding(crate::specs::Bounds::is_bound_by))]
fn is_bound_by(
    side: Side,
    level: usize,
    array: Name,
    row: usize,
    form: &Aff,
    var: usize,
    term: &Term,
) -> bool
    ensures { result ≡ spec.is_bound_by side level array row form.now var term.now }
{
    match side {
        Side::Low => reads_at(term, array, row, 0) && is_difference(form, level, var, 0),
        Side::High => reads_at(term, array, row, 1) && is_difference(form, var, level, -1),
    }
}

/// Whether that is so for one of the terms, which are the variables from `first` on.
fn is_bound(
    side: Side,
    level: usize,
    array: Name,
    row: usize,
    form: &Aff,
    first: usize,
    terms: &[Term],
) -> bool
    requires { first + length terms.now < 2 ^ 64 }
    ensures { result ≡ spec.is_bound side level array row form.now first terms.now }
{
    for place in 0..terms.len() {
        if is_bound_by(side, level, array, row, form, first + place, &terms[place]) {
            return true;
        }
    }
    false
}

/// Whether the forms are the level's bounds by the places at which the array says that a row's entries begin and end.
#[tactic(auto, unfolding(crate::specs::Bounds::are_entries))]
fn are_entries(
    first: usize,
    terms: &[Term],
    level: usize,
    array: Name,
    low: &Aff,
    high: &Aff,
    row: usize,
) -> bool
    requires { first + length terms.now < 2 ^ 64 }
    ensures { result ≡ spec.are_entries first terms.now level array low.now high.now row }
{
    is_bound(Side::Low, level, array, row, low, first, terms)
        && is_bound(Side::High, level, array, row, high, first, terms)
}

/// Whether that is so for one of so many levels before this one as the row. The levels are the variables from `params` on.
#[tactic(auto, unfolding(crate::specs::Bounds::have_row))]
fn have_row(
    params: usize,
    before: usize,
    first: usize,
    terms: &[Term],
    array: Name,
    low: &Aff,
    high: &Aff,
) -> bool
    requires level { params + before ≤ first }
    requires room { first + length terms.now < 2 ^ 64 }
    ensures { result ≡ spec.have_row params before first terms.now low.now high.now array }
{
    for place in 0..before {
        if are_entries(
            first,
            terms,
            params + before,
            array,
            low,
            high,
            params + place,
        ) {
            return true;
        }
    }
    false
}

/// The first of the matrices over whose rows' entries a level with these bounds goes, which has so many levels before it.
fn matrix_over(
    params: usize,
    before: usize,
    first: usize,
    terms: &[Term],
    low: &Aff,
    high: &Aff,
    matrices: &[Matrix],
) -> Option<Matrix>
    requires level { params + before ≤ first }
    requires room { first + length terms.now < 2 ^ 64 }
    ensures { result ≡ spec.matrix_over params before first terms.now low.now high.now matrices.now }
{
    for matrix in matrices {
        if have_row(params, before, first, terms, matrix.index, low, high) {
            return Some(*matrix);
        }
    }
    None
}

/// The forms of the bounds that were made for the level.
fn bounds_of(alloc: Global, level: usize, rows: &[KernelRow]) -> Result<List<Aff>, NoMemory>
    ensures { IfOk result (λ fs. fs ≡ spec.bounds_of level rows.now) }
{
    let mut bounds = List::new(alloc);
    for row in rows {
        if row.own == level {
            bounds.push(copy_form(alloc, &row.row.form)?)?;
        }
    }
    Ok(bounds)
}

/// The matrix over whose rows' entries a level with these bounds goes.
fn matrix_by(head: &Program, nest: &Nest, level: usize, bounds: &[Aff]) -> Option<Matrix>
    requires low { 1 ≤ level }
    requires high { level ≤ length nest.now.levels }
    ensures { result ≡ spec.matrix_by (length head.now.params) nest.now level head.now.matrices bounds.now }
{
    let params = head.params.as_slice().len();
    let first = params + nest.levels.as_slice().len();
    let terms = nest.terms.as_slice();
    let matrices = head.matrices.as_slice();
    match bounds {
        [low, high] => matrix_over(params, level - 1, first, terms, low, high, matrices),
        _ => None,
    }
}

/// The matrix over whose rows' entries the level goes: the bounds that were made for it are the places at which the entries
/// of a row begin and end, and that row is an earlier level.
pub fn matrix_of(
    alloc: Global,
    head: &Program,
    nest: &Nest,
    level: usize,
) -> Result<Option<Matrix>, NoMemory>
    requires low { 1 ≤ level }
    requires high { level ≤ length nest.now.levels }
    ensures { IfOk result (λ m. m ≡ spec.matrix_of head.now nest.now level) }
{
    let bounds = bounds_of(alloc, level, nest.rows.as_slice())?;
    Ok(matrix_by(head, nest, level, bounds.as_slice()))
}
