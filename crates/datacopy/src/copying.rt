// The statement that copies a box.
ghost use Rattle.std.specs.Prelude.{◌≡◌, ◌+◌, ◌<◌, ◌≤◌, length, nat_lt, IsTrue, IfOk};
ghost use Rattle.std.specs.List.{list_all};
ghost use Rattle.nest_core.specs.Shapes.{vars_of, is_term_over, is_access_over, IsShapedNest};
ghost use Rattle.datacopy.specs.Boxes.{is_side_over};
ghost use Rattle.datacopy.specs.Copied.{copying_positions, IsCopy};
ghost use Rattle.datacopy.specs.Narrow.{IsNarrow, new_vars, old_vars, terms_of, IsCopying};

use crate::extents::{count_of, extents_of};
use crate::narrow::{Narrow, narrow_form, narrow_of, vars};
use crate::rows::{above_base, copying_rows, dim_form};
use crate::side::Side;
use c_tree::How;
use chill_base::{List, Name, NoMemory, Stop};
use int_rows::Excess;
use nest_core::judge_form;
use nest_systems::zero_form;
use nest_tree::{Access, Body, Form, Kernel, KernelRow, Nest, Term};
use std::alloc::Global;

/// A term over the new variables.
fn narrow_term(alloc: Global, narrow: &Narrow, term: &Term) -> Result<Term, Stop<Excess>>
    requires narrow { IsNarrow narrow.now }
    requires term { IsTrue (is_term_over (old_vars narrow.now) term.now) }
    ensures { IfOk result (λ t. IsTrue (is_term_over (new_vars narrow.now) t)) }
{
    let mut at = List::new(alloc);
    for form in term.at.as_slice() {
        let form = narrow_form(alloc, narrow, form)?;
        at.push(judge_form(alloc, &form)?)?;
    }
    Ok(Term {
        array: term.array,
        at,
    })
}

/// A read of an array's first cell.
fn first_cell(alloc: Global, narrow: &Narrow, array: Name) -> Result<Term, NoMemory>
    requires narrow { IsNarrow narrow.now }
    ensures { IfOk result (λ t. IsTrue (is_term_over (new_vars narrow.now) t)) }
{
    let mut at = List::new(alloc);
    at.push(zero_form(alloc, vars(narrow))?)?;
    Ok(Term { array, at })
}

/// The needed terms over the new variables.
fn narrow_terms(alloc: Global, narrow: &Narrow, old: &[Term]) -> Result<List<Term>, Stop<Excess>>
    requires narrow { IsNarrow narrow.now }
    requires old { IsTrue (list_all (is_term_over (old_vars narrow.now)) old.now) }
    requires count { narrow.now.old_terms ≡ length old.now }
    ensures count { IfOk result (λ ts. length ts ≡ length narrow.now.terms) }
    ensures terms { IfOk result (λ ts. IsTrue (list_all (is_term_over (new_vars narrow.now)) ts)) }
{
    let mut terms = List::new(alloc);
    for place in narrow.terms.as_slice() {
        terms.push(narrow_term(alloc, narrow, &old[*place])?)?;
    }
    Ok(terms)
}

/// The terms of the copying statement.
fn copying_terms(alloc: Global, narrow: &Narrow, old: &[Term]) -> Result<List<Term>, Stop<Excess>>
    requires narrow { IsNarrow narrow.now }
    requires old { IsTrue (list_all (is_term_over (old_vars narrow.now)) old.now) }
    requires count { narrow.now.old_terms ≡ length old.now }
    ensures count { IfOk result (λ ts. length ts ≡ terms_of narrow.now) }
    ensures terms { IfOk result (λ ts. IsTrue (list_all (is_term_over (new_vars narrow.now)) ts)) }
{
    let mut terms = narrow_terms(alloc, narrow, old)?;
    match narrow.count {
        Some(count) => {
            terms.push(first_cell(alloc, narrow, count)?)?;
            Ok(terms)
        }
        None => Ok(terms),
    }
}

/// The cell of the copy: each dimension less the base.
fn copy_cell(
    alloc: Global,
    narrow: &Narrow,
    copy: Name,
    sides: &[Side],
) -> Result<Access, Stop<Excess>>
    requires narrow { IsNarrow narrow.now }
    requires sides { IsTrue (list_all (is_side_over (old_vars narrow.now)) sides.now) }
    requires dims { length sides.now ≡ narrow.now.dims }
    requires some { 1 ≤ length sides.now }
    requires few { length sides.now ≤ 3 }
    ensures array { IfOk result (λ a. a.array ≡ copy) }
    ensures over { IfOk result (λ a. IsTrue (is_access_over (new_vars narrow.now) a)) }
{
    let mut at = List::new(alloc);
    for dim in 0..sides.len() {
        at.push(above_base(alloc, narrow, &sides[dim], dim)?)?;
    }
    Ok(Access { array: copy, at })
}

/// The cell of the array: the dimensions.
fn array_cell(alloc: Global, narrow: &Narrow, array: Name) -> Result<Access, NoMemory>
    requires narrow { IsNarrow narrow.now }
    requires some { 1 ≤ narrow.now.dims }
    requires few { narrow.now.dims ≤ 3 }
    ensures array { IfOk result (λ a. a.array ≡ array) }
    ensures over { IfOk result (λ a. IsTrue (is_access_over (new_vars narrow.now) a)) }
{
    let mut at = List::new(alloc);
    for dim in 0..narrow.dims {
        at.push(dim_form(alloc, narrow, dim)?)?;
    }
    Ok(Access { array, at })
}

/// No level of a copying statement stands for anything of a matrix.
fn other_levels(alloc: Global, count: usize) -> Result<List<Form>, NoMemory>
    ensures { IfOk result (λ fs. length fs ≡ count) }
{
    let mut levels = List::new(alloc);
    for _ in 0..count {
        levels.push(Form::Other)?;
    }
    Ok(levels)
}

/// The positions of the copying statement: a loop of its own in the loop around that of the statement. No statement
/// of a kernel stands at a place that is the number of statements, since places are counted from 0.
fn positions_of(
    alloc: Global,
    outer: &[usize],
    statements: usize,
    dims: usize,
) -> Result<List<usize>, NoMemory>
    ensures { IfOk result (λ ps. ps ≡ copying_positions outer.now statements dims) }
{
    let mut positions = List::from_slice(alloc, outer)?;
    positions.push(statements)?;
    for _ in 0..dims {
        positions.push(0)?;
    }
    Ok(positions)
}

/// The cells of the copying statement: that of the copy, and that of the array.
fn copying_cells(
    alloc: Global,
    narrow: &Narrow,
    sides: &[Side],
    array: Name,
    copy: Name,
) -> Result<(Access, Access), Stop<Excess>>
    requires narrow { IsNarrow narrow.now }
    requires sides { IsTrue (list_all (is_side_over (old_vars narrow.now)) sides.now) }
    requires dims { length sides.now ≡ narrow.now.dims }
    requires some { 1 ≤ length sides.now }
    requires few { length sides.now ≤ 3 }
    ensures copy { IfOk result (λ p. p.0.array ≡ copy) }
    ensures array { IfOk result (λ p. p.1.array ≡ array) }
    ensures target { IfOk result (λ p. IsTrue (is_access_over (new_vars narrow.now) p.0)) }
    ensures value { IfOk result (λ p. IsTrue (is_access_over (new_vars narrow.now) p.1)) }
{
    let target = copy_cell(alloc, narrow, copy, sides)?;
    let value = array_cell(alloc, narrow, array)?;
    Ok((target, value))
}

/// A statement that sets one cell to another, in loops of its own.
fn copying_nest(
    alloc: Global,
    narrow: &Narrow,
    rows: List<KernelRow>,
    terms: List<Term>,
    cells: (Access, Access),
    positions: List<usize>,
) -> Result<Nest, NoMemory>
    requires { IsNarrow narrow.now }
    ensures { IfOk result (λ n. IsCopying narrow.now rows terms cells.0 cells.1 positions n) }
{
    let (target, value) = cells;
    Ok(Nest {
        levels: other_levels(alloc, narrow.outer + narrow.dims)?,
        positions,
        terms,
        rows,
        target,
        how: How::Write,
        value: Body::At(value),
        whole: None,
    })
}

/// The statement that copies a box of the array, which the statement reads while its levels from this place on vary.
pub fn copying_statement(
    alloc: Global,
    kernel: &Kernel,
    nest: &Nest,
    place: usize,
    sides: &[Side],
    array: Name,
    copy: Name,
) -> Result<Nest, Stop<Excess>>
    requires shaped { IsShapedNest kernel.now.head nest.now }
    requires place { place < length nest.now.levels }
    requires sides { IsTrue (list_all (is_side_over (vars_of (length kernel.now.head.params) nest.now)) sides.now) }
    requires some { 1 ≤ length sides.now }
    requires few { length sides.now ≤ 3 }
    requires depth { place + length sides.now ≤ 8 }
    ensures copies { IfOk result (λ n. IsCopy kernel.now nest.now place (length sides.now) array copy n) }
    ensures shaped { IfOk result (λ n. IsShapedNest kernel.now.head n) }
{
    let head = &kernel.head;
    let made = kernel.made.as_slice();
    let extents = extents_of(alloc, head, made, array, sides.len())?;
    let count = count_of(extents.as_slice());
    let narrow = narrow_of(alloc, head, nest, place, sides, count)?;
    let rows = copying_rows(alloc, head, made, nest, &narrow, sides, extents.as_slice())?;
    let terms = copying_terms(alloc, &narrow, nest.terms.as_slice())?;
    let cells = copying_cells(alloc, &narrow, sides, array, copy)?;
    let outer = &nest.positions.as_slice()[..place];
    let positions = positions_of(alloc, outer, kernel.nests.len(), sides.len())?;
    let copying = copying_nest(alloc, &narrow, rows, terms, cells, positions)?;
    Ok(copying)
}
