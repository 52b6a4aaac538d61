// The rows of a statement that copies a box.
ghost use Rattle.std.specs.Prelude.{◌≡◌, ◌+◌, ◌<◌, ◌≤◌, length, IsTrue, IfOk, OnOk};
ghost use Rattle.std.specs.List.{list_all};
ghost use Rattle.nest_core.specs.Forms.{has_vars};
ghost use Rattle.nest_core.specs.Shapes.{vars_of, is_row_over, IsShapedNest};
ghost use Rattle.datacopy.specs.Boxes.{is_side_over};
ghost use Rattle.datacopy.specs.Extents.{is_extent_over};
ghost use Rattle.datacopy.specs.Narrow.{IsNarrow, AreRows, new_vars, old_vars, depth_of, further as further_of};

use crate::extents::Extent;
use crate::levels::last_named;
use crate::narrow::{Narrow, dim_var, is_outer, narrow_form, vars, widened_form};
use crate::reads::is_name;
use crate::side::Side;
use crate::sums::{difference, sum};
use c_tree::Program;
use chill_base::{List, Name, NoMemory, Stop};
use int_rows::{Aff, Excess, Row};
use nest_core::judge_form;
use nest_systems::{is_direct, project_nest, zero_form};
use nest_tree::{KernelRow, Made, Nest};
use std::alloc::Global;

/// The number of a new form at a variable, where it is within the limit.
pub fn judged(number: Option<i128>, var: usize) -> Result<i128, Stop<Excess>> {
    match number {
        Some(number) => Ok(number),
        None => Err(Stop::Refused(Excess::Large { var })),
    }
}

/// Appends a bound.
fn push_bound(
    narrow: &Narrow,
    rows: &mut List<KernelRow>,
    form: Aff,
    own: usize,
) -> Result<(), NoMemory>
    requires rows { AreRows narrow.now rows.old }
    requires width { IsTrue (has_vars (new_vars narrow.now) form) }
    requires own { own ≤ depth_of narrow.now }
    ensures { OnOk result (AreRows narrow.now rows.new) }
{
    rows.push(KernelRow {
        row: Row { equal: false, form },
        own,
    })?;
    Ok(())
}

/// The own level of a row that outer levels keep.
fn outer_own(head: &Program, nest: &Nest, place: usize, row: &KernelRow) -> usize
    requires shaped { IsShapedNest head.now nest.now }
    requires row { IsTrue (is_row_over (vars_of (length head.now.params) nest.now) (length nest.now.levels) row.now) }
    requires place { place ≤ length nest.now.levels }
    ensures within { result ≤ place }
    ensures guard { row.now.own ≡ 0 → result ≡ 0 }
{
    if row.own <= place {
        row.own
    } else {
        last_named(head, nest, place, &row.row.form)
    }
}

/// A row on outer levels over the new variables.
fn outer_row(
    alloc: Global,
    head: &Program,
    nest: &Nest,
    narrow: &Narrow,
    row: &KernelRow,
) -> Result<KernelRow, Stop<Excess>>
    requires shaped { IsShapedNest head.now nest.now }
    requires narrow { IsNarrow narrow.now }
    requires width { old_vars narrow.now ≡ vars_of (length head.now.params) nest.now }
    requires outer { narrow.now.outer ≤ length nest.now.levels }
    requires row { IsTrue (is_row_over (vars_of (length head.now.params) nest.now) (length nest.now.levels) row.now) }
    ensures { IfOk result (λ r. IsTrue (is_row_over (new_vars narrow.now) (depth_of narrow.now) r)) }
{
    let form = narrow_form(alloc, narrow, &row.row.form)?;
    Ok(KernelRow {
        row: Row {
            equal: row.row.equal,
            form: judge_form(alloc, &form)?,
        },
        own: outer_own(head, nest, narrow.outer, row),
    })
}

/// The rows on outer levels.
fn outer_rows(
    alloc: Global,
    head: &Program,
    nest: &Nest,
    narrow: &Narrow,
) -> Result<List<KernelRow>, Stop<Excess>>
    requires shaped { IsShapedNest head.now nest.now }
    requires narrow { IsNarrow narrow.now }
    requires width { old_vars narrow.now ≡ vars_of (length head.now.params) nest.now }
    requires outer { narrow.now.outer ≤ length nest.now.levels }
    ensures { IfOk result (λ rows. AreRows narrow.now rows) }
{
    let mut rows = List::new(alloc);
    for row in nest.rows.as_slice() {
        if is_outer(head, nest, narrow.outer, row) {
            rows.push(outer_row(alloc, head, nest, narrow, row)?)?;
        }
    }
    Ok(rows)
}

/// Whether the row bounds the level, which counts from 1, on this side, and what it says is known when the loop begins.
fn closes(head: &Program, nest: &Nest, level: usize, below: bool, row: &KernelRow) -> bool
    requires shaped { IsShapedNest head.now nest.now }
    requires row { IsTrue (is_row_over (vars_of (length head.now.params) nest.now) (length nest.now.levels) row.now) }
    requires low { 1 ≤ level }
    requires high { level ≤ length nest.now.levels }
{
    let params = head.params.len();
    let levels = nest.levels.len();
    let coefs = row.row.form.coefs.as_slice();
    let own = params + (level - 1);
    let coef = coefs[own];
    if !is_direct(params, levels, nest.terms.as_slice(), level, row) {
        return false;
    }
    if below { coef > 0 } else { coef < 0 }
}

/// Whether the statement has a direct row of this side at the level.
fn is_closed(head: &Program, nest: &Nest, level: usize, below: bool) -> bool
    requires shaped { IsShapedNest head.now nest.now }
    requires low { 1 ≤ level }
    requires high { level ≤ length nest.now.levels }
{
    for row in nest.rows.as_slice() {
        if closes(head, nest, level, below, row) {
            return true;
        }
    }
    false
}

/// Whether the statement lacks a direct row at the level that bounds it below, or one that bounds it above.
fn is_open(head: &Program, nest: &Nest, level: usize) -> bool
    requires shaped { IsShapedNest head.now nest.now }
    requires low { 1 ≤ level }
    requires high { level ≤ length nest.now.levels }
{
    !is_closed(head, nest, level, true) || !is_closed(head, nest, level, false)
}

/// The form with its numbers negated.
fn negated(alloc: Global, form: &Aff) -> Result<Aff, Stop<Excess>>
    ensures { IfOk result (λ f. length f.coefs ≡ length form.now.coefs) }
{
    let old = form.coefs.as_slice();
    let mut coefs = List::new(alloc);
    for var in 0..old.len() {
        coefs.push(judged(difference(0, old[var]), var)?)?;
    }
    let constant = judged(difference(0, form.constant), old.len())?;
    Ok(Aff { coefs, constant })
}

/// Appends a projected row as bounds of the level. It names outer levels alone, and no term.
fn push_projected(
    alloc: Global,
    narrow: &Narrow,
    rows: &mut List<KernelRow>,
    row: &Row,
    level: usize,
) -> Result<(), Stop<Excess>>
    requires narrow { IsNarrow narrow.now }
    requires rows { AreRows narrow.now rows.old }
    requires known { narrow.now.params + narrow.now.outer ≤ length row.now.form.coefs }
    requires level { level ≤ depth_of narrow.now }
    ensures { OnOk result (AreRows narrow.now rows.new) }
{
    let form = widened_form(alloc, narrow, &row.form, narrow.params + narrow.outer)?;
    if row.equal {
        let other = negated(alloc, &form)?;
        push_bound(narrow, rows, form, level)?;
        push_bound(narrow, rows, other, level)?;
    } else {
        push_bound(narrow, rows, form, level)?;
    }
    Ok(())
}

/// Appends the rows that bound a level in the statement's own system.
fn push_projection(
    alloc: Global,
    head: &Program,
    made: &[Made],
    nest: &Nest,
    narrow: &Narrow,
    rows: &mut List<KernelRow>,
    level: usize,
) -> Result<(), Stop<Excess>>
    requires shaped { IsShapedNest head.now nest.now }
    requires outer { narrow.now.outer ≤ length nest.now.levels }
    requires params { narrow.now.params ≡ length head.now.params }
    requires narrow { IsNarrow narrow.now }
    requires rows { AreRows narrow.now rows.old }
    requires low { 1 ≤ level }
    requires high { level ≤ narrow.now.outer }
    ensures { OnOk result (AreRows narrow.now rows.new) }
{
    let left = project_nest(alloc, head, made, nest, level, true)?;
    for row in left.rows.as_slice() {
        push_projected(alloc, narrow, rows, &row.row, level)?;
    }
    Ok(())
}

/// Appends the rows that bound the levels which are open at a side.
fn push_open_rows(
    alloc: Global,
    head: &Program,
    made: &[Made],
    nest: &Nest,
    narrow: &Narrow,
    rows: &mut List<KernelRow>,
) -> Result<(), Stop<Excess>>
    requires shaped { IsShapedNest head.now nest.now }
    requires outer { narrow.now.outer ≤ length nest.now.levels }
    requires params { narrow.now.params ≡ length head.now.params }
    requires narrow { IsNarrow narrow.now }
    requires rows { AreRows narrow.now rows.old }
    ensures { OnOk result (AreRows narrow.now rows.new) }
{
    for place in 0..narrow.outer {
        let level = place + 1;
        if is_open(head, nest, level) {
            push_projection(alloc, head, made, nest, narrow, rows, level)?;
        }
    }
    Ok(())
}

/// The variable of a dimension less the base.
pub fn above_base(
    alloc: Global,
    narrow: &Narrow,
    side: &Side,
    dim: usize,
) -> Result<Aff, Stop<Excess>>
    requires narrow { IsNarrow narrow.now }
    requires side { IsTrue (is_side_over (old_vars narrow.now) side.now) }
    requires dim { dim < narrow.now.dims }
    ensures { IfOk result (λ f. IsTrue (has_vars (new_vars narrow.now) f)) }
{
    let base = narrow_form(alloc, narrow, &side.base)?;
    let mut form = negated(alloc, &base)?;
    form.coefs.set(dim_var(narrow, dim), 1);
    Ok(form)
}

/// The greatest subscript less the variable of a dimension.
fn below_end(alloc: Global, narrow: &Narrow, side: &Side, dim: usize) -> Result<Aff, Stop<Excess>>
    requires narrow { IsNarrow narrow.now }
    requires side { IsTrue (is_side_over (old_vars narrow.now) side.now) }
    requires dim { dim < narrow.now.dims }
    ensures { IfOk result (λ f. IsTrue (has_vars (new_vars narrow.now) f)) }
{
    let mut form = narrow_form(alloc, narrow, &side.base)?;
    form.coefs.set(dim_var(narrow, dim), -1);
    form.constant = judged(sum(form.constant, side.width), form.coefs.len())?;
    Ok(form)
}

/// The variable of a dimension.
pub fn dim_form(alloc: Global, narrow: &Narrow, dim: usize) -> Result<Aff, NoMemory>
    requires narrow { IsNarrow narrow.now }
    requires dim { dim < narrow.now.dims }
    ensures { IfOk result (λ f. IsTrue (has_vars (new_vars narrow.now) f)) }
{
    let mut form = zero_form(alloc, vars(narrow))?;
    form.coefs.set(dim_var(narrow, dim), 1);
    Ok(form)
}

/// The array's extent less 1 and the variable of a dimension.
fn below_extent(
    alloc: Global,
    narrow: &Narrow,
    extent: &Extent,
    dim: usize,
) -> Result<Aff, Stop<Excess>>
    requires narrow { IsNarrow narrow.now }
    requires extent { length extent.now.form.coefs ≡ narrow.now.params }
    requires dim { dim < narrow.now.dims }
    ensures { IfOk result (λ f. IsTrue (has_vars (new_vars narrow.now) f)) }
{
    let mut form = widened_form(alloc, narrow, &extent.form, narrow.params)?;
    form.coefs.set(dim_var(narrow, dim), -1);
    if is_counted(narrow.count, extent.count) {
        form.coefs.set(vars(narrow) - 1, 1);
    }
    form.constant = judged(difference(form.constant, 1), form.coefs.len())?;
    Ok(form)
}

/// Whether the extent is the first cell of the array that the further term reads.
fn is_counted(further: Option<Name>, count: Option<Name>) -> bool
    ensures { IsTrue result → 1 ≤ further_of further }
{
    match (further, count) {
        (Some(name), Some(other)) => is_name(name, other),
        _ => false,
    }
}

/// Appends the rows by which a dimension is in the box.
fn push_box_rows(
    alloc: Global,
    narrow: &Narrow,
    rows: &mut List<KernelRow>,
    side: &Side,
    dim: usize,
) -> Result<(), Stop<Excess>>
    requires narrow { IsNarrow narrow.now }
    requires rows { AreRows narrow.now rows.old }
    requires side { IsTrue (is_side_over (old_vars narrow.now) side.now) }
    requires dim { dim < narrow.now.dims }
    ensures { OnOk result (AreRows narrow.now rows.new) }
{
    let own = narrow.outer + dim + 1;
    let low = above_base(alloc, narrow, side, dim)?;
    push_bound(narrow, rows, low, own)?;
    let high = below_end(alloc, narrow, side, dim)?;
    push_bound(narrow, rows, high, own)?;
    Ok(())
}

/// Appends the rows by which a dimension is inside the array.
fn push_array_rows(
    alloc: Global,
    narrow: &Narrow,
    rows: &mut List<KernelRow>,
    extent: &Option<Extent>,
    dim: usize,
) -> Result<(), Stop<Excess>>
    requires narrow { IsNarrow narrow.now }
    requires rows { AreRows narrow.now rows.old }
    requires extent { IsTrue (is_extent_over narrow.now.params extent.now) }
    requires dim { dim < narrow.now.dims }
    ensures { OnOk result (AreRows narrow.now rows.new) }
{
    let own = narrow.outer + dim + 1;
    let first = dim_form(alloc, narrow, dim)?;
    push_bound(narrow, rows, first, own)?;
    if let Some(extent) = extent {
        let last = below_extent(alloc, narrow, extent, dim)?;
        push_bound(narrow, rows, last, own)?;
    }
    Ok(())
}

/// The rows of the copying statement.
pub fn copying_rows(
    alloc: Global,
    head: &Program,
    made: &[Made],
    nest: &Nest,
    narrow: &Narrow,
    sides: &[Side],
    extents: &[Option<Extent>],
) -> Result<List<KernelRow>, Stop<Excess>>
    requires shaped { IsShapedNest head.now nest.now }
    requires narrow { IsNarrow narrow.now }
    requires params { narrow.now.params ≡ length head.now.params }
    requires width { old_vars narrow.now ≡ vars_of (length head.now.params) nest.now }
    requires outer { narrow.now.outer ≤ length nest.now.levels }
    requires sides { IsTrue (list_all (is_side_over (old_vars narrow.now)) sides.now) }
    requires over { IsTrue (list_all (is_extent_over narrow.now.params) extents.now) }
    requires dims { length sides.now ≡ narrow.now.dims }
    requires extents { length extents.now ≡ narrow.now.dims }
    ensures { IfOk result (λ rows. AreRows narrow.now rows) }
{
    let mut rows = outer_rows(alloc, head, nest, narrow)?;
    push_open_rows(alloc, head, made, nest, narrow, &mut rows)?;
    for dim in 0..sides.len() {
        push_box_rows(alloc, narrow, &mut rows, &sides[dim], dim)?;
        push_array_rows(alloc, narrow, &mut rows, &extents[dim], dim)?;
    }
    Ok(rows)
}
