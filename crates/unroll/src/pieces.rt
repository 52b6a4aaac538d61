// The pieces of an unrolled statement.
ghost use Rattle.std.specs.Prelude.{◌≡◌, ◌≤◌, ◌<◌, ◌+◌, ◌^◌, pos, length, map, replicate, IfOk, IsTrue};
ghost use Rattle.std.specs.List.{list_all, range_with_len};
ghost use Rattle.nest_core.specs.Forms.{has_vars};
ghost use Rattle.nest_core.specs.Shapes.{vars_of, IsShapedNest};
ghost use Rattle.nest_tree.specs.declared.form.Form.TheVariants.{Other as OtherForm};
ghost use Rattle.affine_moves.specs.Change.{is_level, bound};
ghost use Rattle.unroll.specs.Bounds.{AreBounds};
ghost use Rattle.unroll.specs.Unrolled as spec;

use crate::bounds::{Bounds, copy_form, var_of};
use crate::group::{beyond, replaced, value_form};
use affine_moves::{padded, unit, wide};
use c_tree::Program;
use chill_base::{List, NoMemory};
use int_rows::{Aff, Row};
use nest_tree::{Form, KernelRow, Nest, Piece};
use std::alloc::Global;

/// A bound of a level.
fn bound(own: usize, form: Aff) -> KernelRow
    ensures { result ≡ bound own form }
{
    KernelRow {
        row: Row { equal: false, form },
        own,
    }
}

/// The new place of an old level, where so many levels are put in behind the unrolled one.
fn moved_place(level: usize, moved: usize, place: usize) -> usize
    requires moved { moved ≤ 1 }
    requires place { place < 8 }
    ensures value { result ≡ spec.moved_place level moved place }
    ensures within { result ≤ place + moved }
{
    if place < level { place } else { place + moved }
}

/// An old level as a form of the new variables: the unrolled one has its value.
#[tactic(auto, unfolding(crate::specs::Unrolled::old_form))]
fn old_form(
    alloc: Global,
    vars: usize,
    params: usize,
    level: usize,
    value: &Aff,
    moved: usize,
    place: usize,
) -> Result<Aff, NoMemory>
    requires moved { moved ≤ 1 }
    requires place { place < 8 }
    requires room { params + (place + moved) < vars }
    ensures { IfOk result (λ f. f ≡ spec.old_form vars params level value.now moved place) }
{
    if place + 1 == level {
        copy_form(alloc, value)
    } else {
        unit(alloc, vars, params + moved_place(level, moved, place))
    }
}

/// The old levels as forms of the new variables.
fn old_forms(
    alloc: Global,
    vars: usize,
    params: usize,
    level: usize,
    value: &Aff,
    moved: usize,
    depth: usize,
) -> Result<List<Aff>, NoMemory>
    requires moved { moved ≤ 1 }
    requires depth { depth ≤ 8 }
    requires room { params + (depth + moved) ≤ vars }
    ensures { IfOk result (λ fs. fs ≡ map (spec.old_form vars params level value.now moved) (range_with_len 0 depth)) }
{
    let mut forms = List::new(alloc);
    for place in 0..depth {
        forms.push(old_form(alloc, vars, params, level, value, moved, place)?)?;
    }
    Ok(forms)
}

/// So many levels that stand for nothing of a matrix.
fn other_levels(alloc: Global, count: usize) -> Result<List<Form>, NoMemory>
    ensures { IfOk result (λ fs. fs ≡ replicate count OtherForm) }
{
    let mut levels = List::new(alloc);
    for _ in 0..count {
        levels.push(Form::Other)?;
    }
    Ok(levels)
}

/// The upper rows with the level replaced by a value.
fn replaced_uppers(
    alloc: Global,
    own: usize,
    vars: usize,
    at: usize,
    value: &Aff,
    none: &[i128],
    uppers: &[Aff],
) -> Result<List<KernelRow>, NoMemory>
    requires level { at < vars }
    requires width { length value.now.coefs + 1 ≡ vars + length none.now }
    requires uppers { IsTrue (list_all (has_vars vars) uppers.now) }
    ensures { IfOk result (λ rows. rows ≡ spec.replaced_uppers own at value.now none.now uppers.now) }
{
    let mut rows = List::new(alloc);
    for upper in uppers {
        rows.push(bound(own, replaced(alloc, upper, at, value, none)?))?;
    }
    Ok(rows)
}

/// The rows of the full piece, of a statement with so many variables.
#[tactic(auto, unfolding(crate::specs::Unrolled::full_rows))]
fn full_rows(
    alloc: Global,
    vars: usize,
    level: usize,
    at: usize,
    factor: u32,
    bounds: &Bounds,
) -> Result<List<KernelRow>, NoMemory>
    requires level { at < vars }
    requires lower { IsTrue (has_vars vars bounds.now.lower) }
    requires uppers { IsTrue (list_all (has_vars vars) bounds.now.uppers) }
    ensures { IfOk result (λ rows. rows ≡ spec.full_rows vars level at (pos factor) bounds.now) }
{
    let last = value_form(alloc, &bounds.lower, at, &[wide(factor)], wide(factor) - 1)?;
    let mut rows = List::new(alloc);
    rows.push(bound(level, unit(alloc, vars, at)?))?;
    let uppers = bounds.uppers.as_slice();
    rows.append(replaced_uppers(alloc, level, vars, at, &last, &[0], uppers)?)?;
    Ok(rows)
}

/// A piece that has a value in the place of the level, and so many levels more.
#[tactic(auto, unfolding(crate::specs::Unrolled::piece_by))]
fn piece_by(
    alloc: Global,
    head: &Program,
    level: usize,
    more: usize,
    nest: &Nest,
    bounds: &Bounds,
    value: &Aff,
    rows: List<KernelRow>,
    positions: List<usize>,
) -> Result<Piece, NoMemory>
    requires shaped { IsShapedNest head.now nest.now }
    requires more { more ≤ 1 }
    ensures { IfOk result (λ p. p ≡ spec.piece_by (length head.now.params) level more nest.now bounds.now value.now rows positions) }
{
    let params = head.params.as_slice().len();
    let depth = nest.levels.len();
    let vars = params + (depth + more) + nest.terms.as_slice().len();
    Ok(Piece {
        drops: List::from_slice(alloc, bounds.places.as_slice())?,
        terms: List::new(alloc),
        rows,
        old: old_forms(alloc, vars, params, level, value, more, depth)?,
        levels: other_levels(alloc, depth + more)?,
        positions,
    })
}

/// A copy of a statement in the full loop.
#[tactic(auto, unfolding(crate::specs::Unrolled::full_piece))]
pub fn full_piece(
    alloc: Global,
    head: &Program,
    level: usize,
    factor: u32,
    copy: u32,
    nest: &Nest,
    bounds: &Bounds,
    positions: List<usize>,
) -> Result<Piece, NoMemory>
    requires shaped { IsShapedNest head.now nest.now }
    requires level { IsTrue (is_level (length nest.now.levels) level) }
    requires bounds { AreBounds (length head.now.params) nest.now bounds.now }
    ensures { IfOk result (λ p. p ≡ spec.full_piece (length head.now.params) level factor copy nest.now bounds.now positions) }
{
    let at = var_of(head, level);
    let vars = head.params.as_slice().len() + nest.levels.len() + nest.terms.as_slice().len();
    let value = value_form(alloc, &bounds.lower, at, &[wide(factor)], wide(copy))?;
    let rows = full_rows(alloc, vars, level, at, factor, bounds)?;
    piece_by(alloc, head, level, 0, nest, bounds, &value, rows, positions)
}

/// The rows by which groups and the places in them are counted: `q >= 0`, `r >= 0` and `r <= factor-1`.
#[tactic(auto, unfolding(crate::specs::Unrolled::group_rows))]
fn group_rows(
    alloc: Global,
    vars: usize,
    level: usize,
    at: usize,
    factor: u32,
) -> Result<List<KernelRow>, NoMemory>
    requires level { level ≤ 8 }
    requires room { at + 1 < vars }
    ensures { IfOk result (λ rows. rows ≡ spec.group_rows vars level at (pos factor)) }
{
    let end = Aff {
        coefs: padded(alloc, vars, at + 1, &[-1])?,
        constant: wide(factor) - 1,
    };
    let mut rows = List::new(alloc);
    rows.push(bound(level, unit(alloc, vars, at)?))?;
    rows.push(bound(level + 1, unit(alloc, vars, at + 1)?))?;
    rows.push(bound(level + 1, end))?;
    Ok(rows)
}

/// The rows that say of the group's last value that it meets the earlier upper rows, and not this one.
#[tactic(auto, unfolding(crate::specs::Unrolled::last_rows))]
fn last_rows(
    alloc: Global,
    vars: usize,
    level: usize,
    at: usize,
    last: &Aff,
    earlier: &[Aff],
    upper: &Aff,
) -> Result<List<KernelRow>, NoMemory>
    requires level { at < vars }
    requires width { length last.now.coefs ≡ vars + 1 }
    requires earlier { IsTrue (list_all (has_vars vars) earlier.now) }
    requires upper { IsTrue (has_vars vars upper.now) }
    ensures { IfOk result (λ rows. rows ≡ spec.last_rows level at last.now earlier.now upper.now) }
{
    let mut rows = replaced_uppers(alloc, level, vars, at, last, &[0, 0], earlier)?;
    let met = replaced(alloc, upper, at, last, &[0, 0])?;
    rows.push(bound(level, beyond(alloc, &met)?))?;
    Ok(rows)
}

/// The rows of the rest of an upper row, of a statement with so many variables.
#[tactic(auto, unfolding(crate::specs::Unrolled::rest_rows))]
fn rest_rows(
    alloc: Global,
    vars: usize,
    level: usize,
    at: usize,
    factor: u32,
    bounds: &Bounds,
    earlier: &[Aff],
    upper: &Aff,
    value: &Aff,
) -> Result<List<KernelRow>, NoMemory>
    requires level { level ≤ 8 }
    requires within { at < vars }
    requires room { vars + 1 < 2 ^ 64 }
    requires lower { IsTrue (has_vars vars bounds.now.lower) }
    requires uppers { IsTrue (list_all (has_vars vars) bounds.now.uppers) }
    requires earlier { IsTrue (list_all (has_vars vars) earlier.now) }
    requires upper { IsTrue (has_vars vars upper.now) }
    requires value { length value.now.coefs ≡ vars + 1 }
    ensures { IfOk result (λ rows. rows ≡ spec.rest_rows (vars + 1) level at (pos factor) bounds.now earlier.now upper.now value.now) }
{
    let last = value_form(
        alloc,
        &bounds.lower,
        at,
        &[wide(factor), 0],
        wide(factor) - 1,
    )?;
    let mut rows = group_rows(alloc, vars + 1, level, at, factor)?;
    rows.append(last_rows(alloc, vars, level, at, &last, earlier, upper)?)?;
    let uppers = bounds.uppers.as_slice();
    rows.append(replaced_uppers(alloc, level + 1, vars, at, value, &[0, 0], uppers)?)?;
    Ok(rows)
}

/// A statement in the loop of the rest of an upper row: the groups whose last value meets the earlier ones, and not this.
#[tactic(auto, unfolding(crate::specs::Unrolled::rest_piece))]
pub fn rest_piece(
    alloc: Global,
    head: &Program,
    level: usize,
    factor: u32,
    nest: &Nest,
    bounds: &Bounds,
    earlier: &[Aff],
    upper: &Aff,
    positions: List<usize>,
) -> Result<Piece, NoMemory>
    requires shaped { IsShapedNest head.now nest.now }
    requires level { IsTrue (is_level (length nest.now.levels) level) }
    requires bounds { AreBounds (length head.now.params) nest.now bounds.now }
    requires earlier { IsTrue (list_all (has_vars (vars_of (length head.now.params) nest.now)) earlier.now) }
    requires upper { IsTrue (has_vars (vars_of (length head.now.params) nest.now) upper.now) }
    ensures { IfOk result (λ p. p ≡ spec.rest_piece (length head.now.params) level factor nest.now bounds.now earlier.now upper.now positions) }
{
    let at = var_of(head, level);
    let vars = head.params.as_slice().len() + nest.levels.len() + nest.terms.as_slice().len();
    let value = value_form(alloc, &bounds.lower, at, &[wide(factor), 1], 0)?;
    let rows = rest_rows(
        alloc, vars, level, at, factor, bounds, earlier, upper, &value,
    )?;
    piece_by(alloc, head, level, 1, nest, bounds, &value, rows, positions)
}
