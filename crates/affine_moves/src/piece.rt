// The piece that a change makes of a statement.
ghost use Rattle.std.specs.Prelude.{false, ◌≡◌, ◌≤◌, ◌<◌, ◌+◌, ◌++◌, ◌∷◌, ◌-◌, ◌^◌, take, drop, map, length, IsTrue, IfOk, OnOk, slice_set};
ghost use Rattle.std.specs.List.{list_all, range_with_len};
ghost use Rattle.nest_core.specs.Shapes.{IsShapedNest};
ghost use Rattle.affine_moves.specs.Levels.{form_at};
ghost use Rattle.affine_moves.specs.Change.{is_level, suits, new_depth, old_at, tile_rows, new_rows, new_levels, new_positions, piece_of};

use crate::change::Change;
use crate::form::{of_two, old_forms};
use crate::levels::{form_at, shifted_form, skewed_form, tiled_form, wide};
use c_tree::Program;
use chill_base::{List, NoMemory};
use int_rows::{Aff, Row};
use nest_tree::{Form, KernelRow, Nest, Piece};
use std::alloc::Global;

/// A bound of a level.
fn bound(own: usize, form: Aff) -> KernelRow
    ensures { result ≡ record { row = record { equal = false; form = form }; own = own } }
{
    KernelRow {
        row: Row { equal: false, form },
        own,
    }
}

/// The rows that keep the values of a tiled level within its tile.
#[tactic(auto, unfolding(crate::specs::Change::tile_rows))]
fn tile_rows(
    alloc: Global,
    vars: usize,
    params: usize,
    level: usize,
    size: u32,
    outer: usize,
) -> Result<List<KernelRow>, NoMemory>
    requires outer { 1 ≤ outer }
    requires order { outer ≤ level }
    requires room { params + level < vars }
    ensures { IfOk result (λ rows. rows ≡ tile_rows vars params level size outer) }
{
    let size = wide(size);
    let tile = params + (outer - 1);
    let low = of_two(alloc, vars, tile, -size, params + level, 1, 0)?;
    let high = of_two(alloc, vars, tile, size, params + level, -1, size - 1)?;
    let mut rows = List::new(alloc);
    rows.push(bound(level + 1, low))?;
    rows.push(bound(level + 1, high))?;
    Ok(rows)
}

/// The rows that a change adds.
#[tactic(auto, unfolding(crate::specs::Change::new_rows))]
fn new_rows(
    alloc: Global,
    vars: usize,
    params: usize,
    depth: usize,
    change: &Change,
) -> Result<List<KernelRow>, NoMemory>
    requires suits { IsTrue (suits depth change.now) }
    requires room { params + new_depth change.now depth ≤ vars }
    ensures { IfOk result (λ rows. rows ≡ new_rows vars params change.now) }
{
    match change {
        Change::Tile { level, size, outer } => {
            tile_rows(alloc, vars, params, *level, *size, *outer)
        }
        Change::Stay => Ok(List::new(alloc)),
        Change::Order(_) => Ok(List::new(alloc)),
        Change::Skew { .. } => Ok(List::new(alloc)),
        Change::Shift { .. } => Ok(List::new(alloc)),
    }
}

/// The old level at a new place of an order.
#[tactic(auto, unfolding(crate::specs::Change::old_at))]
fn old_at(depth: usize, order: &[usize], place: usize) -> usize
    requires order { IsTrue (list_all (is_level depth) order.now) }
    requires within { place < depth }
    ensures value { result ≡ old_at order.now place }
    ensures low { 1 ≤ result }
    ensures high { result ≤ depth }
{
    if place < order.len() {
        order[place]
    } else {
        place + 1
    }
}

/// What the levels stand for in a new order.
fn ordered_levels(alloc: Global, levels: &[Form], order: &[usize]) -> Result<List<Form>, NoMemory>
    requires order { IsTrue (list_all (is_level (length levels.now)) order.now) }
    ensures { IfOk result (λ fs. fs ≡ map (λ t. form_at levels.now (old_at order.now t)) (range_with_len 0 (length levels.now))) }
{
    let mut forms = List::new(alloc);
    for place in 0..levels.len() {
        forms.push(form_at(levels, old_at(levels.len(), order, place)))?;
    }
    Ok(forms)
}

/// A list with one item put in at a place.
fn put_in<T: Copy + Drop>(
    alloc: Global,
    items: &[T],
    place: usize,
    item: T,
) -> Result<List<T>, NoMemory>
    requires { place ≤ length items.now }
    ensures { IfOk result (λ xs. xs ≡ take place items.now ++ item ∷ drop place items.now) }
{
    let mut new = List::from_slice(alloc, &items[..place])?;
    new.push(item)?;
    new.append(List::from_slice(alloc, &items[place..])?)?;
    Ok(new)
}

/// The levels with another form at one of them.
fn with_form(
    alloc: Global,
    levels: &[Form],
    level: usize,
    form: Form,
) -> Result<List<Form>, NoMemory>
    requires low { 1 ≤ level }
    requires high { level ≤ length levels.now }
    ensures { IfOk result (λ fs. fs ≡ slice_set levels.now (level - 1) form) }
{
    let mut new = List::from_slice(alloc, levels)?;
    new.set(level - 1, form);
    Ok(new)
}

/// What the levels stand for after a change.
#[tactic(auto, unfolding(crate::specs::Change::new_levels))]
fn new_levels(alloc: Global, levels: &[Form], change: &Change) -> Result<List<Form>, NoMemory>
    requires suits { IsTrue (suits (length levels.now) change.now) }
    requires depth { length levels.now ≤ 8 }
    ensures { IfOk result (λ fs. fs ≡ new_levels levels.now change.now) }
{
    match change {
        Change::Stay => Ok(List::from_slice(alloc, levels)?),
        Change::Order(order) => ordered_levels(alloc, levels, order.as_slice()),
        Change::Tile { level, size, outer } => {
            let tile = tiled_form(*size, form_at(levels, *level));
            put_in(alloc, levels, *outer - 1, tile)
        }
        Change::Skew { level, coefs } => {
            let form = skewed_form(form_at(levels, *level), coefs.as_slice(), levels);
            with_form(alloc, levels, *level, form)
        }
        Change::Shift { level, amount } => {
            let form = shifted_form(*amount, form_at(levels, *level));
            with_form(alloc, levels, *level, form)
        }
    }
}

/// The positions after a change: a tile's loop has one child.
#[tactic(auto, unfolding(crate::specs::Change::new_positions))]
fn new_positions(
    alloc: Global,
    positions: &[usize],
    change: &Change,
    depth: usize,
) -> Result<List<usize>, NoMemory>
    requires suits { IsTrue (suits depth change.now) }
    requires count { length positions.now ≡ depth + 1 }
    ensures { IfOk result (λ ps. ps ≡ new_positions positions.now change.now) }
{
    match change {
        Change::Tile { outer, .. } => put_in(alloc, positions, *outer, 0),
        Change::Stay => Ok(List::from_slice(alloc, positions)?),
        Change::Order(_) => Ok(List::from_slice(alloc, positions)?),
        Change::Skew { .. } => Ok(List::from_slice(alloc, positions)?),
        Change::Shift { .. } => Ok(List::from_slice(alloc, positions)?),
    }
}

/// How many levels there are after a change.
fn new_depth(change: &Change, depth: usize) -> usize
    requires { depth ≤ 8 }
    ensures value { result ≡ new_depth change.now depth }
    ensures small { result ≤ 9 }
{
    match change {
        Change::Tile { .. } => depth + 1,
        Change::Stay => depth,
        Change::Order(_) => depth,
        Change::Skew { .. } => depth,
        Change::Shift { .. } => depth,
    }
}

/// The piece that a change makes of a statement.
#[tactic(auto, unfolding(crate::specs::Change::piece_of))]
pub fn piece_of(
    alloc: Global,
    head: &Program,
    change: &Change,
    nest: &Nest,
) -> Result<Piece, NoMemory>
    requires shaped { IsShapedNest head.now nest.now }
    requires suits { IsTrue (suits (length nest.now.levels) change.now) }
    ensures { IfOk result (λ p. p ≡ piece_of (length head.now.params) change.now nest.now) }
{
    let params = head.params.as_slice().len();
    let depth = nest.levels.len();
    let vars = params + new_depth(change, depth) + nest.terms.as_slice().len();
    Ok(Piece {
        drops: List::new(alloc),
        terms: List::new(alloc),
        rows: new_rows(alloc, vars, params, depth, change)?,
        old: old_forms(alloc, vars, params, change, depth)?,
        levels: new_levels(alloc, nest.levels.as_slice(), change)?,
        positions: new_positions(alloc, nest.positions.as_slice(), change, depth)?,
    })
}
