// `distribute`: a loop becomes two.
ghost use Rattle.std.specs.Prelude.{◌≡◌, ◌≤◌, ◌<◌, suc, take, slice_get, slice_index_or, length, IfOk, IsTrue, Some};
ghost use Rattle.std.specs.List.{list_any, AllByRecursion};
ghost use Rattle.nest_core.specs.Making.{Gives};
ghost use Rattle.nest_core.specs.Order.{HasPositions, shares_loop};
ghost use Rattle.nest_core.specs.Shapes.{IsShapedNest, IsShaped, Fits};
ghost use Rattle.affine_moves.specs.Change.{is_level};
ghost use Rattle.affine_moves.specs.Placed.{are_small, ArePlaced};
ghost use Rattle.fuse_distribute.specs.Distributing.{is_behind, moves_on, one_further, split_positions, split_each, distribute_shape, distribute_at, distribute_moves};

use crate::moving::move_to;
use crate::shapes::loop_of;
use affine_moves::{child_at, child_in, is_level, sharers};
use chill_base::{List, NoMemory, Stop};
use nest_core::shares_loop;
use nest_tree::{Kernel, Moves, Nest, ShapeWhy};
use std::alloc::Global;

/// Whether the other statement stands behind this one's loop at the level, in the loops that are around it.
fn is_behind(level: usize, nest: &Nest, other: &Nest) -> bool
    requires level { IsTrue (is_level (length nest.now.levels) level) }
    requires positions { length nest.now.positions ≡ suc (length nest.now.levels) }
    requires small { IsTrue (are_small nest.now.positions) }
    requires other { 0 < length other.now.positions }
    requires other_small { IsTrue (are_small other.now.positions) }
    ensures { result ≡ is_behind level nest.now other.now }
{
    shares_loop(level - 1, nest, other) && loop_of(level, nest) < child_in(level - 1, nest, other)
}

/// Whether the other statement, which has a number of its own, moves one child on.
fn moves_on(level: usize, statement: usize, nest: &Nest, number: usize, other: &Nest) -> bool
    requires level { IsTrue (is_level (length nest.now.levels) level) }
    requires positions { length nest.now.positions ≡ suc (length nest.now.levels) }
    requires small { IsTrue (are_small nest.now.positions) }
    requires other { 0 < length other.now.positions }
    requires other_small { IsTrue (are_small other.now.positions) }
    ensures { result ≡ moves_on level statement nest.now number other.now }
{
    if shares_loop(level, nest, other) {
        statement <= number
    } else {
        is_behind(level, nest, other)
    }
}

/// The positions one child further at a level.
#[tactic(auto, unfolding(crate::specs::Distributing::one_further))]
fn one_further(alloc: Global, level: usize, positions: &[usize]) -> Result<List<usize>, NoMemory>
    requires level { 1 ≤ level }
    requires within { level ≤ length positions.now }
    requires small { IsTrue (are_small positions.now) }
    ensures { IfOk result (λ ps. ps ≡ one_further level positions.now) }
{
    let mut new = List::from_slice(alloc, positions)?;
    new.set(level - 1, child_at(positions, level - 1) + 1);
    Ok(new)
}

/// The positions of a statement.
fn split_positions(
    alloc: Global,
    level: usize,
    statement: usize,
    nest: &Nest,
    number: usize,
    other: &Nest,
) -> Result<List<usize>, NoMemory>
    requires level { IsTrue (is_level (length nest.now.levels) level) }
    requires positions { length nest.now.positions ≡ suc (length nest.now.levels) }
    requires small { IsTrue (are_small nest.now.positions) }
    requires other { 0 < length other.now.positions }
    requires other_small { IsTrue (are_small other.now.positions) }
    ensures { IfOk result (λ ps. ps ≡ split_positions level statement nest.now number other.now) }
{
    let positions = other.positions.as_slice();
    if moves_on(level, statement, nest, number, other) {
        one_further(alloc, level, positions)
    } else {
        Ok(List::from_slice(alloc, positions)?)
    }
}

/// The positions of all statements.
fn split_each(
    alloc: Global,
    level: usize,
    statement: usize,
    nest: &Nest,
    nests: &[Nest],
) -> Result<List<List<usize>>, NoMemory>
    requires level { IsTrue (is_level (length nest.now.levels) level) }
    requires positions { length nest.now.positions ≡ suc (length nest.now.levels) }
    requires small { IsTrue (are_small nest.now.positions) }
    requires placed { ArePlaced nests.now }
    ensures { IfOk result (λ pss. pss ≡ split_each level statement nest.now 0 nests.now) }
{
    let mut all = List::new(alloc);
    for i in 0..nests.len() {
        all.push(split_positions(alloc, level, statement, nest, i, &nests[i])?)?;
    }
    Ok(all)
}

/// Whether one of the statements shares the loop with this one.
fn any_shares(level: usize, nest: &Nest, nests: &[Nest]) -> bool
    ensures { result ≡ list_any (shares_loop level nest.now) nests.now }
{
    for other in nests {
        if shares_loop(level, nest, other) {
            return true;
        }
    }
    false
}

/// The lowest shape that holds.
fn distribute_shape(nests: &[Nest], statement: usize, nest: &Nest, level: usize) -> Option<ShapeWhy>
    requires { statement < length nests.now }
    ensures { result ≡ distribute_shape nests.now statement nest.now level }
{
    if !is_level(nest.levels.len(), level) {
        return Some(ShapeWhy::NoLoop);
    }
    if !any_shares(level, nest, &nests[..statement]) {
        return Some(ShapeWhy::NotShared);
    }
    None
}

/// The moves for a statement, or the lowest shape that holds.
fn distribute_at(
    alloc: Global,
    kernel: &Kernel,
    statement: usize,
    nest: &Nest,
    level: usize,
) -> Result<Moves, Stop<ShapeWhy>>
    requires shaped { IsShaped kernel.now }
    requires statement { statement < length kernel.now.nests }
    requires nest { IsShapedNest kernel.now.head nest.now }
    requires small { IsTrue (are_small nest.now.positions) }
    ensures gives { Gives result (distribute_at kernel.now statement (Some nest.now) level) }
    ensures fits { IfOk result (λ m. Fits kernel.now m) }
{
    let nests = kernel.nests.as_slice();
    if let Some(why) = distribute_shape(nests, statement, nest, level) {
        return Err(Stop::Refused(why));
    }
    let places = split_each(alloc, level, statement, nest, nests)?;
    let applies = sharers(alloc, level, nest, nests)?;
    Ok(move_to(alloc, kernel, places.as_slice(), applies)?)
}

/// The moves by which the statements of the loop at the level, from this one on, go to a loop of their own.
pub fn distribute_moves(
    alloc: Global,
    kernel: &Kernel,
    statement: usize,
    level: usize,
) -> Result<Moves, Stop<ShapeWhy>>
    requires { IsShaped kernel.now }
    ensures gives { Gives result (distribute_moves kernel.now statement level) }
    ensures fits { IfOk result (λ m. Fits kernel.now m) }
{
    match kernel.nests.get(statement) {
        Some(nest) => distribute_at(alloc, kernel, statement, nest, level),
        None => Err(Stop::Refused(ShapeWhy::NoStatement)),
    }
}
