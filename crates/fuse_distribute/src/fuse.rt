// `fuse`: two neighbouring loops become one.
ghost use Rattle.std.specs.Prelude.{◌≡◌, ◌≤◌, ◌<◌, ◌-◌, suc, cond, max, map, slice_index_or, length, IfOk, IsTrue, Some};
ghost use Rattle.std.specs.List.{AllByRecursion};
ghost use Rattle.nest_core.specs.Making.{Gives};
ghost use Rattle.nest_core.specs.Order.{HasPositions, shares_loop};
ghost use Rattle.nest_core.specs.Shapes.{IsShapedNest, IsShaped, Fits};
ghost use Rattle.affine_moves.specs.Change.{is_level};
ghost use Rattle.affine_moves.specs.Placed.{are_small, ArePlaced};
ghost use Rattle.fuse_distribute.specs.Fusing.{child_count, is_next, rehung, fused_positions, in_either, fuse_shape, fuse_pair, fuse_moves};

use crate::moving::move_to;
use crate::shapes::loop_of;
use affine_moves::{child_at, child_in, is_level};
use chill_base::{List, NoMemory, Stop};
use nest_core::shares_loop;
use nest_tree::{Kernel, Moves, Nest, ShapeWhy};
use std::alloc::Global;

/// The number of children of the loop that the statement is in at a level, as far as another statement tells.
fn count_with(found: usize, level: usize, nest: &Nest, other: &Nest) -> usize
    requires some { 0 < length other.now.positions }
    requires small { IsTrue (are_small other.now.positions) }
    requires found { found ≤ 65 }
    ensures value { result ≡ cond (shares_loop level nest.now other.now) (max found (suc (slice_index_or other.now.positions level 0))) found }
    ensures small { result ≤ 65 }
{
    if shares_loop(level, nest, other) {
        found.max(child_in(level, nest, other) + 1)
    } else {
        found
    }
}

/// The number of children of the loop that the statement is in at a level.
fn child_count(level: usize, nest: &Nest, nests: &[Nest]) -> usize
    requires placed { ArePlaced nests.now }
    ensures value { result ≡ child_count 0 level nest.now nests.now }
    ensures small { result ≤ 65 }
{
    let mut found = 0;
    for other in nests {
        found = count_with(found, level, nest, other);
    }
    found
}

/// Whether the second statement's loop is the next child behind that of the first, in loops that they share.
fn is_next(level: usize, first: &Nest, second: &Nest) -> bool
    requires first_level { IsTrue (is_level (length first.now.levels) level) }
    requires second_level { IsTrue (is_level (length second.now.levels) level) }
    requires first_positions { length first.now.positions ≡ suc (length first.now.levels) }
    requires second_positions { length second.now.positions ≡ suc (length second.now.levels) }
    requires first_small { IsTrue (are_small first.now.positions) }
    requires second_small { IsTrue (are_small second.now.positions) }
    ensures { result ≡ is_next level first.now second.now }
{
    shares_loop(level - 1, first, second) && loop_of(level, second) == loop_of(level, first) + 1
}

/// The lowest shape that holds.
fn fuse_shape(level: usize, first: &Nest, second: &Nest) -> Option<ShapeWhy>
    requires first_positions { length first.now.positions ≡ suc (length first.now.levels) }
    requires second_positions { length second.now.positions ≡ suc (length second.now.levels) }
    requires first_small { IsTrue (are_small first.now.positions) }
    requires second_small { IsTrue (are_small second.now.positions) }
    ensures { result ≡ fuse_shape first.now second.now level }
{
    if !is_level(first.levels.len(), level) || !is_level(second.levels.len(), level) {
        return Some(ShapeWhy::NoLoop);
    }
    if !is_next(level, first, second) {
        return Some(ShapeWhy::NotShared);
    }
    None
}

/// The positions as a child of another loop, so many children further.
#[tactic(auto, unfolding(crate::specs::Fusing::rehung))]
fn rehung(
    alloc: Global,
    level: usize,
    place: usize,
    count: usize,
    positions: &[usize],
) -> Result<List<usize>, NoMemory>
    requires level { 1 ≤ level }
    requires within { level < length positions.now }
    requires small { IsTrue (are_small positions.now) }
    requires count { count ≤ 65 }
    ensures { IfOk result (λ ps. ps ≡ rehung level place count positions.now) }
{
    let mut new = List::from_slice(alloc, positions)?;
    new.set(level - 1, place);
    new.set(level, count + child_at(positions, level));
    Ok(new)
}

/// The positions of a statement, which are new where it is in the second loop.
fn fused_positions(
    alloc: Global,
    level: usize,
    place: usize,
    count: usize,
    second: &Nest,
    nest: &Nest,
) -> Result<List<usize>, NoMemory>
    requires level { 1 ≤ level }
    requires some { 0 < length nest.now.positions }
    requires small { IsTrue (are_small nest.now.positions) }
    requires count { count ≤ 65 }
    ensures { IfOk result (λ ps. ps ≡ fused_positions level place count second.now nest.now) }
{
    let positions = nest.positions.as_slice();
    if shares_loop(level, second, nest) {
        rehung(alloc, level, place, count, positions)
    } else {
        Ok(List::from_slice(alloc, positions)?)
    }
}

/// The positions of all statements.
fn all_positions(
    alloc: Global,
    level: usize,
    place: usize,
    count: usize,
    second: &Nest,
    nests: &[Nest],
) -> Result<List<List<usize>>, NoMemory>
    requires level { 1 ≤ level }
    requires placed { ArePlaced nests.now }
    requires count { count ≤ 65 }
    ensures { IfOk result (λ pss. pss ≡ map (fused_positions level place count second.now) nests.now) }
{
    let mut all = List::new(alloc);
    for nest in nests {
        all.push(fused_positions(alloc, level, place, count, second, nest)?)?;
    }
    Ok(all)
}

/// The statements of both loops.
fn in_either(
    alloc: Global,
    level: usize,
    first: &Nest,
    second: &Nest,
    nests: &[Nest],
) -> Result<List<bool>, NoMemory>
    ensures { IfOk result (λ bs. bs ≡ map (in_either level first.now second.now) nests.now) }
{
    let mut applies = List::new(alloc);
    for nest in nests {
        applies.push(shares_loop(level, first, nest) || shares_loop(level, second, nest))?;
    }
    Ok(applies)
}

/// The moves for two statements, or the lowest shape that holds.
fn fuse_pair(
    alloc: Global,
    kernel: &Kernel,
    first: &Nest,
    second: &Nest,
    level: usize,
) -> Result<Moves, Stop<ShapeWhy>>
    requires shaped { IsShaped kernel.now }
    requires first { IsShapedNest kernel.now.head first.now }
    requires second { IsShapedNest kernel.now.head second.now }
    requires first_small { IsTrue (are_small first.now.positions) }
    requires second_small { IsTrue (are_small second.now.positions) }
    ensures gives { Gives result (fuse_pair kernel.now first.now second.now level) }
    ensures fits { IfOk result (λ m. Fits kernel.now m) }
{
    if let Some(why) = fuse_shape(level, first, second) {
        return Err(Stop::Refused(why));
    }
    let nests = kernel.nests.as_slice();
    let count = child_count(level, first, nests);
    let place = loop_of(level, first);
    let places = all_positions(alloc, level, place, count, second, nests)?;
    let applies = in_either(alloc, level, first, second, nests)?;
    Ok(move_to(alloc, kernel, places.as_slice(), applies)?)
}

/// The moves by which the children of the second statement's loop at the level go behind those of the first's.
pub fn fuse_moves(
    alloc: Global,
    kernel: &Kernel,
    first: usize,
    second: usize,
    level: usize,
) -> Result<Moves, Stop<ShapeWhy>>
    requires { IsShaped kernel.now }
    ensures gives { Gives result (fuse_moves kernel.now first second level) }
    ensures fits { IfOk result (λ m. Fits kernel.now m) }
{
    let Some(first) = kernel.nests.get(first) else {
        return Err(Stop::Refused(ShapeWhy::NoStatement));
    };
    let Some(second) = kernel.nests.get(second) else {
        return Err(Stop::Refused(ShapeWhy::NoStatement));
    };
    fuse_pair(alloc, kernel, first, second, level)
}
