// Where the copies of an unrolled statement stand, and the statements behind them.
ghost use Rattle.std.specs.Prelude.{◌≡◌, ◌≤◌, ◌<◌, ◌*◌, suc, length, IfOk, IsTrue};
ghost use Rattle.affine_moves.specs.Change.{is_level};
ghost use Rattle.affine_moves.specs.Placed.{are_small};
ghost use Rattle.unroll.specs.Places as spec;

use affine_moves::{child_at, child_in};
use chill_base::{List, NoMemory};
use nest_core::shares_loop;
use nest_tree::Nest;
use std::alloc::Global;

/// The positions of a copy in the innermost body, behind those of the earlier copies of so many statements.
#[tactic(auto, unfolding(crate::specs::Places::copy_positions))]
pub fn copy_positions(
    alloc: Global,
    nest: &Nest,
    copy: usize,
    count: usize,
) -> Result<List<usize>, NoMemory>
    requires positions { length nest.now.positions ≡ suc (length nest.now.levels) }
    requires small { IsTrue (are_small nest.now.positions) }
    requires copy { copy ≤ 16 }
    requires count { count ≤ 64 }
    ensures { IfOk result (λ ps. ps ≡ spec.copy_positions nest.now copy count) }
{
    let depth = nest.levels.len();
    let positions = nest.positions.as_slice();
    let place = before_copy(copy, count) + child_at(positions, depth);
    let mut new = List::from_slice(alloc, positions)?;
    new.set(depth, place);
    Ok(new)
}

/// How many statements stand before those of a copy.
fn before_copy(copy: usize, count: usize) -> usize
    requires copy { copy ≤ 16 }
    requires count { count ≤ 64 }
    ensures value { result ≡ copy * count }
    ensures small { result ≤ 1024 }
{
    copy * count
}

/// The positions so many children further at a level.
#[tactic(auto, unfolding(crate::specs::Places::further))]
fn further(
    alloc: Global,
    level: usize,
    more: usize,
    positions: &[usize],
) -> Result<List<usize>, NoMemory>
    requires level { 1 ≤ level }
    requires within { level ≤ length positions.now }
    requires small { IsTrue (are_small positions.now) }
    requires more { more ≤ 64 }
    ensures value { IfOk result (λ ps. ps ≡ spec.further level more positions.now) }
    ensures width { IfOk result (λ ps. length ps ≡ length positions.now) }
{
    let mut new = List::from_slice(alloc, positions)?;
    new.set(level - 1, child_at(positions, level - 1) + more);
    Ok(new)
}

/// The positions in the loop of a rest, which is so many loops behind the full one and has one loop in it.
#[tactic(auto, unfolding(crate::specs::Places::rest_positions))]
pub fn rest_positions(
    alloc: Global,
    level: usize,
    nest: &Nest,
    rest: usize,
) -> Result<List<usize>, NoMemory>
    requires level { IsTrue (is_level (length nest.now.levels) level) }
    requires positions { length nest.now.positions ≡ suc (length nest.now.levels) }
    requires small { IsTrue (are_small nest.now.positions) }
    requires rest { rest ≤ 64 }
    ensures { IfOk result (λ ps. ps ≡ spec.rest_positions level nest.now rest) }
{
    let moved = further(alloc, level, rest, nest.positions.as_slice())?;
    let positions = moved.as_slice();
    let mut new = List::from_slice(alloc, &positions[..level])?;
    new.push(0)?;
    new.append(List::from_slice(alloc, &positions[level..])?)?;
    Ok(new)
}

/// Whether the other statement stands behind the loop, in the loops that are around it.
fn is_behind(level: usize, nest: &Nest, other: &Nest) -> bool
    requires level { IsTrue (is_level (length nest.now.levels) level) }
    requires positions { length nest.now.positions ≡ suc (length nest.now.levels) }
    requires small { IsTrue (are_small nest.now.positions) }
    requires other { 0 < length other.now.positions }
    requires other_small { IsTrue (are_small other.now.positions) }
    ensures { result ≡ spec.is_behind level nest.now other.now }
{
    shares_loop(level - 1, nest, other)
        && child_at(nest.positions.as_slice(), level - 1) < child_in(level - 1, nest, other)
}

/// The positions of a statement that isn't unrolled: it makes room for the loops of the rests.
pub fn roomy_positions(
    alloc: Global,
    level: usize,
    nest: &Nest,
    other: &Nest,
    rests: usize,
) -> Result<List<usize>, NoMemory>
    requires level { IsTrue (is_level (length nest.now.levels) level) }
    requires positions { length nest.now.positions ≡ suc (length nest.now.levels) }
    requires small { IsTrue (are_small nest.now.positions) }
    requires other { 0 < length other.now.positions }
    requires other_small { IsTrue (are_small other.now.positions) }
    requires rests { rests ≤ 64 }
    ensures { IfOk result (λ ps. ps ≡ spec.roomy_positions level nest.now other.now rests) }
{
    let positions = other.positions.as_slice();
    if is_behind(level, nest, other) {
        further(alloc, level, rests, positions)
    } else {
        Ok(List::from_slice(alloc, positions)?)
    }
}
