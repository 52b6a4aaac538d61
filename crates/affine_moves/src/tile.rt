// `tile`: a new level counts tiles of another level's values.
ghost use Rattle.std.specs.Prelude.{◌≡◌, IfOk, Some, length};
ghost use Rattle.std.specs.List.{AllByRecursion};
ghost use Rattle.nest_core.specs.Making.{Gives};
ghost use Rattle.nest_core.specs.Shapes.{IsShapedNest, IsShaped, Fits};
ghost use Rattle.affine_moves.specs.Moves.{tile_shape, tile_at, tile_moves};

use crate::change::Change;
use crate::moves::{make_moves, sharers};
use crate::shapes::{any_comes_late, any_full, any_splits, is_level};
use c_tree::Program;
use chill_base::Stop;
use nest_tree::{Kernel, Moves, Nest, ShapeWhy};
use std::alloc::Global;

/// The lowest shape that holds.
fn tile_shape(
    head: &Program,
    nests: &[Nest],
    nest: &Nest,
    level: usize,
    size: u32,
    outer: usize,
) -> Option<ShapeWhy>
    requires shaped { AllByRecursion (IsShapedNest head.now) nests.now }
    ensures { result ≡ tile_shape (length head.now.params) nests.now nest.now level size outer }
{
    if !is_level(nest.levels.len(), level) || !is_level(level, outer) {
        return Some(ShapeWhy::NoLoop);
    }
    if any_splits(outer, level, nest, nests) {
        return Some(ShapeWhy::NotShared);
    }
    let change = Change::Tile { level, size, outer };
    if any_comes_late(head, outer, &change, nest, nests) {
        return Some(ShapeWhy::TermFirst);
    }
    if !(1 <= size && size <= 1024) || any_full(outer, nest, nests) {
        return Some(ShapeWhy::Limit);
    }
    None
}

/// The moves for a statement, or the lowest shape that holds.
fn tile_at(
    alloc: Global,
    kernel: &Kernel,
    nest: &Nest,
    level: usize,
    size: u32,
    outer: usize,
) -> Result<Moves, Stop<ShapeWhy>>
    requires { IsShaped kernel.now }
    ensures gives { Gives result (tile_at kernel.now (Some nest.now) level size outer) }
    ensures fits { IfOk result (λ m. Fits kernel.now m) }
{
    let nests = kernel.nests.as_slice();
    if let Some(why) = tile_shape(&kernel.head, nests, nest, level, size, outer) {
        return Err(Stop::Refused(why));
    }
    let change = Change::Tile { level, size, outer };
    let applies = sharers(alloc, outer, nest, nests)?;
    Ok(make_moves(alloc, kernel, &change, applies)?)
}

/// The moves by which a new level at place `outer` counts tiles of so many values of the level, in each statement that
/// shares the loops from there on.
pub fn tile_moves(
    alloc: Global,
    kernel: &Kernel,
    statement: usize,
    level: usize,
    size: u32,
    outer: usize,
) -> Result<Moves, Stop<ShapeWhy>>
    requires { IsShaped kernel.now }
    ensures gives { Gives result (tile_moves kernel.now statement level size outer) }
    ensures fits { IfOk result (λ m. Fits kernel.now m) }
{
    match kernel.nests.as_slice().get(statement) {
        Some(nest) => tile_at(alloc, kernel, nest, level, size, outer),
        None => Err(Stop::Refused(ShapeWhy::NoStatement)),
    }
}
