// `permute`: levels change places.
ghost use Rattle.std.specs.Prelude.{◌≡◌, IfOk, IfSome, Some, length};
ghost use Rattle.std.specs.List.{AllByRecursion};
ghost use Rattle.nest_core.specs.Making.{Gives};
ghost use Rattle.nest_core.specs.Shapes.{IsShapedNest, IsShaped, Fits};
ghost use Rattle.affine_moves.specs.Moves.{permute_shape, permute_at, permute_moves, reordering};

use crate::change::Change;
use crate::moves::{make_moves, sharers};
use crate::order::{are_levels, first_moving, is_permutation, last_moving, reordering};
use crate::shapes::{any_comes_late, any_splits};
use c_tree::Program;
use chill_base::Stop;
use nest_tree::{Kernel, Moves, Nest, ShapeWhy};
use std::alloc::Global;

/// The lowest shape that holds.
fn permute_shape(
    head: &Program,
    nests: &[Nest],
    nest: &Nest,
    order: &[usize],
    change: &Change,
) -> Option<ShapeWhy>
    requires shaped { AllByRecursion (IsShapedNest head.now) nests.now }
    requires change { change.now ≡ reordering order.now }
    ensures { result ≡ permute_shape (length head.now.params) nests.now nest.now order.now }
{
    let depth = nest.levels.len();
    if !are_levels(depth, order) {
        return Some(ShapeWhy::NoLoop);
    }
    if !is_permutation(order) || order.len() > depth {
        return Some(ShapeWhy::NotPermutation);
    }
    let first = first_moving(order);
    if first != 0 && any_splits(first, last_moving(order), nest, nests) {
        return Some(ShapeWhy::NotShared);
    }
    if first != 0 && any_comes_late(head, first, change, nest, nests) {
        return Some(ShapeWhy::TermFirst);
    }
    None
}

/// The moves for a statement, or the lowest shape that holds.
fn permute_at(
    alloc: Global,
    kernel: &Kernel,
    nest: &Nest,
    order: &[usize],
) -> Result<Option<Moves>, Stop<ShapeWhy>>
    requires { IsShaped kernel.now }
    ensures gives { Gives result (permute_at kernel.now (Some nest.now) order.now) }
    ensures fits { IfOk result (λ found. IfSome found (λ m. Fits kernel.now m)) }
{
    let nests = kernel.nests.as_slice();
    let change = reordering(alloc, order)?;
    if let Some(why) = permute_shape(&kernel.head, nests, nest, order, &change) {
        return Err(Stop::Refused(why));
    }
    let first = first_moving(order);
    if first == 0 {
        return Ok(None);
    }
    let applies = sharers(alloc, first, nest, nests)?;
    Ok(Some(make_moves(alloc, kernel, &change, applies)?))
}

/// The moves by which new level t is old level `order[t]`, in each statement that shares the loops that move. There are
/// none where no level moves.
pub fn permute_moves(
    alloc: Global,
    kernel: &Kernel,
    statement: usize,
    order: &[usize],
) -> Result<Option<Moves>, Stop<ShapeWhy>>
    requires { IsShaped kernel.now }
    ensures gives { Gives result (permute_moves kernel.now statement order.now) }
    ensures fits { IfOk result (λ found. IfSome found (λ m. Fits kernel.now m)) }
{
    match kernel.nests.as_slice().get(statement) {
        Some(nest) => permute_at(alloc, kernel, nest, order),
        None => Err(Stop::Refused(ShapeWhy::NoStatement)),
    }
}
