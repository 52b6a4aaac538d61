// `shift`: the values of a level are raised.
ghost use Rattle.std.specs.Prelude.{◌≡◌, IfOk, IfSome, Some, slice_get, length};
ghost use Rattle.nest_core.specs.Making.{Gives};
ghost use Rattle.nest_core.specs.Shapes.{IsShaped, Fits};
ghost use Rattle.affine_moves.specs.Moves.{shift_shape, shift_at, shift_moves};

use crate::change::Change;
use crate::levels::is_zero;
use crate::moves::{make_moves, only};
use crate::shapes::is_level;
use chill_base::Stop;
use nest_tree::{Kernel, Moves, Nest, ShapeWhy};
use std::alloc::Global;

/// The greatest size of an amount.
const SHIFT_LIMIT: i32 = 1 << 20;

/// The lowest shape that holds.
fn shift_shape(nest: &Nest, level: usize, amount: i32) -> Option<ShapeWhy>
    ensures { result ≡ shift_shape nest.now level amount }
{
    if !is_level(nest.levels.len(), level) {
        return Some(ShapeWhy::NoLoop);
    }
    if !(-SHIFT_LIMIT <= amount && amount <= SHIFT_LIMIT) {
        return Some(ShapeWhy::Limit);
    }
    None
}

/// The moves for a statement, or the lowest shape that holds.
fn shift_at(
    alloc: Global,
    kernel: &Kernel,
    statement: usize,
    nest: &Nest,
    level: usize,
    amount: i32,
) -> Result<Option<Moves>, Stop<ShapeWhy>>
    requires shaped { IsShaped kernel.now }
    requires nest { slice_get kernel.now.nests statement ≡ Some nest.now }
    ensures gives { Gives result (shift_at kernel.now statement (Some nest.now) level amount) }
    ensures fits { IfOk result (λ found. IfSome found (λ m. Fits kernel.now m)) }
{
    if let Some(why) = shift_shape(nest, level, amount) {
        return Err(Stop::Refused(why));
    }
    if is_zero(amount) {
        return Ok(None);
    }
    let change = Change::Shift { level, amount };
    let applies = only(alloc, statement, kernel.nests.len())?;
    Ok(Some(make_moves(alloc, kernel, &change, applies)?))
}

/// The moves by which the values of the level are raised, in this statement alone. There are none where the amount is 0.
pub fn shift_moves(
    alloc: Global,
    kernel: &Kernel,
    statement: usize,
    level: usize,
    amount: i32,
) -> Result<Option<Moves>, Stop<ShapeWhy>>
    requires { IsShaped kernel.now }
    ensures gives { Gives result (shift_moves kernel.now statement level amount) }
    ensures fits { IfOk result (λ found. IfSome found (λ m. Fits kernel.now m)) }
{
    match kernel.nests.get(statement) {
        Some(nest) => shift_at(alloc, kernel, statement, nest, level, amount),
        None => Err(Stop::Refused(ShapeWhy::NoStatement)),
    }
}
