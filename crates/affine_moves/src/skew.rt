// `skew`: multiples of outer levels are added to a level.
ghost use Rattle.std.specs.Prelude.{◌≡◌, IfOk, IfSome, Some, length};
ghost use Rattle.std.specs.List.{list_all};
ghost use Rattle.nest_core.specs.Making.{Gives};
ghost use Rattle.nest_core.specs.Shapes.{IsShaped, Fits};
ghost use Rattle.affine_moves.specs.declared.change.Change.TheVariants.{Skew as SkewOf};
ghost use Rattle.affine_moves.specs.Moves.{is_zero, is_skew, skew_shape, skew_at, skew_moves};

use crate::change::Change;
use crate::levels::is_zero;
use crate::moves::{make_moves, sharers};
use crate::shapes::is_level;
use chill_base::{List, NoMemory, Stop};
use nest_tree::{Kernel, Moves, Nest, ShapeWhy};
use std::alloc::Global;

/// Whether a coefficient is at most 64 in size.
fn is_skew(coef: i32) -> bool
    ensures { result ≡ is_skew coef }
{
    -64 <= coef && coef <= 64
}

fn are_skews(coefs: &[i32]) -> bool
    ensures { result ≡ list_all is_skew coefs.now }
{
    for coef in coefs {
        if !is_skew(*coef) {
            return false;
        }
    }
    true
}

fn are_zero(coefs: &[i32]) -> bool
    ensures { result ≡ list_all is_zero coefs.now }
{
    for coef in coefs {
        if !is_zero(*coef) {
            return false;
        }
    }
    true
}

/// The lowest shape that holds.
fn skew_shape(nest: &Nest, level: usize, coefs: &[i32]) -> Option<ShapeWhy>
    ensures { result ≡ skew_shape nest.now level coefs.now }
{
    if !is_level(nest.levels.len(), level) {
        return Some(ShapeWhy::NoLoop);
    }
    if level != coefs.len() + 1 {
        return Some(ShapeWhy::NotPermutation);
    }
    if !are_skews(coefs) {
        return Some(ShapeWhy::Limit);
    }
    None
}

/// The moves for a statement, or the lowest shape that holds.
fn skew_at(
    alloc: Global,
    kernel: &Kernel,
    nest: &Nest,
    level: usize,
    coefs: &[i32],
) -> Result<Option<Moves>, Stop<ShapeWhy>>
    requires { IsShaped kernel.now }
    ensures gives { Gives result (skew_at kernel.now (Some nest.now) level coefs.now) }
    ensures fits { IfOk result (λ found. IfSome found (λ m. Fits kernel.now m)) }
{
    if let Some(why) = skew_shape(nest, level, coefs) {
        return Err(Stop::Refused(why));
    }
    if are_zero(coefs) {
        return Ok(None);
    }
    let change = skewing(alloc, level, coefs)?;
    let applies = sharers(alloc, level, nest, kernel.nests.as_slice())?;
    Ok(Some(make_moves(alloc, kernel, &change, applies)?))
}

/// The change by which the level gets these multiples of the levels before it.
fn skewing(alloc: Global, level: usize, coefs: &[i32]) -> Result<Change, NoMemory>
    ensures { IfOk result (λ c. c ≡ SkewOf level coefs.now) }
{
    Ok(Change::Skew {
        level,
        coefs: List::from_slice(alloc, coefs)?,
    })
}

/// The moves by which the level gets these multiples of the levels before it, in each statement that shares its loop.
/// There are none where all of them are 0.
pub fn skew_moves(
    alloc: Global,
    kernel: &Kernel,
    statement: usize,
    level: usize,
    coefs: &[i32],
) -> Result<Option<Moves>, Stop<ShapeWhy>>
    requires { IsShaped kernel.now }
    ensures gives { Gives result (skew_moves kernel.now statement level coefs.now) }
    ensures fits { IfOk result (λ found. IfSome found (λ m. Fits kernel.now m)) }
{
    match kernel.nests.as_slice().get(statement) {
        Some(nest) => skew_at(alloc, kernel, nest, level, coefs),
        None => Err(Stop::Refused(ShapeWhy::NoStatement)),
    }
}
