// What the command needs, and the lowest condition that isn't met.
ghost use Rattle.std.specs.Prelude.{◌≡◌, ◌<◌, ◌≤◌, length, slice_get, Some};
ghost use Rattle.nest_core.specs.Making.{Gives};
ghost use Rattle.nest_core.specs.Shapes.{IsShapedNest, IsShaped};
ghost use Rattle.make_dense.specs.Judge as spec;

use crate::bounds::matrix_of;
use affine_moves::is_level;
use c_tree::{Matrix, Program};
use chill_base::Stop;
use nest_tree::{Kernel, Nest, ShapeWhy};
use one_statement::is_alone;
use std::alloc::Global;

/// The most levels of a statement.
const MOST_LEVELS: usize = 8;

/// The matrix that the level goes over, where it is one of the statement's.
fn matrix_at(
    alloc: Global,
    head: &Program,
    nest: &Nest,
    level: usize,
) -> Result<Matrix, Stop<ShapeWhy>>
    requires { IsShapedNest head.now nest.now }
    ensures { Gives result (spec.matrix_at head.now nest.now level) }
{
    if !is_level(nest.levels.len(), level) {
        return Err(Stop::Refused(ShapeWhy::NoLoop));
    }
    match matrix_of(alloc, head, nest, level)? {
        Some(matrix) => Ok(matrix),
        None => Err(Stop::Refused(ShapeWhy::NotTraversal)),
    }
}

/// The matrix that the level goes over, or the lowest shape that holds.
fn nest_matrix(
    alloc: Global,
    head: &Program,
    nests: &[Nest],
    statement: usize,
    level: usize,
    nest: &Nest,
) -> Result<Matrix, Stop<ShapeWhy>>
    requires { IsShapedNest head.now nest.now }
    ensures { Gives result (spec.nest_matrix head.now nests.now statement level nest.now) }
{
    let matrix = matrix_at(alloc, head, nest, level)?;
    if !is_alone(nests, statement, level, nest) {
        return Err(Stop::Refused(ShapeWhy::NotAlone));
    }
    if nest.levels.len() >= MOST_LEVELS {
        return Err(Stop::Refused(ShapeWhy::Limit));
    }
    Ok(matrix)
}

/// The matrix that the level of the statement goes over, or the lowest shape that holds.
pub fn judged_matrix(
    alloc: Global,
    kernel: &Kernel,
    statement: usize,
    level: usize,
) -> Result<Matrix, Stop<ShapeWhy>>
    requires { IsShaped kernel.now }
    ensures { Gives result (spec.judged_matrix kernel.now statement level) }
{
    let nests = kernel.nests.as_slice();
    match kernel.nests.get(statement) {
        Some(nest) => nest_matrix(alloc, &kernel.head, nests, statement, level, nest),
        None => Err(Stop::Refused(ShapeWhy::NoStatement)),
    }
}
