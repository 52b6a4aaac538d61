// The statement with a level for the columns.
ghost use Rattle.std.specs.Prelude.{◌≡◌, ◌≤◌, ◌<◌, length, IfOk};
ghost use Rattle.nest_core.specs.Making.{Gives};
ghost use Rattle.nest_core.specs.Pieces.{nest_of_piece};
ghost use Rattle.nest_core.specs.Shapes.{IsShapedNest};
ghost use Rattle.make_dense.specs.Piece.{dense_piece};
ghost use Rattle.make_dense.specs.Dense as spec;

use crate::column::with_column;
use crate::piece::dense_piece;
use c_tree::{Matrix, Program};
use chill_base::Stop;
use int_rows::Excess;
use nest_core::make_nest;
use nest_tree::Nest;
use std::alloc::Global;

/// The statement with one level more, but with the old columns in the subscripts of its cells.
fn nest_with_level(
    alloc: Global,
    head: &Program,
    nest: &Nest,
    level: usize,
    matrix: &Matrix,
) -> Result<Nest, Stop<Excess>>
    requires shaped { IsShapedNest head.now nest.now }
    requires low { 1 ≤ level }
    requires high { level ≤ length nest.now.levels }
    requires room { length nest.now.levels < 8 }
    ensures gives { Gives result (spec.nest_with_level head.now.params nest.now level matrix.now) }
    ensures shaped { IfOk result (λ n. IsShapedNest head.now n) }
    ensures high { IfOk result (λ n. level ≤ length n.levels) }
{
    let piece = dense_piece(alloc, head, nest, level, matrix)?;
    make_nest(alloc, head, true, nest, &piece)
}

/// The statement with a level for the columns of the matrix before the level, which goes over entries of its rows.
pub fn dense_nest(
    alloc: Global,
    head: &Program,
    nest: &Nest,
    level: usize,
    matrix: &Matrix,
) -> Result<Nest, Stop<Excess>>
    requires shaped { IsShapedNest head.now nest.now }
    requires low { 1 ≤ level }
    requires high { level ≤ length nest.now.levels }
    requires room { length nest.now.levels < 8 }
    ensures gives { Gives result (spec.dense_nest head.now.params nest.now level matrix.now) }
    ensures shaped { IfOk result (λ n. IsShapedNest head.now n) }
{
    let new = nest_with_level(alloc, head, nest, level, matrix)?;
    with_column(alloc, head, new, level, matrix.col)
}
