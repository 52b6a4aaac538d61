// The padded statements.
ghost use Rattle.std.specs.Prelude.{◌≡◌, ◌+◌, ◌<◌, ◌≤◌, ◌^◌, length, IfOk, IsTrue};
ghost use Rattle.std.specs.List.{list_all};
ghost use Rattle.nest_core.specs.Shapes.{vars_of, IsShapedNest};
ghost use Rattle.pad_layouts.specs.Kinds as kinds;
ghost use Rattle.pad_layouts.specs.Moved.{is_pick};
ghost use Rattle.pad_layouts.specs.Parts as spec;
ghost use Rattle.pad_layouts.specs.Parts.{AreFitting};

use crate::block::{Sides, block_parts};
use crate::diag::diag_parts;
use crate::parts::{KeptArrays, Parts, RowArrays, padded_nest};
use crate::rows::row_parts;
use c_tree::{Matrix, Program};
use chill_base::{Name, NoMemory};
use nest_tree::Nest;
use std::alloc::Global;

/// The statement of parts that fit.
fn shaped_nest(
    alloc: Global,
    head: &Program,
    value: Name,
    nest: &Nest,
    parts: Parts,
) -> Result<Nest, NoMemory>
    requires shaped { IsShapedNest head.now nest.now }
    requires fitting { AreFitting (length head.now.params) parts }
    requires picks { IsTrue (list_all (is_pick (vars_of (length head.now.params) nest.now)) parts.picks) }
    ensures value { IfOk result (λ n. n ≡ spec.padded_nest value nest.now parts) }
    ensures shaped { IfOk result (λ n. IsShapedNest head.now n) }
{
    padded_nest(alloc, value, nest, parts)
}

/// The statement over blocks in the place of one over entries.
pub fn block_nest(
    alloc: Global,
    head: &Program,
    nest: &Nest,
    value: Name,
    sides: Sides,
    arrays: &KeptArrays,
) -> Result<Nest, NoMemory>
    requires shaped { IsShapedNest head.now nest.now }
    requires depth { length nest.now.levels ≡ 5 }
    ensures value { IfOk result (λ n. n ≡ spec.padded_nest value nest.now (kinds.block_parts (length head.now.params) sides arrays.now nest.now.rows)) }
    ensures shaped { IfOk result (λ n. IsShapedNest head.now n) }
{
    let params = head.params.as_slice().len();
    let parts = block_parts(alloc, params, sides, arrays, nest)?;
    shaped_nest(alloc, head, value, nest, parts)
}

/// The statement over diagonals in the place of one over entries.
pub fn diag_nest(
    alloc: Global,
    head: &Program,
    nest: &Nest,
    matrix: &Matrix,
    arrays: &KeptArrays,
) -> Result<Nest, NoMemory>
    requires shaped { IsShapedNest head.now nest.now }
    requires depth { length nest.now.levels ≡ 3 }
    ensures value { IfOk result (λ n. n ≡ spec.padded_nest matrix.now.value nest.now (kinds.diag_parts head.now.params matrix.now arrays.now)) }
    ensures shaped { IfOk result (λ n. IsShapedNest head.now n) }
{
    let parts = diag_parts(alloc, head.params.as_slice(), matrix, arrays)?;
    shaped_nest(alloc, head, matrix.value, nest, parts)
}

/// The statement over padded rows in the place of one over entries. `column` is the variable of the read of an entry's
/// column, where the statement has it.
pub fn row_nest(
    alloc: Global,
    head: &Program,
    nest: &Nest,
    value: Name,
    arrays: &RowArrays,
    column: Option<usize>,
) -> Result<Nest, NoMemory>
    requires shaped { IsShapedNest head.now nest.now }
    requires depth { length nest.now.levels ≡ 2 }
    requires column { IsTrue (is_pick (vars_of (length head.now.params) nest.now) column) }
    ensures value { IfOk result (λ n. n ≡ spec.padded_nest value nest.now (kinds.row_parts (length head.now.params) arrays.now column nest.now.rows)) }
    ensures shaped { IfOk result (λ n. IsShapedNest head.now n) }
{
    let params = head.params.as_slice().len();
    let parts = row_parts(alloc, params, arrays, column, nest)?;
    shaped_nest(alloc, head, value, nest, parts)
}
