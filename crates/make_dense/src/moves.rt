// The moves that are tested: one statement gets a piece, and all others stay as they are.
ghost use Rattle.std.specs.Prelude.{◌≡◌, ◌<◌, length, slice_get, Some, IfOk};
ghost use Rattle.std.specs.List.{AllByRecursion};
ghost use Rattle.nest_core.specs.Shapes.{IsShapedNest, FitsNest, IsShaped, Fits};
ghost use Rattle.affine_moves.specs.Moves.{only};
ghost use Rattle.make_dense.specs.Dense as spec;

use affine_moves::{list_of, piece_at};
use c_tree::Program;
use chill_base::{List, NoMemory};
use nest_tree::{Kernel, Moves, Nest, Piece};
use std::alloc::Global;

/// The piece of a statement that stays as it is.
fn stay(alloc: Global, head: &Program, nest: &Nest) -> Result<List<Piece>, NoMemory>
    requires { IsShapedNest head.now nest.now }
    ensures { IfOk result (λ ps. ps ≡ spec.stay (length head.now.params) nest.now) }
{
    let positions = List::from_slice(alloc, nest.positions.as_slice())?;
    list_of(alloc, piece_at(alloc, head, nest, positions)?)
}

/// Statements that stay as they are.
fn stays(alloc: Global, head: &Program, nests: &[Nest]) -> Result<List<List<Piece>>, NoMemory>
    requires { AllByRecursion (IsShapedNest head.now) nests.now }
    ensures { IfOk result (λ ps. ps ≡ spec.stays (length head.now.params) nests.now) }
{
    let mut pieces = List::new(alloc);
    for nest in nests {
        pieces.push(stay(alloc, head, nest)?)?;
    }
    Ok(pieces)
}

/// One statement alone, of so many.
fn only(alloc: Global, statement: usize, count: usize) -> Result<List<bool>, NoMemory>
    ensures { IfOk result (λ bs. bs ≡ only statement count) }
{
    let mut applies = List::new(alloc);
    for i in 0..count {
        applies.push(i == statement)?;
    }
    Ok(applies)
}

/// The piece for one statement, and all others as they are.
fn pieces_with(
    alloc: Global,
    head: &Program,
    nests: &[Nest],
    statement: usize,
    piece: Piece,
) -> Result<List<List<Piece>>, NoMemory>
    requires nests { AllByRecursion (IsShapedNest head.now) nests.now }
    requires statement { statement < length nests.now }
    ensures { IfOk result (λ ps. ps ≡ spec.pieces_with (length head.now.params) nests.now statement piece) }
{
    let mut pieces = stays(alloc, head, &nests[..statement])?;
    let behind = stays(alloc, head, &nests[statement + 1..])?;
    pieces.push(list_of(alloc, piece)?)?;
    pieces.append(behind)?;
    Ok(pieces)
}

/// The moves by which a statement, the one with this number, gets the piece.
pub fn moves_with(
    alloc: Global,
    kernel: &Kernel,
    statement: usize,
    nest: &Nest,
    piece: Piece,
) -> Result<Moves, NoMemory>
    requires shaped { IsShaped kernel.now }
    requires found { slice_get kernel.now.nests statement ≡ Some nest.now }
    requires fits { FitsNest (length kernel.now.head.params) nest.now piece }
    ensures fits { IfOk result (λ m. Fits kernel.now m) }
    ensures value { IfOk result (λ m. m ≡ spec.moves_with kernel.now statement piece) }
{
    let nests = kernel.nests.as_slice();
    Ok(Moves {
        pieces: pieces_with(alloc, &kernel.head, nests, statement, piece)?,
        applies: only(alloc, statement, nests.len())?,
    })
}
