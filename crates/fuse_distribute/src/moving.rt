// The moves that put statements at other positions.
ghost use Rattle.std.specs.Prelude.{◌≡◌, length, IfOk};
ghost use Rattle.std.specs.List.{AllByRecursion};
ghost use Rattle.nest_core.specs.Shapes.{IsShapedNest, IsShaped, Fits};
ghost use Rattle.fuse_distribute.specs.Moving.{pieces_at, moved_to, AreAsLong};

use affine_moves::{list_of, piece_at};
use c_tree::Program;
use chill_base::{List, NoMemory};
use nest_tree::{Kernel, Moves, Nest, Piece};
use std::alloc::Global;

/// One piece for each statement, which leaves it as it is.
fn pieces_at(
    alloc: Global,
    head: &Program,
    nests: &[Nest],
    places: &[List<usize>],
) -> Result<List<List<Piece>>, NoMemory>
    requires shaped { AllByRecursion (IsShapedNest head.now) nests.now }
    requires places { AreAsLong nests.now places.now }
    ensures { IfOk result (λ ps. ps ≡ pieces_at (length head.now.params) nests.now places.now) }
{
    let mut pieces = List::new(alloc);
    for i in 0..nests.len() {
        let positions = List::from_slice(alloc, places[i].as_slice())?;
        let piece = piece_at(alloc, head, &nests[i], positions)?;
        pieces.push(list_of(alloc, piece)?)?;
    }
    Ok(pieces)
}

/// The moves that leave each statement as it is, at other positions.
pub fn move_to(
    alloc: Global,
    kernel: &Kernel,
    places: &[List<usize>],
    applies: List<bool>,
) -> Result<Moves, NoMemory>
    requires shaped { IsShaped kernel.now }
    requires places { AreAsLong kernel.now.nests places.now }
    requires applies { length applies ≡ length kernel.now.nests }
    ensures moves { IfOk result (λ m. m ≡ moved_to kernel.now places.now applies) }
    ensures fits { IfOk result (λ m. Fits kernel.now m) }
{
    let pieces = pieces_at(alloc, &kernel.head, kernel.nests.as_slice(), places)?;
    Ok(Moves { pieces, applies })
}
