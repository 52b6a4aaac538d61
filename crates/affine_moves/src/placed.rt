// Statements that stay as they are, at other positions.
ghost use Rattle.std.specs.Prelude.{◌≡◌, ◌≤◌, ◌<◌, slice_index_or, length, IfOk, IsTrue};
ghost use Rattle.nest_core.specs.Order.{shares_loop};
ghost use Rattle.nest_core.specs.Shapes.{IsShapedNest};
ghost use Rattle.affine_moves.specs.Placed.{are_small, piece_at};

use crate::change::Change;
use crate::piece::piece_of;
use c_tree::Program;
use chill_base::{List, NoMemory};
use nest_tree::{Nest, Piece};
use std::alloc::Global;

/// The piece that leaves a statement as it is, at other positions.
pub fn piece_at(
    alloc: Global,
    head: &Program,
    nest: &Nest,
    positions: List<usize>,
) -> Result<Piece, NoMemory>
    requires { IsShapedNest head.now nest.now }
    ensures { IfOk result (λ p. p ≡ piece_at (length head.now.params) nest.now positions) }
{
    let change = Change::Stay;
    let piece = piece_of(alloc, head, &change, nest)?;
    Ok(Piece { positions, ..piece })
}

/// The position at a place.
pub fn child_at(positions: &[usize], place: usize) -> usize
    requires small { IsTrue (are_small positions.now) }
    requires within { place < length positions.now }
    ensures value { result ≡ slice_index_or positions.now place 0 }
    ensures small { result ≤ 64 }
{
    positions[place]
}

/// Which child of the loop at a level the other statement stands in, where it shares that loop with this one.
pub fn child_in(level: usize, nest: &Nest, other: &Nest) -> usize
    requires shares { IsTrue (shares_loop level nest.now other.now) }
    requires some { 0 < length other.now.positions }
    requires small { IsTrue (are_small other.now.positions) }
    ensures value { result ≡ slice_index_or other.now.positions level 0 }
    ensures small { result ≤ 64 }
{
    child_at(other.positions.as_slice(), level)
}
