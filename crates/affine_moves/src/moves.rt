// The moves of a change: one piece for each statement.
ghost use Rattle.std.specs.Prelude.{◌≡◌, ◌∷◌, [], cond, map, length, nat_eq, IfOk, IsTrue};
ghost use Rattle.std.specs.List.{range_with_len, AllByRecursion};
ghost use Rattle.nest_core.specs.Order.{shares_loop};
ghost use Rattle.nest_core.specs.Shapes.{IsShapedNest, IsShaped, Fits};
ghost use Rattle.affine_moves.specs.declared.change.Change.TheVariants.{Stay as StayOf};
ghost use Rattle.affine_moves.specs.Change.{suits, piece_of};
ghost use Rattle.affine_moves.specs.Moves.{pieces_of, moves_of, AllSuit, sharers, only};

use crate::change::Change;
use crate::piece::piece_of;
use c_tree::Program;
use chill_base::{List, NoMemory};
use nest_core::shares_loop;
use nest_tree::{Kernel, Moves, Nest, Piece};
use std::alloc::Global;

/// The statements that share a loop with this one.
pub fn sharers(
    alloc: Global,
    level: usize,
    nest: &Nest,
    nests: &[Nest],
) -> Result<List<bool>, NoMemory>
    ensures { IfOk result (λ bs. bs ≡ sharers level nest.now nests.now) }
{
    let mut applies = List::new(alloc);
    for other in nests {
        applies.push(shares_loop(level, nest, other))?;
    }
    Ok(applies)
}

/// One statement alone, of so many.
pub fn only(alloc: Global, statement: usize, count: usize) -> Result<List<bool>, NoMemory>
    ensures { IfOk result (λ bs. bs ≡ only statement count) }
{
    let mut applies = List::new(alloc);
    for i in 0..count {
        applies.push(i == statement)?;
    }
    Ok(applies)
}

/// The piece of a statement to which the change applies, or not.
fn piece_for(
    alloc: Global,
    head: &Program,
    change: &Change,
    applies: bool,
    nest: &Nest,
) -> Result<Piece, NoMemory>
    requires shaped { IsShapedNest head.now nest.now }
    requires suits { IsTrue (suits (length nest.now.levels) (cond applies change.now StayOf)) }
    ensures { IfOk result (λ p. p ≡ piece_of (length head.now.params) (cond applies change.now StayOf) nest.now) }
{
    if applies {
        return piece_of(alloc, head, change, nest);
    }
    let stay = Change::Stay;
    piece_of(alloc, head, &stay, nest)
}

/// A list of one item.
pub fn list_of<T: Drop>(alloc: Global, item: T) -> Result<List<T>, NoMemory>
    ensures { IfOk result (λ xs. xs ≡ item ∷ []) }
{
    let mut list = List::new(alloc);
    list.push(item)?;
    Ok(list)
}

fn make_pieces(
    alloc: Global,
    head: &Program,
    change: &Change,
    applies: &[bool],
    nests: &[Nest],
) -> Result<List<List<Piece>>, NoMemory>
    requires shaped { AllByRecursion (IsShapedNest head.now) nests.now }
    requires suits { AllSuit change.now applies.now nests.now }
    ensures { IfOk result (λ ps. ps ≡ pieces_of (length head.now.params) change.now applies.now nests.now) }
{
    let mut pieces = List::new(alloc);
    for i in 0..nests.len() {
        let piece = piece_for(alloc, head, change, applies[i], &nests[i])?;
        pieces.push(list_of(alloc, piece)?)?;
    }
    Ok(pieces)
}

/// The moves of a change that suits each statement to which it applies.
pub fn make_moves(
    alloc: Global,
    kernel: &Kernel,
    change: &Change,
    applies: List<bool>,
) -> Result<Moves, NoMemory>
    requires shaped { IsShaped kernel.now }
    requires suits { AllSuit change.now applies kernel.now.nests }
    ensures moves { IfOk result (λ m. m ≡ moves_of kernel.now change.now applies) }
    ensures fits { IfOk result (λ m. Fits kernel.now m) }
{
    let nests = kernel.nests.as_slice();
    let pieces = make_pieces(alloc, &kernel.head, change, applies.as_slice(), nests)?;
    Ok(Moves { pieces, applies })
}
