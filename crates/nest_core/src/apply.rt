// Pieces are put in the place of statements.
ghost use Rattle.std.specs.Prelude.{◌≡◌, length, Bool, IsTrue, OnOk};
ghost use Rattle.std.specs.List.{AllByRecursion};
ghost use Rattle.nest_core.specs.Making.{Gives, Changes};
ghost use Rattle.nest_core.specs.Pieces.{frame_of, is_one, nest_of_piece, pieces_made, nests_made, moved_nests, kernel_made};
ghost use Rattle.nest_core.specs.Shapes.{IsShapedNest, FitsNest, AllFit, IsShaped, Fits};

use crate::form::Frame;
use crate::order::{in_text_order, number};
use crate::rewrite::{make_rows, make_terms, rewrite_access, rewrite_body};
use c_tree::Program;
use chill_base::{List, Stop};
use int_rows::Excess;
use nest_tree::{Kernel, Moves, Nest, Piece};
use std::alloc::Global;

/// How the variables of a statement's forms stand to those of a piece.
fn frame_of(head: &Program, nest: &Nest, piece: &Piece) -> Frame
    ensures { result ≡ frame_of (length head.now.params) nest.now piece.now }
{
    Frame {
        params: head.params.len(),
        levels: nest.levels.len(),
        terms: nest.terms.len(),
        new_levels: piece.levels.len(),
        new_terms: piece.terms.len(),
    }
}

/// The statement that a piece makes. It goes over its matrix as a whole only where the piece is the only one.
#[tactic(auto, unfolding(crate::specs::Pieces::nest_of_piece))]
pub fn make_nest(
    alloc: Global,
    head: &Program,
    alone: bool,
    nest: &Nest,
    piece: &Piece,
) -> Result<Nest, Stop<Excess>>
    requires nest { IsShapedNest head.now nest.now }
    requires piece { FitsNest (length head.now.params) nest.now piece.now }
    ensures { Gives result (nest_of_piece (length head.now.params) alone nest.now piece.now) }
{
    let frame = frame_of(head, nest, piece);
    let old = piece.old.as_slice();
    let rows = make_rows(alloc, frame, nest, piece)?;
    let terms = make_terms(alloc, frame, nest, piece)?;
    let target = rewrite_access(alloc, frame, old, &nest.target)?;
    let value = rewrite_body(alloc, frame, old, &nest.value)?;
    Ok(Nest {
        levels: List::from_slice(alloc, piece.levels.as_slice())?,
        positions: List::from_slice(alloc, piece.positions.as_slice())?,
        terms,
        rows,
        target,
        how: nest.how,
        value,
        whole: if alone { nest.whole } else { None },
    })
}

/// The statements that the pieces of one statement make.
fn make_pieces(
    alloc: Global,
    head: &Program,
    nest: &Nest,
    pieces: &[Piece],
) -> Result<List<Nest>, Stop<Excess>>
    requires nest { IsShapedNest head.now nest.now }
    requires pieces { AllByRecursion (FitsNest (length head.now.params) nest.now) pieces.now }
    ensures { Gives result (pieces_made (length head.now.params) nest.now pieces.now) }
{
    let alone = pieces.len() == 1;
    let mut new = List::new(alloc);
    for piece in pieces {
        new.push(make_nest(alloc, head, alone, nest, piece)?)?;
    }
    Ok(new)
}

/// The statements that all pieces make, by rising statement.
fn make_all(
    alloc: Global,
    head: &Program,
    nests: &[Nest],
    pieces: &[List<Piece>],
) -> Result<List<Nest>, Stop<Excess>>
    requires nests { AllByRecursion (IsShapedNest head.now) nests.now }
    requires pieces { AllFit (length head.now.params) nests.now pieces.now }
    ensures { Gives result (nests_made (length head.now.params) nests.now pieces.now) }
{
    let mut new = List::new(alloc);
    for i in 0..nests.len() {
        new.append(make_pieces(alloc, head, &nests[i], pieces[i].as_slice())?)?;
    }
    Ok(new)
}

/// The number of statements.
pub fn statements(kernel: &Kernel) -> usize
    ensures { result ≡ length kernel.now.nests }
{
    kernel.nests.len()
}

/// The statements of the kernel after the moves, made aside.
#[tactic(auto, unfolding(crate::specs::Pieces::moved_nests))]
pub fn make_nests(alloc: Global, kernel: &Kernel, moves: &Moves) -> Result<List<Nest>, Stop<Excess>>
    requires shaped { IsShaped kernel.now }
    requires fits { Fits kernel.now moves.now }
    ensures { Gives result (moved_nests kernel.now moves.now) }
{
    let nests = make_all(
        alloc,
        &kernel.head,
        kernel.nests.as_slice(),
        moves.pieces.as_slice(),
    )?;
    let mut ordered = in_text_order(alloc, nests)?;
    number(alloc, &mut ordered)?;
    Ok(List::from_vec(ordered))
}

/// Puts the pieces in the place of the statements.
pub fn apply_pieces(alloc: Global, kernel: &mut Kernel, moves: &Moves) -> Result<(), Stop<Excess>>
    requires shaped { IsShaped kernel.old }
    requires fits { Fits kernel.old moves.now }
    ensures made { Changes result kernel.old kernel.new (kernel_made kernel.old moves.now) }
    ensures shaped { OnOk result (IsShaped kernel.new) }
{
    kernel.nests = make_nests(alloc, kernel, moves)?;
    Ok(())
}
