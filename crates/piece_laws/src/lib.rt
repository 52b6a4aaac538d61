//! The pieces that commands make in code are those of which the laws on pieces speak: each function here carries one law as its
//! contract.
#![tactic(auto)]

ghost use Rattle.piece_laws.specs.Laws.{PermuteMakesPermutedPiece, ShiftMakesShiftedPiece, SkewMakesSkewedPiece, StayMakesPlacedPiece, TileMakesTiledPiece};

/// `shift` makes a shifted piece of every statement.
pub fn shift_makes_shifted_piece()
    ensures { ShiftMakesShiftedPiece }
{}

/// A statement that stays has a piece that only stands elsewhere.
pub fn stay_makes_placed_piece()
    ensures { StayMakesPlacedPiece }
{}

/// `tile` makes a tiled piece of every statement that has the level.
pub fn tile_makes_tiled_piece()
    ensures { TileMakesTiledPiece }
{}

/// `skew` makes a skewed piece of every statement that has the level.
pub fn skew_makes_skewed_piece()
    ensures { SkewMakesSkewedPiece }
{}

/// An order of all levels makes a permuted piece of every statement.
pub fn permute_makes_permuted_piece()
    ensures { PermuteMakesPermutedPiece }
{}
