//! The statements that pieces make in code are those of which the laws speak.
#![tactic(auto)]

ghost use Rattle.kernel_laws.specs.Laws.{PieceRewritesStatement};
ghost use Rattle.kernel_laws.specs.Examples.{WorkedPiece};

/// A statement that a piece makes is the old one in the new variables.
pub fn piece_rewrites_statement()
    ensures { PieceRewritesStatement }
{}

/// A loop that is shifted by five.
pub fn worked_piece()
    ensures { WorkedPiece }
{}
