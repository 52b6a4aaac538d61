// Unrolled statements.
ghost use Rattle.unroll_laws.specs.Laws.{GroupPieceStandsForOld, UnrolledStatementIsOneToOne};
ghost use Rattle.unroll_laws.specs.Examples.{WorkedUnrolling};

/// A copy of the full loop, or a rest, is the old statement at the values of its groups.
pub fn group_piece_stands_for_old()
    ensures { GroupPieceStandsForOld }
{}

/// Copies and rests take each old instance to one new point of one piece.
pub fn unrolled_statement_is_one_to_one()
    ensures { UnrolledStatementIsOneToOne }
{}

/// Ten assignments in groups of four meet what is asked of unrolled statements.
pub fn worked_unrolling()
    ensures { WorkedUnrolling }
{}
