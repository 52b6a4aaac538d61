//! Laws of moves: what commands keep of the order, of the bounds and of the effect of a kernel.
#![tactic(auto)]

ghost use Rattle.move_laws.specs.Unchanged.{UnchangedKeepsEffect};
ghost use Rattle.move_laws.specs.Recounting.{RecountingKeepsOrder, NumberingKeepsOrder};
ghost use Rattle.move_laws.specs.Bounded.{RewrittenStaysBounded};
ghost use Rattle.move_laws.specs.Examples.{UnchangedLoop, BoundedLoop, RecountedPositions};

/// Moves that change the order of no two conflicting assignments keep the effect.
pub fn unchanged_keeps_effect()
    ensures { UnchangedKeepsEffect }
{}

/// Positions that are counted anew keep the order of statements and the loops that they share.
pub fn recounting_keeps_order()
    ensures { RecountingKeepsOrder }
{}

/// Statements that are numbered anew keep their order and the loops that they share.
pub fn numbering_keeps_order()
    ensures { NumberingKeepsOrder }
{}

/// A rewritten statement is bounded in every direction where the old one is.
pub fn rewritten_stays_bounded()
    ensures { RewrittenStaysBounded }
{}

/// A shifted loop, whose assignments keep their order.
pub fn unchanged_loop()
    ensures { UnchangedLoop }
{}

/// A shifted loop, which stays bounded.
pub fn bounded_loop()
    ensures { BoundedLoop }
{}

/// Three positions that are counted anew.
pub fn recounted_positions()
    ensures { RecountedPositions }
{}
