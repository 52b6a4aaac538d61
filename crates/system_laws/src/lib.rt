//! Laws of systems: what eliminations leave of a statement's rows.
#![tactic(auto)]

ghost use Rattle.system_laws.specs.Bounds.{BoundedLevelHasBounds};
ghost use Rattle.system_laws.specs.Tightened.{PassedRowsAreKept};
ghost use Rattle.system_laws.specs.Examples.{BoundsOfTriangle, PassedRowOfTriangle};

/// A variable that is bounded in each direction of a system has bounds on both sides in what eliminations leave.
pub fn bounded_level_has_bounds()
    ensures { BoundedLevelHasBounds }
{}

/// A row that an elimination passes over stays, or a tighter one with its coefficients stands for it.
pub fn passed_rows_are_kept()
    ensures { PassedRowsAreKept }
{}

/// The bounds of the outer loop over a triangle.
pub fn bounds_of_triangle()
    ensures { BoundsOfTriangle }
{}

/// A row of the outer loop over a triangle.
pub fn passed_row_of_triangle()
    ensures { PassedRowOfTriangle }
{}
