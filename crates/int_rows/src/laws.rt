// What elimination and exclusion mean. Each function is there for its contract alone.
ghost use Rattle.int_rows.specs.Laws.{EliminationKeepsPoints, ExcludedHasNoPoint, OtherHasScaledPoint, ImpliedHolds, SubstitutionMovesPoints};

/// Each point of a system meets all rows that an elimination leaves.
pub fn elimination_keeps_points()
    ensures { EliminationKeepsPoints }
{}

/// An excluded system has no integer point.
pub fn excluded_has_no_point()
    ensures { ExcludedHasNoPoint }
{}

/// Any other system has a point when its constants are multiplied by some number of at least 1.
pub fn other_has_scaled_point()
    ensures { OtherHasScaledPoint }
{}

/// What is implied holds at each integer point.
pub fn implied_holds()
    ensures { ImpliedHolds }
{}

/// A substitution keeps the points, with the form's value for the variable.
pub fn substitution_moves_points()
    ensures { SubstitutionMovesPoints }
{}
