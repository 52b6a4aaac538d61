//! Laws of systems at points: what a statement's system says holds where the statement has a point.
#![tactic(auto)]

ghost use Rattle.point_laws.specs.Seats.{PlainPlacesAlike};
ghost use Rattle.point_laws.specs.Seated.{PlacedIsReplaced};
ghost use Rattle.point_laws.specs.Alike.{EqualFormsHaveOneValue};
ghost use Rattle.point_laws.specs.Standing.{TermsAreStoodFor};
ghost use Rattle.point_laws.specs.Placed.{PlacedFormHasValue, PlacedRowsAreMet};
ghost use Rattle.point_laws.specs.Values.{ValueRowsAreMet};
ghost use Rattle.point_laws.specs.Begun.{BegunRowsAreMet};
ghost use Rattle.point_laws.specs.Own.{OwnIsMet};
ghost use Rattle.point_laws.specs.Examples.{NothingMadeHasNoCounts, SparseSystem};

/// The code's seats as plain data give the rows that the code gives.
pub fn plain_places_alike()
    ensures { PlainPlacesAlike }
{}

/// A form in its seats is the form with each variable replaced by its seat.
pub fn placed_is_replaced()
    ensures { PlacedIsReplaced }
{}

/// Two forms that are equal where each term counts as the one that stands for it have one value.
pub fn equal_forms_have_one_value()
    ensures { EqualFormsHaveOneValue }
{}

/// Each term that the rows and forms of a system hold has the value of the one that stands for it.
pub fn terms_are_stood_for()
    ensures { TermsAreStoodFor }
{}

/// A placed form is worth at a point of the system what the statement's form is worth at its own.
pub fn placed_form_has_value()
    ensures { PlacedFormHasValue }
{}

/// Placed rows are met at a point of the system where the statement's rows are met at its own.
pub fn placed_rows_are_met()
    ensures { PlacedRowsAreMet }
{}

/// Where the arrays keep their ranges, the rows of value ranges are met at the values of terms.
pub fn value_rows_are_met()
    ensures { ValueRowsAreMet }
{}

/// The rows that all systems have are met at each point that begins with the parameters.
pub fn begun_rows_are_met()
    ensures { BegunRowsAreMet }
{}

/// All rows of a statement's own system are met where the statement has a point, on each input whose arrays keep their ranges.
pub fn own_is_met()
    ensures { OwnIsMet }
{}

/// Where no array is made, no value range speaks of a cell `count[0]`.
pub fn nothing_made_has_no_counts()
    ensures { NothingMadeHasNoCounts }
{}

/// The system of a loop over the entries of a matrix, at one of its points.
pub fn sparse_system()
    ensures { SparseSystem }
{}
