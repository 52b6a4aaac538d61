//! What is printed for forms, bounds, tests and assignments: each function here carries one law, or a worked case, as its contract.
#![tactic(auto)]

ghost use Rattle.printed_laws.specs.Assigned.{AssignmentsTest};
ghost use Rattle.printed_laws.specs.Between.{RowsHoldBetweenBounds};
ghost use Rattle.printed_laws.specs.Examples.{WorkedBound, WorkedForm, WorkedInnerRow, WorkedLevels, WorkedRows, WorkedSides, WorkedTest};
ghost use Rattle.printed_laws.specs.Laws.{PrintedAssignmentsPerform, PrintedBoundsHaveValues, PrintedFormsHaveValues, PrintedTestsSay};
ghost use Rattle.printed_laws.specs.Loops.{PrintedHeadsHaveValues};
ghost use Rattle.printed_laws.specs.Opened.{OpenedLoopsDo};
ghost use Rattle.printed_laws.specs.Orders.{OrdersAreDistinct, WorkedOrder};
ghost use Rattle.printed_laws.specs.Seeing.{LoopsSeeLevels};

/// A form is printed as an expression of its value, and of a small size by its text: it has no fault.
pub fn printed_forms_have_values()
    ensures { PrintedFormsHaveValues }
{}

/// A lower bound is printed as the least integer that isn't below it, an upper one as 1 more than the greatest that isn't above it.
pub fn printed_bounds_have_values()
    ensures { PrintedBoundsHaveValues }
{}

/// A claim is printed as a test that is true exactly where the claim holds.
pub fn printed_tests_say()
    ensures { PrintedTestsSay }
{}

/// A loop begins at the least of its statements' bounds and ends before the greatest, and keeps to its size.
pub fn printed_heads_have_values()
    ensures { PrintedHeadsHaveValues }
{}

/// An assignment is printed as its statement's step.
pub fn printed_assignments_perform()
    ensures { PrintedAssignmentsPerform }
{}

/// Rows that name a level hold exactly where its value is between the bounds that they give.
pub fn rows_hold_between_bounds()
    ensures { RowsHoldBetweenBounds }
{}

/// Inside loops the levels' variables have their values, and all else is as outside.
pub fn loops_see_levels()
    ensures { LoopsSeeLevels }
{}

/// A loop's tests have an answer; where it is true, its bounds have their values, and its rows are said in each turn.
pub fn opened_loops_do()
    ensures { OpenedLoopsDo }
{}

/// An assignment's tests have an answer; where it is true, the rows that no loop says hold.
pub fn assignments_test()
    ensures { AssignmentsTest }
{}

/// The orders in which reads are printed name none twice.
pub fn orders_are_distinct()
    ensures { OrdersAreDistinct }
{}

/// A multiple of a read in the argument of another.
pub fn worked_form()
    ensures { WorkedForm }
{}

/// Its quotient, rounded up.
pub fn worked_bound()
    ensures { WorkedBound }
{}

/// The test that it is at least 0.
pub fn worked_test()
    ensures { WorkedTest }
{}

/// A level between a read and half of another.
pub fn worked_rows()
    ensures { WorkedRows }
{}

/// Two loops.
pub fn worked_levels()
    ensures { WorkedLevels }
{}

/// A statement that is bounded by these rows.
pub fn worked_sides()
    ensures { WorkedSides }
{}

/// A row that holds a read in the argument of another.
pub fn worked_inner_row()
    ensures { WorkedInnerRow }
{}

/// A number that is there already.
pub fn worked_order()
    ensures { WorkedOrder }
{}
