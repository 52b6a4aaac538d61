//! What printed tests and bounds give: each function here carries one law, or a worked case of one, as its contract.
#![tactic(auto)]

ghost use Rattle.print_laws.specs.Laws.{OrderedTestsHaveAnswer, NestedBoundsHaveValue, LevelKeepsToSize};
ghost use Rattle.print_laws.specs.Examples.{WorkedTests, WorkedBound, WorkedLevel};

/// Tests that are asked in order have an answer, without a fault.
pub fn ordered_tests_have_answer()
    ensures { OrderedTestsHaveAnswer }
{}

/// Nested bounds have the greatest and the least of their values.
pub fn nested_bounds_have_value()
    ensures { NestedBoundsHaveValue }
{}

/// A loop's values are no greater in size than its bounds.
pub fn level_keeps_to_size()
    ensures { LevelKeepsToSize }
{}

/// Tests around a read.
pub fn worked_tests()
    ensures { WorkedTests }
{}

/// A bound of two.
pub fn worked_bound()
    ensures { WorkedBound }
{}

/// A loop that begins below 0.
pub fn worked_level()
    ensures { WorkedLevel }
{}
