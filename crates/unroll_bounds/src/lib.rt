//! The rows that `unroll` finds for a level, and the copies that it makes, are those of which the laws of unrolled statements
//! speak. Each function here carries one law, or a worked case of one, as its contract.
#![tactic(auto)]

ghost use Rattle.unroll_bounds.specs.Laws.{FoundBoundsAreBounds};
ghost use Rattle.unroll_bounds.specs.Copies.{CopyIsOfTheLaw};
ghost use Rattle.unroll_bounds.specs.Examples.{WorkedBounds, WorkedCopy};

/// What is found for a level of a shaped statement bounds that level.
pub fn found_bounds_are_bounds()
    ensures { FoundBoundsAreBounds }
{}

/// The forms and rows of a copy of the full loop are those of the law.
pub fn copy_is_of_the_law()
    ensures { CopyIsOfTheLaw }
{}

/// A loop from 0 to below n.
pub fn worked_bounds()
    ensures { WorkedBounds }
{}

/// Its copy at place 1 of groups of four.
pub fn worked_copy()
    ensures { WorkedCopy }
{}
