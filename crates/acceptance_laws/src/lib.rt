//! What acceptance means: each function here carries one law as its contract.
#![tactic(auto)]

ghost use Rattle.acceptance_laws.specs.Formed.{FormHasValue};
ghost use Rattle.acceptance_laws.specs.Listed.{MentionsAreListed};
ghost use Rattle.acceptance_laws.specs.Plain.{PlainIsExpression};
ghost use Rattle.acceptance_laws.specs.Rows.{BoundsHaveValues, RowsSayWithin, JudgedIsInside};
ghost use Rattle.acceptance_laws.specs.Safe.{AcceptedIsFine};
ghost use Rattle.acceptance_laws.specs.Scopes.{ReachedIsWithin};
ghost use Rattle.acceptance_laws.specs.Seen.{SafeIsFine};
ghost use Rattle.acceptance_laws.specs.Systems.{RangedSystemsAreMet};
ghost use Rattle.acceptance_laws.specs.Trees.{SafeExecutorIsFine};

/// The form of an affine expression has the expression's value, and the expression has its judged size.
pub fn form_has_value()
    ensures { FormHasValue }
{}

/// An index expression is that of its plain data.
pub fn plain_is_expression()
    ensures { PlainIsExpression }
{}

/// A bound has the greatest or the least of its operands' values.
pub fn bounds_have_values()
    ensures { BoundsHaveValues }
{}

/// The rows of loops and tests hold where the loop variables are within the bounds and the tests are true.
pub fn rows_say_within()
    ensures { RowsSayWithin }
{}

/// Where a run comes, the loop variables are within the forms of the bounds, and the forms of the tests compare so.
pub fn reached_is_within()
    ensures { ReachedIsWithin }
{}

/// What is judged inside is inside, wherever its system has a point.
pub fn judged_is_inside()
    ensures { JudgedIsInside }
{}

/// Where the arrays keep their ranges and a run comes, the system of what is known there has a point.
pub fn ranged_systems_are_met()
    ensures { RangedSystemsAreMet }
{}

/// Each term that an expression names is among the reads, and no two of these are the same.
pub fn mentions_are_listed()
    ensures { MentionsAreListed }
{}

/// Where each thing that is judged is fine and finds its terms wherever the terms around it are found, nothing has a fault.
pub fn safe_is_fine()
    ensures { SafeIsFine }
{}

/// Where all that acceptance judges is safe, nothing in the program's executor has a fault.
pub fn safe_executor_is_fine()
    ensures { SafeExecutorIsFine }
{}

/// An accepted program reaches no fault in a scene that keeps the ranges of its signature.
pub fn accepted_is_fine()
    ensures { AcceptedIsFine }
{}
