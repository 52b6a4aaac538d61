//! Worked sources, by the definition of acceptance: each function here carries computed cases as its contract.
#![tactic(auto)]

ghost use Rattle.worked_acceptance.specs.Examples.{CopyIsAccepted, NextCellIsRefused, ProductIsKept};
ghost use Rattle.worked_acceptance.specs.Guarded.{GuardedIsAccepted};

/// A copy is accepted, and a copy of the next cell isn't.
pub fn worked_copies()
    ensures accepted { CopyIsAccepted }
    ensures refused { NextCellIsRefused }
{}

/// A product with a sparse matrix becomes a statement over the whole matrix.
pub fn worked_product()
    ensures { ProductIsKept }
{}

/// A source with a guard, reads in bounds and two statements is accepted.
pub fn worked_guard()
    ensures { GuardedIsAccepted }
{}
