//! Laws of what a scan knows around a place: what its claims imply holds.
#![tactic(auto)]

ghost use Rattle.asked_laws.specs.Asked.{ImpliedClaimsHold, RangesCanBeRead};
ghost use Rattle.asked_laws.specs.Examples.{WorkedContext, WorkedRanges};

/// An inequality that the claims of a context imply holds at the level values at which they do.
pub fn implied_claims_hold()
    ensures { ImpliedClaimsHold }
{}

/// The claims that a read's arguments are in their ranges can be read where the reads in its arguments are found.
pub fn ranges_can_be_read()
    ensures { RangesCanBeRead }
{}

/// In a loop from 0 to below n, n is at least 1.
pub fn worked_context()
    ensures { WorkedContext }
{}

/// The column of the first entry of a row: its argument is a read.
pub fn worked_ranges()
    ensures { WorkedRanges }
{}
