//! Laws of what rows imply: an inequality that a scan finds implied holds wherever the rows do.
#![tactic(auto)]

ghost use Rattle.implied_laws.specs.Implied.{ImpliedHolds};
ghost use Rattle.implied_laws.specs.Examples.{WorkedImplication};

/// Where the rows of a statement imply that a form is at least 0, it is, at each point at which they are met.
pub fn implied_holds()
    ensures { ImpliedHolds }
{}

/// The rows of a loop that goes from 0 to below n imply that n is at least 1.
pub fn worked_implication()
    ensures { WorkedImplication }
{}
