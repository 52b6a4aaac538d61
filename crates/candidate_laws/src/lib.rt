//! What the candidates of a dependence test are, by membership: each function here carries one law as its contract.
#![tactic(auto)]

ghost use Rattle.candidate_laws.specs.Membership.{CandidatesByMembership};
ghost use Rattle.candidate_laws.specs.Examples.{WorkedCandidates};

/// A candidate is listed exactly where six conditions hold of it.
pub fn candidates_by_membership()
    ensures { CandidatesByMembership }
{}

/// The candidates of a loop that is shifted.
pub fn worked_candidates()
    ensures { WorkedCandidates }
{}
