//! Executors as plain data mean what their statements mean: each function here carries one law, or a worked case, as its contract.
#![tactic(auto)]

ghost use Rattle.executor_laws.specs.Examples.{WorkedExecutor};
ghost use Rattle.executor_laws.specs.Sites.{SitesAreLeaves};
ghost use Rattle.executor_laws.specs.Trees.{TreeOfExecutor};

/// The tree of an executor is that of its plain data.
pub fn tree_of_executor()
    ensures { TreeOfExecutor }
{}

/// The leaves of an executor's loops are its assignments.
pub fn sites_are_leaves()
    ensures { SitesAreLeaves }
{}

/// A loop with two assignments, one of them in a guard, by its plain data.
pub fn worked_executor()
    ensures { WorkedExecutor }
{}
