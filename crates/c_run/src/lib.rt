//! Runs of programs: the inspector, and then the executor.
#![tactic(auto)]

mod arrays;
mod fault;
mod inspector;
mod machine;
mod numbers;
mod sections;
mod signed;
mod store;

pub use fault::{RunFault, Section, TraceFault};
pub use machine::{Machine, Stage};
