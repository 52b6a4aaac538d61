//! The commands of a recipe, applied to a kernel.
#![tactic(auto)]

mod dispatch;

pub use dispatch::apply;
