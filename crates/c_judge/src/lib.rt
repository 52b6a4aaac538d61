//! The rules that a program's tree keeps beyond the grammar: limits, names in scope, and what may not be changed.
#![tactic(auto)]

mod faults;
mod fixed;
mod limits;
mod names;
mod rules;
mod scope;
mod signature;
mod size;
mod uses;

pub use faults::{LimitWhat, NameWhy, ProgramFault};
pub use rules::judge;
