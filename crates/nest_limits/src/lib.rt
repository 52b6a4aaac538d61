//! How deep brackets nest in the expressions of a kernel as they are printed.
#![tactic(auto)]

mod body;
mod form;
mod nest;

pub use nest::{MOST_BRACKETS, are_within};
