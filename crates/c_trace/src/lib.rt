//! Trace lines: assignments over cells, printed at their places without memory.
#![tactic(auto)]

mod cell;
mod data;
mod left_side;
mod line;

pub use line::print_assignment;
