//! Programs of the first form: one loop, or two perfectly nested ones, around one assignment of a cell or a number. Such a
//! program is written as it stands, but for the names of its loop variables.
#![tactic(auto)]

mod copied;
mod nest;
mod size;

pub use nest::renamed;
