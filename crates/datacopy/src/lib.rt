//! A command that lets a statement read a copy of a box of an array.
#![tactic(auto)]

mod body;
mod bounds;
mod boxes;
mod command;
mod copying;
mod enter;
mod extents;
mod levels;
mod limits;
mod narrow;
mod nests;
mod reads;
mod rows;
mod shapes;
mod side;
mod sums;

pub use command::datacopy;
