//! `unroll`: a loop whose body stands several times, and loops for what is left of the last group.
#![tactic(auto)]

mod bounds;
mod group;
mod moves;
mod pieces;
mod positions;
mod replaced;
mod roles;
mod same;
mod shapes;

pub use moves::unroll_moves;
