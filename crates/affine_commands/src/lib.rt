//! Commands that give the instances of statements other places: their moves are made, tested and put into the kernel.
#![tactic(auto)]

mod fault;
mod loops;
mod shears;
mod unrolling;

pub use loops::{distribute, fuse, permute, tile};
pub use shears::{shift, skew};
pub use unrolling::unroll;
