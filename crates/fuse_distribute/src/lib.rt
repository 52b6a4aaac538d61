//! Commands that put the statements of two loops into one, and that split a loop in two.
#![tactic(auto)]

mod distribute;
mod fuse;
mod moving;
mod shapes;

pub use distribute::distribute_moves;
pub use fuse::fuse_moves;
