//! Cells of 64 bits in raw memory that grow without moving, and grids of them by rows.
#![tactic(auto)]

mod block;
mod grid;
mod memory;
mod store;

pub use grid::Grid;
pub use store::Cells;
