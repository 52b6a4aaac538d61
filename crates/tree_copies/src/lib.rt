//! Copies of trees, which walk along long sums and products by loops.
#![tactic(auto)]

mod data;
mod index;

pub use data::copy_expr;
pub use index::{copy_cell, copy_index, copy_indexes};
