//! Worked instances of the laws of `nest_laws`, and of the laws of runs of `c_meaning`: each function here carries one as its
//! contract, so that something meets each premise of a law. The worked pieces of `unroll` stand in `unroll_laws`, worked runs
//! and scans in `scan_laws`.
#![tactic(auto)]

mod commands;
mod kernels;
mod order;
mod runs;

pub use commands::{
    permuted_grid, placed_loop, shifted_loop, skewed_grid, tiled_loop, worked_levels,
};
pub use kernels::{diagonal_kernel, nested_terms};
pub use order::{one_sorted_list, order_of_two_statements, weaker_premises_fail};
pub use runs::{copying_run, leaves_of_a_loop};
