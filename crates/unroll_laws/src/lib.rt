//! The pieces of `unroll` at whole statements: each function here carries one law, or a worked case of one, as its contract.
#![tactic(auto)]

mod laws;

pub use laws::{group_piece_stands_for_old, unrolled_statement_is_one_to_one, worked_unrolling};
