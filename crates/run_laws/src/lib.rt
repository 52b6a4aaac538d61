//! What the grammar and the rules say of runs.
#![tactic(auto)]

mod laws;

pub use laws::{copy_can_run, programs_can_run, programs_have_divisors};
