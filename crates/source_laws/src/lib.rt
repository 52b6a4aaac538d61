//! What the grammar says of executors.
#![tactic(auto)]

mod laws;

pub use laws::grammar_has_executor;
