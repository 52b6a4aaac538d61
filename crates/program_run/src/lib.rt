//! Runs of programs on data texts: the values of a text, the text that a run leaves, and the lines of a traced run.
#![tactic(auto)]

mod read;
mod runs;

pub use read::values_of;
pub use runs::{TraceStop, run, trace};
