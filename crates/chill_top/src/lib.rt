//! The top call: words, files and two sinks in, an outcome out.
#![tactic(auto)]

mod answer;
mod emitting;
mod working;

pub use answer::chill;
pub use emission::emit;
pub use measured_run::work;
pub use text_runs::{RunStop, run_program, trace_program};
