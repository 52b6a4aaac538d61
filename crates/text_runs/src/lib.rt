//! Runs of the program of a text on a data text.
#![tactic(auto)]

mod reading;
mod running;
mod tracing;
mod values;

pub use reading::read;
pub use running::{run_by, run_program};
pub use tracing::{RunStop, trace_by, trace_program};
pub use values::read_values;
