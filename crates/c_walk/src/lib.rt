//! The run of the statements of a section, over any memory.
#![tactic(auto)]

mod data;
mod halt;
mod listener;
mod memory;
mod steps;
mod walk;

pub use halt::Halt;
pub use listener::{Listener, Silent};
pub use memory::Memory;
pub use walk::{positions_after, run_statement, run_statements};
