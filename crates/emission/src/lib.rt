//! From a recipe and a source to the text that is written.
#![tactic(auto)]

mod compose;
mod kernel;
mod texts;

pub use compose::{emit, emitted_by};
pub use texts::{commands_of, read};
