//! Prints programs, in the fewest parentheses that give their trees back.
#![tactic(auto)]

mod ahead;
mod data;
mod index;
mod level;
mod program;
mod statement;

pub use level::Level;
pub use program::print_program;
