//! How a call of `chill` ends: its outcomes, their exit statuses, and the line of each.
#![tactic(auto)]

mod lines;
mod outcome;
mod say_command;
mod say_program;
mod say_run;
mod words;

pub use lines::say;
pub use outcome::{Outcome, Refusal, status};
