//! Commands of files: how they end, the two that run programs, and the one that tells the place of a token.
#![tactic(auto)]

mod ending;
mod locating;
mod running;

pub use ending::{run_stopped, stopped, unread};
pub use locating::run_where;
pub use running::{run_run, run_trace};
