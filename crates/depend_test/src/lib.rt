//! The test of a command: whether it keeps the order of all instances that name one cell by conflicting accesses.
#![tactic(auto)]

mod compact;
mod conflict;
mod first;
mod order;
mod pair;
mod put;
mod quick;
mod side;

pub use compact::first_compact_dependence;
pub use first::{first_dependence, first_dependence_among};
pub use put::{apply_tested, overflow};
pub use side::{Moved, Side, make_moved};
