//! `compact_and_pad`: a statement over the entries of a sparse matrix becomes one over dense blocks, over diagonals, or over
//! rows of one width.
#![tactic(auto)]

mod command;
mod kinds;
mod made;
mod names;

pub use command::compact_and_pad;
