//! `compact`: a loop over the columns of a sparse matrix, or over groups of them, runs over those alone that the entries
//! have.
#![tactic(auto)]

mod added;
mod arrays;
mod command;
mod counts;
mod mark;
mod matching;
mod names;
mod parts;
mod plan;
mod shapes;
mod statement;
mod variables;

pub use command::compact;
pub use mark::mark_inspector;
