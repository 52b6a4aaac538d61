//! A statement that goes over the entries of a sparse matrix's rows goes over all columns, and to each over its entries.
#![tactic(auto)]

mod bounds;
mod column;
mod command;
mod dense;
mod forms;
mod judge;
mod moves;
mod piece;
mod places;

pub use command::make_dense;
