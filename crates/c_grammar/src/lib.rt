//! The grammar of programs, and the laws of reading by it.
#![tactic(auto)]

mod pieces;

pub use pieces::{Range, Section, Signature};
