//! Reading programs.
#![tactic(auto)]

mod guard;
mod halt;
mod index;
mod judged;
mod program;
mod read;
mod sections;
mod signature;
mod statement;
mod value;
mod words;

pub use judged::read_program;
pub use read::{SyntaxAt, read_tree};
