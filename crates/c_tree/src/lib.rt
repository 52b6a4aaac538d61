//! The tree of a program: what a text of the language stands for.
#![tactic(auto)]

mod data;
mod index;
mod program;
mod statement;

pub use data::Expr;
pub use index::{Cell, Index, Subscripts};
pub use program::{Array, Kind, Matrix, Program};
pub use statement::{Cmp, How, Stmt, Test};
