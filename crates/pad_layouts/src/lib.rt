//! What a statement that goes over a whole sparse matrix can be padded to, and the statement that it becomes.
#![tactic(auto)]

mod block;
mod body;
mod column;
mod diag;
mod forms;
mod kept;
mod layout;
mod moved;
mod parts;
mod plan;
mod product;
mod rows;
mod statement;

pub use block::Sides;
pub use column::is_name;
pub use layout::{Layout, layout_of, level_of};
pub use parts::{KeptArrays, RowArrays};
pub use plan::{Plan, plan_of};
pub use statement::{block_nest, diag_nest, row_nest};
