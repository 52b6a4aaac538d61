//! The lines that the compacting commands bring into an inspector: the kept values of a level with their marks, the layouts
//! of blocks and diagonals, and padded rows.
#![tactic(auto)]

mod expressions;
mod layout;
mod level;
mod marks;
mod names;
mod numbers;
mod rows;
mod store;
mod sums;
mod trees;

pub use layout::Layout;
pub use level::{Compacted, Group};
pub use marks::{block_inspector, compact_inspector, diag_inspector};
pub use names::{MarkNames, RowNames};
pub use numbers::KeptForm;
pub use rows::rows_inspector;
