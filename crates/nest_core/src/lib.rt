//! Kernels at work: what a statement becomes by pieces, and how a kernel is put in order afterwards.
#![tactic(auto)]

mod apply;
mod chain;
mod form;
mod numbers;
mod order;
mod rewrite;
mod terms;
mod total;

pub use apply::{apply_pieces, make_nest, make_nests, statements};
pub use chain::{Chain, Leaf, Link, Operation, chain_of, join};
pub use form::{Frame, judge_form};
pub use numbers::{LIMIT, is_small, product};
pub use order::{number, shared_loops, shares_loop};
pub use terms::{is_held, names, names_inside};
pub use total::Total;
