//! What index expressions and programs mean, and the value of an index expression.
#![tactic(auto)]

mod eval;
mod fault;
pub mod laws;
mod sized;
mod view;

pub use eval::{eval_index, eval_subscripts, eval_test};
pub use fault::EvalFault;
pub use view::View;
