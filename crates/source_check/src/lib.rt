//! The acceptance of sources: an executor becomes statements, unless a limit is passed, an expression isn't affine, or an
//! access may leave its array.
#![tactic(auto)]

mod inside;
mod nest;
mod rows;
mod source;
mod whole;

pub use source::accept;
pub use source_limits::{Part, Side, SourceExcess, SourceFault, SourceWhat};
