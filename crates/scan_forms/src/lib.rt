//! What a scan speaks of, the forms and rows over it, and what is printed for them.
#![tactic(auto)]

mod affine;
mod bounds;
mod claim;
mod copy_program;
mod fault;
mod local;
mod origin;
mod reads;
mod size;
mod summand;
mod table;
mod write;

pub use affine::{Affine, MOST_LEVELS};
pub use bounds::{Bound, Bounds, make_bounds};
pub use claim::{Claim, has_claim, push_claims};
pub use copy_program::with_executor;
pub use fault::{ScanFault, overflow};
pub use local::{local_form, local_rows, local_terms};
pub use origin::{Origin, place, place_read, place_row};
pub use reads::{Read, name_inner, name_ordered, name_reads, push_new};
pub use size::Sizes;
pub use table::Table;
pub use write::{
    Writer, Written, level_name, write_form, write_lower, write_subscripts, write_test, write_upper,
};
