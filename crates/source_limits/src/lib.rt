//! Sources: the assignments of an executor, the reads and the affine forms of their expressions, and the limits that these
//! keep.
#![tactic(auto)]

mod affine;
mod brackets;
mod copy;
mod count;
mod fault;
mod judge;
mod parts;
mod reads;
mod site;
mod spine;
mod weight;

pub use affine::{At, Variables, form, not_affine, over};
pub use copy::signature_of;
pub use count::count_statements;
pub use fault::{Part, Side, SourceExcess, SourceFault, SourceWhat};
pub use judge::{
    Scene, judge_site, names_of, read_of, reads_of, sizes_of, subscript_at, variables,
};
pub use parts::{cells, expressions, subscripts};
pub use reads::{Mention, Read, is_name, is_read, mentions};
pub use site::{Around, Site, first_inside, positions, sites};
pub use spine::{Chain, End, Leaf, Link, Sign, chain_of, operands};
pub use weight::LevelSize;
