// What the rules are about, besides trees.
use c_tree::{Array, Index};
use chill_base::{List, Name};

/// The section of a procedure in which a statement stands.
#[derive(Drop)]
pub struct Section {
    /// Whether arrays may be extended, and growable index arrays assigned to.
    pub is_inspector: bool,
    /// The growable index arrays that are declared before the statement.
    pub growable: List<Name>,
}

/// What stands in the brackets of a loop.
#[derive(Drop)]
pub struct Range {
    pub var: Name,
    pub low: Index,
    pub high: Index,
}

/// The parameters and arrays of a procedure.
#[derive(Drop)]
pub struct Signature {
    pub params: List<Name>,
    pub arrays: List<Array>,
}
