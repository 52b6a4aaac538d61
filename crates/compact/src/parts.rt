// The parts of a statement that are made of its old ones.
use chill_base::List;
use nest_tree::{Access, Body, KernelRow, Term};

/// The parts of a statement that are made of its old ones.
#[derive(Drop)]
pub struct Parts {
    pub rows: List<KernelRow>,
    pub terms: List<Term>,
    pub target: Access,
    pub value: Body,
}
