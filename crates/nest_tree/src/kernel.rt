// Kernels and their statements.
use crate::{Access, Body, Form, Made};
use c_tree::{How, Program};
use chill_base::{List, Name};
use int_rows::{Aff, Row};

/// A read of an index array. Each argument is a form over the parameters, levels and terms.
#[derive(Drop)]
pub struct Term {
    pub array: Name,
    pub at: List<Aff>,
}

/// A row of a statement, over its parameters, levels and terms.
#[derive(Drop)]
pub struct KernelRow {
    pub row: Row,
    /// The level that a bound was made for, counted from 1; 0 for a guard.
    pub own: usize,
}

/// A statement in its loops.
#[derive(Drop)]
pub struct Nest {
    /// What each level stands for, from the outside.
    pub levels: List<Form>,
    /// The child positions around the levels: one more than there are levels.
    pub positions: List<usize>,
    /// The reads of index arrays, in order of first appearance.
    pub terms: List<Term>,
    pub rows: List<KernelRow>,
    pub target: Access,
    pub how: How,
    pub value: Body,
    /// The matrix that the statement goes over as a whole, by its number in the head.
    pub whole: Option<usize>,
}

/// An accepted program as statements, in textual order.
#[derive(Drop)]
pub struct Kernel {
    /// The signature, and the inspector that commands have made so far. The executor is empty.
    pub head: Program,
    /// The arrays that commands have made.
    pub made: List<Made>,
    pub nests: List<Nest>,
}
