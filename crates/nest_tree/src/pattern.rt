// What a statement that goes over a whole sparse matrix looks like.
use crate::Form;
use c_tree::Matrix;

/// The matrix of a whole statement, and the forms of its levels; those past the depth are `Other`.
#[derive(Clone, Copy)]
pub struct Pattern {
    pub matrix: Matrix,
    pub depth: usize,
    pub forms: [Form; 8],
}
