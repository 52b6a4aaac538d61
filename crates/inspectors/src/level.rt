// What is compacted.
use crate::numbers::KeptForm;
use c_tree::Matrix;

/// The rows whose entries have their kept values together.
#[derive(Clone, Copy)]
pub enum Group {
    /// All rows.
    All,
    /// So many rows.
    Rows(i64),
}

/// A compacted level of a statement that goes over a whole matrix.
#[derive(Clone, Copy)]
pub struct Compacted {
    pub matrix: Matrix,
    /// The number of columns stands before the number of rows in the signature.
    pub cols_first: bool,
    pub form: KeptForm,
    pub group: Group,
}
