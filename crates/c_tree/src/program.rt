// Programs.
use crate::{Index, Stmt};
use chill_base::{List, Name};

/// What the cells of an array are: data numbers, or positions in an index array.
#[derive(Clone, Copy, Debug, PartialEq, Eq)]
pub enum Kind {
    Number,
    Position,
}

/// The arrays and parameters of one sparse matrix in CSR form.
#[derive(Clone, Copy)]
pub struct Matrix {
    /// Where the entries of each row begin.
    pub index: Name,
    /// The column of each entry.
    pub col: Name,
    /// The value of each entry.
    pub value: Name,
    /// The number of rows.
    pub rows: Name,
    /// The number of columns.
    pub cols: Name,
    /// The number of entries.
    pub count: Name,
}

/// An array of the signature, with one to three extents.
#[derive(Drop)]
pub struct Array {
    pub name: Name,
    pub kind: Kind,
    pub extents: List<Index>,
}

/// A procedure: its signature, and an inspector, which may be empty, before an executor.
#[derive(Drop)]
pub struct Program {
    pub name: Name,
    pub matrices: List<Matrix>,
    pub params: List<Name>,
    pub arrays: List<Array>,
    pub inspector: List<Stmt>,
    pub executor: List<Stmt>,
}
