// Statements.
use crate::{Cell, Expr, Index, Kind};
use chill_base::{List, Name};

/// How two index expressions are compared.
#[derive(Clone, Copy, Debug, PartialEq, Eq)]
pub enum Cmp {
    Less,
    AtMost,
    More,
    AtLeast,
    Same,
}

/// A test of a guard.
#[derive(Drop)]
pub struct Test {
    pub left: Index,
    pub cmp: Cmp,
    pub right: Index,
}

/// How an assignment changes its target: `=`, `+=` or `-=`.
#[derive(Clone, Copy, Debug, PartialEq, Eq)]
pub enum How {
    Write,
    Add,
    Subtract,
}

/// A statement. `Put`, `Declare` and `Grow` stand in an inspector alone.
#[derive(Drop)]
pub enum Stmt {
    /// `var` runs from `low` to below `high`.
    For {
        var: Name,
        low: Index,
        high: Index,
        body: List<Stmt>,
    },
    /// The body runs where all tests hold.
    If {
        tests: List<Test>,
        body: List<Stmt>,
    },
    /// An assignment to a cell of a data array.
    Assign {
        target: Cell,
        how: How,
        value: Expr,
    },
    /// An assignment to a cell of a growable index array.
    Put {
        target: Cell,
        value: Index,
    },
    /// A growable array, with its extents behind the first.
    Declare {
        name: Name,
        kind: Kind,
        inner: List<Index>,
    },
    /// The first extent of a growable array is extended by so many zero cells.
    Grow {
        name: Name,
        by: Index,
    },
}
