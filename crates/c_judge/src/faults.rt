// Why a program is refused.
use chill_base::Name;

/// A number of a program that has a limit.
#[derive(Clone, Copy, Debug, PartialEq, Eq)]
pub enum LimitWhat {
    Signature,
    Locals,
    Assignments,
    InspectorStatements,
    Matrices,
    Extent,
}

/// Why a name can't stand where it does.
#[derive(Clone, Copy, Debug, PartialEq, Eq)]
pub enum NameWhy {
    /// No such name is in scope.
    Unknown,
    /// The name is in scope already.
    Twice,
    /// The place needs a name of another kind.
    Kind,
    /// The array has another number of extents.
    Dims,
    /// An index array of the signature that belongs to no matrix.
    NoMatrix,
    /// A matrix whose arrays aren't declared as a matrix needs them.
    Matrix,
    /// A name of the signature that loops are given in printed programs.
    Reserved,
}

/// Why a text is no program.
#[derive(Clone, Copy, PartialEq, Eq)]
pub enum ProgramFault {
    /// The first token, counted from 1, with which no text of the grammar goes on.
    Syntax { token: usize },
    /// The count that passes its limit; for an extent, the number of its array.
    Limit { what: LimitWhat, count: u64 },
    Name { name: Name, why: NameWhy },
    /// An array that is changed where it must stay as it is.
    Fixed { name: Name },
}
