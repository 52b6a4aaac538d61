// Why a command is refused.
use chill_base::Name;
use int_rows::Excess;

/// The condition of a command that isn't met, in the order in which they are judged.
#[derive(Clone, Copy, Debug, PartialEq, Eq)]
pub enum ShapeWhy {
    NoStatement,
    NoLoop,
    NotPermutation,
    NotShared,
    TermFirst,
    LowerBounds,
    InnerBound,
    NotTraversal,
    NotProduct,
    NotAlone,
    NotReadOnly,
    NotConstant,
    NameTaken,
    Limit,
}

/// Two statements whose accesses to an array a command would put in another order.
#[derive(Clone, Copy, PartialEq, Eq)]
pub struct Dependence {
    pub from: usize,
    pub to: usize,
    pub array: Name,
    /// The loop that carried the order before, counted from 1; 0 for the order of the text.
    pub old_level: usize,
    /// The loop that would carry the opposite order.
    pub new_level: usize,
}

/// Why a command is refused.
#[derive(Clone, Copy, PartialEq, Eq)]
pub enum CommandFault {
    Shape(ShapeWhy),
    Depends(Dependence),
    Overflow(Excess),
}
