// Why a source isn't accepted.
use chill_base::Name;
use int_rows::Excess;

/// What is counted or measured in a source.
#[derive(Clone, Copy, Debug, PartialEq, Eq)]
pub enum SourceWhat {
    /// Statements of the inspector.
    Inspector,
    /// A multiple of a parameter, loop variable or term, in a part of an expression.
    Coefficient,
    /// The constant of a part of an expression.
    Constant,
    /// Brackets around one place of an expression.
    Nest,
    /// Operands of one bound.
    Bounds,
}

/// Where an expression stands.
#[derive(Clone, Copy, Debug, PartialEq, Eq)]
pub enum Part {
    Bound,
    Guard,
    Subscript,
}

/// On which side of an array an access may lie.
#[derive(Clone, Copy, Debug, PartialEq, Eq)]
pub enum Side {
    Below,
    Past,
}

/// What grew too large.
#[derive(Clone, Copy, Debug, PartialEq, Eq)]
pub enum SourceExcess {
    /// The size of an expression or a row, past 2^62.
    Size,
    /// A limit of set work, in the test that an access is inside.
    Set(Excess),
}

/// Why a source isn't accepted. A statement's number is its place among the assignments of the executor; a bound or a
/// guard goes with the first statement in it.
#[derive(Clone, Copy, PartialEq, Eq)]
pub enum SourceFault {
    Limit {
        what: SourceWhat,
        count: u64,
    },
    NotAffine {
        statement: usize,
        part: Part,
    },
    Overflow {
        statement: usize,
        why: SourceExcess,
    },
    Outside {
        statement: usize,
        array: Name,
        side: Side,
    },
}
