// Arrays that commands make.
use chill_base::{List, Name};

/// An array that a command has made.
#[derive(Drop)]
pub struct Made {
    pub name: Name,
    /// The matrix that it was made from, by its number in the head; 0 for a copy.
    pub matrix: usize,
    pub what: MadeWhat,
}

/// What a made array holds.
#[derive(Drop)]
pub enum MadeWhat {
    /// Where the kept values of each group of so many rows begin; 0 rows for the whole matrix.
    Pointer {
        rows: i64,
        count: Name,
    },
    /// The kept values of `floord(column + c*row + s0, divisor)`.
    Kept {
        c: i64,
        s0: i64,
        divisor: i64,
        count: Name,
    },
    /// The number of kept values.
    Count,
    /// One more than the last position that each value got.
    Mark,
    /// The length of the longest row.
    Width,
    /// The columns of padded rows.
    Columns {
        width: Name,
    },
    /// Dense blocks of so many rows and columns, one for each kept value.
    Block {
        count: Name,
        rows: i64,
        cols: i64,
    },
    /// Diagonals, one for each kept value.
    Diag {
        count: Name,
    },
    /// The values of padded rows.
    Padded {
        width: Name,
    },
    /// A copy of a box of another array.
    Copy {
        extents: List<i64>,
    },
}
