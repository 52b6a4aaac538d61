// What a level of a whole statement stands for.

/// The form of a level of a statement that goes over a whole sparse matrix.
#[derive(Clone, Copy, Debug, PartialEq, Eq)]
pub enum Form {
    Other,
    /// `floord(r*row + j*column + k*place + constant, divisor)`, of the entry's row, column and place.
    Whole {
        r: i64,
        j: i64,
        k: i64,
        constant: i64,
        divisor: i64,
    },
}
