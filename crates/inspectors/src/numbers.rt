// The numbers of a compacted level, and the sums that an inspector speaks of.
/// The values that a compacted level takes: `floord(column + c*row + s0, divisor)`.
#[derive(Clone, Copy)]
pub struct KeptForm {
    pub c: i64,
    pub s0: i64,
    pub divisor: i64,
}

/// `row*t1 + rows*n + cols*m + column*col[t2] + constant`, for a matrix of n rows and m columns.
#[derive(Clone, Copy)]
pub struct Sum {
    pub row: i64,
    pub rows: i64,
    pub cols: i64,
    pub column: i64,
    pub constant: i64,
}
