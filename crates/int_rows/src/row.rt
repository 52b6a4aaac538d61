// Affine forms, rows and limits.
use chill_base::List;

/// An affine form: a multiple of each variable of its system, in order, and a constant.
#[derive(Drop)]
pub struct Aff {
    pub coefs: List<i128>,
    pub constant: i128,
}

/// A row says that its form is 0, or that it is at least 0.
#[derive(Drop)]
pub struct Row {
    pub equal: bool,
    pub form: Aff,
}

/// The limit that set work passed, at the variable that was at hand.
#[derive(Clone, Copy, Debug, PartialEq, Eq)]
pub enum Excess {
    /// A number past 2^126 in size.
    Large { var: usize },
    /// More than 4,096 rows.
    Many { var: usize },
}
