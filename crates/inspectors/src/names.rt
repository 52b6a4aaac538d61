// The names of the arrays that commands make.
use chill_base::Name;

/// The names of a compacted level.
#[derive(Clone, Copy)]
pub struct MarkNames {
    /// Where the kept values of each group begin.
    pub ptr: Name,
    /// The kept values.
    pub val: Name,
    /// How many there are.
    pub num: Name,
    /// One more than the last position of each value.
    pub mark: Name,
}

/// The names of padded rows.
#[derive(Clone, Copy)]
pub struct RowNames {
    /// The length of the longest row.
    pub wid: Name,
    /// The values.
    pub lay: Name,
    /// The columns.
    pub lcol: Name,
}
