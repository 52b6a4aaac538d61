// Why an index expression has no value.
use chill_base::Name;

/// Why an index expression has no value.
#[derive(Clone, Copy, PartialEq, Eq)]
pub enum EvalFault {
    /// A subscript isn't below its extent, or is negative.
    Outside { array: Name },
    /// A weight is past 2^62.
    Range,
}
