// Why a kernel isn't printed.
use chill_base::Stop;
use int_rows::Excess;

/// Why a kernel isn't printed.
#[derive(Clone, Copy, Debug, PartialEq, Eq)]
pub enum ScanFault {
    /// The rows for a level's bounds passed a limit of set work.
    Overflow(Excess),
    /// An index expression that would be printed has a size past 2^62.
    Size { statement: usize },
    /// More than 32 different bounds of one side of a level.
    Wide { statement: usize, level: usize },
}

/// A limit of set work that ends the scan.
pub fn overflow(stop: Stop<Excess>) -> Stop<ScanFault> {
    match stop {
        Stop::Refused(excess) => Stop::Refused(ScanFault::Overflow(excess)),
        Stop::NoMemory => Stop::NoMemory,
    }
}
