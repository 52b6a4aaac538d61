// Why a data text is refused.
ghost use Rattle.std.specs.Prelude.{◌≡◌};

use chill_base::{Name, Stop};

/// What the arrays of a matrix in CSR form break.
#[derive(Clone, Copy, Debug, PartialEq, Eq)]
pub enum CsrWhy {
    /// The first row doesn't begin at 0.
    Start,
    /// A row ends before it begins.
    Falls,
    /// The last row doesn't end with the last entry.
    End,
    /// A column isn't below the number of columns.
    Column,
}

/// Why a data text is refused.
#[derive(Clone, Copy, PartialEq, Eq)]
pub enum ValuesFault {
    /// A line, counted from 1, isn't the one that the signature wants there.
    Line {
        number: usize,
    },
    /// The first name without a line.
    Missing {
        name: Name,
    },
    /// A parameter that is too large, or an array's first negative extent.
    Limit {
        name: Name,
        value: i64,
    },
    /// A line with another count of numbers than the array has cells.
    Count {
        name: Name,
        wanted: u128,
        found: u64,
    },
    /// The arrays of a matrix aren't in CSR form.
    NotCsr {
        matrix: usize,
        why: CsrWhy,
        row: u64,
        place: u64,
    },
}

/// Why a reader stopped. Unlike a `Stop` it is copied.
#[derive(Clone, Copy, PartialEq, Eq)]
pub(crate) enum Halt {
    Fault(ValuesFault),
    NoMemory,
}

impl Halt {
    ghost use Rattle.csr_data.specs.Reading.{stop_of};

    pub(crate) fn stop(&self) -> Stop<ValuesFault>
        ensures { result ≡ stop_of self.now }
    {
        match self {
            Halt::Fault(fault) => Stop::Refused(*fault),
            Halt::NoMemory => Stop::NoMemory,
        }
    }
}
