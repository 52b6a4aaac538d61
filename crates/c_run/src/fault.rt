// Why a run is refused.
ghost use Rattle.std.specs.Prelude.{◌≡◌};
ghost use Rattle.c_run.specs.Faults.{fault_at};

use c_meaning::EvalFault;
use chill_base::{Name, Place};

/// The part of a program that was run.
#[derive(Clone, Copy, Debug, PartialEq, Eq)]
pub enum Section {
    Inspector,
    Executor,
}

/// Why a run is refused, and where.
#[derive(Clone, Copy, PartialEq, Eq)]
pub enum RunFault {
    /// A subscript isn't inside its array.
    Outside {
        section: Section,
        array: Name,
        place: Place,
    },
    /// A number is too large, or negative where none may be.
    Range {
        section: Section,
        place: Place,
    },
}

/// Why a traced run ended early.
#[derive(Clone, Copy, PartialEq, Eq)]
pub enum TraceFault {
    Run(RunFault),
    WriteFault,
}

/// The fault of an expression of the section, at its place.
pub(crate) fn fault_of(section: Section, place: &Place, fault: &EvalFault) -> RunFault
    ensures { result ≡ fault_at section place.now fault.now }
{
    match fault {
        EvalFault::Outside { array } => RunFault::Outside {
            section,
            array: *array,
            place: *place,
        },
        EvalFault::Range => RunFault::Range {
            section,
            place: *place,
        },
    }
}
