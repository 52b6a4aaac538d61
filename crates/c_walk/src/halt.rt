// Why a run ended early.
use c_meaning::EvalFault;
use chill_base::Place;

/// Why a run ended early.
#[derive(Clone, Copy, PartialEq, Eq)]
pub enum Halt {
    /// An expression of the place has no value.
    Fault { place: Place, fault: EvalFault },
    /// There was no memory left.
    NoMemory,
    /// The sink didn't take the line of an assignment.
    WriteFault,
}
