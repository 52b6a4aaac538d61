// Tested commands.
ghost use Rattle.std.specs.Prelude.{◌≡◌, None, Ok, OnOk, OnErr};
ghost use Rattle.nest_core.specs.Pieces.{kernel_made};
ghost use Rattle.nest_core.specs.Shapes.{IsShaped, Fits};
ghost use Rattle.depend_test.specs.Tested as spec;

use crate::first::first_dependence;
use chill_base::Stop;
use int_rows::Excess;
use nest_core::make_nests;
use nest_tree::{CommandFault, Kernel, Moves};
use std::alloc::Global;

/// The answer of a command where set work gives none.
pub fn overflow(stop: Stop<Excess>) -> Stop<CommandFault>
    ensures { result ≡ spec.overflow stop }
{
    match stop {
        Stop::Refused(excess) => Stop::Refused(CommandFault::Overflow(excess)),
        Stop::NoMemory => Stop::NoMemory,
    }
}

/// Puts the pieces in the place of the statements, unless that would change the order of two instances that name one
/// cell by conflicting accesses.
pub fn apply_tested(
    alloc: Global,
    kernel: &mut Kernel,
    moves: &Moves,
) -> Result<(), Stop<CommandFault>>
    requires shaped { IsShaped kernel.old }
    requires fits { Fits kernel.old moves.now }
    ensures shaped { OnOk result (IsShaped kernel.new) }
    ensures refused { OnErr result (kernel.new ≡ kernel.old) }
    ensures made { OnOk result (kernel_made kernel.old moves.now ≡ Ok kernel.new) }
    ensures tested { OnOk result (spec.Finds kernel.old moves.now None) }
    ensures faults { spec.OnRefused result (spec.IsTestFault kernel.old moves.now) }
{
    let nests = match make_nests(alloc, kernel, moves) {
        Ok(nests) => nests,
        Err(stop) => return Err(overflow(stop)),
    };
    match first_dependence(alloc, kernel, moves) {
        Ok(None) => {
            kernel.nests = nests;
            Ok(())
        }
        Ok(Some(dependence)) => Err(Stop::Refused(CommandFault::Depends(dependence))),
        Err(stop) => Err(overflow(stop)),
    }
}
