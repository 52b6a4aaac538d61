// Shapes and limits as the faults of commands.
ghost use Rattle.std.specs.Prelude.{◌≡◌};
ghost use Rattle.affine_commands.specs.Commands.{overflow_fault, shape_fault};

use chill_base::Stop;
use int_rows::Excess;
use nest_tree::{CommandFault, ShapeWhy};

/// The answer of a command whose moves can't be made.
pub fn shape_fault(stop: Stop<ShapeWhy>) -> Stop<CommandFault>
    ensures { result ≡ shape_fault stop }
{
    match stop {
        Stop::Refused(why) => Stop::Refused(CommandFault::Shape(why)),
        Stop::NoMemory => Stop::NoMemory,
    }
}

/// The answer of a command whose rows pass a limit.
pub fn overflow_fault(stop: Stop<Excess>) -> Stop<CommandFault>
    ensures { result ≡ overflow_fault stop }
{
    match stop {
        Stop::Refused(excess) => Stop::Refused(CommandFault::Overflow(excess)),
        Stop::NoMemory => Stop::NoMemory,
    }
}
