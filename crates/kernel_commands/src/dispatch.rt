// One command of a recipe, applied to a kernel.
ghost use Rattle.std.specs.Prelude.{◌≡◌, OnOk, OnErr};
ghost use Rattle.nest_core.specs.Shapes.{IsShaped};
ghost use Rattle.kernel_commands.specs.Done.{IsDone};
ghost use Rattle.kernel_commands.specs.Refused.{Answers};

use affine_commands::{distribute, fuse, permute, shift, skew, tile, unroll};
use chill_base::Stop;
use compact::compact;
use compact_pad::compact_and_pad;
use datacopy::datacopy;
use make_dense::make_dense;
use nest_tree::{CommandFault, Kernel};
use recipe_read::Command;
use std::alloc::Global;

/// Applies a command. A refused one leaves the kernel as it was, and so does want of memory.
pub fn apply(
    alloc: Global,
    kernel: &mut Kernel,
    command: &Command,
) -> Result<(), Stop<CommandFault>>
    requires { IsShaped kernel.old }
    ensures shaped { OnOk result (IsShaped kernel.new) }
    ensures refused { OnErr result (kernel.new ≡ kernel.old) }
    ensures done { OnOk result (IsDone kernel.old kernel.new command.now) }
    ensures answers { Answers kernel.old command.now result }
{
    match command {
        Command::Permute { statement, order } => {
            permute(alloc, kernel, *statement, order.as_slice())
        }
        Command::Tile {
            statement,
            level,
            size,
            outer,
        } => tile(alloc, kernel, *statement, *level, *size, *outer),
        Command::Skew {
            statement,
            level,
            coefs,
        } => skew(alloc, kernel, *statement, *level, coefs.as_slice()),
        Command::Shift {
            statement,
            level,
            amount,
        } => shift(alloc, kernel, *statement, *level, *amount),
        Command::Fuse {
            first,
            second,
            level,
        } => fuse(alloc, kernel, *first, *second, *level),
        Command::Distribute { statement, level } => distribute(alloc, kernel, *statement, *level),
        Command::Unroll {
            statement,
            level,
            factor,
        } => unroll(alloc, kernel, *statement, *level, *factor),
        Command::Datacopy {
            statement,
            level,
            array,
            copy,
        } => datacopy(alloc, kernel, *statement, *level, *array, *copy),
        Command::MakeDense { statement, level } => make_dense(alloc, kernel, *statement, *level),
        Command::Compact {
            statement,
            level,
            name,
        } => compact(alloc, kernel, *statement, *level, *name),
        Command::CompactAndPad {
            statement,
            level,
            kind,
            name,
        } => compact_and_pad(alloc, kernel, *statement, *level, *kind, *name),
    }
}
