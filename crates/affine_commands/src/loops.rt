// Tested commands that always move something, and `permute`.
ghost use Rattle.std.specs.Prelude.{◌≡◌, OnOk, OnErr};
ghost use Rattle.nest_core.specs.Shapes.{IsShaped};
ghost use Rattle.affine_moves.specs.Moves.{permute_moves, tile_moves};
ghost use Rattle.fuse_distribute.specs.Fusing.{fuse_moves};
ghost use Rattle.fuse_distribute.specs.Distributing.{distribute_moves};
ghost use Rattle.affine_commands.specs.Commands.{IsMade, IsMoved, IsMovedFault, Refuses};
ghost use Rattle.depend_test.specs.Tested.{IsTestFault};

use crate::fault::shape_fault;
use affine_moves::{permute_moves, tile_moves};
use chill_base::Stop;
use depend_test::apply_tested;
use fuse_distribute::{distribute_moves, fuse_moves};
use nest_tree::{CommandFault, Kernel};
use std::alloc::Global;

/// New level t is old level `order[t]`, in each statement that shares the loops that move. Nothing changes where no level
/// moves.
pub fn permute(
    alloc: Global,
    kernel: &mut Kernel,
    statement: usize,
    order: &[usize],
) -> Result<(), Stop<CommandFault>>
    requires { IsShaped kernel.old }
    ensures shaped { OnOk result (IsShaped kernel.new) }
    ensures refused { OnErr result (kernel.new ≡ kernel.old) }
    ensures moved { OnOk result (IsMoved kernel.old kernel.new (permute_moves kernel.old statement order.now)) }
    ensures shape { Refuses (IsMovedFault kernel.old) (permute_moves kernel.old statement order.now) result }
{
    match permute_moves(alloc, kernel, statement, order) {
        Ok(Some(moves)) => apply_tested(alloc, kernel, &moves),
        Ok(None) => Ok(()),
        Err(stop) => Err(shape_fault(stop)),
    }
}

/// A new level at place `outer` counts tiles of so many values of the level, in each statement that shares the loops from
/// there on.
pub fn tile(
    alloc: Global,
    kernel: &mut Kernel,
    statement: usize,
    level: usize,
    size: u32,
    outer: usize,
) -> Result<(), Stop<CommandFault>>
    requires { IsShaped kernel.old }
    ensures shaped { OnOk result (IsShaped kernel.new) }
    ensures refused { OnErr result (kernel.new ≡ kernel.old) }
    ensures made { OnOk result (IsMade kernel.old kernel.new (tile_moves kernel.old statement level size outer)) }
    ensures shape { Refuses (IsTestFault kernel.old) (tile_moves kernel.old statement level size outer) result }
{
    match tile_moves(alloc, kernel, statement, level, size, outer) {
        Ok(moves) => apply_tested(alloc, kernel, &moves),
        Err(stop) => Err(shape_fault(stop)),
    }
}

/// The children of the second statement's loop at the level go behind those of the first's, which is right before it.
pub fn fuse(
    alloc: Global,
    kernel: &mut Kernel,
    first: usize,
    second: usize,
    level: usize,
) -> Result<(), Stop<CommandFault>>
    requires { IsShaped kernel.old }
    ensures shaped { OnOk result (IsShaped kernel.new) }
    ensures refused { OnErr result (kernel.new ≡ kernel.old) }
    ensures made { OnOk result (IsMade kernel.old kernel.new (fuse_moves kernel.old first second level)) }
    ensures shape { Refuses (IsTestFault kernel.old) (fuse_moves kernel.old first second level) result }
{
    match fuse_moves(alloc, kernel, first, second, level) {
        Ok(moves) => apply_tested(alloc, kernel, &moves),
        Err(stop) => Err(shape_fault(stop)),
    }
}

/// The statements of the loop at the level, from this one on, go to a loop of their own right behind it.
pub fn distribute(
    alloc: Global,
    kernel: &mut Kernel,
    statement: usize,
    level: usize,
) -> Result<(), Stop<CommandFault>>
    requires { IsShaped kernel.old }
    ensures shaped { OnOk result (IsShaped kernel.new) }
    ensures refused { OnErr result (kernel.new ≡ kernel.old) }
    ensures made { OnOk result (IsMade kernel.old kernel.new (distribute_moves kernel.old statement level)) }
    ensures shape { Refuses (IsTestFault kernel.old) (distribute_moves kernel.old statement level) result }
{
    match distribute_moves(alloc, kernel, statement, level) {
        Ok(moves) => apply_tested(alloc, kernel, &moves),
        Err(stop) => Err(shape_fault(stop)),
    }
}
