// `skew` and `shift`.
ghost use Rattle.std.specs.Prelude.{◌≡◌, OnOk, OnErr};
ghost use Rattle.nest_core.specs.Shapes.{IsShaped, Fits};
ghost use Rattle.nest_core.specs.Making.{Changes};
ghost use Rattle.nest_core.specs.Pieces.{kernel_made};
ghost use Rattle.affine_moves.specs.Moves.{shift_moves, skew_moves};
ghost use Rattle.affine_commands.specs.Commands.{IsMoved, IsMovedFault, Refuses, overflowed, untested};

use crate::fault::{overflow_fault, shape_fault};
use affine_moves::{shift_moves, skew_moves};
use chill_base::Stop;
use depend_test::apply_tested;
use nest_core::apply_pieces;
use nest_tree::{CommandFault, Kernel, Moves};
use std::alloc::Global;

/// The values of the level are raised by the amount, in this statement alone. Nothing changes where the amount is 0.
pub fn shift(
    alloc: Global,
    kernel: &mut Kernel,
    statement: usize,
    level: usize,
    amount: i32,
) -> Result<(), Stop<CommandFault>>
    requires { IsShaped kernel.old }
    ensures shaped { OnOk result (IsShaped kernel.new) }
    ensures refused { OnErr result (kernel.new ≡ kernel.old) }
    ensures moved { OnOk result (IsMoved kernel.old kernel.new (shift_moves kernel.old statement level amount)) }
    ensures shape { Refuses (IsMovedFault kernel.old) (shift_moves kernel.old statement level amount) result }
{
    match shift_moves(alloc, kernel, statement, level, amount) {
        Ok(Some(moves)) => apply_tested(alloc, kernel, &moves),
        Ok(None) => Ok(()),
        Err(stop) => Err(shape_fault(stop)),
    }
}

/// Puts pieces that keep the order of all instances in the place of the statements.
fn put(alloc: Global, kernel: &mut Kernel, moves: &Moves) -> Result<(), Stop<CommandFault>>
    requires shaped { IsShaped kernel.old }
    requires fits { Fits kernel.old moves.now }
    ensures shaped { OnOk result (IsShaped kernel.new) }
    ensures made { Changes result kernel.old kernel.new (overflowed (kernel_made kernel.old moves.now)) }
{
    match apply_pieces(alloc, kernel, moves) {
        Ok(()) => Ok(()),
        Err(stop) => Err(overflow_fault(stop)),
    }
}

/// The level gets these multiples of the levels before it, in each statement that shares its loop. Nothing changes where
/// all of them are 0. The order of instances stays, so there is no test.
pub fn skew(
    alloc: Global,
    kernel: &mut Kernel,
    statement: usize,
    level: usize,
    coefs: &[i32],
) -> Result<(), Stop<CommandFault>>
    requires { IsShaped kernel.old }
    ensures shaped { OnOk result (IsShaped kernel.new) }
    ensures made { Changes result kernel.old kernel.new (untested kernel.old (skew_moves kernel.old statement level coefs.now)) }
{
    match skew_moves(alloc, kernel, statement, level, coefs) {
        Ok(Some(moves)) => put(alloc, kernel, &moves),
        Ok(None) => Ok(()),
        Err(stop) => Err(shape_fault(stop)),
    }
}
