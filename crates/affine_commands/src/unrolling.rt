// `unroll`.
ghost use Rattle.std.specs.Prelude.{◌≡◌, false, Some, None, Ok, OnOk, OnErr, IfOk, IsTrue, slice_get};
ghost use Rattle.nest_core.specs.Pieces.{kernel_made, moved_nests};
ghost use Rattle.nest_core.specs.Shapes.{IsShaped, Fits};
ghost use Rattle.depend_test.specs.Tested.{Finds, OnRefused};
ghost use Rattle.unroll.specs.Moves.{unrolled};
ghost use Rattle.affine_commands.specs.Commands.{IsUnrolled, NamesNoDependence};
ghost use Rattle.affine_commands.specs.Commands as spec;

use crate::fault::{overflow_fault, shape_fault};
use chill_base::{List, Stop};
use depend_test::apply_tested;
use nest_core::make_nests;
use nest_limits::are_within;
use nest_tree::{CommandFault, Kernel, Moves, Nest, ShapeWhy};
use std::alloc::Global;
use unroll::unroll_moves;

/// The statements after the moves, unless their expressions have too many brackets.
fn make_within(
    alloc: Global,
    kernel: &Kernel,
    moves: &Moves,
) -> Result<List<Nest>, Stop<CommandFault>>
    requires shaped { IsShaped kernel.now }
    requires fits { Fits kernel.now moves.now }
    ensures made { IfOk result (λ nests. moved_nests kernel.now moves.now ≡ Ok nests) }
    ensures untested { NamesNoDependence result }
{
    let nests = match make_nests(alloc, kernel, moves) {
        Ok(nests) => nests,
        Err(stop) => return Err(overflow_fault(stop)),
    };
    if !are_within(&kernel.head, nests.as_slice()) {
        return Err(Stop::Refused(CommandFault::Shape(ShapeWhy::Limit)));
    }
    Ok(nests)
}

/// Puts pieces that keep the order of all instances in the place of the statements.
fn put_within(alloc: Global, kernel: &mut Kernel, moves: &Moves) -> Result<(), Stop<CommandFault>>
    requires shaped { IsShaped kernel.old }
    requires fits { Fits kernel.old moves.now }
    ensures shaped { OnOk result (IsShaped kernel.new) }
    ensures refused { OnErr result (kernel.new ≡ kernel.old) }
    ensures made { OnOk result (kernel_made kernel.old moves.now ≡ Ok kernel.new) }
    ensures untested { NamesNoDependence result }
{
    kernel.nests = make_within(alloc, kernel, moves)?;
    Ok(())
}

/// Puts tested pieces in the place of the statements.
fn test_within(alloc: Global, kernel: &mut Kernel, moves: &Moves) -> Result<(), Stop<CommandFault>>
    requires shaped { IsShaped kernel.old }
    requires fits { Fits kernel.old moves.now }
    ensures shaped { OnOk result (IsShaped kernel.new) }
    ensures refused { OnErr result (kernel.new ≡ kernel.old) }
    ensures made { OnOk result (kernel_made kernel.old moves.now ≡ Ok kernel.new) }
    ensures tested { OnOk result (Finds kernel.old moves.now None) }
    ensures faults { OnRefused result (spec.IsUnrollFault kernel.old false (Some moves.now)) }
{
    make_within(alloc, kernel, moves)?;
    apply_tested(alloc, kernel, moves)
}

/// Whether the level is the innermost loop around the statement.
fn is_innermost(kernel: &Kernel, statement: usize, level: usize) -> bool
    ensures { result ≡ spec.is_innermost level (slice_get kernel.now.nests statement) }
{
    match kernel.nests.get(statement) {
        Some(nest) => nest.levels.len() == level,
        None => false,
    }
}

/// The level counts groups of so many of its values: the full loop has a copy of each statement for each value of a group,
/// and each upper row has a loop of its own for what it leaves of the last group. Where no loop stands inside, the order of
/// instances stays, so there is no test.
pub fn unroll(
    alloc: Global,
    kernel: &mut Kernel,
    statement: usize,
    level: usize,
    factor: u32,
) -> Result<(), Stop<CommandFault>>
    requires { IsShaped kernel.old }
    ensures shaped { OnOk result (IsShaped kernel.new) }
    ensures refused { OnErr result (kernel.new ≡ kernel.old) }
    ensures made { OnOk result (IsUnrolled kernel.old kernel.new (spec.is_innermost level (slice_get kernel.old.nests statement)) (unrolled kernel.old statement level factor)) }
    ensures faults { OnRefused result (spec.IsUnrollFault kernel.old (spec.is_innermost level (slice_get kernel.old.nests statement)) (unrolled kernel.old statement level factor)) }
    ensures untested { IsTrue (spec.is_innermost level (slice_get kernel.old.nests statement)) → NamesNoDependence result }
{
    let moves = match unroll_moves(alloc, kernel, statement, level, factor) {
        Ok(moves) => moves,
        Err(stop) => return Err(shape_fault(stop)),
    };
    if is_innermost(kernel, statement, level) {
        put_within(alloc, kernel, &moves)
    } else {
        test_within(alloc, kernel, &moves)
    }
}
