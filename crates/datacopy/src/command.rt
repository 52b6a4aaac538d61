// `datacopy`: a statement reads a copy of the cells of an array.
ghost use Rattle.std.specs.Prelude.{◌≡◌, ◌<◌, ◌≤◌, ◌+◌, ◌-◌, suc, length, IfOk, IsTrue, OnOk, OnErr};
ghost use Rattle.nest_core.specs.Shapes.{IsShaped};
ghost use Rattle.datacopy.specs.Boxes.{IsReadBox};
ghost use Rattle.datacopy.specs.Copied.{first_shape, GivesFirst, AnswersFirst, IsCopied, AreCounted, entered};
ghost use Rattle.one_statement.specs.Names as spec;

use crate::enter::enter;
use crate::limits::{box_extents, has_room};
use crate::nests::copied_nests;
use crate::shapes::copied_box;
use crate::side::Side;
use chill_base::{List, Name, Stop};
use nest_limits::are_within;
use nest_tree::{CommandFault, Kernel, Nest, ShapeWhy};
use one_statement::is_free;
use std::alloc::Global;

/// A box that can be copied.
#[derive(Drop)]
struct CopyBox {
    sides: Vec<Side>,
    extents: List<i64>,
}

/// The box, or the lowest shape that holds.
fn judged_box(
    alloc: Global,
    kernel: &Kernel,
    statement: usize,
    level: usize,
    array: Name,
    copy: Name,
) -> Result<CopyBox, Stop<ShapeWhy>>
    requires { IsShaped kernel.now }
    ensures first { GivesFirst (first_shape kernel.now statement level array) result }
    ensures read { IfOk result (λ b. IsReadBox kernel.now statement level array b.sides.items) }
    ensures extents { IfOk result (λ b. 1 ≤ length b.extents) }
    ensures dims { IfOk result (λ b. length b.extents ≡ length b.sides.items) }
    ensures depth { IfOk result (λ b. level - 1 + length b.sides.items ≤ 8) }
    ensures statements { IfOk result (λ b. length kernel.now.nests < 64) }
    ensures free { IfOk result (λ b. IsTrue (spec.is_free kernel.now copy)) }
{
    let sides = copied_box(alloc, kernel, statement, level, array)?;
    if !is_free(kernel, copy) {
        return Err(Stop::Refused(ShapeWhy::NameTaken));
    }
    let extents = box_extents(alloc, sides.as_slice())?;
    if !has_room(kernel, level - 1 + sides.len()) {
        return Err(Stop::Refused(ShapeWhy::Limit));
    }
    Ok(CopyBox { sides, extents })
}

/// Puts the copy and the statements into the kernel, where these are within the limit on brackets.
fn put(
    alloc: Global,
    kernel: &mut Kernel,
    copy: Name,
    extents: List<i64>,
    nests: List<Nest>,
) -> Result<(), Stop<CommandFault>>
    requires shaped { IsShaped kernel.old }
    requires extents { 1 ≤ length extents }
    requires statements { length kernel.old.nests < 64 }
    requires nests { AreCounted kernel.old.head (suc (length kernel.old.nests)) nests }
    ensures entered { OnOk result (kernel.new ≡ entered kernel.old copy extents nests) }
    ensures shaped { OnOk result (IsShaped kernel.new) }
    ensures unchanged { OnErr result (kernel.new ≡ kernel.old) }
{
    if !are_within(&kernel.head, nests.as_slice()) {
        return Err(Stop::Refused(CommandFault::Shape(ShapeWhy::Limit)));
    }
    enter(alloc, kernel, copy, extents, nests)?;
    Ok(())
}

/// Copies the box.
fn copy_box(
    alloc: Global,
    kernel: &mut Kernel,
    statement: usize,
    level: usize,
    array: Name,
    copy: Name,
    found: CopyBox,
) -> Result<(), Stop<CommandFault>>
    requires shaped { IsShaped kernel.old }
    requires read { IsReadBox kernel.old statement level array found.sides.items }
    requires extents { 1 ≤ length found.extents }
    requires dims { length found.extents ≡ length found.sides.items }
    requires depth { level - 1 + length found.sides.items ≤ 8 }
    requires statements { length kernel.old.nests < 64 }
    ensures copied { OnOk result (IsCopied kernel.old kernel.new statement level array copy) }
    ensures shaped { OnOk result (IsShaped kernel.new) }
    ensures unchanged { OnErr result (kernel.new ≡ kernel.old) }
{
    let CopyBox { sides, extents } = found;
    match copied_nests(
        alloc,
        kernel,
        statement,
        level,
        sides.as_slice(),
        array,
        copy,
    ) {
        Ok(nests) => put(alloc, kernel, copy, extents, nests),
        Err(Stop::Refused(excess)) => Err(Stop::Refused(CommandFault::Overflow(excess))),
        Err(Stop::NoMemory) => Err(Stop::NoMemory),
    }
}

/// The statement's right side reads a copy of those cells of the array that it reads while the loops from the level on
/// turn; another statement, right before that loop, makes the copy.
pub fn datacopy(
    alloc: Global,
    kernel: &mut Kernel,
    statement: usize,
    level: usize,
    array: Name,
    copy: Name,
) -> Result<(), Stop<CommandFault>>
    requires { IsShaped kernel.old }
    ensures first { AnswersFirst (first_shape kernel.old statement level array) result }
    ensures free { OnOk result (IsTrue (spec.is_free kernel.old copy)) }
    ensures copied { OnOk result (IsCopied kernel.old kernel.new statement level array copy) }
    ensures shaped { OnOk result (IsShaped kernel.new) }
    ensures unchanged { OnErr result (kernel.new ≡ kernel.old) }
{
    match judged_box(alloc, kernel, statement, level, array, copy) {
        Ok(found) => copy_box(alloc, kernel, statement, level, array, copy, found),
        Err(Stop::Refused(why)) => Err(Stop::Refused(CommandFault::Shape(why))),
        Err(Stop::NoMemory) => Err(Stop::NoMemory),
    }
}
