// The shapes that come before a name is looked at, and the box.
ghost use Rattle.std.specs.Prelude.{◌≡◌, ◌≤◌, length, IfOk, IsTrue};
ghost use Rattle.std.specs.List.{list_all};
ghost use Rattle.nest_core.specs.Shapes.{vars_of, IsShapedNest, IsShaped};
ghost use Rattle.datacopy.specs.Boxes.{is_side_over, has_subscripts, IsReadBox};
ghost use Rattle.datacopy.specs.Copied.{nest_shape, first_shape, GivesFirst};
ghost use Rattle.datacopy.specs.Reads as spec;

use crate::boxes::box_of;
use crate::reads::{is_name, reads_of};
use crate::side::Side;
use chill_base::{Name, Stop};
use nest_tree::{Kernel, Nest, ShapeWhy};
use one_statement::is_alone;
use std::alloc::Global;

/// The first shape of a statement that exists.
fn nest_shape(
    nests: &[Nest],
    statement: usize,
    level: usize,
    array: Name,
    nest: &Nest,
) -> Option<ShapeWhy>
    ensures { result ≡ nest_shape statement level array nests.now nest.now }
{
    if !(1 <= level && level <= nest.levels.len()) {
        return Some(ShapeWhy::NoLoop);
    }
    if !is_alone(nests, statement, level, nest) {
        return Some(ShapeWhy::NotAlone);
    }
    if is_name(nest.target.array, array) {
        return Some(ShapeWhy::NotReadOnly);
    }
    None
}

/// The box of a statement at hand.
fn nest_box(
    alloc: Global,
    kernel: &Kernel,
    nest: &Nest,
    level: usize,
    array: Name,
) -> Result<Vec<Side>, Stop<ShapeWhy>>
    requires shaped { IsShapedNest kernel.now.head nest.now }
    requires low { 1 ≤ level }
    ensures some { IfOk result (λ sides. 1 ≤ length sides.items) }
    ensures few { IfOk result (λ sides. length sides.items ≤ 3) }
    ensures sides { IfOk result (λ sides. IsTrue (list_all (is_side_over (vars_of (length kernel.now.head.params) nest.now)) sides.items)) }
    ensures reads { IfOk result (λ sides. IsTrue (list_all (has_subscripts (length sides.items)) (spec.reads_of array nest.now.value))) }
{
    let reads = reads_of(alloc, array, &nest.value)?;
    box_of(alloc, &kernel.head, nest, level - 1, reads.as_slice())
}

/// The box, or the first shape that holds.
pub fn copied_box(
    alloc: Global,
    kernel: &Kernel,
    statement: usize,
    level: usize,
    array: Name,
) -> Result<Vec<Side>, Stop<ShapeWhy>>
    requires { IsShaped kernel.now }
    ensures first { GivesFirst (first_shape kernel.now statement level array) result }
    ensures read { IfOk result (λ sides. IsReadBox kernel.now statement level array sides.items) }
{
    let nests = kernel.nests.as_slice();
    match kernel.nests.get(statement) {
        Some(nest) => match nest_shape(nests, statement, level, array, nest) {
            Some(why) => Err(Stop::Refused(why)),
            None => nest_box(alloc, kernel, nest, level, array),
        },
        None => Err(Stop::Refused(ShapeWhy::NoStatement)),
    }
}
