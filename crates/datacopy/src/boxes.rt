// The box of an array that a statement reads while its inner levels vary.
ghost use Rattle.std.specs.Prelude.{◌≡◌, ◌≤◌, length, IsTrue, IfOk, map};
ghost use Rattle.std.specs.List.{list_all};
ghost use Rattle.nest_core.specs.Forms.{has_vars};
ghost use Rattle.nest_core.specs.Shapes.{vars_of, is_access_over, IsShapedNest};
ghost use Rattle.datacopy.specs.Boxes.{is_side_over, coefs_of, has_subscripts};

use crate::side::{Side, side_of};
use crate::sums::{difference, sum};
use c_tree::Program;
use chill_base::{List, Stop};
use int_rows::Aff;
use nest_tree::{Access, Nest, ShapeWhy};
use std::alloc::Global;

/// The sides of the box of one read.
fn sides_of(
    alloc: Global,
    head: &Program,
    nest: &Nest,
    place: usize,
    read: &Access,
) -> Result<Vec<Side>, Stop<ShapeWhy>>
    requires shaped { IsShapedNest head.now nest.now }
    requires read { IsTrue (list_all (has_vars (vars_of (length head.now.params) nest.now)) read.now.at) }
    ensures count { IfOk result (λ sides. length sides.items ≡ length read.now.at) }
    ensures sides { IfOk result (λ sides. IsTrue (list_all (is_side_over (vars_of (length head.now.params) nest.now)) sides.items)) }
{
    let mut sides = Vec::new(alloc);
    for subscript in read.at.as_slice() {
        sides.push(side_of(alloc, head, nest, place, subscript)?)?;
    }
    Ok(sides)
}

/// How far the greatest subscript lies above a constant that isn't above the base's.
fn width_above(side: &Side, constant: i128) -> Option<i128> {
    match difference(side.base.constant, constant) {
        Some(gap) => sum(side.width, gap),
        None => None,
    }
}

/// The greater of the widths above a constant.
fn width_of_both(side: &Side, other: &Side, constant: i128) -> Option<i128> {
    let first = width_above(side, constant)?;
    let second = width_above(other, constant)?;
    Some(first.max(second))
}

/// Both sides together, where their bases differ by a constant.
fn joined(alloc: Global, side: &Side, other: &Side) -> Result<Side, Stop<ShapeWhy>>
    ensures { IfOk result (λ s. s.base.coefs ≡ side.now.base.coefs) }
{
    let coefs = side.base.coefs.as_slice();
    if coefs != other.base.coefs.as_slice() {
        return Err(Stop::Refused(ShapeWhy::NotConstant));
    }
    let constant = side.base.constant.min(other.base.constant);
    match width_of_both(side, other, constant) {
        Some(width) => Ok(Side {
            base: Aff {
                coefs: List::from_slice(alloc, coefs)?,
                constant,
            },
            width,
        }),
        None => Err(Stop::Refused(ShapeWhy::NotConstant)),
    }
}

/// Both boxes together, where their bases differ by constants.
fn joined_each(alloc: Global, sides: &[Side], others: &[Side]) -> Result<Vec<Side>, Stop<ShapeWhy>>
    requires { length sides.now ≡ length others.now }
    ensures { IfOk result (λ new. map coefs_of new.items ≡ map coefs_of sides.now) }
{
    let mut new = Vec::new(alloc);
    for i in 0..sides.len() {
        new.push(joined(alloc, &sides[i], &others[i])?)?;
    }
    Ok(new)
}

/// The box of all reads of an array.
pub fn box_of(
    alloc: Global,
    head: &Program,
    nest: &Nest,
    place: usize,
    reads: &[Access],
) -> Result<Vec<Side>, Stop<ShapeWhy>>
    requires shaped { IsShapedNest head.now nest.now }
    requires reads { IsTrue (list_all (is_access_over (vars_of (length head.now.params) nest.now)) reads.now) }
    ensures some { IfOk result (λ sides. 1 ≤ length sides.items) }
    ensures few { IfOk result (λ sides. length sides.items ≤ 3) }
    ensures sides { IfOk result (λ sides. IsTrue (list_all (is_side_over (vars_of (length head.now.params) nest.now)) sides.items)) }
    ensures reads { IfOk result (λ sides. IsTrue (list_all (has_subscripts (length sides.items)) reads.now)) }
{
    let Some((first, others)) = reads.split_first() else {
        return Err(Stop::Refused(ShapeWhy::NotReadOnly));
    };
    let mut sides = sides_of(alloc, head, nest, place, first)?;
    for read in others {
        let more = sides_of(alloc, head, nest, place, read)?;
        if more.len() != sides.len() {
            return Err(Stop::Refused(ShapeWhy::NotConstant));
        }
        sides = joined_each(alloc, sides.as_slice(), more.as_slice())?;
    }
    Ok(sides)
}
