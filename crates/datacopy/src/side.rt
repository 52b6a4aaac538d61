// One dimension of a box: what a subscript can be while the inner levels vary.
ghost use Rattle.std.specs.Prelude.{◌≡◌, ◌<◌, ◌≤◌, length, IsTrue, IfOk, IfSome, Some, None};
ghost use Rattle.nest_core.specs.Forms.{has_vars};
ghost use Rattle.nest_core.specs.Numbers.{is_small};
ghost use Rattle.nest_core.specs.Shapes.{vars_of, IsShapedNest};

use crate::bounds::find_pair;
use crate::levels::holds_from;
use crate::sums::{less_multiple, plus_multiple, size, sum};
use c_tree::Program;
use chill_base::{List, Stop};
use int_rows::Aff;
use nest_core::judge_form;
use nest_tree::{Nest, ShapeWhy};
use std::alloc::Global;

/// The least subscript, and how far the greatest one lies above it.
#[derive(Drop)]
pub struct Side {
    pub base: Aff,
    pub width: i128,
}

/// The number; where there is none, there is no box.
fn bounded(number: Option<i128>) -> Result<i128, Stop<ShapeWhy>> {
    match number {
        Some(number) => Ok(number),
        None => Err(Stop::Refused(ShapeWhy::NotConstant)),
    }
}

/// The form less a multiple of another one.
fn subtract(alloc: Global, form: &Aff, factor: i128, other: &Aff) -> Result<Aff, Stop<ShapeWhy>>
    requires { length form.now.coefs ≡ length other.now.coefs }
    ensures { IfOk result (λ f. length f.coefs ≡ length form.now.coefs) }
{
    let left = form.coefs.as_slice();
    let right = other.coefs.as_slice();
    let mut coefs = List::new(alloc);
    for i in 0..left.len() {
        coefs.push(bounded(less_multiple(left[i], factor, right[i]))?)?;
    }
    let constant = bounded(less_multiple(form.constant, factor, other.constant))?;
    Ok(Aff { coefs, constant })
}

/// The subscripts while a level of this coefficient varies too, between two bounds.
fn spread(
    alloc: Global,
    side: &Side,
    coef: i128,
    lower: &Aff,
    upper: &Aff,
) -> Result<Side, Stop<ShapeWhy>>
    requires lower { length side.now.base.coefs ≡ length lower.now.coefs }
    requires upper { length side.now.base.coefs ≡ length upper.now.coefs }
    ensures { IfOk result (λ s. length s.base.coefs ≡ length side.now.base.coefs) }
{
    let factor = bounded(size(coef))?;
    let gap = bounded(sum(lower.constant, upper.constant))?;
    let width = bounded(plus_multiple(side.width, factor, gap))?;
    let base = if coef > 0 {
        subtract(alloc, &side.base, factor, lower)?
    } else {
        subtract(alloc, &side.base, factor, upper)?
    };
    Ok(Side { base, width })
}

/// The subscripts while one level more varies.
fn vary(
    alloc: Global,
    head: &Program,
    nest: &Nest,
    level: usize,
    side: Side,
) -> Result<Side, Stop<ShapeWhy>>
    requires shaped { IsShapedNest head.now nest.now }
    requires width { IsTrue (has_vars (vars_of (length head.now.params) nest.now) side.base) }
    requires level { level < length nest.now.levels }
    ensures { IfOk result (λ s. IsTrue (has_vars (vars_of (length head.now.params) nest.now) s.base)) }
{
    let coef = side.base.coefs.as_slice()[head.params.len() + level];
    if coef == 0 {
        return Ok(side);
    }
    match find_pair(head, nest, level) {
        Some((lower, upper)) => {
            let rows = nest.rows.as_slice();
            let (low, high) = (&rows[lower].row.form, &rows[upper].row.form);
            spread(alloc, &side, coef, low, high)
        }
        None => Err(Stop::Refused(ShapeWhy::NotConstant)),
    }
}

/// The subscript as it stands.
fn fixed(alloc: Global, subscript: &Aff) -> Result<Side, Stop<ShapeWhy>>
    ensures { IfOk result (λ s. length s.base.coefs ≡ length subscript.now.coefs) }
{
    match judge_form(alloc, subscript) {
        Ok(base) => Ok(Side { base, width: 0 }),
        Err(Stop::Refused(_)) => Err(Stop::Refused(ShapeWhy::NotConstant)),
        Err(Stop::NoMemory) => Err(Stop::NoMemory),
    }
}

/// The subscripts while all levels from this place on vary.
fn vary_from(
    alloc: Global,
    head: &Program,
    nest: &Nest,
    place: usize,
    subscript: &Aff,
) -> Result<Side, Stop<ShapeWhy>>
    requires shaped { IsShapedNest head.now nest.now }
    requires width { IsTrue (has_vars (vars_of (length head.now.params) nest.now) subscript.now) }
    ensures { IfOk result (λ s. IsTrue (has_vars (vars_of (length head.now.params) nest.now) s.base)) }
{
    let mut side = fixed(alloc, subscript)?;
    for level in (place..nest.levels.len()).rev() {
        side = vary(alloc, head, nest, level, side)?;
    }
    Ok(side)
}

/// What the subscript can be while the levels from this place on vary. Its base names none of them.
pub fn side_of(
    alloc: Global,
    head: &Program,
    nest: &Nest,
    place: usize,
    subscript: &Aff,
) -> Result<Side, Stop<ShapeWhy>>
    requires shaped { IsShapedNest head.now nest.now }
    requires width { IsTrue (has_vars (vars_of (length head.now.params) nest.now) subscript.now) }
    ensures { IfOk result (λ s. IsTrue (has_vars (vars_of (length head.now.params) nest.now) s.base)) }
{
    let side = vary_from(alloc, head, nest, place, subscript)?;
    if holds_from(head, nest, place, &side.base) {
        return Err(Stop::Refused(ShapeWhy::NotConstant));
    }
    let _last = bounded(sum(side.base.constant, side.width))?;
    Ok(side)
}
