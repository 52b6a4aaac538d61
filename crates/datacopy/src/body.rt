// The right side that reads the copy.
ghost use Rattle.std.specs.Prelude.{◌≡◌, length, IsTrue, IfOk};
ghost use Rattle.std.specs.List.{list_all};
ghost use Rattle.nest_core.specs.Chains.{leaf_body};
ghost use Rattle.nest_core.specs.Forms.{has_vars};
ghost use Rattle.nest_core.specs.Shapes.{is_access_over, is_body_over};
ghost use Rattle.datacopy.specs.Boxes.{is_side_over, has_subscripts};
ghost use Rattle.datacopy.specs.Reads as spec;

use crate::reads::is_name;
use crate::rows::judged;
use crate::side::Side;
use crate::sums::difference;
use chill_base::{List, Name, Stop};
use int_rows::{Aff, Excess};
use nest_core::{Chain, Leaf, chain_of, join};
use nest_systems::copy_forms;
use nest_tree::{Access, Body};
use std::alloc::Global;

/// The form less the base, over so many variables.
fn subtract(alloc: Global, form: &Aff, base: &Aff, vars: usize) -> Result<Aff, Stop<Excess>>
    requires form { IsTrue (has_vars vars form.now) }
    requires base { IsTrue (has_vars vars base.now) }
    ensures { IfOk result (λ f. IsTrue (has_vars vars f)) }
{
    let left = form.coefs.as_slice();
    let right = base.coefs.as_slice();
    let mut coefs = List::new(alloc);
    for var in 0..vars {
        coefs.push(judged(difference(left[var], right[var]), var)?)?;
    }
    let constant = judged(difference(form.constant, base.constant), vars)?;
    Ok(Aff { coefs, constant })
}

/// The cell of the copy that holds the array's cell.
fn cell_of_copy(
    alloc: Global,
    copy: Name,
    sides: &[Side],
    read: &Access,
    vars: usize,
) -> Result<Access, Stop<Excess>>
    requires width { IsTrue (is_access_over vars read.now) }
    requires sides { IsTrue (list_all (is_side_over vars) sides.now) }
    requires dims { IsTrue (has_subscripts (length sides.now) read.now) }
    ensures { IfOk result (λ a. IsTrue (is_access_over vars a)) }
{
    let subscripts = read.at.as_slice();
    let mut at = List::new(alloc);
    for dim in 0..subscripts.len() {
        at.push(subtract(alloc, &subscripts[dim], &sides[dim].base, vars)?)?;
    }
    Ok(Access { array: copy, at })
}

/// The cell, or that of the copy where it is one of the array.
fn redirected(
    alloc: Global,
    array: Name,
    copy: Name,
    sides: &[Side],
    read: &Access,
    vars: usize,
) -> Result<Access, Stop<Excess>>
    requires width { IsTrue (is_access_over vars read.now) }
    requires sides { IsTrue (list_all (is_side_over vars) sides.now) }
    requires dims { IsTrue (list_all (has_subscripts (length sides.now)) (spec.read_of array read.now)) }
    ensures { IfOk result (λ a. IsTrue (is_access_over vars a)) }
{
    if is_name(read.array, array) {
        return cell_of_copy(alloc, copy, sides, read, vars);
    }
    Ok(Access {
        array: read.array,
        at: copy_forms(alloc, read.at.as_slice())?,
    })
}

/// A number as it is, and a cell redirected.
fn redirect_leaf(
    alloc: Global,
    array: Name,
    copy: Name,
    sides: &[Side],
    leaf: Leaf<'_>,
    vars: usize,
) -> Result<Body, Stop<Excess>>
    requires width { IsTrue (is_body_over vars (leaf_body leaf)) }
    requires sides { IsTrue (list_all (is_side_over vars) sides.now) }
    requires dims { IsTrue (list_all (has_subscripts (length sides.now)) (spec.reads_of array (leaf_body leaf))) }
    ensures { IfOk result (λ b. IsTrue (is_body_over vars b)) }
{
    match leaf {
        Leaf::Number(n) => Ok(Body::Const(n)),
        Leaf::Cell(access) => Ok(Body::At(redirected(alloc, array, copy, sides, access, vars)?)),
    }
}

/// The right side with the reads of the array replaced by reads of the copy.
pub fn redirect(
    alloc: Global,
    array: Name,
    copy: Name,
    sides: &[Side],
    body: &Body,
    vars: usize,
) -> Result<Body, Stop<Excess>>
    requires width { IsTrue (is_body_over vars body.now) }
    requires sides { IsTrue (list_all (is_side_over vars) sides.now) }
    requires dims { IsTrue (list_all (has_subscripts (length sides.now)) (spec.reads_of array body.now)) }
    ensures { IfOk result (λ b. IsTrue (is_body_over vars b)) }
{
    let Chain { first, mut links } = chain_of(alloc, body)?;
    let mut whole = redirect_leaf(alloc, array, copy, sides, first, vars)?;
    while let Some(link) = links.pop() {
        let right = redirect(alloc, array, copy, sides, link.right, vars)?;
        whole = join(alloc, link.operation, whole, right)?;
    }
    Ok(whole)
}
