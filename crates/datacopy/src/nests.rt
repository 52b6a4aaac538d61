// The statements of a kernel with a copying statement among them.
ghost use Rattle.std.specs.Prelude.{◌≡◌, ◌<◌, ◌≤◌, ◌+◌, ◌-◌, suc, length, IfOk, IsTrue};
ghost use Rattle.std.specs.List.{list_all, AllByRecursion};
ghost use Rattle.nest_core.specs.Shapes.{vars_of, IsShapedNest};
ghost use Rattle.datacopy.specs.Boxes.{is_side_over, has_subscripts, IsReadBox};
ghost use Rattle.nest_core.specs.Order.{numbered};
ghost use Rattle.one_statement.specs.Copies.{with_value};
ghost use Rattle.datacopy.specs.Copied.{AreCounted, HasCopy, HasCopyAt, with_both};
ghost use Rattle.datacopy.specs.Reads as spec;

use crate::body::redirect;
use crate::copying::copying_statement;
use crate::side::Side;
use c_tree::Program;
use chill_base::{List, Name, NoMemory, Stop};
use int_rows::Excess;
use nest_core::number;
use nest_tree::{Kernel, Nest};
use one_statement::{copy_with, push_copies};
use std::alloc::Global;

/// The statements with two in the place of one.
fn with_both(
    alloc: Global,
    nests: &[Nest],
    statement: usize,
    copying: Nest,
    reading: Nest,
) -> Result<Vec<Nest>, NoMemory>
    requires { statement < length nests.now }
    ensures { IfOk result (λ new. new.items ≡ with_both nests.now statement copying reading) }
{
    let mut new = Vec::new(alloc);
    push_copies(alloc, &mut new, &nests[..statement])?;
    new.push(copying)?;
    new.push(reading)?;
    push_copies(alloc, &mut new, &nests[statement + 1..])?;
    Ok(new)
}

/// The statements with two in the place of one, counted anew.
fn counted(
    alloc: Global,
    head: &Program,
    nests: &[Nest],
    statement: usize,
    copying: Nest,
    reading: Nest,
) -> Result<List<Nest>, NoMemory>
    requires nests { AllByRecursion (IsShapedNest head.now) nests.now }
    requires statement { statement < length nests.now }
    requires copying { IsShapedNest head.now copying }
    requires reading { IsShapedNest head.now reading }
    ensures are { IfOk result (λ new. new ≡ numbered (with_both nests.now statement copying reading)) }
    ensures counted { IfOk result (λ new. AreCounted head.now (suc (length nests.now)) new) }
{
    let mut new = with_both(alloc, nests, statement, copying, reading)?;
    number(alloc, &mut new)?;
    Ok(List::from_vec(new))
}

/// The statement as it reads the copy.
fn reading_statement(
    alloc: Global,
    head: &Program,
    nest: &Nest,
    sides: &[Side],
    array: Name,
    copy: Name,
) -> Result<Nest, Stop<Excess>>
    requires shaped { IsShapedNest head.now nest.now }
    requires sides { IsTrue (list_all (is_side_over (vars_of (length head.now.params) nest.now)) sides.now) }
    requires reads { IsTrue (list_all (has_subscripts (length sides.now)) (spec.reads_of array nest.now.value)) }
    ensures same { IfOk result (λ n. n ≡ with_value nest.now n.value) }
    ensures shaped { IfOk result (λ n. IsShapedNest head.now n) }
{
    let levels = nest.levels.as_slice().len();
    let vars = head.params.as_slice().len() + levels + nest.terms.as_slice().len();
    let value = redirect(alloc, array, copy, sides, &nest.value, vars)?;
    Ok(copy_with(alloc, nest, value)?)
}

/// The statements with a copying statement before this one, which reads the copy.
fn nests_with_copy(
    alloc: Global,
    kernel: &Kernel,
    statement: usize,
    nest: &Nest,
    place: usize,
    sides: &[Side],
    array: Name,
    copy: Name,
) -> Result<List<Nest>, Stop<Excess>>
    requires each { AllByRecursion (IsShapedNest kernel.now.head) kernel.now.nests }
    requires statement { statement < length kernel.now.nests }
    requires shaped { IsShapedNest kernel.now.head nest.now }
    requires place { place < length nest.now.levels }
    requires sides { IsTrue (list_all (is_side_over (vars_of (length kernel.now.head.params) nest.now)) sides.now) }
    requires some { 1 ≤ length sides.now }
    requires few { length sides.now ≤ 3 }
    requires depth { place + length sides.now ≤ 8 }
    requires reads { IsTrue (list_all (has_subscripts (length sides.now)) (spec.reads_of array nest.now.value)) }
    ensures copied { IfOk result (λ new. HasCopy kernel.now statement nest.now place (length sides.now) array copy new) }
    ensures counted { IfOk result (λ new. AreCounted kernel.now.head (suc (length kernel.now.nests)) new) }
{
    let nests = kernel.nests.as_slice();
    let head = &kernel.head;
    let copying = copying_statement(alloc, kernel, nest, place, sides, array, copy)?;
    let reading = reading_statement(alloc, head, nest, sides, array, copy)?;
    let new = counted(alloc, head, nests, statement, copying, reading)?;
    Ok(new)
}

/// The statements with a copying statement before the one with this number, which reads the copy.
pub fn copied_nests(
    alloc: Global,
    kernel: &Kernel,
    statement: usize,
    level: usize,
    sides: &[Side],
    array: Name,
    copy: Name,
) -> Result<List<Nest>, Stop<Excess>>
    requires each { AllByRecursion (IsShapedNest kernel.now.head) kernel.now.nests }
    requires read { IsReadBox kernel.now statement level array sides.now }
    requires depth { level - 1 + length sides.now ≤ 8 }
    ensures copied { IfOk result (λ new. HasCopyAt kernel.now statement level (length sides.now) array copy new) }
    ensures counted { IfOk result (λ new. AreCounted kernel.now.head (suc (length kernel.now.nests)) new) }
{
    let nests = kernel.nests.as_slice();
    let nest = &nests[statement];
    nests_with_copy(
        alloc,
        kernel,
        statement,
        nest,
        level - 1,
        sides,
        array,
        copy,
    )
}
