// A statement is put in the place of another.
ghost use Rattle.std.specs.Prelude.{◌≡◌, ◌++◌, ◌≤◌, ◌<◌, length, take, IfOk, OnOk, OnErr};
ghost use Rattle.std.specs.List.{AllByRecursion};
ghost use Rattle.nest_core.specs.Order.{numbered};
ghost use Rattle.nest_core.specs.Shapes.{IsShapedNest, IsShaped};
ghost use Rattle.one_statement.specs.Put as spec;

use crate::copies::push_copies;
use c_tree::{Program, Stmt};
use chill_base::{List, NoMemory};
use nest_core::number;
use nest_tree::{Kernel, Made, Nest};
use std::alloc::Global;

/// Takes items from the end, up to so many.
fn truncate<T: Drop>(list: &mut List<T>, count: usize)
    requires { count ≤ length list.old }
    ensures { list.new ≡ take count list.old }
{
    while list.len() > count {
        let _last = list.pop();
    }
}

/// Appends all items, or none.
fn append_all<T: Drop>(list: &mut List<T>, more: List<T>) -> Result<(), NoMemory>
    ensures all { OnOk result (list.new ≡ list.old ++ more) }
    ensures none { OnErr result (list.new ≡ list.old) }
{
    let before = list.len();
    let mut rest = more;
    while !rest.is_empty() {
        if list.push(rest.remove(0)).is_err() {
            truncate(list, before);
            return Err(NoMemory);
        }
    }
    Ok(())
}

/// The statements with one in the place of another.
fn with_one(
    alloc: Global,
    nests: &[Nest],
    statement: usize,
    nest: Nest,
) -> Result<Vec<Nest>, NoMemory>
    requires { statement < length nests.now }
    ensures { IfOk result (λ new. new.items ≡ spec.with_one nests.now statement nest) }
{
    let mut new = Vec::new(alloc);
    push_copies(alloc, &mut new, &nests[..statement])?;
    new.push(nest)?;
    push_copies(alloc, &mut new, &nests[statement + 1..])?;
    Ok(new)
}

/// The statements with one in the place of another, counted anew.
fn counted(
    alloc: Global,
    head: &Program,
    nests: &[Nest],
    statement: usize,
    nest: Nest,
) -> Result<List<Nest>, NoMemory>
    requires nests { AllByRecursion (IsShapedNest head.now) nests.now }
    requires statement { statement < length nests.now }
    requires nest { IsShapedNest head.now nest }
    ensures { IfOk result (λ new. new ≡ numbered (spec.with_one nests.now statement nest)) }
{
    let mut new = with_one(alloc, nests, statement, nest)?;
    number(alloc, &mut new)?;
    Ok(List::from_vec(new))
}

/// Puts the statements, the arrays and the lines into the kernel, or leaves it.
fn enter(
    kernel: &mut Kernel,
    nests: List<Nest>,
    made: List<Made>,
    lines: List<Stmt>,
) -> Result<(), NoMemory>
    ensures entered { OnOk result (kernel.new ≡ spec.entered kernel.old nests made lines) }
    ensures none { OnErr result (kernel.new ≡ kernel.old) }
{
    let before = kernel.made.len();
    append_all(&mut kernel.made, made)?;
    if append_all(&mut kernel.head.inspector, lines).is_err() {
        truncate(&mut kernel.made, before);
        return Err(NoMemory);
    }
    kernel.nests = nests;
    Ok(())
}

/// Puts a statement in the place of the one with this number. The arrays go behind the made ones and the lines behind those
/// of the inspector, and the positions of all statements are counted anew.
pub fn put_statement(
    alloc: Global,
    kernel: &mut Kernel,
    statement: usize,
    nest: Nest,
    made: List<Made>,
    lines: List<Stmt>,
) -> Result<(), NoMemory>
    requires shaped { IsShaped kernel.old }
    requires statement { statement < length kernel.old.nests }
    requires nest { IsShapedNest kernel.old.head nest }
    ensures put { OnOk result (kernel.new ≡ spec.put kernel.old statement nest made lines) }
    ensures shaped { OnOk result (IsShaped kernel.new) }
    ensures unchanged { OnErr result (kernel.new ≡ kernel.old) }
{
    let nests = counted(
        alloc,
        &kernel.head,
        kernel.nests.as_slice(),
        statement,
        nest,
    )?;
    enter(kernel, nests, made, lines)
}
