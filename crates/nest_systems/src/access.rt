// The cells that a statement names, in order.
ghost use Rattle.std.specs.Prelude.{◌≡◌, ◌++◌, reverse, IfOk, OnOk};
ghost use Rattle.nest_systems.specs.Cells.{cells, reads, subscripts as subscripts_of};

use crate::copy::copy_forms;
use chill_base::{List, NoMemory};
use int_rows::Aff;
use nest_tree::{Access, Body, Nest};
use std::alloc::Global;

fn copy_access(alloc: Global, access: &Access) -> Result<Access, NoMemory>
    ensures { IfOk result (λ a. a ≡ access.now) }
{
    Ok(Access {
        array: access.array,
        at: copy_forms(alloc, access.at.as_slice())?,
    })
}

/// Appends copies of the cells of a right side, the last one first.
fn push_reads_back(alloc: Global, all: &mut Vec<Access>, body: &Body) -> Result<(), NoMemory>
    ensures { OnOk result (all.new.items ≡ all.old.items ++ reverse (reads body.now)) }
{
    let mut rest = body;
    loop {
        match rest {
            Body::Const(_) => return Ok(()),
            Body::At(access) => {
                all.push(copy_access(alloc, access)?)?;
                return Ok(());
            }
            Body::Plus(left, right) => {
                push_reads_back(alloc, all, right.get())?;
                rest = left.get();
            }
            Body::Minus(left, right) => {
                push_reads_back(alloc, all, right.get())?;
                rest = left.get();
            }
            Body::Times(left, right) => {
                push_reads_back(alloc, all, right.get())?;
                rest = left.get();
            }
        }
    }
}

/// Copies of the cells that a statement names: its target, and then those of its right side from the left.
pub fn accesses(alloc: Global, nest: &Nest) -> Result<List<Access>, NoMemory>
    ensures { IfOk result (λ found. found ≡ cells nest.now) }
{
    let mut all = Vec::new(alloc);
    push_reads_back(alloc, &mut all, &nest.value)?;
    all.push(copy_access(alloc, &nest.target)?)?;
    all.reverse();
    Ok(List::from_vec(all))
}

/// Copies of all subscripts of cells, in order.
pub fn subscripts(alloc: Global, accesses: &[Access]) -> Result<List<Aff>, NoMemory>
    ensures { IfOk result (λ forms. forms ≡ subscripts_of accesses.now) }
{
    let mut forms = List::new(alloc);
    for access in accesses {
        forms.append(copy_forms(alloc, access.at.as_slice())?)?;
    }
    Ok(forms)
}
