// The expressions of an assignment and of what stands around it.
ghost use Rattle.std.specs.Prelude.{◌≡◌, ◌≤◌, ◌+◌, ◌++◌, ◌∷◌, length, map, reverse, IfOk, OnOk};
ghost use Rattle.source_limits.specs.Cells.{cells_of};
ghost use Rattle.source_limits.specs.Dimensions.{subscript_count};

use crate::site::{Around, Site};
use c_tree::{Cell, Expr, Index, Subscripts, Test};
use chill_base::NoMemory;
use std::alloc::Global;

/// The subscripts of a cell.
pub fn subscripts<'a>(alloc: Global, at: &'a Subscripts) -> Result<Vec<&'a Index>, NoMemory>
    ensures some { IfOk result (λ v. 1 ≤ length v.items) }
    ensures few { IfOk result (λ v. length v.items ≤ 3) }
    ensures count { IfOk result (λ v. length v.items ≡ subscript_count at.now) }
{
    let mut all = Vec::new(alloc);
    push_subscripts(&mut all, at)?;
    Ok(all)
}

fn push_subscripts<'a>(all: &mut Vec<&'a Index>, at: &'a Subscripts) -> Result<(), NoMemory>
    ensures some { OnOk result (length all.old.items + 1 ≤ length all.new.items) }
    ensures few { OnOk result (length all.new.items ≤ length all.old.items + 3) }
    ensures count { OnOk result (length all.new.items ≡ length all.old.items + subscript_count at.now) }
{
    match at {
        Subscripts::One(a) => all.push(a.get())?,
        Subscripts::Two(a, b) => {
            all.push(a.get())?;
            all.push(b.get())?;
        }
        Subscripts::Three(a, b, c) => {
            all.push(a.get())?;
            all.push(b.get())?;
            all.push(c.get())?;
        }
    }
    Ok(())
}

/// The cells of an assignment: the target, and then those of the right side from the left.
pub fn cells<'a>(
    alloc: Global,
    target: &'a Cell,
    value: &'a Expr,
) -> Result<Vec<&'a Cell>, NoMemory>
    ensures { IfOk result (λ v. map (λ c. c.now) v.items ≡ target.now ∷ cells_of value.now) }
{
    let mut all = Vec::new(alloc);
    push_cells(&mut all, value)?;
    all.push(target)?;
    all.reverse();
    Ok(all)
}

/// Appends the cells, the last one first.
fn push_cells<'a>(all: &mut Vec<&'a Cell>, value: &'a Expr) -> Result<(), NoMemory>
    ensures { OnOk result (map (λ c. c.now) all.new.items ≡ map (λ c. c.now) all.old.items ++ reverse (cells_of value.now)) }
{
    let mut rest = value;
    loop {
        match rest {
            Expr::Const(_) => return Ok(()),
            Expr::At(cell) => {
                all.push(cell)?;
                return Ok(());
            }
            Expr::Plus(left, right) => {
                push_cells(all, right.get())?;
                rest = left.get();
            }
            Expr::Minus(left, right) => {
                push_cells(all, right.get())?;
                rest = left.get();
            }
            Expr::Times(left, right) => {
                push_cells(all, right.get())?;
                rest = left.get();
            }
        }
    }
}

fn push_sides<'a>(all: &mut Vec<&'a Index>, tests: &'a [Test]) -> Result<(), NoMemory> {
    for test in tests {
        all.push(&test.left)?;
        all.push(&test.right)?;
    }
    Ok(())
}

/// The bounds of a loop, or the sides of a guard's tests.
fn push_around<'a>(all: &mut Vec<&'a Index>, around: Around<'a>) -> Result<(), NoMemory> {
    match around {
        Around::Loop { low, high, .. } => {
            all.push(low)?;
            all.push(high)?;
            Ok(())
        }
        Around::Guard { tests, .. } => push_sides(all, tests),
    }
}

/// All index expressions of an assignment and around it, in the order in which the source has them.
pub fn expressions<'a>(alloc: Global, site: &Site<'a>) -> Result<Vec<&'a Index>, NoMemory> {
    let mut all = Vec::new(alloc);
    for around in site.around.as_slice() {
        push_around(&mut all, *around)?;
    }
    let cells = cells(alloc, site.target, site.value)?;
    for cell in cells.as_slice() {
        push_subscripts(&mut all, &cell.at)?;
    }
    Ok(all)
}
