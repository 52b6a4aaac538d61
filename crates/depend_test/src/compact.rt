// The test of a level that is compacted.
ghost use Rattle.std.specs.Prelude.{◌≡◌, ◌<◌, ◌≤◌, length, not, cond, None, Some, slice_get, IfSome, IfOk};
ghost use Rattle.nest_core.specs.Shapes.{IsShaped};
ghost use Rattle.depend_test.specs.First.{IsFirst};
ghost use Rattle.depend_test.specs.Levels.{IsDecidedAt, first_access, with_access, access_pairs, level_dependence};
ghost use Rattle.depend_test.specs.Sides.{IsSide};
ghost use Rattle.depend_test.specs.Tested.{FindsAt};

use crate::conflict::conflict;
use crate::order::order_rows;
use crate::pair::{make_pair, subscript_rows, with_rows};
use crate::side::{Side, same_side};
use c_tree::How;
use int_sets::SetFault;
use nest_tree::{Access, Dependence, Kernel};
use std::alloc::Global;

/// Whether two accesses of a statement may name one cell at two instances that differ first at a level.
fn depends(
    alloc: Global,
    kernel: &Kernel,
    side: &Side,
    level: usize,
    first: &Access,
    second: &Access,
) -> Result<bool, SetFault>
    requires { IsSide (length kernel.now.head.params) side.now }
    ensures { IfOk result (λ is_open. IsDecidedAt kernel.now side.now level (record { first = first.now; second = second.now }) (not is_open)) }
{
    let pair = make_pair(alloc, kernel, side, side)?;
    let equal = subscript_rows(alloc, &pair, first, second)?;
    let same = equal.as_slice();
    let system = with_rows(alloc, &pair.system, same)?;
    let early = pair.first_old.as_slice();
    let late = pair.second_old.as_slice();
    let rows = order_rows(alloc, pair.first.vars, level, level, early, late)?;
    let order = rows.as_slice();
    let all = with_rows(alloc, &system, order)?;
    Ok(!all.excluded(alloc)?)
}

/// Whether an access depends on one of the statement's.
fn access_depends(
    alloc: Global,
    kernel: &Kernel,
    side: &Side,
    how: How,
    level: usize,
    cell: &Access,
    i: usize,
) -> Result<bool, SetFault>
    requires { IsSide (length kernel.now.head.params) side.now }
    ensures { IfOk result (λ found. IsFirst (IsDecidedAt kernel.now side.now level) first_access (with_access side.now how i cell.now) (cond found (Some cell.now) None)) }
{
    let cells = side.accesses.as_slice();
    for j in 0..cells.len() {
        let other = &cells[j];
        if conflict(how, cell, i, how, other, j)
            && depends(alloc, kernel, side, level, cell, other)?
        {
            return Ok(true);
        }
    }
    Ok(false)
}

/// The first two accesses of a statement by which it depends on itself at a level.
fn first_level_dependence(
    alloc: Global,
    kernel: &Kernel,
    side: &Side,
    how: How,
    statement: usize,
    level: usize,
) -> Result<Option<Dependence>, SetFault>
    requires { IsSide (length kernel.now.head.params) side.now }
    ensures { IfOk result (λ d. IsFirst (IsDecidedAt kernel.now side.now level) (level_dependence statement level) (access_pairs side.now how) d) }
{
    let cells = side.accesses.as_slice();
    for i in 0..cells.len() {
        let cell = &cells[i];
        if access_depends(alloc, kernel, side, how, level, cell, i)? {
            return Ok(Some(Dependence {
                from: statement,
                to: statement,
                array: cell.array,
                old_level: level,
                new_level: level,
            }));
        }
    }
    Ok(None)
}

/// The first system that isn't excluded of two instances of a statement that name one cell by conflicting accesses and
/// differ first at a level.
pub fn first_compact_dependence(
    alloc: Global,
    kernel: &Kernel,
    statement: usize,
    level: usize,
) -> Result<Option<Dependence>, SetFault>
    requires shaped { IsShaped kernel.now }
    requires statement { statement < length kernel.now.nests }
    requires level { IfSome (slice_get kernel.now.nests statement) (λ n. (1 ≤ level) × (level ≤ length n.levels)) }
    ensures { IfOk result (λ d. FindsAt kernel.now statement level d) }
{
    let nests = kernel.nests.as_slice();
    let nest = &nests[statement];
    let side = same_side(alloc, &kernel.head, kernel.made.as_slice(), nest)?;
    first_level_dependence(alloc, kernel, &side, nest.how, statement, level)
}
