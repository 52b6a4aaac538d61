// The limits on boxes and kernels.
ghost use Rattle.std.specs.Prelude.{◌≡◌, ◌<◌, ◌≤◌, ◌^◌, length, IfOk, IsTrue};

use crate::side::Side;
use chill_base::{List, Stop};
use nest_tree::{Kernel, ShapeWhy};
use std::alloc::Global;

/// The most cells of a box.
const MOST_CELLS: u64 = 1 << 20;

const MOST_STATEMENTS: usize = 64;

const MOST_LEVELS: usize = 8;

const MOST_ARRAYS: usize = 384;

/// How many cells a side has, where this is within the limit.
fn extent_of(side: &Side) -> Result<u64, Stop<ShapeWhy>>
    ensures { IfOk result (λ n. n ≤ 2 ^ 20) }
{
    let width = side.width.unsigned_abs();
    if width >= MOST_CELLS as u128 {
        return Err(Stop::Refused(ShapeWhy::Limit));
    }
    Ok(width as u64 + 1)
}

/// The extents of a box that has no more cells than the limit.
pub fn box_extents(alloc: Global, sides: &[Side]) -> Result<List<i64>, Stop<ShapeWhy>>
    ensures { IfOk result (λ es. length es ≡ length sides.now) }
{
    let mut extents = List::new(alloc);
    let mut cells: u64 = 1;
    for side in sides {
        let extent = extent_of(side)?;
        cells *= extent;
        if cells > MOST_CELLS {
            return Err(Stop::Refused(ShapeWhy::Limit));
        }
        extents.push(extent as i64)?;
    }
    Ok(extents)
}

/// Whether the kernel has room for one more statement of this depth, and for one more array.
pub fn has_room(kernel: &Kernel, depth: usize) -> bool
    ensures statements { IsTrue result → length kernel.now.nests < 64 }
    ensures depth { IsTrue result → depth ≤ 8 }
{
    kernel.nests.len() < MOST_STATEMENTS && depth <= MOST_LEVELS && kernel.made.len() < MOST_ARRAYS
}
