// The statements of a kernel, one by one.
ghost use Rattle.std.specs.Prelude.{◌≡◌, ◌<◌, length, slice_get, Some};
ghost use Rattle.nest_core.specs.Shapes.{IsShaped, IsShapedNest};

use nest_tree::{Kernel, Nest};

/// A statement of a kernel.
pub fn nest_at(kernel: &Kernel, statement: usize) -> &Nest
    requires shaped { IsShaped kernel.now }
    requires statement { statement < length kernel.now.nests }
    ensures nest { slice_get kernel.now.nests statement ≡ Some result.now }
    ensures shaped { IsShapedNest kernel.now.head result.now }
{
    &kernel.nests.as_slice()[statement]
}
