//! What the prescribed list is: each function here carries one law as its contract.
#![tactic(auto)]

ghost use Rattle.promise_laws.specs.Levels.{PermutedLevels, TiledLevels, SkewedLevels, ShiftedLevels, PlacedLevels};
ghost use Rattle.promise_laws.specs.Moved.{MovesMakeKernel};
ghost use Rattle.promise_laws.specs.Prescribed.{OneMovedList, OnePrescribedList, EmptyRecipePrescribesSource, StillRecipePrescribesSource};

/// Commands lead to one kernel and one list at most.
pub fn one_moved_list()
    ensures { OneMovedList }
{}

/// A recipe prescribes one list at most.
pub fn one_prescribed_list()
    ensures { OnePrescribedList }
{}

/// The empty recipe prescribes the source's list.
pub fn empty_recipe_prescribes_source()
    ensures { EmptyRecipePrescribesSource }
{}

/// A recipe of commands that move nothing prescribes the source's list.
pub fn still_recipe_prescribes_source()
    ensures { StillRecipePrescribesSource }
{}

/// The moves that pieces make are those of the kernel that they make.
pub fn moves_make_kernel()
    ensures { MovesMakeKernel }
{}

/// A permuted instance: new level t has the value of old level order[t].
pub fn permuted_levels()
    ensures { PermutedLevels }
{}

/// A tiled instance: the new level has the number of its tile.
pub fn tiled_levels()
    ensures { TiledLevels }
{}

/// A skewed instance.
pub fn skewed_levels()
    ensures { SkewedLevels }
{}

/// A shifted instance.
pub fn shifted_levels()
    ensures { ShiftedLevels }
{}

/// An instance of a statement that only stands elsewhere, as after `fuse` and `distribute`.
pub fn placed_levels()
    ensures { PlacedLevels }
{}
