// The pieces of the affine commands map old instances to new points one to one.
ghost use Rattle.nest_laws.specs.PieceLaws.{PermuteIsOneToOne, TileIsOneToOne, SkewIsOneToOne, ShiftIsOneToOne, PlaceIsOneToOne, SkewKeepsOrder, UnrollIsOneToOne};

/// New level t is old level order[t].
pub fn permute_is_one_to_one()
    ensures { PermuteIsOneToOne }
{}

/// A new level tells the tile of an old one.
pub fn tile_is_one_to_one()
    ensures { TileIsOneToOne }
{}

/// Multiples of earlier levels are added to a level.
pub fn skew_is_one_to_one()
    ensures { SkewIsOneToOne }
{}

/// A number is added to a level.
pub fn shift_is_one_to_one()
    ensures { ShiftIsOneToOne }
{}

/// Positions change alone, as in `fuse` and `distribute`.
pub fn place_is_one_to_one()
    ensures { PlaceIsOneToOne }
{}

/// Instances that are skewed alike keep their order.
pub fn skew_keeps_order()
    ensures { SkewKeepsOrder }
{}

/// A level's values are taken in groups: full ones unrolled, and a rest for each upper row.
pub fn unroll_is_one_to_one()
    ensures { UnrollIsOneToOne }
{}
