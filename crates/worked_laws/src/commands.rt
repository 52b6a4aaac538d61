// Pieces of commands, and the kernels that they make.
ghost use Rattle.worked_laws.specs.Shift.{ShiftedLoop};
ghost use Rattle.worked_laws.specs.Commands.{PermutedGrid, TiledLoop, SkewedGrid, PlacedLoop};
ghost use Rattle.worked_laws.specs.Levels.{WorkedLevels};

/// A loop that is shifted: the new list is the old one, moved, conflicting assignments keep their order, and the effect stays.
pub fn shifted_loop()
    ensures { ShiftedLoop }
{}

/// Two loops that change places.
pub fn permuted_grid()
    ensures { PermutedGrid }
{}

/// A loop in tiles of two.
pub fn tiled_loop()
    ensures { TiledLoop }
{}

/// The outer level is added to the inner one.
pub fn skewed_grid()
    ensures { SkewedGrid }
{}

/// A loop that stands at another place.
pub fn placed_loop()
    ensures { PlacedLoop }
{}

/// Level values under the commands.
pub fn worked_levels()
    ensures { WorkedLevels }
{}
