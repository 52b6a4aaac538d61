//! Worked instances of prescribed lists: each function here carries one as its contract.
#![tactic(auto)]

ghost use Rattle.worked_promise.specs.Tiled.{TiledLoop};
ghost use Rattle.worked_promise.specs.Triangle.{PermutedTriangle};

/// The loops of a triangle change places.
pub fn permuted_triangle()
    ensures { PermutedTriangle }
{}

/// A loop of a source, in tiles of two.
pub fn tiled_loop()
    ensures { TiledLoop }
{}
