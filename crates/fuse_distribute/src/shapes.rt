// The loops that statements stand in.
ghost use Rattle.std.specs.Prelude.{◌≡◌, ◌≤◌, ◌-◌, suc, slice_index_or, length, IsTrue};
ghost use Rattle.affine_moves.specs.Change.{is_level};
ghost use Rattle.affine_moves.specs.Placed.{are_small};

use affine_moves::child_at;
use nest_tree::Nest;

/// Which child the statement's loop at a level is.
pub fn loop_of(level: usize, nest: &Nest) -> usize
    requires level { IsTrue (is_level (length nest.now.levels) level) }
    requires positions { length nest.now.positions ≡ suc (length nest.now.levels) }
    requires small { IsTrue (are_small nest.now.positions) }
    ensures value { result ≡ slice_index_or nest.now.positions (level - 1) 0 }
    ensures small { result ≤ 64 }
{
    child_at(nest.positions.as_slice(), level - 1)
}
