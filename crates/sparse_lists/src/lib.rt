//! Dense and compacted lists as moved lists: each function here carries one law as its contract, with a worked case beside it.
#![tactic(auto)]

ghost use Rattle.std.specs.Prelude.{◌≡◌, pos, negsuc, [], ◌∷◌};
ghost use Rattle.nest_tree.specs.Places.{place};
ghost use Rattle.sparse_marks.specs.Kept.{kept_before, position, nth};
ghost use Rattle.sparse_marks.specs.Examples.{placed_entries, three_by_four, late_block_first, by_blocks, by_diagonals};
ghost use Rattle.sparse_lists.specs.Moving.{densified, dense_positions, first_compacted, second_compacted};
ghost use Rattle.sparse_lists.specs.Examples.{AreOfTheStatement, IsDenseList, IsMovedRow};
ghost use Rattle.sparse_lists.specs.Laws.{PositionsAreOneToOne, PositionsTellKeptValues, RelocatedListIsMoved, DenseLevelsAreOneToOne, CompactedLevelsAreOneToOne};

/// No two kept values have one position.
pub fn positions_are_one_to_one()
    ensures law { PositionsAreOneToOne }
    ensures first { position 1 (pos 0) (placed_entries by_blocks three_by_four) ≡ 2 }
    ensures second { position 1 (pos 1) (placed_entries by_blocks three_by_four) ≡ 3 }
{}

/// Each position from the start of a group to below the next start is that of the kept value which stands there.
pub fn positions_tell_kept_values()
    ensures law { PositionsTellKeptValues }
    ensures case { position 0 (negsuc 1) (placed_entries by_diagonals three_by_four) ≡ 2 }
    ensures value { nth (kept_before 1 (placed_entries by_diagonals three_by_four)) 2 ≡ negsuc 1 }
{}

/// The sorted list of the new places of items that go one to one is the old list moved, one for one. The dense list of a row with
/// the columns 1, 1 and 0 is.
pub fn relocated_list_is_moved()
    ensures law { RelocatedListIsMoved }
    ensures items { AreOfTheStatement }
    ensures list { IsDenseList }
    ensures case { IsMovedRow }
{}

/// In the dense list a level with the entry's column stands before the level of its place.
pub fn dense_levels_are_one_to_one()
    ensures law { DenseLevelsAreOneToOne }
    ensures case { place (dense_positions 2 (5 ∷ 6 ∷ 7 ∷ [])) (densified 2 (λ vs. pos 3) (pos 2 ∷ pos 4 ∷ [])) ≡ pos 5 ∷ pos 2 ∷ pos 6 ∷ pos 3 ∷ pos 0 ∷ pos 4 ∷ pos 7 ∷ [] }
{}

/// In the compacted list a value is replaced by its position.
pub fn compacted_levels_are_one_to_one()
    ensures law { CompactedLevelsAreOneToOne }
    ensures first { first_compacted (placed_entries by_diagonals three_by_four) (pos 1 ∷ pos 0 ∷ []) ≡ pos 3 ∷ pos 0 ∷ [] }
    ensures second { second_compacted (placed_entries by_blocks late_block_first) (pos 0 ∷ pos 0 ∷ []) ≡ pos 0 ∷ pos 1 ∷ [] }
{}
