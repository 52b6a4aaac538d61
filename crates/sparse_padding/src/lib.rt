//! Padded lists of assignments: each function here carries one law as its contract, with worked positions beside it.
#![tactic(auto)]

ghost use Rattle.std.specs.Prelude.{◌≡◌, ℕ, [], ◌∷◌, length, Some, slice_get};
ghost use Rattle.c_tree.specs.declared.statement.How.TheVariants.{Add, Subtract};
ghost use Rattle.c_meaning.specs.Ground.{effect, perform};
ghost use Rattle.sparse_marks.specs.Examples.{three_by_four, no_rows, repeated, empty_between};
ghost use Rattle.sparse_padding.specs.Products.{with_factor, with_each};
ghost use Rattle.sparse_padding.specs.Positions.{by_entry, padded, AreHarmless, HoldSums, AreNumbers};
ghost use Rattle.sparse_padding.specs.Laws.{RunIsOneAssignment, OneEntryIsOneAssignment, ZeroChangesNothing, PaddedListKeepsEffect};
ghost use Rattle.sparse_padding.specs.Examples.{cell_of, a, b, x, y, held, is_matrix, times_x, positions, reading, reading_sum, reading_one, reading_cell};
ghost use Rattle.sparse_padding.specs.Bodies.{row_positions};
ghost use Rattle.sparse_padding.specs.PaddedCells.{padded_blocks, padded_diagonals, how_often};
ghost use Rattle.sparse_padding.specs.CellLaws.{EntriesFallOnBlocksOnce, EntriesFallOnDiagonalsOnce};
ghost use Rattle.sparse_padding.specs.BodyLaws.{IsOver, IsUnread, HoldRows, HoldBlocks, HoldDiagonals, PaddedCellsKeepEffect, PaddedBlocksKeepEffect, PaddedDiagonalsKeepEffect, RowsPerformTheEntries, PaddedRowsKeepEffect};
ghost use Rattle.sparse_padding.specs.Spmv.{spmv, lay_cell, lay_row, x_cells, y_cells, with_rows, with_blocks, with_diagonals, by_rows, by_blocks, by_diagonals, left_in, of_entries, of_blocks, reading_body, twice_one, first_of_blocks, last_of_blocks, two_entries, padded_zero};
ghost use Rattle.sparse_padding.specs.Spmv.{is_matrix as is_of_matrix};

/// A run of assignments to one cell, which none of them reads, has the effect of one assignment whose factor is the sum.
pub fn run_is_one_assignment()
    ensures law { RunIsOneAssignment }
    ensures run { effect (with_each y Add times_x (a 0 ∷ a 1 ∷ [])) held y ≡ 51 }
    ensures one { perform (with_factor y Add times_x (b 0)) held y ≡ 51 }
    ensures numbers { AreNumbers held }
{}

/// So has one assignment alone, also where its product reads its target; two such assignments don't.
pub fn one_entry_is_one_assignment()
    ensures law { OneEntryIsOneAssignment }
    ensures one { effect reading_one held x ≡ 30 }
    ensures its_cell { perform reading_cell held x ≡ 30 }
    ensures two { effect reading held x ≡ 120 }
    ensures their_sum { perform reading_sum held x ≡ 60 }
{}

/// An assignment of 0 times a product changes nothing.
pub fn zero_changes_nothing()
    ensures law { ZeroChangesNothing }
    ensures added { perform (with_factor y Add times_x (b 1)) held y ≡ 1 }
    ensures subtracted { perform (with_factor y Subtract times_x (b 1)) held y ≡ 1 }
{}

/// A padded list, with one assignment for each position, has the effect of the list with one for each entry.
pub fn padded_list_keeps_effect()
    ensures law { PaddedListKeepsEffect }
    ensures harmless { AreHarmless is_matrix positions }
    ensures sums { HoldSums held positions }
    ensures by_entry { effect (by_entry positions) held y ≡ 51 }
    ensures padded { effect (padded positions) held y ≡ 51 }
{}

/// Over a matrix, one assignment for each padded cell that holds the matrix has the effect of one for each entry that falls on
/// them. In a row with a column that stands twice, both entries fall on one cell; where their products read their target, the
/// sum isn't the same.
pub fn padded_cells_keep_effect()
    ensures law { PaddedCellsKeepEffect }
    ensures count { length (by_blocks repeated) ≡ 2 }
    ensures case { left_in repeated (by_blocks repeated) (with_blocks repeated (10 ∷ 20 ∷ []) (0 ∷ [])) ≡ 140 ∷ [] }
    ensures reading { effect (of_entries reading_body twice_one) (with_blocks twice_one (1 ∷ []) []) (cell_of 120 0) ≡ 4 }
    ensures their_sum { effect (of_blocks reading_body twice_one) (with_blocks twice_one (1 ∷ []) []) (cell_of 120 0) ≡ 3 }
{}

/// The cells of blocks do.
pub fn padded_blocks_keep_effect()
    ensures law { PaddedBlocksKeepEffect }
    ensures numbers { AreNumbers (with_blocks three_by_four x_cells y_cells) }
    ensures over { IsOver is_of_matrix spmv three_by_four (with_blocks three_by_four x_cells y_cells) }
    ensures unread { (i j : ℕ) → IsUnread spmv three_by_four i j }
    ensures held { HoldBlocks is_of_matrix 2 2 lay_cell three_by_four (with_blocks three_by_four x_cells y_cells) }
    ensures count { length (by_blocks three_by_four) ≡ 12 }
    ensures first { slice_get (by_blocks three_by_four) 0 ≡ Some first_of_blocks }
    ensures last { slice_get (padded_blocks 2 2 lay_cell three_by_four) 11 ≡ Some last_of_blocks }
    ensures case { left_in three_by_four (by_blocks three_by_four) (with_blocks three_by_four x_cells y_cells) ≡ 23 ∷ 14 ∷ 44 ∷ [] }
    ensures empty { by_blocks no_rows ≡ [] }
{}

/// So do the cells of diagonals.
pub fn padded_diagonals_keep_effect()
    ensures law { PaddedDiagonalsKeepEffect }
    ensures numbers { AreNumbers (with_diagonals three_by_four x_cells y_cells) }
    ensures over { IsOver is_of_matrix spmv three_by_four (with_diagonals three_by_four x_cells y_cells) }
    ensures held { HoldDiagonals is_of_matrix lay_row three_by_four (with_diagonals three_by_four x_cells y_cells) }
    ensures count { length (by_diagonals three_by_four) ≡ 9 }
    ensures case { left_in three_by_four (by_diagonals three_by_four) (with_diagonals three_by_four x_cells y_cells) ≡ 23 ∷ 14 ∷ 44 ∷ [] }
    ensures repeated_count { length (by_diagonals repeated) ≡ 2 }
    ensures repeated { left_in repeated (by_diagonals repeated) (with_diagonals repeated (10 ∷ 20 ∷ []) (0 ∷ [])) ≡ 140 ∷ [] }
{}

/// Each entry falls on exactly one padded cell of blocks.
pub fn entries_fall_on_blocks_once()
    ensures law { EntriesFallOnBlocksOnce }
    ensures case { how_often 2 3 (padded_blocks 2 2 lay_cell three_by_four) ≡ 1 }
    ensures other { how_often 2 2 (padded_blocks 1 1 lay_cell three_by_four) ≡ 0 }
{}

/// And on exactly one of diagonals.
pub fn entries_fall_on_diagonals_once()
    ensures law { EntriesFallOnDiagonalsOnce }
    ensures case { how_often 2 3 (padded_diagonals lay_row three_by_four) ≡ 1 }
    ensures other { how_often 2 1 (padded_diagonals lay_row repeated) ≡ 0 }
{}

/// The entries that fall on padded rows are the entries in order.
pub fn rows_perform_the_entries()
    ensures law { RowsPerformTheEntries }
    ensures case { by_entry (row_positions spmv lay_row empty_between) ≡ two_entries }
    ensures product { left_in three_by_four (of_entries spmv three_by_four) (with_rows three_by_four x_cells y_cells) ≡ 23 ∷ 14 ∷ 44 ∷ [] }
    ensures repeated { left_in repeated (of_entries spmv repeated) (with_rows repeated (10 ∷ 20 ∷ []) (0 ∷ [])) ≡ 140 ∷ [] }
{}

/// One assignment for each cell of padded rows has the effect of one for each entry, in order.
pub fn padded_rows_keep_effect()
    ensures law { PaddedRowsKeepEffect }
    ensures numbers { AreNumbers (with_rows three_by_four x_cells y_cells) }
    ensures over { IsOver is_of_matrix spmv three_by_four (with_rows three_by_four x_cells y_cells) }
    ensures held { HoldRows is_of_matrix lay_row three_by_four (with_rows three_by_four x_cells y_cells) }
    ensures count { length (by_rows three_by_four) ≡ 6 }
    ensures case { left_in three_by_four (by_rows three_by_four) (with_rows three_by_four x_cells y_cells) ≡ 23 ∷ 14 ∷ 44 ∷ [] }
    ensures second { slice_get (by_rows empty_between) 1 ≡ Some padded_zero }
    ensures between { left_in empty_between (by_rows empty_between) (with_rows empty_between (10 ∷ 20 ∷ []) (1 ∷ 2 ∷ 3 ∷ [])) ≡ 31 ∷ 2 ∷ 83 ∷ [] }
    ensures repeated_count { length (by_rows repeated) ≡ 3 }
    ensures repeated { left_in repeated (by_rows repeated) (with_rows repeated (10 ∷ 20 ∷ []) (0 ∷ [])) ≡ 140 ∷ [] }
{}
