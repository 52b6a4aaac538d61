//! What the lines of an inspector do on any matrix: each function here carries one law as its contract, with worked matrices
//! that meet what the law asks for, and what their runs leave.
#![tactic(auto)]

ghost use Rattle.std.specs.Prelude.{◌≡◌, pos, negsuc, [], ◌∷◌, None};
ghost use Rattle.sparse_marks.specs.Examples.{three_by_four, repeated, by_blocks, by_columns, by_diagonals};
ghost use Rattle.inspector_laws.specs.Laws.{CompactLinesLeaveKeptValues};
ghost use Rattle.inspector_laws.specs.Padding.{RowNamesFit, RowLinesPadRows};
ghost use Rattle.inspector_laws.specs.Layouts.{LayoutNamesFit, cells_of, BlockLinesLeaveBlocks, DiagLinesLeaveDiagonals};
ghost use Rattle.inspector_laws.specs.Ready.{Holds, HoldsValues, NamesFit, IsSmallForm, arrays_of};
ghost use Rattle.inspector_laws.specs.Examples.{names, parameters, memory, made, row_arrays, lay, compacting, padding, blocking, diagonals_of, first_cells, row_cells, row_columns};

/// The lines that `compact` brings, run from any memory that holds a valid matrix, have no fault, make a turn for each row and
/// for each entry, and leave the kept values; all other arrays are as they were.
pub fn compact_lines_leave_kept_values()
    ensures law { CompactLinesLeaveKeptValues }
{}

/// A matrix of three rows and five entries, compacted by single columns, by blocks and by diagonals: it meets what the law
/// asks for, and the run ends with the starts of the groups, the kept values and their number.
pub fn worked_compacting()
    ensures holds { Holds names (parameters three_by_four) (memory three_by_four) three_by_four }
    ensures names_fit { NamesFit names (arrays_of made) }
    ensures columns_fit { IsSmallForm by_columns }
    ensures blocks_fit { IsSmallForm by_blocks }
    ensures diagonals_fit { IsSmallForm by_diagonals }
    ensures no_fault { (compacting by_columns).trouble ≡ None }
    ensures turns { (compacting by_columns).turned ≡ 8 }
    ensures starts { first_cells (compacting by_columns).last made.ptr 4 ≡ pos 0 ∷ pos 2 ∷ pos 3 ∷ pos 5 ∷ [] }
    ensures values { first_cells (compacting by_columns).last made.val 5 ≡ pos 0 ∷ pos 2 ∷ pos 1 ∷ pos 0 ∷ pos 3 ∷ [] }
    ensures number { first_cells (compacting by_columns).last made.num 1 ≡ pos 5 ∷ [] }
    ensures block_starts { first_cells (compacting by_blocks).last made.ptr 3 ≡ pos 0 ∷ pos 2 ∷ pos 4 ∷ [] }
    ensures block_values { first_cells (compacting by_blocks).last made.val 4 ≡ pos 0 ∷ pos 1 ∷ pos 0 ∷ pos 1 ∷ [] }
    ensures diagonal_starts { first_cells (compacting by_diagonals).last made.ptr 2 ≡ pos 0 ∷ pos 4 ∷ [] }
    ensures diagonal_values { first_cells (compacting by_diagonals).last made.val 4 ≡ pos 0 ∷ pos 2 ∷ negsuc 1 ∷ pos 1 ∷ [] }
{}

/// The lines that pad rows, run from any memory that holds a valid matrix, have no fault, make two turns for each row and one
/// for each entry, and leave the width, and each row with its values and columns; all other arrays are as they were.
pub fn row_lines_pad_rows()
    ensures law { RowLinesPadRows }
    ensures holds { Holds names (parameters three_by_four) (memory three_by_four) three_by_four }
    ensures values { HoldsValues names (memory three_by_four) three_by_four }
    ensures names_fit { RowNamesFit names row_arrays }
    ensures no_fault { padding.trouble ≡ None }
    ensures turns { padding.turned ≡ 11 }
    ensures width { first_cells padding.last row_arrays.wid 1 ≡ pos 2 ∷ [] }
    ensures row_values { row_cells padding.last ≡ 5 ∷ 6 ∷ 7 ∷ 0 ∷ 8 ∷ 9 ∷ [] }
    ensures row_columns { row_columns padding.last ≡ pos 0 ∷ pos 2 ∷ pos 1 ∷ pos 0 ∷ pos 0 ∷ pos 3 ∷ [] }
{}

/// The lines of blocks, run from any memory that holds a valid matrix, have no fault, make a turn for each row and for each
/// entry, and leave the kept values and the layout, whose cells are the sums of their entries; all other arrays are as they
/// were. Worked: a row in which a column stands twice, and three rows.
pub fn block_lines_leave_blocks()
    ensures law { BlockLinesLeaveBlocks }
    ensures holds { Holds names (parameters repeated) (memory repeated) repeated }
    ensures values { HoldsValues names (memory repeated) repeated }
    ensures names_fit { NamesFit names (arrays_of made) }
    ensures layout_fits { LayoutNamesFit names (arrays_of made) lay }
    ensures no_fault { (blocking repeated).trouble ≡ None }
    ensures turns { (blocking repeated).turned ≡ 4 }
    ensures sum { cells_of lay [] (blocking repeated).last 0 (pos 0 ∷ pos 1 ∷ []) ≡ 5 }
    ensures one { cells_of lay [] (blocking repeated).last 0 (pos 0 ∷ pos 0 ∷ []) ≡ 4 }
    ensures empty { cells_of lay [] (blocking repeated).last 0 (pos 1 ∷ pos 0 ∷ []) ≡ 0 }
    ensures extents { (blocking repeated).last.extents lay ≡ pos 1 ∷ pos 2 ∷ pos 2 ∷ [] }
    ensures more_turns { (blocking three_by_four).turned ≡ 8 }
    ensures last { cells_of lay [] (blocking three_by_four).last 3 (pos 0 ∷ pos 1 ∷ []) ≡ 9 }
{}

/// So do the lines of diagonals.
pub fn diag_lines_leave_diagonals()
    ensures law { DiagLinesLeaveDiagonals }
    ensures no_fault { (diagonals_of repeated).trouble ≡ None }
    ensures turns { (diagonals_of repeated).turned ≡ 4 }
    ensures sum { cells_of lay (pos 0 ∷ []) (diagonals_of repeated).last 0 (pos 0 ∷ []) ≡ 5 }
    ensures one { cells_of lay (pos 0 ∷ []) (diagonals_of repeated).last 1 (pos 0 ∷ []) ≡ 4 }
    ensures extents { (diagonals_of repeated).last.extents lay ≡ pos 2 ∷ pos 1 ∷ pos 1 ∷ [] }
    ensures below { cells_of lay (pos 0 ∷ []) (diagonals_of three_by_four).last 2 (pos 2 ∷ []) ≡ 8 }
{}
