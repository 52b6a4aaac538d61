//! Layouts of a sparse matrix by its kept values: each function here carries one law as its contract, or a worked matrix.
#![tactic(auto)]

ghost use Rattle.std.specs.Prelude.{◌≡◌, pos, [], ◌∷◌};
ghost use Rattle.sparse_marks.specs.Matrices.{IsCsr, cell};
ghost use Rattle.sparse_marks.specs.Examples.{three_by_four, late_block_first, no_rows, repeated, empty_between};
ghost use Rattle.sparse_layouts.specs.Laws.{LayoutsHoldSums, BlocksHoldTheMatrix, DiagonalsHoldTheMatrix, WidthIsOfLongestRow};
ghost use Rattle.sparse_layouts.specs.RowLaws.{RowsHoldTheMatrix, ColumnsStayInside};
ghost use Rattle.sparse_layouts.specs.Extents.{AreInside, block_extents, block_store, diagonal_extents, diagonal_store, row_extents, BlocksFitTheirExtents, DiagonalsFitTheirExtents, RowsFitTheirExtents};
ghost use Rattle.sparse_layouts.specs.Padded.{width, row_column, in_column};
ghost use Rattle.sparse_layouts.specs.Examples.{block_cells, diagonal_cells, row_values, row_columns};

/// At every moment of the walk over the entries, each cell of a layout is the sum of the entries so far that fall on it.
pub fn layouts_hold_sums()
    ensures law { LayoutsHoldSums }
    ensures case { block_cells repeated ≡ 4 ∷ 5 ∷ 0 ∷ 0 ∷ [] }
{}

/// A cell of a block is the matrix's cell that it stands for.
pub fn blocks_hold_the_matrix()
    ensures law { BlocksHoldTheMatrix }
    ensures case { block_cells three_by_four ≡ 5 ∷ 0 ∷ 0 ∷ 7 ∷ 6 ∷ 0 ∷ 0 ∷ 0 ∷ 8 ∷ 0 ∷ 0 ∷ 0 ∷ 0 ∷ 9 ∷ 0 ∷ 0 ∷ [] }
    ensures late { block_cells late_block_first ≡ 1 ∷ 0 ∷ 0 ∷ 0 ∷ 0 ∷ 0 ∷ 1 ∷ 0 ∷ [] }
    ensures empty { block_cells no_rows ≡ [] }
{}

/// A cell of a diagonal is the matrix's cell that it stands for, or 0 before the first column.
pub fn diagonals_hold_the_matrix()
    ensures law { DiagonalsHoldTheMatrix }
    ensures case { diagonal_cells three_by_four ≡ 5 ∷ 7 ∷ 0 ∷ 6 ∷ 0 ∷ 0 ∷ 0 ∷ 0 ∷ 8 ∷ 0 ∷ 0 ∷ 9 ∷ [] }
    ensures repeated { diagonal_cells repeated ≡ 5 ∷ 4 ∷ [] }
{}

/// The width of padded rows is the least number that no row's length passes.
pub fn width_is_of_longest_row()
    ensures law { WidthIsOfLongestRow }
    ensures case { width three_by_four ≡ 2 }
    ensures one { width empty_between ≡ 1 }
    ensures none { width no_rows ≡ 0 }
    ensures repeated { width repeated ≡ 3 }
{}

/// A padded row has the values and the columns of its entries in order, and zeros up to the width; what it holds in a column is
/// the matrix's cell.
pub fn rows_hold_the_matrix()
    ensures law { RowsHoldTheMatrix }
    ensures values { row_values three_by_four ≡ 5 ∷ 6 ∷ 7 ∷ 0 ∷ 8 ∷ 9 ∷ [] }
    ensures columns { row_columns three_by_four ≡ 0 ∷ 2 ∷ 1 ∷ 0 ∷ 0 ∷ 3 ∷ [] }
    ensures sum { in_column repeated 0 1 3 ≡ cell repeated 0 1 }
{}

/// The column of a padded cell is one of the matrix.
pub fn columns_stay_inside()
    ensures law { ColumnsStayInside }
    ensures valid { IsCsr empty_between }
    ensures case { row_column empty_between 1 0 ≡ 0 }
{}

/// Blocks have the sizes that are stored and read: as many blocks as kept values, and the rows and columns of each.
pub fn blocks_fit_their_extents()
    ensures law { BlocksFitTheirExtents }
    ensures extents { block_extents 2 2 three_by_four ≡ 4 ∷ 2 ∷ 2 ∷ [] }
    ensures last { block_store 2 2 three_by_four 2 1 ≡ 3 ∷ 0 ∷ 1 ∷ [] }
    ensures inside { AreInside (block_extents 2 2 three_by_four) (block_store 2 2 three_by_four 2 1) }
    ensures empty { block_extents 2 2 no_rows ≡ 0 ∷ 2 ∷ 2 ∷ [] }
{}

/// So do diagonals: as many as kept values, and the rows of the matrix.
pub fn diagonals_fit_their_extents()
    ensures law { DiagonalsFitTheirExtents }
    ensures extents { diagonal_extents three_by_four ≡ 4 ∷ 3 ∷ [] }
    ensures last { diagonal_store three_by_four 2 1 ≡ 3 ∷ 2 ∷ [] }
    ensures inside { AreInside (diagonal_extents three_by_four) (diagonal_store three_by_four 2 1) }
{}

/// So do padded rows: the rows of the matrix, and the width.
pub fn rows_fit_their_extents()
    ensures law { RowsFitTheirExtents }
    ensures extents { row_extents three_by_four ≡ 3 ∷ 2 ∷ [] }
    ensures inside { AreInside (row_extents three_by_four) (2 ∷ 1 ∷ []) }
    ensures empty { row_extents no_rows ≡ 0 ∷ 0 ∷ [] }
{}

/// More padded rows: an empty row between two others, and a row in which a column stands twice.
pub fn worked_rows()
    ensures between { row_values empty_between ≡ 3 ∷ 0 ∷ 4 ∷ [] }
    ensures between_columns { row_columns empty_between ≡ 0 ∷ 0 ∷ 1 ∷ [] }
    ensures none { row_values no_rows ≡ [] }
    ensures repeated { row_values repeated ≡ 2 ∷ 3 ∷ 4 ∷ [] }
    ensures repeated_columns { row_columns repeated ≡ 1 ∷ 1 ∷ 0 ∷ [] }
{}
