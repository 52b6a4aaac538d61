//! The kept values of a sparse matrix, and the marks that find them: each function here carries one law as its contract, or
//! a worked matrix.
#![tactic(auto)]

ghost use Rattle.std.specs.Prelude.{◌≡◌, ℕ, pos, negsuc, [], ◌∷◌, true};
ghost use Rattle.sparse_marks.specs.Matrices.{cell};
ghost use Rattle.sparse_marks.specs.Kept.{distinct, kept};
ghost use Rattle.sparse_marks.specs.Forms.{least_value, greatest_value, value_at, group_by};
ghost use Rattle.sparse_marks.specs.Walks.{Rising};
ghost use Rattle.sparse_marks.specs.Extents.{begins_extent, values_extent, ExtentsFitReads};
ghost use Rattle.sparse_marks.specs.Laws.{KeptValuesAreOfTheirGroup, KeptValuesStandByGroups, MarksTellNewValues, MarksFindKeptValues, ValuesLieInRange};
ghost use Rattle.sparse_marks.specs.Examples.{three_by_four, late_block_first, no_rows, repeated, by_blocks, by_columns, by_diagonals, pointers, kept_values, marks_left, is_new_at_last, placed_entries, IsLastRead};

/// The kept values of a group are those of its entries, each once, in order of first appearance.
pub fn kept_values_are_of_their_group()
    ensures law { KeptValuesAreOfTheirGroup }
    ensures case { distinct (pos 4 ∷ pos 1 ∷ pos 4 ∷ pos 2 ∷ pos 1 ∷ []) ≡ pos 4 ∷ pos 1 ∷ pos 2 ∷ [] }
    ensures group { kept 1 (placed_entries by_blocks three_by_four) ≡ pos 0 ∷ pos 1 ∷ [] }
{}

/// The kept values of all groups stand one behind the other, each at its position.
pub fn kept_values_stand_by_groups()
    ensures law { KeptValuesStandByGroups }
    ensures starts { pointers by_blocks three_by_four ≡ 0 ∷ 2 ∷ 4 ∷ [] }
    ensures values { kept_values by_blocks three_by_four ≡ pos 0 ∷ pos 1 ∷ pos 0 ∷ pos 1 ∷ [] }
{}

/// On a walk over the entries, a mark that isn't above the start of its group tells a value that the group doesn't have yet;
/// any other mark is one more than the value's position. The groups of every form rise.
pub fn marks_tell_new_values()
    ensures law { MarksTellNewValues }
    ensures rising { (rows : ℕ) → Rising (group_by rows) }
    ensures case { is_new_at_last by_diagonals three_by_four ≡ true }
{}

/// The marks leave the starts of all groups with the total, and all kept values.
pub fn marks_find_kept_values()
    ensures law { MarksFindKeptValues }
    ensures case { marks_left by_diagonals three_by_four ≡ pos 0 ∷ pos 2 ∷ negsuc 1 ∷ pos 1 ∷ [] }
{}

/// An entry's value is between the least and the greatest value of its form in the matrix.
pub fn values_lie_in_range()
    ensures law { ValuesLieInRange }
    ensures least { least_value by_diagonals three_by_four ≡ negsuc 1 }
    ensures greatest { greatest_value by_diagonals three_by_four ≡ pos 3 }
    ensures between { value_at by_diagonals 2 0 ≡ negsuc 1 }
{}

/// Begins and kept values are read exactly in their extents: of the begins a cell for each group and the next one of the last,
/// and each kept value by its group.
pub fn extents_fit_reads()
    ensures law { ExtentsFitReads }
    ensures begins { begins_extent by_blocks three_by_four ≡ 3 }
    ensures values { values_extent by_blocks (λ e. []) three_by_four ≡ 4 }
    ensures last { IsLastRead }
    ensures one_group { begins_extent by_diagonals three_by_four ≡ 2 }
    ensures no_groups { begins_extent by_blocks no_rows ≡ 1 }
    ensures no_values { values_extent by_blocks (λ e. []) no_rows ≡ 0 }
{}

/// Matrices by blocks, by diagonals and by single columns: starts with the total, and kept values.
pub fn worked_matrices()
    ensures diagonals { pointers by_diagonals three_by_four ≡ 0 ∷ 4 ∷ [] }
    ensures diagonal_values { kept_values by_diagonals three_by_four ≡ pos 0 ∷ pos 2 ∷ negsuc 1 ∷ pos 1 ∷ [] }
    ensures columns { pointers by_columns three_by_four ≡ 0 ∷ 2 ∷ 3 ∷ 5 ∷ [] }
    ensures column_values { kept_values by_columns three_by_four ≡ pos 0 ∷ pos 2 ∷ pos 1 ∷ pos 0 ∷ pos 3 ∷ [] }
    ensures late { kept_values by_blocks late_block_first ≡ pos 1 ∷ pos 0 ∷ [] }
    ensures late_starts { pointers by_blocks late_block_first ≡ 0 ∷ 2 ∷ [] }
    ensures empty { pointers by_blocks no_rows ≡ 0 ∷ [] }
    ensures one_diagonal_group { pointers by_diagonals no_rows ≡ 0 ∷ 0 ∷ [] }
{}

/// A row in which a column stands twice: its cell is the sum of both entries, and its value is kept once.
pub fn repeated_columns()
    ensures sum { cell repeated 0 1 ≡ 5 }
    ensures other { cell repeated 0 0 ≡ 4 }
    ensures blocks { pointers by_blocks repeated ≡ 0 ∷ 1 ∷ [] }
    ensures block_values { kept_values by_blocks repeated ≡ pos 0 ∷ [] }
    ensures diagonals { pointers by_diagonals repeated ≡ 0 ∷ 2 ∷ [] }
    ensures diagonal_values { kept_values by_diagonals repeated ≡ pos 1 ∷ pos 0 ∷ [] }
{}
