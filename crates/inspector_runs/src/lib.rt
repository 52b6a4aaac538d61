//! What the lines of an inspector do when they are run: each function here carries one law as its contract, with a worked
//! matrix that meets what the law asks for, and what its run leaves.
#![tactic(auto)]

ghost use Rattle.std.specs.Prelude.{◌≡◌, pos, [], ◌∷◌, None};
ghost use Rattle.c_tree.specs.declared.index.Index.TheVariants.{Const};
ghost use Rattle.sparse_marks.specs.Examples.{three_by_four};
ghost use Rattle.sparse_marks.specs.Marks.{unmarked};
ghost use Rattle.inspector_runs.specs.Laws.{MarkingLeavesKeptValues, LinesLeaveKeptValues, LinesOfNoRows, sizes};
ghost use Rattle.inspector_runs.specs.Shown.{Shows, Fits, SizesFit, cleared};
ghost use Rattle.inspector_runs.specs.Examples.{made, text, loops, parameters, memory, columns, marking, keeping, first_cells};

/// The marking lines have no fault, make a turn for each row and for each entry, and leave the kept values; all other arrays
/// are as they were.
pub fn marking_leaves_kept_values()
    ensures law { MarkingLeavesKeptValues }
    ensures fits { Fits made text loops (parameters 3) memory (sizes (pos 0) 4 4) 3 three_by_four.first columns }
    ensures begins { Shows made (sizes (pos 0) 4 4) memory unmarked memory }
    ensures no_fault { marking.trouble ≡ None }
    ensures turns { marking.turned ≡ 8 }
    ensures starts { first_cells marking.last made.ptr 4 ≡ pos 0 ∷ pos 2 ∷ pos 3 ∷ pos 5 ∷ [] }
    ensures values { first_cells marking.last made.val 5 ≡ pos 0 ∷ pos 2 ∷ pos 1 ∷ pos 0 ∷ pos 3 ∷ [] }
    ensures number { first_cells marking.last made.num 1 ≡ pos 5 ∷ [] }
{}

/// So do all lines of a compacted level without a layout, declarations and growths included, run from any memory.
pub fn lines_leave_kept_values()
    ensures law { LinesLeaveKeptValues }
    ensures fits { Fits made text loops (parameters 3) (cleared made memory) (sizes (pos 0) 4 4) 3 three_by_four.first columns }
    ensures sizes_fit { SizesFit made (parameters 3) (cleared made memory) (Const (pos 4)) (Const (pos 4)) 4 4 }
    ensures no_fault { (keeping 3).trouble ≡ None }
    ensures turns { (keeping 3).turned ≡ 8 }
    ensures starts { first_cells (keeping 3).last made.ptr 4 ≡ pos 0 ∷ pos 2 ∷ pos 3 ∷ pos 5 ∷ [] }
    ensures values { first_cells (keeping 3).last made.val 5 ≡ pos 0 ∷ pos 2 ∷ pos 1 ∷ pos 0 ∷ pos 3 ∷ [] }
    ensures number { first_cells (keeping 3).last made.num 1 ≡ pos 5 ∷ [] }
{}

/// For a matrix without rows they make no turn and keep no value.
pub fn lines_of_no_rows()
    ensures law { LinesOfNoRows }
    ensures fits { Fits made text loops (parameters 0) (cleared made memory) (sizes (pos 0) 4 4) 0 three_by_four.first columns }
    ensures sizes_fit { SizesFit made (parameters 0) (cleared made memory) (Const (pos 4)) (Const (pos 4)) 4 4 }
    ensures no_fault { (keeping 0).trouble ≡ None }
    ensures turns { (keeping 0).turned ≡ 0 }
    ensures number { first_cells (keeping 0).last made.num 1 ≡ pos 0 ∷ [] }
{}
