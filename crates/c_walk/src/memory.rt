// What a program runs on.
ghost use Rattle.std.specs.Prelude.{◌≡◌, ◌<◌, ◌∷◌, [], slice_index, pos, IsTrue, length, OnOk, OnErr};
ghost use Rattle.c_meaning.specs.Value.{is_inside};
ghost use Rattle.c_meaning.specs.Ground.{written};
ghost use Rattle.c_meaning.specs.Run.{put_in, with_extents, grown, is_within};
ghost use Rattle.c_walk.specs.State.{Rest, state_of, memory_in, with_memory, with_cells, entered, left, spot, data_seen};
ghost use Rattle.c_walk.specs.Ready.{most_loops, has_array};

use c_meaning::View;
use chill_base::{Name, NoMemory};

/// The arrays and the numbers of a run.
pub trait Memory: View {
    /// The cells of data arrays, and the loops that were entered.
    ghost rest: { Self → Rest };

    /// A loop variable gets its value.
    fn enter(&mut self, variable: Name, value: i64)
        requires { length (rest self.old).outer < most_loops }
        ensures { state_of (Self.scope self.new) (Self.sight self.new) (rest self.new) ≡ entered variable value (state_of (Self.scope self.old) (Self.sight self.old) (rest self.old)) };

    /// The loop variable that came last is a number no more.
    fn leave(&mut self)
        requires { 0 < length (rest self.old).outer }
        ensures { state_of (Self.scope self.new) (Self.sight self.new) (rest self.new) ≡ left (state_of (Self.scope self.old) (Self.sight self.old) (rest self.old)) };

    /// A cell of a data array, missing subscripts being 0. None exactly where a subscript isn't inside.
    fn data_cell(&self, array: &Name, at: [i64; 3]) -> Option<u64>
        requires { 0 < (Self.scope self.now).data_arrays array.now }
        ensures { result ≡ data_seen (state_of (Self.scope self.now) (Self.sight self.now) (rest self.now)) array.now at };

    /// Writes a cell of a data array.
    fn set_data(&mut self, array: &Name, at: [i64; 3], value: u64)
        requires has { 0 < (Self.scope self.old).data_arrays array.now }
        requires inside { IsTrue (is_inside at ((Self.sight self.old).extents array.now)) }
        ensures { let before = state_of (Self.scope self.old) (Self.sight self.old) (rest self.old) in state_of (Self.scope self.new) (Self.sight self.new) (rest self.new) ≡ with_memory (with_cells (written before.cells (spot array.now at) value) (memory_in before)) before };

    /// Writes a cell of an index array.
    fn set_index(&mut self, array: &Name, at: [i64; 3], value: i64)
        requires has { 0 < (Self.scope self.old).index_arrays array.now }
        requires inside { IsTrue (is_inside at ((Self.sight self.old).extents array.now)) }
        ensures { let before = state_of (Self.scope self.old) (Self.sight self.old) (rest self.old) in state_of (Self.scope self.new) (Self.sight self.new) (rest self.new) ≡ with_memory (put_in array.now at value (memory_in before)) before };

    /// The three extents of an array, missing ones being 1.
    fn extents(&self, array: &Name) -> [u64; 3]
        requires { IsTrue (has_array array.now (Self.scope self.now)) }
        ensures { (Self.sight self.now).extents array.now ≡ pos (slice_index result 0) ∷ pos (slice_index result 1) ∷ pos (slice_index result 2) ∷ [] };

    /// Appends zeros, so that the first extent rises.
    fn grow(&mut self, array: &Name, count: u64) -> Result<(), NoMemory>
        requires has { IsTrue (has_array array.now (Self.scope self.old)) }
        requires within { IsTrue (is_within (grown (pos count) ((Self.sight self.old).extents array.now))) }
        ensures grown { let before = state_of (Self.scope self.old) (Self.sight self.old) (rest self.old) in OnOk result (state_of (Self.scope self.new) (Self.sight self.new) (rest self.new) ≡ with_memory (with_extents array.now (grown (pos count) (before.sight.extents array.now)) (memory_in before)) before) }
        ensures kept { OnErr result (state_of (Self.scope self.new) (Self.sight self.new) (rest self.new) ≡ state_of (Self.scope self.old) (Self.sight self.old) (rest self.old)) };
}
