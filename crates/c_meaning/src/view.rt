// What an index expression sees.
ghost use Rattle.std.specs.Prelude.{◌≡◌, ◌<◌, IsTrue};
ghost use Rattle.c_meaning.specs.Value.{Sight, cell_seen};
ghost use Rattle.c_meaning.specs.Scope.{Scope};

use chill_base::Name;

/// The values of names and the cells of index arrays.
pub trait View {
    /// Which names it has.
    ghost scope: { Self → Scope };

    /// What it tells of them.
    ghost sight: { Self → Sight };

    /// The value of a parameter or a loop variable.
    fn value(&self, name: &Name) -> i64
        requires { IsTrue ((scope self.now).numbers name.now) }
        ensures { result ≡ (sight self.now).value name.now };

    /// A cell of an index array, missing subscripts being 0. None exactly where a subscript isn't inside.
    fn cell(&self, array: &Name, at: [i64; 3]) -> Option<i64>
        requires { 0 < (scope self.now).index_arrays array.now }
        ensures { result ≡ cell_seen (sight self.now) array.now at };
}
