// The lines that compacted levels have in common.
ghost use Rattle.std.specs.Prelude.{◌≡◌, ◌≤◌, false, length, IfOk, IsTrue, is_some, Some};
ghost use Rattle.compact.specs.Marked as spec;
ghost use Rattle.compact.specs.Matching as matching;

use crate::matching::{form_at, group_at};
use crate::names::mark_names;
use c_tree::Stmt;
use chill_base::{List, Name, NoMemory};
use inspectors::{Compacted, compact_inspector};
use nest_tree::Pattern;
use std::alloc::Global;

/// The lines that `compact` and the layouts of blocks and diagonals have in common, for a matrix whose number of rows
/// stands before the number of columns in the signature.
#[tactic(auto, unfolding(crate::specs::Marked::marked))]
pub fn mark_inspector(
    alloc: Global,
    pattern: &Pattern,
    level: usize,
    name: &Name,
) -> Result<List<Stmt>, NoMemory>
    requires group { IsTrue (is_some (matching.group_at level pattern.now.forms)) }
    requires form { IsTrue (is_some (matching.form_at level pattern.now.forms)) }
    requires name { length name.now ≤ 58 }
    ensures { IfOk result (λ list. Some list ≡ spec.marked pattern.now level name.now) }
{
    let Some(group) = group_at(level, &pattern.forms) else {
        unreachable!()
    };
    let Some(form) = form_at(level, &pattern.forms) else {
        unreachable!()
    };
    let Some(names) = mark_names(*name) else {
        unreachable!()
    };
    let level = Compacted {
        matrix: pattern.matrix,
        cols_first: false,
        form,
        group,
    };
    compact_inspector(alloc, &level, &names)
}
