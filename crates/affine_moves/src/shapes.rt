// The shapes that commands look for.
ghost use Rattle.std.specs.Prelude.{◌≡◌, ◌≤◌, ◌<◌, ◌+◌, ◌-◌, ◌^◌, length, IsTrue};
ghost use Rattle.std.specs.List.{list_all, list_any, AllByRecursion};
ghost use Rattle.nest_core.specs.Shapes.{vars_of, is_row_over, IsShapedNest};
ghost use Rattle.affine_moves.specs.Change.{is_level};
ghost use Rattle.affine_moves.specs.Moves.{splits, any_below, waits_for, is_late, comes_late, is_full};

use crate::change::Change;
use crate::form::place_of;
use c_tree::Program;
use nest_core::{names_inside, shares_loop};
use nest_tree::{KernelRow, Nest};

/// Whether a number is one of so many levels.
pub fn is_level(depth: usize, level: usize) -> bool
    ensures { result ≡ is_level depth level }
{
    1 <= level && level <= depth
}

/// Whether some statement shares the loop at level `a` with this one, and not that at level `b`.
pub fn any_splits(a: usize, b: usize, nest: &Nest, nests: &[Nest]) -> bool
    ensures { result ≡ list_any (splits a b nest.now) nests.now }
{
    for other in nests {
        if shares_loop(a, nest, other) && !shares_loop(b, nest, other) {
            return true;
        }
    }
    false
}

/// Whether some statement that shares the loop with this one has no room for a level more.
pub fn any_full(level: usize, nest: &Nest, nests: &[Nest]) -> bool
    ensures { result ≡ list_any (is_full level nest.now) nests.now }
{
    for other in nests {
        if shares_loop(level, nest, other) && 8 <= other.levels.as_slice().len() {
            return true;
        }
    }
    false
}

/// Whether after the change the row's own level would stand before this level, which a term of the row names.
#[tactic(auto, unfolding(crate::specs::Moves::waits_for))]
fn waits_for(head: &Program, change: &Change, nest: &Nest, row: &KernelRow, level: usize) -> bool
    requires shaped { IsShapedNest head.now nest.now }
    requires row { IsTrue (is_row_over (vars_of (length head.now.params) nest.now) (length nest.now.levels) row.now) }
    requires own { 1 ≤ row.now.own }
    requires level { level < length nest.now.levels }
    ensures { result ≡ waits_for (length head.now.params) change.now nest.now row.now level }
{
    if place_of(change, row.own - 1) >= place_of(change, level) {
        return false;
    }
    let params = head.params.as_slice().len();
    let first = params + nest.levels.as_slice().len();
    let terms = nest.terms.as_slice();
    names_inside(first, terms, params + level, terms.len(), &row.row.form)
}

/// Whether that is so for some level.
#[tactic(auto, unfolding(crate::specs::Moves::is_late))]
fn is_late(head: &Program, change: &Change, nest: &Nest, row: &KernelRow) -> bool
    requires shaped { IsShapedNest head.now nest.now }
    requires row { IsTrue (is_row_over (vars_of (length head.now.params) nest.now) (length nest.now.levels) row.now) }
    ensures { result ≡ is_late (length head.now.params) change.now nest.now row.now }
{
    if row.own == 0 {
        return false;
    }
    for level in 0..nest.levels.len() {
        if waits_for(head, change, nest, row, level) {
            return true;
        }
    }
    false
}

/// Whether that is so for some row.
fn any_late(head: &Program, change: &Change, nest: &Nest) -> bool
    requires shaped { IsShapedNest head.now nest.now }
    ensures { result ≡ list_any (is_late (length head.now.params) change.now nest.now) nest.now.rows }
{
    for row in nest.rows.as_slice() {
        if is_late(head, change, nest, row) {
            return true;
        }
    }
    false
}

/// Whether that is so for some statement that shares the loop with this one.
pub fn any_comes_late(
    head: &Program,
    level: usize,
    change: &Change,
    nest: &Nest,
    nests: &[Nest],
) -> bool
    requires shaped { AllByRecursion (IsShapedNest head.now) nests.now }
    ensures { result ≡ list_any (comes_late (length head.now.params) level change.now nest.now) nests.now }
{
    for other in nests {
        if shares_loop(level, nest, other) && any_late(head, change, other) {
            return true;
        }
    }
    false
}
