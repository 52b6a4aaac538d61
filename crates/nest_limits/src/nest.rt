// Brackets of statements.
ghost use Rattle.std.specs.Prelude.{◌≡◌, length, IsTrue};
ghost use Rattle.std.specs.List.{list_all, AllByRecursion};
ghost use Rattle.nest_core.specs.Shapes.{vars_of, is_row_over, IsShapedNest};
ghost use Rattle.nest_limits.specs.Brackets.{row_fits, nest_fits, are_within};

use crate::body::body_fits;
use crate::form::{form_fits, forms_fit};
use c_tree::Program;
use nest_tree::{KernelRow, Nest};

/// The greatest number of brackets around one place of an expression of a kernel.
pub const MOST_BRACKETS: usize = 128;

/// Whether a row has at most so many brackets around one place.
fn row_fits(head: &Program, nest: &Nest, room: usize, row: &KernelRow) -> bool
    requires shaped { IsShapedNest head.now nest.now }
    requires row { IsTrue (is_row_over (vars_of (length head.now.params) nest.now) (length nest.now.levels) row.now) }
    ensures { result ≡ row_fits (length head.now.params) nest.now room row.now }
{
    let first = head.params.as_slice().len() + nest.levels.len();
    form_fits(first, nest.terms.as_slice(), room, &row.row.form)
}

/// Whether all rows have.
fn rows_fit(head: &Program, nest: &Nest, room: usize) -> bool
    requires { IsShapedNest head.now nest.now }
    ensures { result ≡ list_all (row_fits (length head.now.params) nest.now room) nest.now.rows }
{
    for row in nest.rows.as_slice() {
        if !row_fits(head, nest, room, row) {
            return false;
        }
    }
    true
}

/// Whether the rows, the subscripts and the right side of a statement have. The subscripts of the right side are part of
/// it.
#[tactic(auto, unfolding(crate::specs::Brackets::nest_fits))]
fn nest_fits(head: &Program, room: usize, nest: &Nest) -> bool
    requires { IsShapedNest head.now nest.now }
    ensures { result ≡ nest_fits (length head.now.params) room nest.now }
{
    let first = head.params.as_slice().len() + nest.levels.len();
    let terms = nest.terms.as_slice();
    rows_fit(head, nest, room)
        && forms_fit(first, terms, room, nest.target.at.as_slice())
        && body_fits(first, terms, room, &nest.value)
}

/// Whether all statements have.
fn nests_fit(head: &Program, room: usize, nests: &[Nest]) -> bool
    requires { AllByRecursion (IsShapedNest head.now) nests.now }
    ensures { result ≡ list_all (nest_fits (length head.now.params) room) nests.now }
{
    for nest in nests {
        if !nest_fits(head, room, nest) {
            return false;
        }
    }
    true
}

/// Whether no expression of the statements has more brackets around one place than the limit.
#[tactic(auto, unfolding(crate::specs::Brackets::are_within))]
pub fn are_within(head: &Program, nests: &[Nest]) -> bool
    requires { AllByRecursion (IsShapedNest head.now) nests.now }
    ensures { result ≡ are_within (length head.now.params) nests.now }
{
    nests_fit(head, MOST_BRACKETS, nests)
}
