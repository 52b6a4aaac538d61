// The bounds of a level that lie a constant apart.
ghost use Rattle.std.specs.Prelude.{◌≡◌, ◌<◌, length, IsTrue, IfSome};
ghost use Rattle.nest_core.specs.Forms.{has_vars};
ghost use Rattle.nest_core.specs.Shapes.{vars_of, is_row_over, IsShapedNest};

use crate::levels::names_from;
use c_tree::Program;
use int_rows::Aff;
use nest_tree::{KernelRow, Nest};

/// Whether the row bounds the level on this side, 1 for below and -1 for above, and names no later level.
fn bounds(head: &Program, nest: &Nest, level: usize, side: i128, row: &KernelRow) -> bool
    requires shaped { IsShapedNest head.now nest.now }
    requires row { IsTrue (is_row_over (vars_of (length head.now.params) nest.now) (length nest.now.levels) row.now) }
    requires level { level < length nest.now.levels }
{
    let coef = row.row.form.coefs.as_slice()[head.params.len() + level];
    row.own != 0 && coef == side && !names_from(head, nest, level + 1, &row.row.form)
}

/// Whether the numbers of the two lists cancel, one by one.
fn cancel(lower: &[i128], upper: &[i128]) -> bool
    requires { length lower.now ≡ length upper.now }
{
    for i in 0..lower.len() {
        if lower[i].checked_add(upper[i]) != Some(0) {
            return false;
        }
    }
    true
}

/// Whether the upper bound lies a constant of at least 0 above the lower one.
fn is_apart(lower: &Aff, upper: &Aff) -> bool
    requires { length lower.now.coefs ≡ length upper.now.coefs }
{
    cancel(lower.coefs.as_slice(), upper.coefs.as_slice())
        && lower.constant.saturating_add(upper.constant) >= 0
}

/// The first upper bound of the level that lies a constant above this lower one.
fn find_upper(head: &Program, nest: &Nest, level: usize, lower: &Aff) -> Option<usize>
    requires shaped { IsShapedNest head.now nest.now }
    requires width { IsTrue (has_vars (vars_of (length head.now.params) nest.now) lower.now) }
    requires level { level < length nest.now.levels }
    ensures { IfSome result (λ i. i < length nest.now.rows) }
{
    let rows = nest.rows.as_slice();
    for i in 0..rows.len() {
        if bounds(head, nest, level, -1, &rows[i]) && is_apart(lower, &rows[i].row.form) {
            return Some(i);
        }
    }
    None
}

/// The first pair of a lower and an upper bound of the level that lie a constant apart, by lower and then by upper
/// bound.
pub fn find_pair(head: &Program, nest: &Nest, level: usize) -> Option<(usize, usize)>
    requires shaped { IsShapedNest head.now nest.now }
    requires level { level < length nest.now.levels }
    ensures { IfSome result (λ p. (p.0 < length nest.now.rows) × (p.1 < length nest.now.rows)) }
{
    let rows = nest.rows.as_slice();
    for i in 0..rows.len() {
        if bounds(head, nest, level, 1, &rows[i]) {
            if let Some(upper) = find_upper(head, nest, level, &rows[i].row.form) {
                return Some((i, upper));
            }
        }
    }
    None
}
