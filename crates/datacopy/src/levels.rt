// The levels that the forms of a statement name, as levels or in arguments of terms. Levels are told by their places,
// which count from 0.
ghost use Rattle.std.specs.Prelude.{◌≡◌, ◌≤◌, ◌<◌, length, IsTrue};
ghost use Rattle.nest_core.specs.Forms.{has_vars};
ghost use Rattle.nest_core.specs.Shapes.{vars_of, IsShapedNest};
ghost use Rattle.datacopy.specs.Levels as spec;

use c_tree::Program;
use int_rows::Aff;
use nest_core::{names, names_inside};
use nest_tree::Nest;

/// Whether the form names the level, as a level or in an argument of a term.
#[tactic(auto, unfolding(crate::specs::Levels::names_level))]
fn names_level(head: &Program, nest: &Nest, form: &Aff, level: usize) -> bool
    requires shaped { IsShapedNest head.now nest.now }
    requires width { IsTrue (has_vars (vars_of (length head.now.params) nest.now) form.now) }
    requires level { level < length nest.now.levels }
    ensures { result ≡ spec.names_level (length head.now.params) nest.now form.now level }
{
    let params = head.params.as_slice().len();
    let terms = nest.terms.as_slice();
    let first = params + nest.levels.as_slice().len();
    names(first, terms, params + level, terms.len(), form)
}

/// Whether the form names a level from this one on.
pub fn names_from(head: &Program, nest: &Nest, place: usize, form: &Aff) -> bool
    requires shaped { IsShapedNest head.now nest.now }
    requires width { IsTrue (has_vars (vars_of (length head.now.params) nest.now) form.now) }
    ensures { result ≡ spec.names_from (length head.now.params) nest.now place form.now }
{
    for level in 0..nest.levels.len() {
        if place <= level && names_level(head, nest, form, level) {
            return true;
        }
    }
    false
}

/// Whether a term that the form holds names the level in an argument.
#[tactic(auto, unfolding(crate::specs::Levels::holds_level))]
fn holds_level(head: &Program, nest: &Nest, form: &Aff, level: usize) -> bool
    requires shaped { IsShapedNest head.now nest.now }
    requires width { IsTrue (has_vars (vars_of (length head.now.params) nest.now) form.now) }
    requires level { level < length nest.now.levels }
    ensures { result ≡ spec.holds_level (length head.now.params) nest.now form.now level }
{
    let params = head.params.as_slice().len();
    let terms = nest.terms.as_slice();
    let first = params + nest.levels.as_slice().len();
    names_inside(first, terms, params + level, terms.len(), form)
}

/// Whether a term that the form holds names a level from this one on.
pub fn holds_from(head: &Program, nest: &Nest, place: usize, form: &Aff) -> bool
    requires shaped { IsShapedNest head.now nest.now }
    requires width { IsTrue (has_vars (vars_of (length head.now.params) nest.now) form.now) }
    ensures { result ≡ spec.holds_from (length head.now.params) nest.now place form.now }
{
    for level in 0..nest.levels.len() {
        if place <= level && holds_level(head, nest, form, level) {
            return true;
        }
    }
    false
}

/// The last of the levels before this place that the form names, counted from 1, or 0 where it names none.
pub fn last_named(head: &Program, nest: &Nest, place: usize, form: &Aff) -> usize
    requires shaped { IsShapedNest head.now nest.now }
    requires width { IsTrue (has_vars (vars_of (length head.now.params) nest.now) form.now) }
    requires place { place ≤ length nest.now.levels }
    ensures last { result ≡ spec.last_below (spec.names_level (length head.now.params) nest.now form.now) place }
    ensures within { result ≤ place }
{
    let mut found = 0;
    for level in 0..place {
        if names_level(head, nest, form, level) {
            found = level + 1;
        }
    }
    found
}

/// Whether the form names the term, as itself or in an argument of another.
#[tactic(auto, unfolding(crate::specs::Levels::names_term))]
pub fn names_term(head: &Program, nest: &Nest, term: usize, form: &Aff) -> bool
    requires shaped { IsShapedNest head.now nest.now }
    requires width { IsTrue (has_vars (vars_of (length head.now.params) nest.now) form.now) }
    requires term { term < length nest.now.terms }
    ensures { result ≡ spec.names_term (length head.now.params) nest.now term form.now }
{
    let first = head.params.as_slice().len() + nest.levels.as_slice().len();
    let terms = nest.terms.as_slice();
    names(first, terms, first + term, terms.len(), form)
}
