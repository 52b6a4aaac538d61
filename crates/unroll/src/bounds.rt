// The rows that bound an unrolled level.
ghost use Rattle.std.specs.Prelude.{◌≡◌, ◌≤◌, ◌<◌, length, IfOk, IsTrue};
ghost use Rattle.nest_core.specs.Forms.{has_vars};
ghost use Rattle.nest_core.specs.Shapes.{vars_of, is_row_over, IsShapedNest};
ghost use Rattle.affine_moves.specs.Change.{is_level};
ghost use Rattle.unroll.specs.Bounds as spec;

use crate::replaced::names_after;
use c_tree::Program;
use chill_base::{List, NoMemory};
use int_rows::Aff;
use nest_core::{is_held, names, names_inside};
use nest_tree::{KernelRow, Nest};
use std::alloc::Global;

/// The rows that bound a level: the form of the lower one, those of the upper ones in order, and the places of all.
#[derive(Drop)]
pub struct Bounds {
    pub lower: Aff,
    pub uppers: List<Aff>,
    pub places: List<usize>,
}

/// The variable of a level.
pub fn var_of(head: &Program, level: usize) -> usize
    requires low { 1 ≤ level }
    requires high { level ≤ 8 }
    ensures { result ≡ spec.var_of (length head.now.params) level }
{
    head.params.as_slice().len() + (level - 1)
}

/// Whether the form names the level at this place, and it is a later one.
fn names_later_one(head: &Program, level: usize, nest: &Nest, form: &Aff, place: usize) -> bool
    requires shaped { IsShapedNest head.now nest.now }
    requires width { IsTrue (has_vars (vars_of (length head.now.params) nest.now) form.now) }
    requires place { place < length nest.now.levels }
    ensures { result ≡ spec.names_later_one (length head.now.params) level nest.now form.now place }
{
    let params = head.params.as_slice().len();
    let terms = nest.terms.as_slice();
    level <= place
        && names(
            params + nest.levels.len(),
            terms,
            params + place,
            terms.len(),
            form,
        )
}

/// Whether the form names a later level, as itself or in an argument.
#[tactic(auto, unfolding(crate::specs::Bounds::names_later))]
pub fn names_later(head: &Program, level: usize, nest: &Nest, form: &Aff) -> bool
    requires shaped { IsShapedNest head.now nest.now }
    requires width { IsTrue (has_vars (vars_of (length head.now.params) nest.now) form.now) }
    ensures { result ≡ spec.names_later (length head.now.params) level nest.now form.now }
{
    for place in 0..nest.levels.len() {
        if names_later_one(head, level, nest, form, place) {
            return true;
        }
    }
    false
}

/// Whether a term of the form names the level in its argument.
#[tactic(auto, unfolding(crate::specs::Bounds::names_in_term))]
pub fn names_in_term(head: &Program, level: usize, nest: &Nest, form: &Aff) -> bool
    requires shaped { IsShapedNest head.now nest.now }
    requires level { IsTrue (is_level (length nest.now.levels) level) }
    requires width { IsTrue (has_vars (vars_of (length head.now.params) nest.now) form.now) }
    ensures { result ≡ spec.names_in_term (length head.now.params) level nest.now form.now }
{
    let terms = nest.terms.as_slice();
    let first = head.params.as_slice().len() + nest.levels.len();
    names_inside(first, terms, var_of(head, level), terms.len(), form)
}

/// The coefficient of a variable.
pub fn coef(form: &Aff, var: usize) -> i128
    requires { var < length form.now.coefs }
    ensures { result ≡ spec.coef form.now var }
{
    form.coefs.as_slice()[var]
}

/// Whether the row bounds the level from below.
#[tactic(auto, unfolding(crate::specs::Bounds::is_lower))]
fn is_lower(head: &Program, level: usize, nest: &Nest, row: &KernelRow) -> bool
    requires shaped { IsShapedNest head.now nest.now }
    requires level { IsTrue (is_level (length nest.now.levels) level) }
    requires row { IsTrue (is_row_over (vars_of (length head.now.params) nest.now) (length nest.now.levels) row.now) }
    ensures { result ≡ spec.is_lower (length head.now.params) level nest.now row.now }
{
    let form = &row.row.form;
    row.own != 0 && coef(form, var_of(head, level)) > 0 && !names_later(head, level, nest, form)
}

/// Whether the row bounds the level from above.
#[tactic(auto, unfolding(crate::specs::Bounds::is_upper))]
fn is_upper(head: &Program, level: usize, nest: &Nest, row: &KernelRow) -> bool
    requires shaped { IsShapedNest head.now nest.now }
    requires level { IsTrue (is_level (length nest.now.levels) level) }
    requires row { IsTrue (is_row_over (vars_of (length head.now.params) nest.now) (length nest.now.levels) row.now) }
    ensures { result ≡ spec.is_upper (length head.now.params) level nest.now row.now }
{
    let form = &row.row.form;
    row.own != 0 && coef(form, var_of(head, level)) < 0 && !names_later(head, level, nest, form)
}

/// A copy of a form.
pub fn copy_form(alloc: Global, form: &Aff) -> Result<Aff, NoMemory>
    ensures { IfOk result (λ f. f ≡ form.now) }
{
    Ok(Aff {
        coefs: List::from_slice(alloc, form.coefs.as_slice())?,
        constant: form.constant,
    })
}

/// The forms of the rows that bound the level from below.
fn lower_forms(
    alloc: Global,
    head: &Program,
    level: usize,
    nest: &Nest,
) -> Result<List<Aff>, NoMemory>
    requires shaped { IsShapedNest head.now nest.now }
    requires level { IsTrue (is_level (length nest.now.levels) level) }
    ensures { IfOk result (λ fs. fs ≡ spec.forms_where (spec.is_lower (length head.now.params) level nest.now) nest.now.rows) }
{
    let mut forms = List::new(alloc);
    for row in nest.rows.as_slice() {
        if is_lower(head, level, nest, row) {
            forms.push(copy_form(alloc, &row.row.form)?)?;
        }
    }
    Ok(forms)
}

/// The forms of the rows that bound the level from above.
fn upper_forms(
    alloc: Global,
    head: &Program,
    level: usize,
    nest: &Nest,
) -> Result<List<Aff>, NoMemory>
    requires shaped { IsShapedNest head.now nest.now }
    requires level { IsTrue (is_level (length nest.now.levels) level) }
    ensures { IfOk result (λ fs. fs ≡ spec.forms_where (spec.is_upper (length head.now.params) level nest.now) nest.now.rows) }
{
    let mut forms = List::new(alloc);
    for row in nest.rows.as_slice() {
        if is_upper(head, level, nest, row) {
            forms.push(copy_form(alloc, &row.row.form)?)?;
        }
    }
    Ok(forms)
}

/// Whether the row bounds the level.
fn is_bound(head: &Program, level: usize, nest: &Nest, row: &KernelRow) -> bool
    requires shaped { IsShapedNest head.now nest.now }
    requires level { IsTrue (is_level (length nest.now.levels) level) }
    requires row { IsTrue (is_row_over (vars_of (length head.now.params) nest.now) (length nest.now.levels) row.now) }
    ensures { result ≡ spec.is_bound (length head.now.params) level nest.now row.now }
{
    is_lower(head, level, nest, row) || is_upper(head, level, nest, row)
}

/// The places of the rows that bound the level.
fn bound_places(
    alloc: Global,
    head: &Program,
    level: usize,
    nest: &Nest,
) -> Result<List<usize>, NoMemory>
    requires shaped { IsShapedNest head.now nest.now }
    requires level { IsTrue (is_level (length nest.now.levels) level) }
    ensures { IfOk result (λ ps. ps ≡ spec.places_where (spec.is_bound (length head.now.params) level nest.now) 0 nest.now.rows) }
{
    let mut places = List::new(alloc);
    let rows = nest.rows.as_slice();
    for i in 0..rows.len() {
        if is_bound(head, level, nest, &rows[i]) {
            places.push(i)?;
        }
    }
    Ok(places)
}

/// Whether this row is another than the lower one, and names the term when the level is replaced by its lower bound.
fn stays_in(
    head: &Program,
    level: usize,
    nest: &Nest,
    lower: &Aff,
    term: usize,
    row: &KernelRow,
) -> bool
    requires shaped { IsShapedNest head.now nest.now }
    requires level { IsTrue (is_level (length nest.now.levels) level) }
    requires lower { IsTrue (has_vars (vars_of (length head.now.params) nest.now) lower.now) }
    requires term { term < length nest.now.terms }
    requires row { IsTrue (is_row_over (vars_of (length head.now.params) nest.now) (length nest.now.levels) row.now) }
    ensures { result ≡ spec.stays_in (length head.now.params) level nest.now lower.now term row.now }
{
    let first = head.params.as_slice().len() + nest.levels.len();
    let terms = nest.terms.as_slice();
    let lower = lower.coefs.as_slice();
    let var = var_of(head, level);
    !is_lower(head, level, nest, row)
        && names_after(
            first,
            terms,
            lower,
            var,
            first + term,
            terms.len(),
            &row.row.form,
        )
}

/// Whether another row names the term when the level is replaced by its lower bound.
#[tactic(auto, unfolding(crate::specs::Bounds::stays_named))]
fn stays_named(head: &Program, level: usize, nest: &Nest, lower: &Aff, term: usize) -> bool
    requires shaped { IsShapedNest head.now nest.now }
    requires level { IsTrue (is_level (length nest.now.levels) level) }
    requires lower { IsTrue (has_vars (vars_of (length head.now.params) nest.now) lower.now) }
    requires term { term < length nest.now.terms }
    ensures { result ≡ spec.stays_named (length head.now.params) level nest.now lower.now term }
{
    for row in nest.rows.as_slice() {
        if stays_in(head, level, nest, lower, term, row) {
            return true;
        }
    }
    false
}

/// Whether the lower row holds the term, and no other row would name it.
#[tactic(auto, unfolding(crate::specs::Bounds::is_lost))]
fn is_lost(head: &Program, level: usize, nest: &Nest, lower: &Aff, term: usize) -> bool
    requires shaped { IsShapedNest head.now nest.now }
    requires level { IsTrue (is_level (length nest.now.levels) level) }
    requires lower { IsTrue (has_vars (vars_of (length head.now.params) nest.now) lower.now) }
    requires term { term < length nest.now.terms }
    ensures { result ≡ spec.is_lost (length head.now.params) level nest.now lower.now term }
{
    let first = head.params.as_slice().len() + nest.levels.len();
    is_held(lower.coefs.as_slice(), first + term) && !stays_named(head, level, nest, lower, term)
}

/// Whether a term of the lower row is lost without it.
#[tactic(auto, unfolding(crate::specs::Bounds::loses_any))]
fn loses_any(head: &Program, level: usize, nest: &Nest, lower: &Aff) -> bool
    requires shaped { IsShapedNest head.now nest.now }
    requires level { IsTrue (is_level (length nest.now.levels) level) }
    requires lower { IsTrue (has_vars (vars_of (length head.now.params) nest.now) lower.now) }
    ensures { result ≡ spec.loses_any (length head.now.params) level nest.now lower.now }
{
    for term in 0..nest.terms.as_slice().len() {
        if is_lost(head, level, nest, lower, term) {
            return true;
        }
    }
    false
}

/// Whether the lower row gives the level's lower bound as it stands, and may go.
#[tactic(auto, unfolding(crate::specs::Bounds::is_plain))]
fn is_plain(head: &Program, level: usize, nest: &Nest, lower: &Aff) -> bool
    requires shaped { IsShapedNest head.now nest.now }
    requires level { IsTrue (is_level (length nest.now.levels) level) }
    requires lower { IsTrue (has_vars (vars_of (length head.now.params) nest.now) lower.now) }
    ensures { result ≡ spec.is_plain (length head.now.params) level nest.now lower.now }
{
    coef(lower, var_of(head, level)) == 1
        && !names_in_term(head, level, nest, lower)
        && !loses_any(head, level, nest, lower)
}

/// The only form of a list of one.
fn only_one(forms: List<Aff>) -> Option<Aff>
    ensures { result ≡ spec.only_one forms }
{
    let mut forms = forms;
    match forms.pop() {
        Some(form) if forms.is_empty() => Some(form),
        _ => None,
    }
}

/// The rows that bound the level, where it has one lower row that may go.
#[tactic(auto, unfolding(crate::specs::Bounds::bounds_of))]
pub fn bounds_of(
    alloc: Global,
    head: &Program,
    level: usize,
    nest: &Nest,
) -> Result<Option<Bounds>, NoMemory>
    requires shaped { IsShapedNest head.now nest.now }
    requires level { IsTrue (is_level (length nest.now.levels) level) }
    ensures { IfOk result (λ found. found ≡ spec.bounds_of (length head.now.params) level nest.now) }
{
    let Some(lower) = only_one(lower_forms(alloc, head, level, nest)?) else {
        return Ok(None);
    };
    if !is_plain(head, level, nest, &lower) {
        return Ok(None);
    }
    Ok(Some(Bounds {
        lower,
        uppers: upper_forms(alloc, head, level, nest)?,
        places: bound_places(alloc, head, level, nest)?,
    }))
}
