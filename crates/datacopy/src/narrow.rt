// Forms of a statement over the variables of the copying statement before it.
ghost use Rattle.std.specs.Prelude.{◌≡◌, ◌+◌, ◌++◌, ◌<◌, ◌≤◌, length, map, replicate, pos, nat_lt, IsTrue, IfOk, OnOk};
ghost use Rattle.std.specs.List.{list_all};
ghost use Rattle.nest_core.specs.Forms.{has_vars};
ghost use Rattle.nest_core.specs.Shapes.{vars_of, is_row_over, IsShapedNest};
ghost use Rattle.datacopy.specs.Boxes.{is_side_over};
ghost use Rattle.datacopy.specs.Narrow as spec;
ghost use Rattle.datacopy.specs.Narrow.{IsNarrow, new_vars, old_vars, further, Suits};

use crate::levels::{names_from, names_term};
use crate::side::Side;
use c_tree::Program;
use chill_base::{List, Name, NoMemory};
use int_rows::Aff;
use nest_tree::{KernelRow, Nest};
use std::alloc::Global;

/// The variables of a copying statement: the parameters, the outer levels of the statement that it stands before, one
/// level for each dimension of the box, those terms of the statement that it needs, and perhaps one more.
#[derive(Drop)]
pub struct Narrow {
    pub params: usize,
    /// How many levels are outer ones.
    pub outer: usize,
    /// How many levels the statement has.
    pub levels: usize,
    /// How many terms the statement has.
    pub old_terms: usize,
    pub dims: usize,
    /// The places of the needed terms among those of the statement.
    pub terms: List<usize>,
    /// An array whose first cell is one more term.
    pub count: Option<Name>,
}

/// How many terms there are behind the statement's.
fn further(narrow: &Narrow) -> usize
    ensures { result ≡ further narrow.now.count }
{
    match narrow.count {
        Some(_) => 1,
        None => 0,
    }
}

/// Appends zeros.
pub fn push_zeros(coefs: &mut Vec<i128>, count: usize) -> Result<(), NoMemory>
    ensures { OnOk result (coefs.new.items ≡ coefs.old.items ++ replicate count (pos 0)) }
{
    for _ in 0..count {
        coefs.push(0)?;
    }
    Ok(())
}

/// Appends the numbers at these places.
fn push_numbers(coefs: &mut Vec<i128>, numbers: &[i128], places: &[usize]) -> Result<(), NoMemory>
    requires { IsTrue (list_all (λ t. nat_lt t (length numbers.now)) places.now) }
    ensures { OnOk result (coefs.new.items ≡ coefs.old.items ++ map (spec.number_of numbers.now) places.now) }
{
    for place in places {
        coefs.push(numbers[*place])?;
    }
    Ok(())
}

/// The form over the new variables. It names no inner level.
pub fn narrow_form(alloc: Global, narrow: &Narrow, form: &Aff) -> Result<Aff, NoMemory>
    requires narrow { IsNarrow narrow.now }
    requires width { IsTrue (has_vars (old_vars narrow.now) form.now) }
    ensures form { IfOk result (λ f. f ≡ spec.narrowed narrow.now form.now) }
    ensures width { IfOk result (λ f. IsTrue (has_vars (new_vars narrow.now) f)) }
{
    let old = form.coefs.as_slice();
    let mut coefs = Vec::new(alloc);
    coefs.extend_from_slice(&old[..narrow.params + narrow.outer])?;
    push_zeros(&mut coefs, narrow.dims)?;
    let terms = &old[narrow.params + narrow.levels..];
    push_numbers(&mut coefs, terms, narrow.terms.as_slice())?;
    push_zeros(&mut coefs, further(narrow))?;
    Ok(Aff {
        coefs: List::from_vec(coefs),
        constant: form.constant,
    })
}

/// The form's numbers of the first variables, as a form over all new ones that names no further one.
pub fn widened_form(
    alloc: Global,
    narrow: &Narrow,
    form: &Aff,
    count: usize,
) -> Result<Aff, NoMemory>
    requires narrow { IsNarrow narrow.now }
    requires count { count ≤ new_vars narrow.now }
    requires known { count ≤ length form.now.coefs }
    ensures form { IfOk result (λ f. f ≡ spec.widened narrow.now count form.now) }
    ensures width { IfOk result (λ f. IsTrue (has_vars (new_vars narrow.now) f)) }
{
    let known = form.coefs.as_slice();
    let mut coefs = Vec::from_slice(alloc, &known[..count])?;
    push_zeros(&mut coefs, vars(narrow) - count)?;
    Ok(Aff {
        coefs: List::from_vec(coefs),
        constant: form.constant,
    })
}

/// How many variables there are.
pub fn vars(narrow: &Narrow) -> usize
    requires { IsNarrow narrow.now }
    ensures { result ≡ new_vars narrow.now }
{
    narrow.params + (narrow.outer + narrow.dims) + (narrow.terms.len() + further(narrow))
}

/// The variable of a dimension of the box.
pub fn dim_var(narrow: &Narrow, dim: usize) -> usize
    requires narrow { IsNarrow narrow.now }
    requires dim { dim < narrow.now.dims }
    ensures var { result ≡ narrow.now.params + narrow.now.outer + dim }
    ensures within { result < new_vars narrow.now }
{
    narrow.params + narrow.outer + dim
}

/// Whether the row names outer levels alone.
pub fn is_outer(head: &Program, nest: &Nest, place: usize, row: &KernelRow) -> bool
    requires shaped { IsShapedNest head.now nest.now }
    requires row { IsTrue (is_row_over (vars_of (length head.now.params) nest.now) (length nest.now.levels) row.now) }
    ensures { result ≡ spec.is_outer (length head.now.params) nest.now place row.now }
{
    !names_from(head, nest, place, &row.row.form)
}

/// Whether a row on outer levels names the term.
fn is_in_rows(head: &Program, nest: &Nest, place: usize, term: usize) -> bool
    requires shaped { IsShapedNest head.now nest.now }
    requires term { term < length nest.now.terms }
    ensures { result ≡ spec.is_in_rows (length head.now.params) nest.now place term nest.now.rows }
{
    for row in nest.rows.as_slice() {
        if is_outer(head, nest, place, row) && names_term(head, nest, term, &row.row.form) {
            return true;
        }
    }
    false
}

/// Whether a base names the term.
fn is_in_bases(head: &Program, nest: &Nest, sides: &[Side], term: usize) -> bool
    requires shaped { IsShapedNest head.now nest.now }
    requires sides { IsTrue (list_all (is_side_over (vars_of (length head.now.params) nest.now)) sides.now) }
    requires term { term < length nest.now.terms }
    ensures { result ≡ spec.is_in_bases (length head.now.params) nest.now term sides.now }
{
    for side in sides {
        if names_term(head, nest, term, &side.base) {
            return true;
        }
    }
    false
}

/// The places of the terms that rows on outer levels or bases name.
fn needed_terms(
    alloc: Global,
    head: &Program,
    nest: &Nest,
    place: usize,
    sides: &[Side],
) -> Result<List<usize>, NoMemory>
    requires shaped { IsShapedNest head.now nest.now }
    requires sides { IsTrue (list_all (is_side_over (vars_of (length head.now.params) nest.now)) sides.now) }
    ensures needed { IfOk result (λ ts. ts ≡ spec.needed_terms (length head.now.params) nest.now place sides.now (length nest.now.terms)) }
    ensures terms { IfOk result (λ ts. IsTrue (list_all (λ t. nat_lt t (length nest.now.terms)) ts)) }
    ensures few { IfOk result (λ ts. length ts ≤ length nest.now.terms) }
{
    let mut needed = List::new(alloc);
    for term in 0..nest.terms.len() {
        if is_in_rows(head, nest, place, term) || is_in_bases(head, nest, sides, term) {
            needed.push(term)?;
        }
    }
    Ok(needed)
}

/// How the variables of the copying statement stand to those of the statement.
pub fn narrow_of(
    alloc: Global,
    head: &Program,
    nest: &Nest,
    place: usize,
    sides: &[Side],
    count: Option<Name>,
) -> Result<Narrow, NoMemory>
    requires shaped { IsShapedNest head.now nest.now }
    requires sides { IsTrue (list_all (is_side_over (vars_of (length head.now.params) nest.now)) sides.now) }
    requires place { place ≤ length nest.now.levels }
    requires depth { place + length sides.now ≤ 8 }
    ensures narrow { IfOk result (λ w. IsNarrow w) }
    ensures is { IfOk result (λ w. w ≡ spec.narrow_of (length head.now.params) nest.now place sides.now count) }
    ensures fields { IfOk result (λ w. Suits (length head.now.params) nest.now place (length sides.now) count w) }
{
    Ok(Narrow {
        params: head.params.as_slice().len(),
        outer: place,
        levels: nest.levels.len(),
        old_terms: nest.terms.as_slice().len(),
        dims: sides.len(),
        terms: needed_terms(alloc, head, nest, place, sides)?,
        count,
    })
}
