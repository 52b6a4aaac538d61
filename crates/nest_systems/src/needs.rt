// The reads `count[0]` that ranges speak of.
ghost use Rattle.std.specs.Prelude.{◌≡◌, ◌<◌, [], length, slice_get, IsTrue, IfSome, IfOk, OnOk};
ghost use Rattle.std.specs.List.{list_all, position_from};
ghost use Rattle.nest_systems.specs.Extents.{has_name};
ghost use Rattle.nest_systems.specs.Parts.{is_zero_form, is_first_cell};
ghost use Rattle.nest_systems.specs.Ranges.{value_span};
ghost use Rattle.nest_systems.specs.Choosing as choosing;
ghost use Rattle.nest_systems.specs.Chosen.{is_within};

use crate::range::{is_name, value_span};
use crate::system::is_constant;
use c_tree::Program;
use chill_base::{List, Name, NoMemory};
use int_rows::Aff;
use nest_tree::{Made, Term};
use std::alloc::Global;

fn is_zero(form: &Aff) -> bool
    ensures { result ≡ is_zero_form form.now }
{
    form.constant == 0 && is_constant(form)
}

fn are_zero(forms: &[Aff]) -> bool
    ensures { result ≡ list_all is_zero_form forms.now }
{
    forms.iter().all(|form| is_zero(form))
}

/// Whether a term is `array[0]`.
fn is_first_cell(term: &Term, array: Name) -> bool
    ensures { result ≡ is_first_cell array term.now }
{
    is_name(term.array, array) && are_zero(term.at.as_slice())
}

/// The first of the terms that is `array[0]`.
pub fn find_first_cell(terms: &[Term], array: Name) -> Option<usize>
    ensures value { result ≡ position_from (is_first_cell array) 0 terms.now }
    ensures bound { IfSome result (λ t. t < length terms.now) }
{
    terms.iter().position(|term| is_first_cell(term, array))
}

/// Where a name stands in a list.
pub fn find_name(names: &[Name], name: Name) -> Option<usize>
    ensures value { result ≡ position_from (has_name name) 0 names.now }
    ensures bound { IfSome result (λ t. t < length names.now) }
{
    names.iter().position(|other| is_name(*other, name))
}

/// The array `count` of which `count[0]` bounds the values of an array.
pub fn value_count(
    alloc: Global,
    head: &Program,
    made: &[Made],
    array: Name,
) -> Result<Option<Name>, NoMemory>
    ensures { IfOk result (λ count. count ≡ choosing.count_of (value_span head.now made.now array)) }
{
    match value_span(alloc, head, made, array)? {
        Some(span) => Ok(span.count),
        None => Ok(None),
    }
}

/// A name behind others, where it is new.
fn push_new(names: &mut List<Name>, name: Option<Name>) -> Result<(), NoMemory>
    ensures { OnOk result (names.new ≡ choosing.with_name names.old name) }
{
    if let Some(name) = name {
        if find_name(names.as_slice(), name).is_none() {
            names.push(name)?;
        }
    }
    Ok(())
}

/// The array `count` of a term's value range behind others, where it is new.
fn push_count(
    alloc: Global,
    head: &Program,
    made: &[Made],
    names: &mut List<Name>,
    terms: &[Term],
    term: usize,
) -> Result<(), NoMemory>
    requires { term < length terms.now }
    ensures { OnOk result (names.new ≡ choosing.with_name names.old (choosing.value_count head.now made.now (slice_get terms.now term))) }
{
    let count = value_count(alloc, head, made, terms[term].array)?;
    push_new(names, count)
}

/// The arrays `count` of which `count[0]` bounds the values of chosen terms, each once, in the order of these terms.
pub fn value_counts(
    alloc: Global,
    head: &Program,
    made: &[Made],
    terms: &[Term],
    order: &[usize],
) -> Result<List<Name>, NoMemory>
    requires { IsTrue (list_all (is_within (length terms.now)) order.now) }
    ensures { IfOk result (λ names. names ≡ choosing.value_counts head.now made.now terms.now order.now []) }
{
    let mut names = List::new(alloc);
    for term in order {
        push_count(alloc, head, made, &mut names, terms, *term)?;
    }
    Ok(names)
}
