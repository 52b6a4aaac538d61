// A statement's part of a system.
ghost use Rattle.std.specs.Prelude.{◌≡◌, ◌+◌, ◌<◌, ◌≤◌, ◌^◌, ◌++◌, filter, length, IsTrue, IfOk, OnOk};
ghost use Rattle.std.specs.List.{list_all};
ghost use Rattle.nest_core.specs.Shapes.{is_term_over};
ghost use Rattle.nest_systems.specs.Chosen.{is_within, IsChosen};
ghost use Rattle.nest_systems.specs.Instances.{IsInstance};
ghost use Rattle.nest_systems.specs.Parts as spec;
ghost use Rattle.nest_systems.specs.Statements.{IsPart};
ghost use Rattle.nest_systems.specs.Choosing as choosing;

use crate::choose::{Chosen, choose_end, choose_more, meet_forms, meet_rows, none_chosen};
use crate::copy::copy_rows;
use crate::needs::{find_first_cell, value_counts};
use crate::range::{Span, value_span};
use crate::span::{high_row, low_row, unit_form};
use crate::widen::extended_terms;
use c_tree::Program;
use chill_base::{List, Name, NoMemory};
use int_rows::{Aff, Row};
use nest_tree::{Made, Term};
use std::alloc::Global;

/// A statement's part of a system. Its forms are over the parameters, its levels and its terms.
#[derive(Drop)]
pub struct Instance {
    pub levels: usize,
    /// How many variables its forms have.
    pub vars: usize,
    /// How many terms the statement has; behind them stand those that only ranges need.
    pub count: usize,
    pub terms: List<Term>,
    pub chosen: Chosen,
    pub rows: List<Row>,
    /// The value ranges of the terms that are variables, without those at the very end.
    pub ranges: List<Row>,
}

/// The terms that rows and forms hold.
#[tactic(auto, unfolding(crate::specs::Choosing::chosen_of))]
fn chosen_of(
    alloc: Global,
    first: usize,
    terms: &[Term],
    extras: usize,
    rows: &[Row],
    forms: &[Aff],
) -> Result<Chosen, NoMemory>
    requires extras { extras ≤ length terms.now }
    requires room { first + length terms.now < 2 ^ 64 }
    ensures shape { IfOk result (λ c. IsChosen first (length terms.now) c) }
    ensures value { IfOk result (λ c. c ≡ choosing.chosen_of first terms.now extras rows.now forms.now) }
{
    let mut chosen = none_chosen(alloc, first, terms.len() - extras, terms.len())?;
    meet_rows(terms, &mut chosen, rows)?;
    meet_forms(terms, &mut chosen, terms.len(), forms)?;
    Ok(chosen)
}

/// Of the reads `count[0]`, those that are terms are made variables, and the arrays of the others are told.
fn choose_counts(
    alloc: Global,
    terms: &[Term],
    chosen: &mut Chosen,
    counts: &[Name],
) -> Result<List<Name>, NoMemory>
    requires { IsChosen chosen.old.first (length terms.now) chosen.old }
    ensures kept { IsChosen chosen.old.first (length terms.now) chosen.new }
    ensures value { OnOk result (chosen.new ≡ choosing.counts_chosen terms.now counts.now chosen.old) }
    ensures missing { IfOk result (λ names. names ≡ filter (choosing.is_missing terms.now) counts.now) }
{
    let mut missing = List::new(alloc);
    for name in counts {
        match find_first_cell(terms, *name) {
            Some(term) => choose_end(chosen, term)?,
            None => missing.push(*name)?,
        }
    }
    Ok(missing)
}

/// Makes so many further terms variables at the very end.
fn choose_each(chosen: &mut Chosen, more: usize) -> Result<(), NoMemory>
    requires room { chosen.old.first + length chosen.old.same + more < 2 ^ 64 }
    requires chosen { IsChosen chosen.old.first (length chosen.old.same) chosen.old }
    ensures kept { OnOk result (IsChosen chosen.old.first (length chosen.old.same + more) chosen.new) }
    ensures value { OnOk result (chosen.new ≡ choosing.and_more more chosen.old) }
{
    for _ in 0..more {
        choose_more(chosen)?;
    }
    Ok(())
}

/// Adds the reads `count[0]` that the value ranges of chosen terms need, at the very end, and tells the arrays of those
/// that aren't terms.
#[tactic(auto, unfolding(crate::specs::Choosing::with_counts))]
fn add_counts(
    alloc: Global,
    head: &Program,
    made: &[Made],
    terms: &[Term],
    chosen: &mut Chosen,
) -> Result<List<Name>, NoMemory>
    requires first { chosen.old.first < 2 ^ 62 }
    requires chosen { IsChosen chosen.old.first (length terms.now) chosen.old }
    ensures kept { IfOk result (λ names. IsChosen chosen.old.first (length terms.now + length names) chosen.new) }
    ensures value { OnOk result (chosen.new ≡ choosing.with_counts head.now made.now terms.now chosen.old) }
    ensures missing { IfOk result (λ names. names ≡ choosing.missing_of head.now made.now terms.now chosen.old) }
{
    let counts = value_counts(alloc, head, made, terms, chosen.order.as_slice())?;
    let missing = choose_counts(alloc, terms, chosen, counts.as_slice())?;
    choose_each(chosen, missing.len())?;
    Ok(missing)
}

fn count_var(first: usize, terms: &[Term], count: Option<Name>) -> Option<usize>
    requires room { first + length terms.now < 2 ^ 64 }
    ensures { result ≡ spec.count_var first terms.now count }
{
    match count {
        Some(name) => match find_first_cell(terms, name) {
            Some(term) => Some(first + term),
            None => None,
        },
        None => None,
    }
}

/// The two rows of a range of a form behind others, where there is a range.
fn push_span(
    alloc: Global,
    rows: &mut List<Row>,
    first: usize,
    terms: &[Term],
    span: &Option<Span>,
    form: &Aff,
) -> Result<(), NoMemory>
    requires room { first + length terms.now < 2 ^ 64 }
    ensures { OnOk result (rows.new ≡ rows.old ++ spec.span_rows first terms.now form.now span.now) }
{
    if let Some(span) = span {
        let vars = first + terms.len();
        let count = count_var(first, terms, span.count);
        rows.push(low_row(alloc, span, form, vars)?)?;
        rows.push(high_row(alloc, span, form, count, vars)?)?;
    }
    Ok(())
}

/// The value range of a term behind other rows.
fn push_value_range(
    alloc: Global,
    head: &Program,
    made: &[Made],
    rows: &mut List<Row>,
    first: usize,
    terms: &[Term],
    term: usize,
) -> Result<(), NoMemory>
    requires room { first + length terms.now < 2 ^ 64 }
    requires term { term < length terms.now }
    ensures { OnOk result (rows.new ≡ rows.old ++ spec.rows_of_term head.now made.now first terms.now term) }
{
    let span = value_span(alloc, head, made, terms[term].array)?;
    let form = unit_form(alloc, first + term, first + terms.len())?;
    push_span(alloc, rows, first, terms, &span, &form)
}

/// The value ranges of terms, over the variables of the statement.
#[tactic(auto, unfolding(crate::specs::Parts::value_rows))]
fn value_rows(
    alloc: Global,
    head: &Program,
    made: &[Made],
    first: usize,
    terms: &[Term],
    order: &[usize],
) -> Result<List<Row>, NoMemory>
    requires room { first + length terms.now < 2 ^ 64 }
    requires order { IsTrue (list_all (is_within (length terms.now)) order.now) }
    ensures { IfOk result (λ rows. rows ≡ spec.value_rows head.now made.now first terms.now order.now) }
{
    let mut rows = List::new(alloc);
    for term in order {
        push_value_range(alloc, head, made, &mut rows, first, terms, *term)?;
    }
    Ok(rows)
}

/// The part of a system of a statement with these levels, terms and rows. The terms that its rows and forms hold are
/// variables, those in an argument right before the one that holds them; of the terms the last `extras` are reads
/// `count[0]` that stand at the very end.
pub fn make_instance(
    alloc: Global,
    head: &Program,
    made: &[Made],
    levels: usize,
    terms: &[Term],
    extras: usize,
    rows: &[Row],
    forms: &[Aff],
) -> Result<Instance, NoMemory>
    requires levels { levels ≤ 8 }
    requires terms { IsTrue (list_all (is_term_over (length head.now.params + levels + length terms.now)) terms.now) }
    requires extras { extras ≤ length terms.now }
    ensures part { IfOk result (λ i. IsPart head.now made.now levels terms.now extras rows.now forms.now i) }
    ensures instance { IfOk result (λ i. IsInstance (length head.now.params) i) }
    ensures levels { IfOk result (λ i. i.levels ≡ levels) }
    ensures count { IfOk result (λ i. i.count ≡ length terms.now) }
    ensures terms { IfOk result (λ i. length terms.now ≤ length i.terms) }
{
    let first = head.params.as_slice().len() + levels;
    let old = first + terms.len();
    let mut chosen = chosen_of(alloc, first, terms, extras, rows, forms)?;
    let missing = add_counts(alloc, head, made, terms, &mut chosen)?;
    let vars = old + missing.as_slice().len();
    let all = extended_terms(alloc, first, terms, missing.as_slice())?;
    let order = chosen.order.as_slice();
    let ranges = value_rows(alloc, head, made, first, all.as_slice(), order)?;
    Ok(Instance {
        levels,
        vars,
        count: terms.len(),
        terms: all,
        chosen,
        rows: copy_rows(alloc, rows)?,
        ranges,
    })
}

/// The array of a term behind other names.
fn push_name(names: &mut List<Name>, terms: &[Term], term: usize) -> Result<(), NoMemory>
    requires { term < length terms.now }
    ensures { OnOk result (names.new ≡ names.old ++ spec.name_of_term terms.now term) }
{
    names.push(terms[term].array)?;
    Ok(())
}

/// The arrays of the reads that stand at the very end.
pub fn end_names(alloc: Global, params: usize, instance: &Instance) -> Result<List<Name>, NoMemory>
    requires { IsInstance params instance.now }
    ensures { IfOk result (λ names. names ≡ spec.end_names instance.now) }
{
    let mut names = List::new(alloc);
    for term in instance.chosen.ends.as_slice() {
        push_name(&mut names, instance.terms.as_slice(), *term)?;
    }
    Ok(names)
}
