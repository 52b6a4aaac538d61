// The rows that a term's arguments are in their ranges.
ghost use Rattle.std.specs.Prelude.{◌≡◌, ◌+◌, ◌<◌, ◌≤◌, ◌^◌, length, IsTrue, IfOk, OnOk};
ghost use Rattle.std.specs.List.{list_all};
ghost use Rattle.nest_systems.specs.Owns.{AreArguments, row_has_vars};

use crate::needs::find_first_cell;
use crate::range::{Span, argument_span};
use crate::span::{high_row, low_row};
use crate::widen::first_cell;
use c_tree::Program;
use chill_base::{List, Name, NoMemory};
use int_rows::{Aff, Row};
use nest_tree::{Made, Term};
use std::alloc::Global;

/// The rows that a term's arguments are in their ranges, over the parameters, the levels, the terms, and behind them
/// one more term, where the ranges need a read `count[0]` that isn't among the terms.
#[derive(Drop)]
pub struct Arguments {
    pub extra: Option<Term>,
    pub rows: List<Row>,
}

/// The arrays `count` that the ranges of a term's arguments need and that aren't among the terms.
fn missing_count(
    alloc: Global,
    head: &Program,
    made: &[Made],
    terms: &[Term],
    term: &Term,
) -> Result<Option<Name>, NoMemory> {
    for place in 0..term.at.len() {
        if let Some(span) = argument_span(alloc, head, made, term.array, place)? {
            if let Some(name) = span.count {
                if find_first_cell(terms, name).is_none() {
                    return Ok(Some(name));
                }
            }
        }
    }
    Ok(None)
}

/// The variable of `count[0]`: that of a term, or else the one behind all terms.
fn count_var(first: usize, terms: &[Term], count: Option<Name>) -> Option<usize>
    requires room { first + length terms.now < 2 ^ 64 }
{
    match count {
        Some(name) => match find_first_cell(terms, name) {
            Some(term) => Some(first + term),
            None => Some(first + terms.len()),
        },
        None => None,
    }
}

/// The two rows of a range behind others.
fn push_span(
    alloc: Global,
    rows: &mut List<Row>,
    span: &Span,
    form: &Aff,
    count: Option<usize>,
    vars: usize,
) -> Result<(), NoMemory>
    requires { IsTrue (list_all (row_has_vars vars) rows.old) }
    ensures { OnOk result (IsTrue (list_all (row_has_vars vars) rows.new)) }
{
    rows.push(low_row(alloc, span, form, vars)?)?;
    rows.push(high_row(alloc, span, form, count, vars)?)?;
    Ok(())
}

/// The rows of the range of each argument of a read, the lower one first, over so many variables.
fn span_rows(
    alloc: Global,
    head: &Program,
    made: &[Made],
    first: usize,
    terms: &[Term],
    read: &Term,
    vars: usize,
) -> Result<List<Row>, NoMemory>
    requires room { first + length terms.now < 2 ^ 64 }
    ensures { IfOk result (λ rows. IsTrue (list_all (row_has_vars vars) rows)) }
{
    let mut rows = List::new(alloc);
    let forms = read.at.as_slice();
    for place in 0..forms.len() {
        if let Some(span) = argument_span(alloc, head, made, read.array, place)? {
            let count = count_var(first, terms, span.count);
            push_span(alloc, &mut rows, &span, &forms[place], count, vars)?;
        }
    }
    Ok(rows)
}

/// The rows of the range of each argument, the lower one first.
pub fn argument_rows(
    alloc: Global,
    head: &Program,
    made: &[Made],
    levels: usize,
    terms: &[Term],
    term: usize,
) -> Result<Arguments, NoMemory>
    requires levels { levels ≤ 8 }
    requires term { term < length terms.now }
    ensures { IfOk result (λ a. AreArguments (length head.now.params + levels + length terms.now) a) }
{
    let first = head.params.as_slice().len() + levels;
    let read = &terms[term];
    let vars = first + terms.len();
    match missing_count(alloc, head, made, terms, read)? {
        Some(name) => Ok(Arguments {
            extra: Some(first_cell(alloc, name, vars + 1)?),
            rows: span_rows(alloc, head, made, first, terms, read, vars + 1)?,
        }),
        None => Ok(Arguments {
            extra: None,
            rows: span_rows(alloc, head, made, first, terms, read, vars)?,
        }),
    }
}
