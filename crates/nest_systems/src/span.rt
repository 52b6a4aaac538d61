// The rows that a range says of a form.
ghost use Rattle.std.specs.Prelude.{◌≡◌, map, length, IfOk};
ghost use Rattle.std.specs.List.{range_with_len};
ghost use Rattle.nest_systems.specs.Spans as spec;

use crate::range::Span;
use crate::sums::{number_at, stopped_difference, stopped_product, stopped_sum};
use chill_base::{List, NoMemory};
use int_rows::{Aff, Row};
use std::alloc::Global;

fn unit_if(here: bool) -> i128
    ensures { result ≡ spec.unit_if here }
{
    if here { 1 } else { 0 }
}

/// Whether a variable is the one that there may be.
pub fn is_there(var: usize, there: Option<usize>) -> bool
    ensures { result ≡ spec.is_there var there }
{
    match there {
        Some(other) => other == var,
        None => false,
    }
}

#[tactic(auto, unfolding(crate::specs::Spans::low_number))]
fn low_number(span: &Span, coefs: &[i128], var: usize) -> i128
    ensures { result ≡ spec.low_number span.now coefs.now var }
{
    let times = stopped_product(span.low_times, number_at(coefs, var));
    stopped_sum(number_at(span.low.coefs.as_slice(), var), times)
}

#[tactic(auto, unfolding(crate::specs::Spans::high_number))]
fn high_number(span: &Span, coefs: &[i128], count: Option<usize>, var: usize) -> i128
    ensures { result ≡ spec.high_number span.now coefs.now count var }
{
    let times = stopped_product(span.high_times, number_at(coefs, var));
    let rest = stopped_difference(number_at(span.high.coefs.as_slice(), var), times);
    stopped_sum(rest, unit_if(is_there(var, count)))
}

fn low_numbers(
    alloc: Global,
    span: &Span,
    coefs: &[i128],
    vars: usize,
) -> Result<List<i128>, NoMemory>
    ensures { IfOk result (λ cs. cs ≡ map (spec.low_number span.now coefs.now) (range_with_len 0 vars)) }
{
    let mut numbers = List::new(alloc);
    for var in 0..vars {
        numbers.push(low_number(span, coefs, var))?;
    }
    Ok(numbers)
}

fn high_numbers(
    alloc: Global,
    span: &Span,
    coefs: &[i128],
    count: Option<usize>,
    vars: usize,
) -> Result<List<i128>, NoMemory>
    ensures { IfOk result (λ cs. cs ≡ map (spec.high_number span.now coefs.now count) (range_with_len 0 vars)) }
{
    let mut numbers = List::new(alloc);
    for var in 0..vars {
        numbers.push(high_number(span, coefs, count, var))?;
    }
    Ok(numbers)
}

/// The row that a form x isn't below a range, over so many variables.
#[tactic(auto, unfolding(crate::specs::Spans::low_row))]
pub fn low_row(alloc: Global, span: &Span, form: &Aff, vars: usize) -> Result<Row, NoMemory>
    ensures value { IfOk result (λ r. r ≡ spec.low_row span.now form.now vars) }
    ensures width { IfOk result (λ r. length r.form.coefs ≡ vars) }
{
    let coefs = low_numbers(alloc, span, form.coefs.as_slice(), vars)?;
    let times = stopped_product(span.low_times, form.constant);
    Ok(Row {
        equal: false,
        form: Aff {
            coefs,
            constant: stopped_sum(span.low.constant, times),
        },
    })
}

/// The row that a form x isn't above a range, over so many variables; `count` is the variable of `count[0]`.
#[tactic(auto, unfolding(crate::specs::Spans::high_row))]
pub fn high_row(
    alloc: Global,
    span: &Span,
    form: &Aff,
    count: Option<usize>,
    vars: usize,
) -> Result<Row, NoMemory>
    ensures value { IfOk result (λ r. r ≡ spec.high_row span.now form.now count vars) }
    ensures width { IfOk result (λ r. length r.form.coefs ≡ vars) }
{
    let coefs = high_numbers(alloc, span, form.coefs.as_slice(), count, vars)?;
    let times = stopped_product(span.high_times, form.constant);
    Ok(Row {
        equal: false,
        form: Aff {
            coefs,
            constant: stopped_difference(span.high.constant, times),
        },
    })
}

fn unit_at(var: usize, other: usize) -> i128
    ensures { result ≡ spec.unit_at var other }
{
    unit_if(other == var)
}

fn unit_numbers(alloc: Global, var: usize, vars: usize) -> Result<List<i128>, NoMemory>
    ensures { IfOk result (λ cs. cs ≡ map (spec.unit_at var) (range_with_len 0 vars)) }
{
    let mut numbers = List::new(alloc);
    for other in 0..vars {
        numbers.push(unit_at(var, other))?;
    }
    Ok(numbers)
}

/// The form that is one variable.
#[tactic(auto, unfolding(crate::specs::Spans::unit_form))]
pub fn unit_form(alloc: Global, var: usize, vars: usize) -> Result<Aff, NoMemory>
    ensures value { IfOk result (λ f. f ≡ spec.unit_form var vars) }
    ensures width { IfOk result (λ f. length f.coefs ≡ vars) }
{
    let coefs = unit_numbers(alloc, var, vars)?;
    Ok(Aff { coefs, constant: 0 })
}
