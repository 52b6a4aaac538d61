// Forms in which a level is replaced by a group of values: `v = low + factor*q + r`.
ghost use Rattle.std.specs.Prelude.{◌≡◌, ◌<◌, ◌+◌, length, IfOk};
ghost use Rattle.unroll.specs.Groups as spec;

use crate::bounds::coef;
use chill_base::{List, NoMemory};
use int_rows::Aff;
use nest_core::{LIMIT, is_small, product};
use std::alloc::Global;

/// A number past the limit, which stands for the wanted one where that is past it. The command is then refused at its
/// place.
const PAST: i128 = LIMIT + 1;

/// The sum, or a number past the limit where the sum is past it.
#[tactic(auto, unfolding(crate::specs::Groups::sum))]
fn sum(a: i128, b: i128) -> i128
    ensures { result ≡ spec.sum a b }
{
    match a.checked_add(b) {
        Some(sum) if is_small(sum) => sum,
        _ => PAST,
    }
}

/// The difference, or a number past the limit where the difference is past it.
#[tactic(auto, unfolding(crate::specs::Groups::difference))]
fn difference(a: i128, b: i128) -> i128
    ensures { result ≡ spec.difference a b }
{
    match a.checked_sub(b) {
        Some(difference) if is_small(difference) => difference,
        _ => PAST,
    }
}

/// The numbers with others in the place of one of them.
#[tactic(auto, unfolding(crate::specs::Groups::with_group))]
fn with_group(
    alloc: Global,
    numbers: &[i128],
    at: usize,
    group: &[i128],
) -> Result<List<i128>, NoMemory>
    requires { at < length numbers.now }
    ensures value { IfOk result (λ zs. zs ≡ spec.with_group numbers.now at group.now) }
    ensures width { IfOk result (λ zs. length zs + 1 ≡ length numbers.now + length group.now) }
{
    let mut new = List::from_slice(alloc, &numbers[..at])?;
    new.append(List::from_slice(alloc, group)?)?;
    new.append(List::from_slice(alloc, &numbers[at + 1..])?)?;
    Ok(new)
}

/// The negated numbers.
fn negated(alloc: Global, numbers: &[i128]) -> Result<List<i128>, NoMemory>
    ensures value { IfOk result (λ zs. zs ≡ spec.negated numbers.now) }
    ensures width { IfOk result (λ zs. length zs ≡ length numbers.now) }
{
    let mut new = List::new(alloc);
    for number in numbers {
        new.push(difference(0, *number))?;
    }
    Ok(new)
}

/// The level's value, by its lower row: its lower bound, and multiples of the new levels, and a constant.
#[tactic(auto, unfolding(crate::specs::Groups::value_form))]
pub fn value_form(
    alloc: Global,
    lower: &Aff,
    at: usize,
    group: &[i128],
    more: i128,
) -> Result<Aff, NoMemory>
    requires { at < length lower.now.coefs }
    ensures value { IfOk result (λ f. f ≡ spec.value_form lower.now at group.now more) }
    ensures width { IfOk result (λ f. length f.coefs + 1 ≡ length lower.now.coefs + length group.now) }
{
    let numbers = negated(alloc, lower.coefs.as_slice())?;
    Ok(Aff {
        coefs: with_group(alloc, numbers.as_slice(), at, group)?,
        constant: difference(more, lower.constant),
    })
}

/// A number with a multiple of another, or a number past the limit where the multiple or the sum is past it.
#[tactic(auto, unfolding(crate::specs::Groups::plus_multiple))]
fn plus_multiple(start: i128, times: i128, number: i128) -> i128
    ensures { result ≡ spec.plus_multiple start times number }
{
    match product(times, number) {
        Some(product) => sum(start, product),
        None => PAST,
    }
}

/// Numbers with multiples of others.
fn plus_multiples(
    alloc: Global,
    starts: &[i128],
    times: i128,
    numbers: &[i128],
) -> Result<List<i128>, NoMemory>
    requires { length starts.now ≡ length numbers.now }
    ensures { IfOk result (λ zs. zs ≡ spec.plus_multiples starts.now times numbers.now) }
{
    let mut sums = List::new(alloc);
    for i in 0..starts.len() {
        sums.push(plus_multiple(starts[i], times, numbers[i]))?;
    }
    Ok(sums)
}

/// The form with the level replaced by a value. `none` has a 0 for each new level.
#[tactic(auto, unfolding(crate::specs::Groups::replaced))]
pub fn replaced(
    alloc: Global,
    form: &Aff,
    at: usize,
    value: &Aff,
    none: &[i128],
) -> Result<Aff, NoMemory>
    requires level { at < length form.now.coefs }
    requires width { length value.now.coefs + 1 ≡ length form.now.coefs + length none.now }
    ensures { IfOk result (λ f. f ≡ spec.replaced form.now at value.now none.now) }
{
    let times = coef(form, at);
    let starts = with_group(alloc, form.coefs.as_slice(), at, none)?;
    Ok(Aff {
        coefs: plus_multiples(alloc, starts.as_slice(), times, value.coefs.as_slice())?,
        constant: plus_multiple(form.constant, times, value.constant),
    })
}

/// The form that is at least 0 exactly where this one is below 0.
#[tactic(auto, unfolding(crate::specs::Groups::beyond))]
pub fn beyond(alloc: Global, form: &Aff) -> Result<Aff, NoMemory>
    ensures { IfOk result (λ f. f ≡ spec.beyond form.now) }
{
    Ok(Aff {
        coefs: negated(alloc, form.coefs.as_slice())?,
        constant: difference(-1, form.constant),
    })
}
