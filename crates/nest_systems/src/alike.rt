// Terms that read the same cell.
ghost use Rattle.std.specs.Prelude.{◌≡◌, ◌+◌, ◌<◌, ◌^◌, length};
ghost use Rattle.std.specs.List.{list_all, range_with_len};
ghost use Rattle.nest_systems.specs.Choosing as spec;
ghost use Rattle.nest_systems.specs.Placing.{small_total, numbers_there};

use crate::range::is_name;
use crate::span::is_there;
use crate::sums::number_at;
use int_rows::Aff;
use nest_core::{Total, is_small};
use nest_tree::Term;

/// The sum of a form's numbers for the terms that stand at a variable, where these and it are within the limit.
/// `first` is the place of the first term's number.
pub fn sum_there(first: usize, there: &[Option<usize>], var: usize, coefs: &[i128]) -> Option<i128>
    requires room { first + length there.now < 2 ^ 64 }
    ensures { result ≡ small_total (numbers_there first there.now var coefs.now) }
{
    let mut total = Total::zero();
    for i in 0..there.len() {
        if is_there(var, there[i]) {
            let number = number_at(coefs, first + i);
            if !is_small(number) {
                return None;
            }
            total.add(number);
        }
    }
    total.number()
}

/// Whether two forms hold the terms for which one stands equally often, all taken together.
fn balances(first: usize, same: &[Option<usize>], one: usize, a: &[i128], b: &[i128]) -> bool
    requires room { first + length same.now < 2 ^ 64 }
    ensures { result ≡ spec.balances first same.now a.now b.now one }
{
    match sum_there(first, same, one, a) {
        Some(sum) => sum_there(first, same, one, b) == Some(sum),
        None => false,
    }
}

/// Whether two forms hold all terms equally often, each taken for the one that stands for it.
fn all_balance(first: usize, same: &[Option<usize>], a: &[i128], b: &[i128]) -> bool
    requires room { first + length same.now < 2 ^ 64 }
    ensures { result ≡ list_all (spec.balances first same.now a.now b.now) (range_with_len 0 (length same.now)) }
{
    for one in 0..same.len() {
        if !balances(first, same, one, a, b) {
            return false;
        }
    }
    true
}

/// Whether two lists have the same number at a place.
fn same_number(a: &[i128], b: &[i128], var: usize) -> bool
    ensures { result ≡ spec.same_number a.now b.now var }
{
    number_at(a, var) == number_at(b, var)
}

/// Whether two lists have the same numbers at the first places.
fn same_numbers(first: usize, a: &[i128], b: &[i128]) -> bool
    ensures { result ≡ list_all (spec.same_number a.now b.now) (range_with_len 0 first) }
{
    for var in 0..first {
        if !same_number(a, b, var) {
            return false;
        }
    }
    true
}

/// Whether two forms are equal where each term counts as the one that stands for it.
#[tactic(auto, unfolding(crate::specs::Choosing::are_equal))]
fn are_equal(first: usize, same: &[Option<usize>], a: &Aff, b: &Aff) -> bool
    requires room { first + length same.now < 2 ^ 64 }
    ensures { result ≡ spec.are_equal first same.now a.now b.now }
{
    let x = a.coefs.as_slice();
    let y = b.coefs.as_slice();
    a.constant == b.constant && same_numbers(first, x, y) && all_balance(first, same, x, y)
}

/// Whether forms are so many, and equal one by one.
fn are_all_equal(first: usize, same: &[Option<usize>], x: &[Aff], y: &[Aff]) -> bool
    requires room { first + length same.now < 2 ^ 64 }
    ensures { result ≡ spec.are_all_equal first same.now x.now y.now }
{
    if x.len() != y.len() {
        return false;
    }
    for place in 0..x.len() {
        if !are_equal(first, same, &x[place], &y[place]) {
            return false;
        }
    }
    true
}

/// Whether two terms read the same cell.
pub fn are_alike(first: usize, same: &[Option<usize>], a: &Term, b: &Term) -> bool
    requires room { first + length same.now < 2 ^ 64 }
    ensures { result ≡ spec.are_alike first same.now a.now b.now }
{
    is_name(a.array, b.array) && are_all_equal(first, same, a.at.as_slice(), b.at.as_slice())
}
