// Two rows make one in which a variable falls out.
ghost use Rattle.std.specs.Prelude.{◌≡◌, ◌≢◌, pos, length, ◌<◌, ◌≤◌, ◌^◌, IsTrue, cond, unsigned_abs, int_div, int_lt, neg_ℤ};
ghost use Rattle.std.specs.List.{list_all};
ghost use Rattle.int_rows.specs.Gcd.{gcd as gcd_of};
ghost use Rattle.int_rows.specs.Rows.{coef_at, numbers};
ghost use Rattle.int_rows.specs.Elimination.{is_small, canceled};
ghost use Rattle.int_sets.specs.Gathering.{MakesRow};
ghost use Rattle.int_sets.specs.Views.{form_of, row_of};

use crate::combine::combine;
use crate::numbers::gcd;
use crate::reduce::reduced;
use crate::views::RowRef;
use chill_base::Stop;
use int_rows::{Excess, Row};
use std::alloc::Global;

/// The number divided by a divisor.
fn quotient(z: i128, by: u128) -> i128
    requires small { IsTrue (is_small z) }
    requires some { 0 < by }
    requires top { by ≤ 2 ^ 126 }
    ensures { result ≡ int_div z (pos by) }
{
    z / by as i128
}

/// `a` where `c` is negative, and `-a` otherwise.
fn turned(a: i128, c: i128) -> i128
    requires { IsTrue (is_small a) }
    ensures value { result ≡ cond (int_lt c (pos 0)) a (neg_ℤ a) }
    ensures small { IsTrue (is_small result) }
{
    if c < 0 { a } else { -a }
}

/// The size.
fn size(c: i128) -> i128
    requires { IsTrue (is_small c) }
    ensures value { result ≡ pos (unsigned_abs c) }
    ensures small { IsTrue (is_small result) }
{
    c.unsigned_abs() as i128
}

/// The greatest common divisor of the sizes.
fn divisor(a: i128, c: i128) -> u128
    requires small { IsTrue (is_small c) }
    requires held { c ≢ pos 0 }
    ensures value { result ≡ gcd_of (unsigned_abs a) (unsigned_abs c) }
    ensures some { 0 < result }
    ensures top { result ≤ 2 ^ 126 }
{
    gcd(a.unsigned_abs(), c.unsigned_abs())
}

/// The factors by which two rows are joined, so that their coefficients `a` and `c` cancel.
fn factors(a: i128, c: i128) -> (i128, i128)
    requires first { IsTrue (is_small a) }
    requires second { IsTrue (is_small c) }
    requires held { c ≢ pos 0 }
    ensures first { result.0 ≡ int_div (pos (unsigned_abs c)) (pos (gcd_of (unsigned_abs a) (unsigned_abs c))) }
    ensures second { result.1 ≡ int_div (cond (int_lt c (pos 0)) a (neg_ℤ a)) (pos (gcd_of (unsigned_abs a) (unsigned_abs c))) }
{
    let by = divisor(a, c);
    (quotient(size(c), by), quotient(turned(a, c), by))
}

/// The row in which the variable at `var` falls out of the first row by the second, which holds it, or `Large`.
pub fn cancel(
    alloc: Global,
    var: usize,
    first: &RowRef,
    second: &RowRef,
) -> Result<Row, Stop<Excess>>
    requires first_var { var < length first.now.form.coefs.now }
    requires width { length first.now.form.coefs.now ≡ length second.now.form.coefs.now }
    requires first_small { IsTrue (list_all is_small (numbers (form_of first.now.form))) }
    requires second_small { IsTrue (list_all is_small (numbers (form_of second.now.form))) }
    requires held { coef_at var (row_of second.now) ≢ pos 0 }
    ensures { MakesRow var (canceled var (row_of first.now) (row_of second.now)) result }
{
    let a = first.form.coefs[var];
    let c = second.form.coefs[var];
    let (m, n) = factors(a, c);
    match combine(alloc, m, &first.form, n, &second.form) {
        Ok(form) => Ok(reduced(
            alloc,
            Row {
                equal: first.equal,
                form,
            },
        )?),
        Err(Stop::Refused(_)) => Err(Stop::Refused(Excess::Large { var })),
        Err(Stop::NoMemory) => Err(Stop::NoMemory),
    }
}
