// The sums that an inspector speaks of.
ghost use Rattle.std.specs.Prelude.{◌≡◌, ◌≤◌, ◌-ℤ◌, unsigned_abs};
ghost use Rattle.inspectors.specs.Numbers as spec;
ghost use Rattle.inspectors.specs.Numbers.{IsKept, IsSmall};

use crate::numbers::{KeptForm, Sum};

/// The number where it is negative, or 0.
fn falling(c: i64) -> i64
    requires { unsigned_abs c ≤ 64 }
    ensures value { result ≡ spec.falling c }
    ensures small { unsigned_abs result ≤ 64 }
{
    if c < 0 { c } else { 0 }
}

/// The number where it is positive, or 0.
fn rising(c: i64) -> i64
    requires { unsigned_abs c ≤ 64 }
    ensures value { result ≡ spec.rising c }
    ensures small { unsigned_abs result ≤ 64 }
{
    if c < 0 { 0 } else { c }
}

/// The value of an entry.
pub fn value_sum(form: KeptForm) -> Sum
    requires { IsKept form }
    ensures value { result ≡ spec.value_sum form }
    ensures small { IsSmall result }
{
    Sum {
        row: form.c,
        rows: 0,
        cols: 0,
        column: 1,
        constant: form.s0,
    }
}

/// The least value.
pub fn low_sum(form: KeptForm) -> Sum
    requires { IsKept form }
    ensures value { result ≡ spec.low_sum form }
    ensures small { IsSmall result }
{
    let falling = falling(form.c);
    Sum {
        row: 0,
        rows: falling,
        cols: 0,
        column: 0,
        constant: form.s0 - falling,
    }
}

/// The greatest value.
pub fn high_sum(form: KeptForm) -> Sum
    requires { IsKept form }
    ensures value { result ≡ spec.high_sum form }
    ensures small { IsSmall result }
{
    let rising = rising(form.c);
    Sum {
        row: 0,
        rows: rising,
        cols: 1,
        column: 0,
        constant: form.s0 - 1 - rising,
    }
}

/// The value of an entry less the least value.
pub fn offset_sum(form: KeptForm) -> Sum
    requires { IsKept form }
    ensures value { result ≡ spec.offset_sum form }
    ensures small { IsSmall result }
{
    let falling = falling(form.c);
    Sum {
        row: form.c,
        rows: -falling,
        cols: 0,
        column: 1,
        constant: falling,
    }
}

/// The difference of two small numbers.
fn difference(number: i64, less: i64) -> i64
    requires number { unsigned_abs number ≤ 64 }
    requires less { unsigned_abs less ≤ 64 }
    ensures value { result ≡ number -ℤ less }
    ensures small { unsigned_abs result ≤ 128 }
{
    number - less
}

/// How many values there may be.
pub fn width_sum(form: KeptForm) -> Sum
    requires { IsKept form }
    ensures value { result ≡ spec.width_sum form }
    ensures small { IsSmall result }
{
    let rising = rising(form.c);
    let falling = falling(form.c);
    Sum {
        row: 0,
        rows: difference(rising, falling),
        cols: 1,
        column: 0,
        constant: difference(falling, rising),
    }
}
