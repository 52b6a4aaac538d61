// Values with their weights, as far as these aren't too great.
ghost use Rattle.std.specs.Prelude.{◌≡◌, ◌*◌, ◌*ℤ◌, unsigned_abs, ◌≤◌, ◌^◌, pos, IsTrue, int_le};
ghost use Rattle.c_meaning.specs.Weighed.{Weighed, plain, negated, sum_of, multiple_of, lesser_of, greater_of, floor_of, ceil_of};
ghost use Rattle.c_meaning.specs.Value.{Answer, on_one, on_two, judged_answer};
ghost use Rattle.c_meaning.specs.Capped.{capped, cap};

use crate::EvalFault;
use std::marker::Model;

/// The greatest weight that has a value.
const GREATEST_WEIGHT: u64 = 1 << 62;

/// A value with its weight, which is at least the value's size and at most 2^62.
#[derive(Drop)]
pub struct Sized {
    value: i64,
    weight: u64,
}

impl Model for Sized {
    ghost use Rattle.c_meaning.specs.Weighed.{Weighed};

    ghost Value = { Weighed };

    ghost view = { λ a. record { value = a.value; weight = a.weight } };

    ghost use Rattle.c_meaning.specs.Capped.{IsCapped};

    ghost invariant = { IsCapped };
}

/// What evaluation gives: none for a weight past 2^62, which a factor 0 may still make 0.
pub type Measured = Result<Option<Sized>, EvalFault>;

/// A number by itself.
pub fn plain(value: i64) -> Option<Sized>
    ensures { result ≡ capped (plain value) }
{
    let weight = value.unsigned_abs();
    if weight <= GREATEST_WEIGHT {
        Some(Sized { value, weight })
    } else {
        None
    }
}

/// The value, where the weight isn't too great.
pub fn judge(a: Measured) -> Result<i64, EvalFault>
    ensures { (m : Answer Weighed) → a ≡ cap m → result ≡ judged_answer m }
{
    match a? {
        Some(Sized { value, weight: _ }) => Ok(value),
        None => Err(EvalFault::Range),
    }
}

fn negated_sized(a: Option<Sized>) -> Option<Sized>
    ensures { (x : Weighed) → a ≡ capped x → result ≡ capped (negated x) }
{
    let Sized { value, weight } = a?;
    Some(Sized {
        value: -value,
        weight,
    })
}

pub fn negated(a: Measured) -> Measured
    ensures { (m : Answer Weighed) → a ≡ cap m → result ≡ cap (on_one negated m) }
{
    Ok(negated_sized(a?))
}

fn sum_sized(a: Option<Sized>, b: Option<Sized>) -> Option<Sized>
    ensures { (x y : Weighed) → a ≡ capped x → b ≡ capped y → result ≡ capped (sum_of x y) }
{
    let a = a?;
    let b = b?;
    let weight = a.weight + b.weight;
    if weight <= GREATEST_WEIGHT {
        Some(Sized {
            value: a.value + b.value,
            weight,
        })
    } else {
        None
    }
}

/// The first fault counts.
pub fn sum(a: Measured, b: Measured) -> Measured
    ensures { (m n : Answer Weighed) → a ≡ cap m → b ≡ cap n → result ≡ cap (on_two sum_of m n) }
{
    let a = a?;
    Ok(sum_sized(a, b?))
}

// The product, which a weight bounds.
fn product(factor: i64, value: i64, weight: u64) -> i64
    requires covers { unsigned_abs value ≤ weight }
    requires light { unsigned_abs factor * weight ≤ 2 ^ 62 }
    ensures value { result ≡ factor *ℤ value }
    ensures covers { unsigned_abs result ≤ unsigned_abs factor * weight }
{
    factor * value
}

fn multiple_sized(factor: i64, a: Option<Sized>) -> Option<Sized>
    ensures { (x : Weighed) → a ≡ capped x → result ≡ capped (multiple_of factor x) }
{
    if factor == 0 {
        return Some(Sized {
            value: 0,
            weight: 0,
        });
    }
    let a = a?;
    let weight = factor.unsigned_abs().checked_mul(a.weight)?;
    if weight <= GREATEST_WEIGHT {
        Some(Sized {
            value: product(factor, a.value, a.weight),
            weight,
        })
    } else {
        None
    }
}

/// A factor of 0 makes any weight 0, also one that is too great.
pub fn multiple(factor: i64, a: Measured) -> Measured
    ensures { (m : Answer Weighed) → a ≡ cap m → result ≡ cap (on_one (multiple_of factor) m) }
{
    Ok(multiple_sized(factor, a?))
}

fn lesser_sized(a: Option<Sized>, b: Option<Sized>) -> Option<Sized>
    ensures { (x y : Weighed) → a ≡ capped x → b ≡ capped y → result ≡ capped (lesser_of x y) }
{
    let a = a?;
    let b = b?;
    Some(Sized {
        value: a.value.min(b.value),
        weight: a.weight.max(b.weight),
    })
}

pub fn lesser(a: Measured, b: Measured) -> Measured
    ensures { (m n : Answer Weighed) → a ≡ cap m → b ≡ cap n → result ≡ cap (on_two lesser_of m n) }
{
    let a = a?;
    Ok(lesser_sized(a, b?))
}

fn greater_sized(a: Option<Sized>, b: Option<Sized>) -> Option<Sized>
    ensures { (x y : Weighed) → a ≡ capped x → b ≡ capped y → result ≡ capped (greater_of x y) }
{
    let a = a?;
    let b = b?;
    Some(Sized {
        value: a.value.max(b.value),
        weight: a.weight.max(b.weight),
    })
}

pub fn greater(a: Measured, b: Measured) -> Measured
    ensures { (m n : Answer Weighed) → a ≡ cap m → b ≡ cap n → result ≡ cap (on_two greater_of m n) }
{
    let a = a?;
    Ok(greater_sized(a, b?))
}

fn floor_sized(a: Option<Sized>, divisor: i64) -> Option<Sized>
    requires { IsTrue (int_le (pos 1) divisor) }
    ensures { (x : Weighed) → a ≡ capped x → result ≡ capped (floor_of x divisor) }
{
    let a = a?;
    Some(Sized {
        value: a.value.div_euclid(divisor),
        weight: a.weight,
    })
}

pub fn floor(a: Measured, divisor: i64) -> Measured
    requires { IsTrue (int_le (pos 1) divisor) }
    ensures { (m : Answer Weighed) → a ≡ cap m → result ≡ cap (on_one (λ x. floor_of x divisor) m) }
{
    Ok(floor_sized(a?, divisor))
}

pub fn ceil(a: Measured, divisor: i64) -> Measured
    requires { IsTrue (int_le (pos 1) divisor) }
    ensures { (m : Answer Weighed) → a ≡ cap m → result ≡ cap (on_one (λ x. ceil_of x divisor) m) }
{
    negated(floor(negated(a), divisor))
}
