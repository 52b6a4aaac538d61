// What the levels of a statement stand for that goes over a whole sparse matrix.
ghost use Rattle.std.specs.Prelude.{◌≡◌, ◌-◌, ◌≤◌, ◌^◌, ◌+◌, ◌+ℤ◌, ◌*ℤ◌, ℕ, pos, length, unsigned_abs, None, Some};
ghost use Rattle.std.specs.Ordering.{int_eq};
ghost use Rattle.affine_moves.specs.Levels.{form_at, is_within, whole_form, tiled_form, shifted_form, sum_of, plus, plus_multiple, plus_each, form_of, skewed_form, IsAtMost};

use nest_tree::Form;

/// The greatest size of a number of a form.
const FORM_LIMIT: i128 = 1 << 62;

/// What a level without division stands for, in numbers that may pass the limit for a while.
#[derive(Clone, Copy)]
pub struct Sum {
    pub r: i128,
    pub j: i128,
    pub k: i128,
    pub constant: i128,
}

/// What a level stands for.
#[tactic(auto, unfolding(crate::specs::Levels::form_at))]
pub fn form_at(levels: &[Form], level: usize) -> Form
    requires low { 1 ≤ level }
    requires high { level ≤ length levels.now }
    ensures { result ≡ form_at levels.now level }
{
    levels[level - 1]
}

fn is_within(number: i128) -> bool
    ensures { result ≡ is_within number }
{
    -FORM_LIMIT <= number && number <= FORM_LIMIT
}

/// The form of these numbers, or none where one of them passes the limit.
#[tactic(auto, unfolding(crate::specs::Levels::whole_form))]
fn whole_form(r: i128, j: i128, k: i128, constant: i128, divisor: i128) -> Form
    ensures { result ≡ whole_form r j k constant divisor }
{
    if is_within(r) && is_within(j) && is_within(k) && is_within(constant) && is_within(divisor) {
        Form::Whole {
            r: r as i64,
            j: j as i64,
            k: k as i64,
            constant: constant as i64,
            divisor: divisor as i64,
        }
    } else {
        Form::Other
    }
}

/// The size of a tile, as a number of rows.
pub fn wide(size: u32) -> i128
    ensures { result ≡ pos size }
{
    size as i128
}

/// The number of a tile of so many values of a level.
pub fn tiled_form(size: u32, form: Form) -> Form
    ensures { result ≡ tiled_form size form }
{
    match form {
        Form::Other => Form::Other,
        Form::Whole {
            r,
            j,
            k,
            constant,
            divisor,
        } => whole_form(
            r as i128,
            j as i128,
            k as i128,
            constant as i128,
            divisor as i128 * wide(size),
        ),
    }
}

/// A level whose values are raised by an amount.
pub fn shifted_form(amount: i32, form: Form) -> Form
    ensures { result ≡ shifted_form amount form }
{
    match form {
        Form::Other => Form::Other,
        Form::Whole {
            r,
            j,
            k,
            constant,
            divisor,
        } => whole_form(
            r as i128,
            j as i128,
            k as i128,
            constant as i128 + amount as i128 * divisor as i128,
            divisor as i128,
        ),
    }
}

#[tactic(auto, unfolding(crate::specs::Levels::sum_of))]
fn sum_of(form: Form) -> Option<Sum>
    ensures value { result ≡ sum_of form }
    ensures small { IsAtMost (2 ^ 63) result }
{
    match form {
        Form::Whole {
            r,
            j,
            k,
            constant,
            divisor,
        } if divisor == 1 => Some(Sum {
            r: r as i128,
            j: j as i128,
            k: k as i128,
            constant: constant as i128,
        }),
        _ => None,
    }
}

/// A number with a multiple of another added.
fn add_multiple(total: i128, coef: i32, number: i128) -> i128
    requires total { unsigned_abs total ≤ 2 ^ 100 }
    requires number { unsigned_abs number ≤ 2 ^ 63 }
    ensures value { result ≡ total +ℤ coef *ℤ number }
    ensures small { unsigned_abs result ≤ unsigned_abs total + 2 ^ 94 }
{
    total + coef as i128 * number
}

/// A sum with a multiple of another added.
fn added(sum: Sum, coef: i32, more: Sum) -> Sum
    requires sum { IsAtMost (2 ^ 100) (Some sum) }
    requires more { IsAtMost (2 ^ 63) (Some more) }
    ensures value { Some result ≡ plus sum coef (Some more) }
    ensures small { (n : ℕ) → IsAtMost n (Some sum) → IsAtMost (n + 2 ^ 94) (Some result) }
{
    Sum {
        r: add_multiple(sum.r, coef, more.r),
        j: add_multiple(sum.j, coef, more.j),
        k: add_multiple(sum.k, coef, more.k),
        constant: add_multiple(sum.constant, coef, more.constant),
    }
}

pub fn is_zero(number: i32) -> bool
    ensures { result ≡ int_eq number (pos 0) }
{
    number == 0
}

/// A sum with a multiple of a level added; a level that is added 0 times may be of any form.
#[tactic(auto, unfolding(crate::specs::Levels::plus_multiple))]
fn plus_multiple(sum: Sum, coef: i32, form: Form) -> Option<Sum>
    requires { IsAtMost (2 ^ 100) (Some sum) }
    ensures value { result ≡ plus_multiple sum coef form }
    ensures small { (n : ℕ) → IsAtMost n (Some sum) → IsAtMost (n + 2 ^ 94) result }
{
    if is_zero(coef) {
        return Some(sum);
    }
    match sum_of(form) {
        Some(more) => Some(added(sum, coef, more)),
        None => None,
    }
}

/// Multiples of levels added up, in order.
fn plus_each(start: Sum, coefs: &[i32], levels: &[Form]) -> Option<Sum>
    requires start { IsAtMost (2 ^ 63) (Some start) }
    requires few { length coefs.now ≤ 8 }
    requires levels { length coefs.now ≤ length levels.now }
    ensures { result ≡ plus_each (Some start) coefs.now levels.now }
{
    let mut sum = start;
    for i in 0..coefs.len() {
        match plus_multiple(sum, coefs[i], form_at(levels, i + 1)) {
            Some(more) => sum = more,
            None => return None,
        }
    }
    Some(sum)
}

/// The form that a sum is.
fn form_of(sum: Sum) -> Form
    ensures { result ≡ form_of (Some sum) }
{
    whole_form(sum.r, sum.j, sum.k, sum.constant, 1)
}

/// A level with multiples of the levels before it added, where none of these has a division.
pub fn skewed_form(form: Form, coefs: &[i32], levels: &[Form]) -> Form
    requires few { length coefs.now ≤ 8 }
    requires levels { length coefs.now ≤ length levels.now }
    ensures { result ≡ skewed_form form coefs.now levels.now }
{
    match sum_of(form) {
        Some(start) => match plus_each(start, coefs, levels) {
            Some(sum) => form_of(sum),
            None => Form::Other,
        },
        None => Form::Other,
    }
}
