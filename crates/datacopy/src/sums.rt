// Numbers of set work, each judged where it is made.
ghost use Rattle.std.specs.Prelude.{◌≡◌, ◌+ℤ◌, ◌-ℤ◌};
ghost use Rattle.nest_core.specs.Numbers.{judged_number};
ghost use Rattle.datacopy.specs.Sums as spec;

use nest_core::{is_small, product};

/// The sum, where it is within the limit.
pub fn sum(a: i128, b: i128) -> Option<i128>
    ensures { result ≡ judged_number (a +ℤ b) }
{
    match a.checked_add(b) {
        Some(sum) if is_small(sum) => Some(sum),
        _ => None,
    }
}

/// The difference, where it is within the limit.
pub fn difference(a: i128, b: i128) -> Option<i128>
    ensures { result ≡ judged_number (a -ℤ b) }
{
    match a.checked_sub(b) {
        Some(difference) if is_small(difference) => Some(difference),
        _ => None,
    }
}

/// `a - factor * b`, where the product and the difference are within the limit.
pub fn less_multiple(a: i128, factor: i128, b: i128) -> Option<i128>
    ensures { result ≡ spec.less_multiple a factor b }
{
    match product(factor, b) {
        Some(product) => difference(a, product),
        None => None,
    }
}

/// `a + factor * b`, where the product and the sum are within the limit.
pub fn plus_multiple(a: i128, factor: i128, b: i128) -> Option<i128>
    ensures { result ≡ spec.plus_multiple a factor b }
{
    match product(factor, b) {
        Some(product) => sum(a, product),
        None => None,
    }
}

/// The size, where it is within the limit.
pub fn size(number: i128) -> Option<i128>
    ensures { result ≡ spec.judged_size number }
{
    if !is_small(number) {
        None
    } else if number < 0 {
        Some(-number)
    } else {
        Some(number)
    }
}
