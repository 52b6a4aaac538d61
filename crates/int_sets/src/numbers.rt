// Numbers of set work: their limit, and products, sums and divisors.
ghost use Rattle.std.specs.Prelude.{◌≡◌, negsuc, ◌+ℤ◌, ◌-ℤ◌, ◌*ℤ◌, ◌++◌, ◌∷◌, [], cond, not, IfOk};
ghost use Rattle.std.specs.List.{position_from};
ghost use Rattle.int_rows.specs.Gcd.{gcd as gcd_of, gcd_of as gcd_of_all};
ghost use Rattle.int_rows.specs.Elimination.{is_small};

use chill_base::{List, NoMemory};
use std::alloc::Global;

/// The greatest size of a number of set work.
const LIMIT: u128 = 1 << 126;

/// Whether a number is within the limit.
pub fn is_small(z: i128) -> bool
    ensures { result ≡ is_small z }
{
    z.unsigned_abs() <= LIMIT
}

/// The position of the first number past the limit, where the constant comes last.
pub fn first_large(coefs: &[i128], constant: i128) -> Option<usize>
    ensures { result ≡ position_from (λ z. not (is_small z)) 0 (coefs.now ++ constant ∷ []) }
{
    for i in 0..coefs.len() {
        if !is_small(coefs[i]) {
            return Some(i);
        }
    }
    if is_small(constant) {
        None
    } else {
        Some(coefs.len())
    }
}

/// `-1 - z`, which always fits.
pub fn complement(z: i128) -> i128
    ensures { result ≡ negsuc 0 -ℤ z }
{
    !z
}

/// The product, where it is within the limit.
pub fn times(a: i128, b: i128) -> Option<i128>
    ensures { result ≡ cond (is_small (a *ℤ b)) (Some (a *ℤ b)) None }
{
    match a.checked_mul(b) {
        Some(product) if is_small(product) => Some(product),
        _ => None,
    }
}

/// The sum, where it is within the limit.
pub fn plus(a: i128, b: i128) -> Option<i128>
    ensures { result ≡ cond (is_small (a +ℤ b)) (Some (a +ℤ b)) None }
{
    match a.checked_add(b) {
        Some(sum) if is_small(sum) => Some(sum),
        _ => None,
    }
}

/// The greatest common divisor.
pub fn gcd(a: u128, b: u128) -> u128
    ensures { result ≡ gcd_of a b }
{
    let mut x = a;
    let mut y = b;
    while y != 0 {
        let rest = x % y;
        x = y;
        y = rest;
    }
    x
}

/// The greatest common divisor of all numbers.
pub fn gcd_all(numbers: &[i128]) -> u128
    ensures { result ≡ gcd_of_all numbers.now }
{
    let mut found = 0u128;
    for z in numbers {
        if found == 1 {
            return 1;
        }
        found = gcd(found, z.unsigned_abs());
    }
    found
}

/// An empty list with room for so many numbers.
pub fn room(alloc: Global, count: usize) -> Result<List<i128>, NoMemory>
    ensures { IfOk result (λ l. l ≡ []) }
{
    Ok(List::from_vec(Vec::with_capacity(alloc, count)?))
}
