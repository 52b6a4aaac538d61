// Sums of multiples of two forms.
ghost use Rattle.std.specs.Prelude.{◌≡◌, ◌+ℤ◌, ◌*ℤ◌, cond, length};
ghost use Rattle.int_rows.specs.Elimination.{sum_small, combination, first_past};
ghost use Rattle.int_sets.specs.Gathering.{Combines};
ghost use Rattle.int_sets.specs.Views.{form_of};

use crate::numbers::{plus, room, times};
use crate::views::AffRef;
use chill_base::Stop;
use int_rows::Aff;
use std::alloc::Global;

/// `m * a + n * b`, where the products and the sum are within the limit.
fn combine_numbers(m: i128, a: i128, n: i128, b: i128) -> Option<i128>
    ensures { result ≡ cond (sum_small m a n b) (Some (m *ℤ a +ℤ n *ℤ b)) None }
{
    let left = times(m, a)?;
    let right = times(n, b)?;
    plus(left, right)
}

/// `m` times the first form and `n` times the second, or the position of the first number that passes the limit.
pub fn combine(
    alloc: Global,
    m: i128,
    first: &AffRef,
    n: i128,
    second: &AffRef,
) -> Result<Aff, Stop<usize>>
    requires { length first.now.coefs.now ≡ length second.now.coefs.now }
    ensures { Combines (first_past m (form_of first.now) n (form_of second.now)) (combination m (form_of first.now) n (form_of second.now)) result }
{
    let left = first.coefs;
    let right = second.coefs;
    let mut coefs = room(alloc, left.len())?;
    for i in 0..left.len() {
        match combine_numbers(m, left[i], n, right[i]) {
            Some(number) => coefs.push(number)?,
            None => return Err(Stop::Refused(i)),
        }
    }
    match combine_numbers(m, first.constant, n, second.constant) {
        Some(constant) => Ok(Aff { coefs, constant }),
        None => Err(Stop::Refused(left.len())),
    }
}
