// The sizes of printed forms. A size that passes 128 bits stays past all limits.
use crate::affine::{Affine, MOST_LEVELS, number_at};
use crate::reads::Read;
use chill_base::Name;
use nest_tree::{Made, MadeWhat};

/// The greatest size of a printed index expression, and of a number in it.
pub const LARGEST: u128 = 1 << 62;

/// The greatest size of a parameter, and of a cell of an index array of the signature.
const PARAMETER: u128 = 1 << 24;

/// The sizes of the levels that stand around a place.
pub type Sizes = [u128; MOST_LEVELS];

/// The size of a kept value of `floord(column + c*row + s0, divisor)`.
fn kept_size(c: i64, s0: i64) -> u128 {
    let times = (c.unsigned_abs() as u128) + 1;
    times * PARAMETER + (s0.unsigned_abs() as u128) + 1
}

/// The size of a cell of an index array.
fn cell_size(made: &[Made], array: Name) -> u128 {
    for it in made {
        if it.name == array {
            return match &it.what {
                MadeWhat::Kept { c, s0, .. } => kept_size(*c, *s0),
                _ => PARAMETER,
            };
        }
    }
    PARAMETER
}

/// A size with that of a multiple added.
fn with_multiple(size: u128, times: i128, of: u128) -> u128 {
    size.saturating_add(times.unsigned_abs().saturating_mul(of))
}

fn params_size(numbers: &[i128]) -> u128 {
    let mut size = 0;
    for number in numbers {
        size = with_multiple(size, *number, PARAMETER);
    }
    size
}

fn levels_size(numbers: &[i128], sizes: Sizes) -> u128 {
    let mut size = 0;
    for level in 0..MOST_LEVELS {
        size = with_multiple(size, number_at(numbers, level), sizes[level]);
    }
    size
}

fn reads_size(numbers: &[i128], made: &[Made], reads: &[Read]) -> u128 {
    let mut size = 0;
    for read in 0..reads.len() {
        let of = cell_size(made, reads[read].array);
        size = with_multiple(size, number_at(numbers, read), of);
    }
    size
}

/// The size of a form.
pub fn size_of(made: &[Made], reads: &[Read], sizes: Sizes, form: &Affine) -> u128 {
    params_size(form.params.as_slice())
        .saturating_add(levels_size(form.levels.as_slice(), sizes))
        .saturating_add(reads_size(form.reads.as_slice(), made, reads))
        .saturating_add(form.constant.unsigned_abs())
}
