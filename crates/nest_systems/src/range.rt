// The ranges of what reads of index arrays give, and of their arguments.
ghost use Rattle.std.specs.Prelude.{◌≡◌, ◌≤◌, ◌^◌, ◌+ℤ◌, ◌-ℤ◌, neg_ℤ, length, bytes_eq, unsigned_abs, map, pos, IfOk};
ghost use Rattle.std.specs.Int.{int_min, int_max};
ghost use Rattle.nest_systems.specs.Ranges as spec;

use crate::extent::zero_form;
use crate::sums::stopped_sum;
use c_tree::{Matrix, Program};
use chill_base::{List, Name, NoMemory};
use int_rows::Aff;
use nest_tree::{Made, MadeWhat};
use std::alloc::Global;

/// The range of a number x: `low_times*x + low >= 0` and `high + count[0] - high_times*x >= 0`, where the forms are
/// over the parameters, and without `count[0]` where there is no count.
#[derive(Drop)]
pub struct Span {
    pub low_times: i128,
    pub low: Aff,
    pub high_times: i128,
    pub high: Aff,
    pub count: Option<Name>,
}

pub fn is_name(a: Name, b: Name) -> bool
    ensures { result ≡ bytes_eq a b }
{
    a.bytes() == b.bytes()
}

fn times_if(same: bool, times: i128) -> i128
    ensures { result ≡ spec.times_if same times }
{
    if same { times } else { 0 }
}

/// The coefficient of a parameter in a sum of multiples of two named ones.
#[tactic(auto, unfolding(crate::specs::Ranges::coef_of))]
fn coef_of(name: Name, first: Name, first_times: i128, second: Name, second_times: i128) -> i128
    ensures { result ≡ spec.coef_of first first_times second second_times name }
{
    let one = times_if(is_name(name, first), first_times);
    stopped_sum(one, times_if(is_name(name, second), second_times))
}

/// The coefficients of the parameters in such a sum.
fn coefs_of(
    alloc: Global,
    params: &[Name],
    first: Name,
    first_times: i128,
    second: Name,
    second_times: i128,
) -> Result<List<i128>, NoMemory>
    ensures { IfOk result (λ cs. cs ≡ map (spec.coef_of first first_times second second_times) params.now) }
{
    let mut coefs = List::new(alloc);
    for name in params {
        coefs.push(coef_of(*name, first, first_times, second, second_times))?;
    }
    Ok(coefs)
}

/// A sum of multiples of two named parameters and a constant.
#[tactic(auto, unfolding(crate::specs::Ranges::of_two))]
fn of_two(
    alloc: Global,
    params: &[Name],
    first: Name,
    first_times: i128,
    second: Name,
    second_times: i128,
    constant: i128,
) -> Result<Aff, NoMemory>
    ensures { IfOk result (λ f. f ≡ spec.of_two params.now first first_times second second_times constant) }
{
    let coefs = coefs_of(alloc, params, first, first_times, second, second_times)?;
    Ok(Aff { coefs, constant })
}

/// A named parameter and a constant.
#[tactic(auto, unfolding(crate::specs::Ranges::of_one))]
fn of_one(alloc: Global, params: &[Name], name: Name, constant: i128) -> Result<Aff, NoMemory>
    ensures { IfOk result (λ f. f ≡ spec.of_one params.now name constant) }
{
    of_two(alloc, params, name, 1, name, 0, constant)
}

/// The form that is a parameter, over the parameters: 1 at each parameter of that name.
pub fn parameter_form(alloc: Global, head: &Program, name: Name) -> Result<Aff, NoMemory>
    ensures { IfOk result (λ f. f ≡ spec.of_one head.now.params name (pos 0)) }
{
    of_one(alloc, head.params.as_slice(), name, 0)
}

/// A constant as a form.
#[tactic(auto, unfolding(crate::specs::Ranges::of_none))]
fn of_none(alloc: Global, params: &[Name], constant: i128) -> Result<Aff, NoMemory>
    ensures { IfOk result (λ f. f ≡ spec.of_none params.now constant) }
{
    let zero = zero_form(alloc, params.len())?;
    let Aff { coefs, constant: _ } = zero;
    Ok(Aff { coefs, constant })
}

/// From 0 to a form.
#[tactic(auto, unfolding(crate::specs::Ranges::from_zero))]
fn from_zero(
    alloc: Global,
    params: &[Name],
    high: Aff,
    count: Option<Name>,
) -> Result<Span, NoMemory>
    ensures { IfOk result (λ s. s ≡ spec.from_zero params.now high count) }
{
    Ok(Span {
        low_times: 1,
        low: of_none(alloc, params, 0)?,
        high_times: 1,
        high,
        count,
    })
}

/// The range from 0 to a named parameter and a constant.
fn to_one(alloc: Global, params: &[Name], name: Name, constant: i128) -> Result<Span, NoMemory>
    ensures { IfOk result (λ s. s ≡ spec.to_one params.now name constant) }
{
    let high = of_one(alloc, params, name, constant)?;
    from_zero(alloc, params, high, None)
}

/// The range from 0 to a constant, or to `count[0]` and a constant.
fn to_none(
    alloc: Global,
    params: &[Name],
    constant: i128,
    count: Option<Name>,
) -> Result<Span, NoMemory>
    ensures { IfOk result (λ s. s ≡ spec.to_none params.now constant count) }
{
    let high = of_none(alloc, params, constant)?;
    from_zero(alloc, params, high, count)
}

/// The range of kept values of `floord(column + c*row + s0, divisor)`.
#[tactic(auto, unfolding(crate::specs::Ranges::kept_span))]
fn kept_span(
    alloc: Global,
    params: &[Name],
    matrix: &Matrix,
    c: i64,
    s0: i64,
    divisor: i64,
) -> Result<Span, NoMemory>
    ensures { IfOk result (λ s. s ≡ spec.kept_span params.now matrix.now c s0 divisor) }
{
    let least = lesser(c);
    let most = greater(c);
    let start = wide(s0);
    let by = wide(divisor);
    let low = low_constant(by, start, least);
    let high = high_constant(start, most);
    let rows = matrix.rows;
    let cols = matrix.cols;
    Ok(Span {
        low_times: by,
        low: of_two(alloc, params, rows, negated(least), cols, 0, low)?,
        high_times: by,
        high: of_two(alloc, params, cols, 1, rows, most, high)?,
        count: None,
    })
}

/// A number in 128 bits.
fn wide(number: i64) -> i128
    ensures value { result ≡ number }
    ensures small { unsigned_abs result ≤ 2 ^ 63 }
{
    number as i128
}

/// The lesser of a number and 0.
fn lesser(number: i64) -> i128
    ensures value { result ≡ int_min number (pos 0) }
    ensures small { unsigned_abs result ≤ 2 ^ 63 }
{
    wide(number).min(0)
}

/// The greater of a number and 0.
fn greater(number: i64) -> i128
    ensures value { result ≡ int_max number (pos 0) }
    ensures small { unsigned_abs result ≤ 2 ^ 63 }
{
    wide(number).max(0)
}

fn negated(number: i128) -> i128
    requires { unsigned_abs number ≤ 2 ^ 63 }
    ensures { result ≡ neg_ℤ number }
{
    -number
}

fn low_constant(by: i128, start: i128, least: i128) -> i128
    requires by { unsigned_abs by ≤ 2 ^ 63 }
    requires start { unsigned_abs start ≤ 2 ^ 63 }
    requires least { unsigned_abs least ≤ 2 ^ 63 }
    ensures { result ≡ by -ℤ pos 1 -ℤ start +ℤ least }
{
    by - 1 - start + least
}

fn high_constant(start: i128, most: i128) -> i128
    requires start { unsigned_abs start ≤ 2 ^ 63 }
    requires most { unsigned_abs most ≤ 2 ^ 63 }
    ensures { result ≡ start -ℤ pos 1 -ℤ most }
{
    start - 1 - most
}

/// The range of the values of a made array.
#[tactic(auto, unfolding(crate::specs::Ranges::made_value_span))]
fn made_value_span(
    alloc: Global,
    params: &[Name],
    matrix: &Matrix,
    what: &MadeWhat,
) -> Result<Option<Span>, NoMemory>
    ensures { IfOk result (λ s. s ≡ spec.made_value_span params.now matrix.now what.now) }
{
    match what {
        MadeWhat::Pointer { count, .. } => Ok(Some(to_none(alloc, params, 0, Some(*count))?)),
        MadeWhat::Kept { c, s0, divisor, .. } => Ok(Some(kept_span(
            alloc, params, matrix, *c, *s0, *divisor,
        )?)),
        MadeWhat::Count => Ok(Some(to_one(alloc, params, matrix.count, 0)?)),
        MadeWhat::Width => Ok(Some(to_one(alloc, params, matrix.count, 0)?)),
        MadeWhat::Columns { .. } => Ok(Some(to_one(alloc, params, matrix.cols, -1)?)),
        MadeWhat::Mark => Ok(None),
        MadeWhat::Block { .. } => Ok(None),
        MadeWhat::Diag { .. } => Ok(None),
        MadeWhat::Padded { .. } => Ok(None),
        MadeWhat::Copy { .. } => Ok(None),
    }
}

/// The range of the values of an index array of the signature.
fn matrix_value_span(
    alloc: Global,
    params: &[Name],
    matrices: &[Matrix],
    array: Name,
) -> Result<Option<Span>, NoMemory>
    ensures { IfOk result (λ s. s ≡ spec.matrix_value_span params.now matrices.now array) }
{
    for matrix in matrices {
        if is_name(array, matrix.index) {
            return Ok(Some(to_one(alloc, params, matrix.count, 0)?));
        }
        if is_name(array, matrix.col) {
            return Ok(Some(to_one(alloc, params, matrix.cols, -1)?));
        }
    }
    Ok(None)
}

/// The range of the values of an array that commands made.
fn made_array_value_span(
    alloc: Global,
    head: &Program,
    made: &[Made],
    array: Name,
) -> Result<Option<Span>, NoMemory>
    ensures { IfOk result (λ s. s ≡ spec.said_of_made head.now.matrices made.now array (spec.made_value_span head.now.params)) }
{
    for it in made {
        if is_name(array, it.name) {
            return match head.matrices.get(it.matrix) {
                Some(matrix) => made_value_span(alloc, head.params.as_slice(), matrix, &it.what),
                None => Ok(None),
            };
        }
    }
    Ok(None)
}

/// The range of the values that reads of an index array give; None for an array of which nothing is known.
#[tactic(auto, unfolding(crate::specs::Ranges::value_span))]
pub fn value_span(
    alloc: Global,
    head: &Program,
    made: &[Made],
    array: Name,
) -> Result<Option<Span>, NoMemory>
    ensures { IfOk result (λ s. s ≡ spec.value_span head.now made.now array) }
{
    match matrix_value_span(
        alloc,
        head.params.as_slice(),
        head.matrices.as_slice(),
        array,
    )? {
        Some(span) => Ok(Some(span)),
        None => made_array_value_span(alloc, head, made, array),
    }
}

/// The range of the argument that tells the group of a pointer.
#[tactic(auto, unfolding(crate::specs::Ranges::pointer_span))]
fn pointer_span(
    alloc: Global,
    params: &[Name],
    matrix: &Matrix,
    rows: i64,
) -> Result<Span, NoMemory>
    ensures { IfOk result (λ s. s ≡ spec.pointer_span params.now matrix.now rows) }
{
    if rows == 0 {
        return to_none(alloc, params, 1, None);
    }
    let group = rows as i128;
    Ok(Span {
        low_times: 1,
        low: of_none(alloc, params, 0)?,
        high_times: group,
        high: of_one(alloc, params, matrix.rows, group - 1)?,
        count: None,
    })
}

/// The range of the one argument of a made array.
#[tactic(auto, unfolding(crate::specs::Ranges::made_first_span))]
fn made_first_span(
    alloc: Global,
    params: &[Name],
    matrix: &Matrix,
    what: &MadeWhat,
) -> Result<Option<Span>, NoMemory>
    ensures { IfOk result (λ s. s ≡ spec.made_first_span params.now matrix.now what.now) }
{
    match what {
        MadeWhat::Pointer { rows, .. } => Ok(Some(pointer_span(alloc, params, matrix, *rows)?)),
        MadeWhat::Kept { count, .. } => Ok(Some(to_none(alloc, params, -1, Some(*count))?)),
        MadeWhat::Columns { .. } => Ok(Some(to_one(alloc, params, matrix.rows, -1)?)),
        MadeWhat::Count => Ok(None),
        MadeWhat::Width => Ok(None),
        MadeWhat::Mark => Ok(None),
        MadeWhat::Block { .. } => Ok(None),
        MadeWhat::Diag { .. } => Ok(None),
        MadeWhat::Padded { .. } => Ok(None),
        MadeWhat::Copy { .. } => Ok(None),
    }
}

/// The range of the second argument of a made array.
#[tactic(auto, unfolding(crate::specs::Ranges::made_second_span))]
fn made_second_span(
    alloc: Global,
    params: &[Name],
    what: &MadeWhat,
) -> Result<Option<Span>, NoMemory>
    ensures { IfOk result (λ s. s ≡ spec.made_second_span params.now what.now) }
{
    match what {
        MadeWhat::Columns { width } => Ok(Some(to_none(alloc, params, -1, Some(*width))?)),
        MadeWhat::Pointer { .. } => Ok(None),
        MadeWhat::Kept { .. } => Ok(None),
        MadeWhat::Count => Ok(None),
        MadeWhat::Width => Ok(None),
        MadeWhat::Mark => Ok(None),
        MadeWhat::Block { .. } => Ok(None),
        MadeWhat::Diag { .. } => Ok(None),
        MadeWhat::Padded { .. } => Ok(None),
        MadeWhat::Copy { .. } => Ok(None),
    }
}

/// The range of an argument of a made array, by its place.
#[tactic(auto, unfolding(crate::specs::Ranges::made_argument_span))]
fn made_argument_span(
    alloc: Global,
    params: &[Name],
    matrix: &Matrix,
    what: &MadeWhat,
    place: usize,
) -> Result<Option<Span>, NoMemory>
    ensures { IfOk result (λ s. s ≡ spec.made_argument_span params.now matrix.now what.now place) }
{
    if place == 0 {
        return made_first_span(alloc, params, matrix, what);
    }
    if place == 1 {
        return made_second_span(alloc, params, what);
    }
    Ok(None)
}

/// The range of the argument of an index array of the signature.
fn matrix_argument_span(
    alloc: Global,
    params: &[Name],
    matrices: &[Matrix],
    array: Name,
) -> Result<Option<Span>, NoMemory>
    ensures { IfOk result (λ s. s ≡ spec.matrix_argument_span params.now matrices.now array) }
{
    for matrix in matrices {
        if is_name(array, matrix.index) {
            return Ok(Some(to_one(alloc, params, matrix.rows, 0)?));
        }
        if is_name(array, matrix.col) {
            return Ok(Some(to_one(alloc, params, matrix.count, -1)?));
        }
    }
    Ok(None)
}

/// The range of an argument of an array that commands made.
fn made_array_argument_span(
    alloc: Global,
    head: &Program,
    made: &[Made],
    array: Name,
    place: usize,
) -> Result<Option<Span>, NoMemory>
    ensures { IfOk result (λ s. s ≡ spec.said_of_made head.now.matrices made.now array (λ m what. spec.made_argument_span head.now.params m what place)) }
{
    for it in made {
        if is_name(array, it.name) {
            return match head.matrices.get(it.matrix) {
                Some(matrix) => {
                    made_argument_span(alloc, head.params.as_slice(), matrix, &it.what, place)
                }
                None => Ok(None),
            };
        }
    }
    Ok(None)
}

/// The range of an argument of a read, by its place; None where nothing is asked of it.
#[tactic(auto, unfolding(crate::specs::Ranges::argument_span))]
pub fn argument_span(
    alloc: Global,
    head: &Program,
    made: &[Made],
    array: Name,
    place: usize,
) -> Result<Option<Span>, NoMemory>
    ensures { IfOk result (λ s. s ≡ spec.argument_span head.now made.now array place) }
{
    let found = if place == 0 {
        matrix_argument_span(
            alloc,
            head.params.as_slice(),
            head.matrices.as_slice(),
            array,
        )?
    } else {
        None
    };
    match found {
        Some(span) => Ok(Some(span)),
        None => made_array_argument_span(alloc, head, made, array, place),
    }
}
