// Cells, and sums of multiples of factors, as they are printed.
ghost use Rattle.std.specs.Prelude.{◌≡◌, ◌++◌, ◌∷◌, [], ◌≤◌, ◌^◌, pos, unsigned_abs, IfOk};
ghost use Rattle.c_tree.specs.declared.index.Index.TheVariants.{At, Minus};
ghost use Rattle.inspectors.specs.Trees as spec;

use c_tree::{Cell, Index, Subscripts};
use chill_base::{Boxed, List, Name, NoMemory};
use std::alloc::Global;

/// The loop variable over rows.
pub fn row_name() -> Name
    ensures { result ≡ spec.row_name }
{
    Name::new(b"t1").unwrap()
}

/// The loop variable over the entries of a row.
pub fn entry_name() -> Name
    ensures { result ≡ spec.entry_name }
{
    Name::new(b"t2").unwrap()
}

pub fn cell(alloc: Global, array: Name, at: Index) -> Result<Cell, NoMemory>
    ensures { IfOk result (λ c. c ≡ spec.cell array at) }
{
    Ok(Cell {
        array,
        at: Subscripts::One(Boxed::new(alloc, at)?),
    })
}

pub fn cell_of_two(
    alloc: Global,
    array: Name,
    first: Index,
    second: Index,
) -> Result<Cell, NoMemory>
    ensures { IfOk result (λ c. c ≡ spec.cell_of_two array first second) }
{
    let first = Boxed::new(alloc, first)?;
    let second = Boxed::new(alloc, second)?;
    Ok(Cell {
        array,
        at: Subscripts::Two(first, second),
    })
}

pub fn cell_of_three(
    alloc: Global,
    array: Name,
    first: Index,
    second: Index,
    third: Index,
) -> Result<Cell, NoMemory>
    ensures { IfOk result (λ c. c ≡ spec.cell_of_three array first second third) }
{
    let first = Boxed::new(alloc, first)?;
    let second = Boxed::new(alloc, second)?;
    let third = Boxed::new(alloc, third)?;
    Ok(Cell {
        array,
        at: Subscripts::Three(first, second, third),
    })
}

/// The read of a cell.
pub fn read(alloc: Global, array: Name, at: Index) -> Result<Index, NoMemory>
    ensures { IfOk result (λ e. e ≡ At (spec.cell array at)) }
{
    Ok(Index::At(cell(alloc, array, at)?))
}

/// The read of an array's first cell.
pub fn read_first(alloc: Global, array: Name) -> Result<Index, NoMemory>
    ensures { IfOk result (λ e. e ≡ At (spec.first_cell array)) }
{
    read(alloc, array, Index::Const(0))
}

pub fn plus_one(alloc: Global, e: Index) -> Result<Index, NoMemory>
    ensures { IfOk result (λ s. s ≡ spec.plus_one e) }
{
    let left = Boxed::new(alloc, e)?;
    Ok(Index::Plus(left, Boxed::new(alloc, Index::Const(1))?))
}

pub fn minus(alloc: Global, e: Index, less: Index) -> Result<Index, NoMemory>
    ensures { IfOk result (λ s. s ≡ Minus e less) }
{
    let left = Boxed::new(alloc, e)?;
    Ok(Index::Minus(left, Boxed::new(alloc, less)?))
}

pub fn one<T: Drop>(alloc: Global, item: T) -> Result<List<T>, NoMemory>
    ensures { IfOk result (λ list. list ≡ item ∷ []) }
{
    let mut list = List::new(alloc);
    list.push(item)?;
    Ok(list)
}

/// The list with one more item.
pub fn then<T: Drop>(mut list: List<T>, next: T) -> Result<List<T>, NoMemory>
    ensures { IfOk result (λ new. new ≡ list ++ next ∷ []) }
{
    list.push(next)?;
    Ok(list)
}

/// One list behind another.
pub fn with_all<T: Drop>(mut list: List<T>, more: List<T>) -> Result<List<T>, NoMemory>
    ensures { IfOk result (λ new. new ≡ list ++ more) }
{
    list.append(more)?;
    Ok(list)
}

/// The size of a number.
fn size(number: i64) -> i64
    requires { unsigned_abs number ≤ 2 ^ 62 }
    ensures { result ≡ pos (unsigned_abs number) }
{
    number.unsigned_abs() as i64
}

/// The multiple of a factor; 1 isn't printed.
fn multiple(alloc: Global, times: i64, factor: Index) -> Result<Index, NoMemory>
    ensures { IfOk result (λ e. e ≡ spec.multiple times factor) }
{
    if times == 1 {
        return Ok(factor);
    }
    Ok(Index::Times(times, Boxed::new(alloc, factor)?))
}

/// A first part stands alone.
fn first_part(alloc: Global, negative: bool, part: Index) -> Result<Index, NoMemory>
    ensures { IfOk result (λ e. e ≡ spec.first_part negative part) }
{
    if negative {
        Ok(Index::Neg(Boxed::new(alloc, part)?))
    } else {
        Ok(part)
    }
}

/// A later part is added or taken away.
fn next_part(alloc: Global, sum: Index, negative: bool, part: Index) -> Result<Index, NoMemory>
    ensures { IfOk result (λ e. e ≡ spec.next_part sum negative part) }
{
    let left = Boxed::new(alloc, sum)?;
    let right = Boxed::new(alloc, part)?;
    if negative {
        Ok(Index::Minus(left, right))
    } else {
        Ok(Index::Plus(left, right))
    }
}

fn joined(alloc: Global, sum: Option<Index>, negative: bool, part: Index) -> Result<Index, NoMemory>
    ensures { IfOk result (λ e. e ≡ spec.joined sum negative part) }
{
    match sum {
        Some(sum) => next_part(alloc, sum, negative, part),
        None => first_part(alloc, negative, part),
    }
}

/// The sum with a multiple of a factor; a multiple of 0 is left out.
#[tactic(auto, unfolding(crate::specs::Trees::with_multiple))]
pub fn with_multiple(
    alloc: Global,
    sum: Option<Index>,
    number: i64,
    factor: Index,
) -> Result<Option<Index>, NoMemory>
    requires { unsigned_abs number ≤ 2 ^ 62 }
    ensures { IfOk result (λ new. new ≡ spec.with_multiple sum number factor) }
{
    if number == 0 {
        return Ok(sum);
    }
    let part = multiple(alloc, size(number), factor)?;
    Ok(Some(joined(alloc, sum, number < 0, part)?))
}

fn closed(alloc: Global, sum: Option<Index>, negative: bool, size: i64) -> Result<Index, NoMemory>
    ensures { IfOk result (λ e. e ≡ spec.closed sum negative size) }
{
    match sum {
        Some(sum) => {
            if size == 0 {
                return Ok(sum);
            }
            next_part(alloc, sum, negative, Index::Const(size))
        }
        None => first_part(alloc, negative, Index::Const(size)),
    }
}

/// The sum with a constant; 0 is left out but where there is nothing else.
#[tactic(auto, unfolding(crate::specs::Trees::with_constant))]
pub fn with_constant(alloc: Global, sum: Option<Index>, number: i64) -> Result<Index, NoMemory>
    requires { unsigned_abs number ≤ 2 ^ 62 }
    ensures { IfOk result (λ e. e ≡ spec.with_constant sum number) }
{
    closed(alloc, sum, number < 0, size(number))
}
