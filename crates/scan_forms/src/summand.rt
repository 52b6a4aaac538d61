// Sums of multiples, as trees.
ghost use Rattle.std.specs.Prelude.{◌≡◌, ◌^◌, IfOk};
ghost use Rattle.nest_core.specs.Making.{Gives};
ghost use Rattle.scan_forms.specs.Sums as spec;

use crate::fault::ScanFault;
use crate::size::LARGEST;
use c_tree::Index;
use chill_base::{Boxed, NoMemory, Stop};
use std::alloc::Global;

/// The number's size, where an index expression may hold it.
#[tactic(auto, unfolding(crate::specs::Sums::printed_size))]
pub fn printed_size(statement: usize, number: i128) -> Result<i64, Stop<ScanFault>>
    ensures { Gives result (spec.printed_size statement number) }
{
    let size = number.unsigned_abs();
    if size > LARGEST {
        return Err(Stop::Refused(ScanFault::Size { statement }));
    }
    Ok(size as i64)
}

/// The multiple of a factor; 1 isn't printed.
fn multiple(alloc: Global, times: i64, factor: Index) -> Result<Index, NoMemory>
    ensures { IfOk result (λ e. e ≡ spec.multiple times factor) }
{
    if times == 1 {
        return Ok(factor);
    }
    Ok(Index::Times(times, Boxed::new(alloc, factor)?))
}

/// A first part stands alone.
fn first_part(alloc: Global, negative: bool, part: Index) -> Result<Index, NoMemory>
    ensures { IfOk result (λ e. e ≡ spec.first_part negative part) }
{
    if negative {
        Ok(Index::Neg(Boxed::new(alloc, part)?))
    } else {
        Ok(part)
    }
}

/// A later part is added or taken away.
fn next_part(alloc: Global, sum: Index, negative: bool, part: Index) -> Result<Index, NoMemory>
    ensures { IfOk result (λ e. e ≡ spec.next_part sum negative part) }
{
    let left = Boxed::new(alloc, sum)?;
    let right = Boxed::new(alloc, part)?;
    if negative {
        Ok(Index::Minus(left, right))
    } else {
        Ok(Index::Plus(left, right))
    }
}

fn joined(alloc: Global, sum: Option<Index>, negative: bool, part: Index) -> Result<Index, NoMemory>
    ensures { IfOk result (λ e. e ≡ spec.joined sum negative part) }
{
    match sum {
        Some(sum) => next_part(alloc, sum, negative, part),
        None => first_part(alloc, negative, part),
    }
}

/// The sum with a multiple of a factor; a multiple of 0 is left out.
#[tactic(auto, unfolding(crate::specs::Sums::with_summand))]
pub fn with_summand(
    alloc: Global,
    statement: usize,
    sum: Option<Index>,
    number: i128,
    factor: Index,
) -> Result<Option<Index>, Stop<ScanFault>>
    ensures { Gives result (spec.with_summand statement sum number factor) }
{
    let times = printed_size(statement, number)?;
    if times == 0 {
        return Ok(sum);
    }
    let part = multiple(alloc, times, factor)?;
    Ok(Some(joined(alloc, sum, number < 0, part)?))
}

fn closed(alloc: Global, sum: Option<Index>, negative: bool, size: i64) -> Result<Index, NoMemory>
    ensures { IfOk result (λ e. e ≡ spec.closed sum negative size) }
{
    match sum {
        Some(sum) => {
            if size == 0 {
                return Ok(sum);
            }
            next_part(alloc, sum, negative, Index::Const(size))
        }
        None => first_part(alloc, negative, Index::Const(size)),
    }
}

/// The sum with a constant; 0 is left out but where there is nothing else.
#[tactic(auto, unfolding(crate::specs::Sums::with_constant))]
pub fn with_constant(
    alloc: Global,
    statement: usize,
    sum: Option<Index>,
    number: i128,
) -> Result<Index, Stop<ScanFault>>
    ensures { Gives result (spec.with_constant statement sum number) }
{
    let size = printed_size(statement, number)?;
    Ok(closed(alloc, sum, number < 0, size)?)
}
