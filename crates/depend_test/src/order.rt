// The order of two instances.
ghost use Rattle.std.specs.Prelude.{◌≡◌, ◌∷◌, ◌++◌, [], cond, map, length, IfOk, IsTrue};
ghost use Rattle.std.specs.List.{list_all, range_with_len};
ghost use Rattle.nest_core.specs.Order.{is_earlier};
ghost use Rattle.nest_tree.specs.Carriers.{shared};
ghost use Rattle.nest_systems.specs.Owns.{row_has_vars};
ghost use Rattle.depend_test.specs.Orders as spec;

use chill_base::{List, NoMemory};
use int_rows::{Aff, Row};
use nest_core::shared_loops;
use nest_systems::{number_at, stopped_difference};
use std::alloc::Global;

/// Whether the first positions stand before the second in the text.
fn is_earlier(first: &[usize], second: &[usize]) -> bool
    ensures { result ≡ is_earlier first.now second.now }
{
    let both = first.len().min(second.len());
    for i in 0..both {
        if first[i] != second[i] {
            return first[i] < second[i];
        }
    }
    first.len() < second.len()
}

/// The numbers of shared loops, from the outside.
fn levels_to(alloc: Global, count: usize) -> Result<List<usize>, NoMemory>
    ensures { IfOk result (λ ls. ls ≡ map spec.from_one (range_with_len 0 count)) }
{
    let mut levels = List::new(alloc);
    for level in 0..count {
        levels.push(level + 1)?;
    }
    Ok(levels)
}

/// What may carry the order of an instance of the first statement before one of the second: each shared loop, from the
/// outside, and last 0, for the text, where the first stands before the second.
pub fn carriers(alloc: Global, first: &[usize], second: &[usize]) -> Result<List<usize>, NoMemory>
    ensures { IfOk result (λ cs. cs ≡ spec.carriers first.now second.now) }
{
    let mut all = levels_to(alloc, shared_loops(first, second))?;
    if is_earlier(first, second) {
        all.push(0)?;
    }
    Ok(all)
}

/// The difference of two numbers at a place.
#[tactic(auto, unfolding(crate::specs::Orders::difference_at))]
fn difference_at(a: &[i128], b: &[i128], var: usize) -> i128
    ensures { result ≡ spec.difference_at a.now b.now var }
{
    stopped_difference(number_at(a, var), number_at(b, var))
}

fn differences(alloc: Global, vars: usize, a: &[i128], b: &[i128]) -> Result<List<i128>, NoMemory>
    ensures { IfOk result (λ cs. cs ≡ map (spec.difference_at a.now b.now) (range_with_len 0 vars)) }
{
    let mut coefs = List::new(alloc);
    for var in 0..vars {
        coefs.push(difference_at(a, b, var))?;
    }
    Ok(coefs)
}

/// The row that `a - b - less` is 0, or that it is at least 0, over so many variables.
#[tactic(auto, unfolding(crate::specs::Orders::difference_row))]
pub fn difference_row(
    alloc: Global,
    vars: usize,
    equal: bool,
    a: &Aff,
    b: &Aff,
    less: i128,
) -> Result<Row, NoMemory>
    ensures value { IfOk result (λ r. r ≡ spec.difference_row vars equal a.now b.now less) }
    ensures width { IfOk result (λ r. IsTrue (row_has_vars vars r)) }
{
    let coefs = differences(alloc, vars, a.coefs.as_slice(), b.coefs.as_slice())?;
    let constant = stopped_difference(stopped_difference(a.constant, b.constant), less);
    Ok(Row {
        equal,
        form: Aff { coefs, constant },
    })
}

/// The rows that each two of so many forms are equal, the first one's less the second's.
pub fn equal_rows(
    alloc: Global,
    vars: usize,
    count: usize,
    a: &[Aff],
    b: &[Aff],
) -> Result<List<Row>, NoMemory>
    ensures width { IfOk result (λ rows. IsTrue (list_all (row_has_vars vars) rows)) }
    ensures value { IfOk result (λ rows. rows ≡ spec.equal_rows vars count a.now b.now) }
{
    let mut rows = List::new(alloc);
    for place in 0..count.min(a.len()).min(b.len()) {
        rows.push(difference_row(alloc, vars, true, &a[place], &b[place], 0)?)?;
    }
    Ok(rows)
}

/// The rows that an instance is before another, as this carrier says: they agree at the loops before it, and the early
/// one's value is smaller at it; by the text they agree at all shared loops.
pub fn order_rows(
    alloc: Global,
    vars: usize,
    carrier: usize,
    shared: usize,
    early: &[Aff],
    late: &[Aff],
) -> Result<List<Row>, NoMemory>
    ensures width { IfOk result (λ rows. IsTrue (list_all (row_has_vars vars) rows)) }
    ensures value { IfOk result (λ rows. rows ≡ spec.order_rows vars carrier shared early.now late.now) }
{
    if carrier == 0 {
        return equal_rows(alloc, vars, shared, late, early);
    }
    let level = carrier - 1;
    let mut rows = equal_rows(alloc, vars, level, late, early)?;
    if level < early.len() && level < late.len() {
        rows.push(difference_row(alloc, vars, false, &late[level], &early[level], 1)?)?;
    }
    Ok(rows)
}
