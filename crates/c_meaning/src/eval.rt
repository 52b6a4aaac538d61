// The value of an index expression, and whether a test holds.
ghost use Rattle.std.specs.Prelude.{◌≡◌, ℕ, IsTrue};
ghost use Rattle.c_meaning.specs.Value.{measure, subscripts_of, three_answers, cell_value, plain_answer, value_of, holds, compares};
ghost use Rattle.c_meaning.specs.Capped.{cap};
ghost use Rattle.c_meaning.specs.Scope.{fits, subscripts_fit, cell_fits, test_fits};

use crate::sized::{self, Measured};
use crate::{EvalFault, View};
use c_tree::{Cell, Cmp, Index, Subscripts, Test};

/// The value of an index expression. It takes no memory.
#[cycle(eval)]
pub fn eval_index<V: View>(e: &Index, view: &V) -> Result<i64, EvalFault>
    requires { IsTrue (fits e.now (V.scope view.now)) }
    ensures { result ≡ value_of e.now (V.sight view.now) }
{
    sized::judge(weigh(e, view))
}

// The value with its weight, where that isn't too great. The right parts of a sum are gathered on the way down its left
// parts, which may be many.
#[cycle(eval)]
fn weigh<V: View>(e: &Index, view: &V) -> Measured
    requires { IsTrue (fits e.now (V.scope view.now)) }
    ensures { result ≡ cap (measure e.now (V.sight view.now)) }
{
    let mut rest = e;
    let mut right = Ok(sized::plain(0));
    loop {
        match rest {
            Index::Plus(left, part) => {
                right = sized::sum(weigh(part.get(), view), right);
                rest = left.get();
            }
            Index::Minus(left, part) => {
                right = sized::sum(sized::negated(weigh(part.get(), view)), right);
                rest = left.get();
            }
            Index::Const(n) => return sized::sum(Ok(sized::plain(*n)), right),
            Index::Var(name) => return sized::sum(Ok(sized::plain(view.value(name))), right),
            Index::At(cell) => return sized::sum(weigh_cell(cell, view), right),
            Index::Neg(part) => return sized::sum(sized::negated(weigh(part.get(), view)), right),
            Index::Times(factor, part) => return sized::sum(
                sized::multiple(*factor, weigh(part.get(), view)),
                right,
            ),
            Index::Min(a, b) => return sized::sum(
                sized::lesser(weigh(a.get(), view), weigh(b.get(), view)),
                right,
            ),
            Index::Max(a, b) => return sized::sum(
                sized::greater(weigh(a.get(), view), weigh(b.get(), view)),
                right,
            ),
            Index::Floor(part, divisor) => return sized::sum(
                sized::floor(weigh(part.get(), view), *divisor),
                right,
            ),
            Index::Ceil(part, divisor) => return sized::sum(
                sized::ceil(weigh(part.get(), view), *divisor),
                right,
            ),
        }
    }
}

// A cell by itself.
#[cycle(eval)]
fn weigh_cell<V: View>(cell: &Cell, view: &V) -> Measured
    requires { IsTrue (cell_fits cell.now (V.scope view.now)) }
    ensures { result ≡ cap (plain_answer (cell_value cell.now (V.sight view.now))) }
{
    match eval_subscripts(&cell.at, view) {
        Ok(at) => match view.cell(&cell.array, at) {
            Some(n) => Ok(sized::plain(n)),
            None => Err(EvalFault::Outside { array: cell.array }),
        },
        Err(fault) => Err(fault),
    }
}

/// The subscripts of a cell, from the left. Missing ones are 0. It takes no memory.
#[cycle(eval)]
pub fn eval_subscripts<V: View>(at: &Subscripts, view: &V) -> Result<[i64; 3], EvalFault>
    requires { (extents : ℕ) × IsTrue (subscripts_fit at.now (V.scope view.now) extents) }
    ensures { result ≡ subscripts_of at.now (V.sight view.now) }
{
    match at {
        Subscripts::One(a) => all_three(eval_index(a.get(), view), Ok(0), Ok(0)),
        Subscripts::Two(a, b) => all_three(
            eval_index(a.get(), view),
            eval_index(b.get(), view),
            Ok(0),
        ),
        Subscripts::Three(a, b, c) => all_three(
            eval_index(a.get(), view),
            eval_index(b.get(), view),
            eval_index(c.get(), view),
        ),
    }
}

// The first fault counts.
fn all_three(
    i: Result<i64, EvalFault>,
    j: Result<i64, EvalFault>,
    k: Result<i64, EvalFault>,
) -> Result<[i64; 3], EvalFault>
    ensures { result ≡ three_answers i j k }
{
    let i = i?;
    let j = j?;
    let k = k?;
    Ok([i, j, k])
}

/// Whether a test holds. It takes no memory.
pub fn eval_test<V: View>(test: &Test, view: &V) -> Result<bool, EvalFault>
    requires { IsTrue (test_fits test.now (V.scope view.now)) }
    ensures { result ≡ holds test.now (V.sight view.now) }
{
    let left = eval_index(&test.left, view)?;
    let right = eval_index(&test.right, view)?;
    Ok(compare(test.cmp, left, right))
}

fn compare(cmp: Cmp, a: i64, b: i64) -> bool
    ensures { result ≡ compares cmp a b }
{
    match cmp {
        Cmp::Less => a < b,
        Cmp::AtMost => a <= b,
        Cmp::More => a > b,
        Cmp::AtLeast => a >= b,
        Cmp::Same => a == b,
    }
}
