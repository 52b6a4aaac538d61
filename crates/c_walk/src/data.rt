// What a data expression is worth.
ghost use Rattle.std.specs.Prelude.{◌≡◌, ℕ, IsTrue, Ok};
ghost use Rattle.c_meaning.specs.Scope.{data_cell_fits};
ghost use Rattle.c_meaning.specs.Value.{Answer};
ghost use Rattle.c_walk.specs.State.{state_of};
ghost use Rattle.c_walk.specs.Ready.{data_fits};
ghost use Rattle.c_walk.specs.Data.{worth_of, data_value, on_numbers, applied, plus_of, minus_of, times_of, operated};

use crate::Memory;
use c_meaning::{EvalFault, eval_subscripts};
use c_tree::{Cell, Expr};

// What is done with a left part: nothing, or it is multiplied by the first and then the second is added.
type Tail = Option<(u64, u64)>;

#[derive(Clone, Copy)]
enum Operator {
    Plus,
    Minus,
    Times,
}

fn apply(x: u64, tail: Tail) -> u64
    ensures { result ≡ applied x tail }
{
    match tail {
        None => x,
        Some((factor, total)) => factor.wrapping_mul(x).wrapping_add(total),
    }
}

// The first fault counts.
fn apply_answer(a: Result<u64, EvalFault>, tail: Result<Tail, EvalFault>) -> Result<u64, EvalFault>
    ensures { result ≡ on_numbers applied a tail }
{
    let x = a?;
    Ok(apply(x, tail?))
}

fn plus(y: u64, tail: Tail) -> Tail
    ensures { (x : ℕ) → applied (plus_of x y) tail ≡ applied x result }
{
    match tail {
        None => Some((1, y)),
        Some((factor, total)) => Some((factor, total.wrapping_add(factor.wrapping_mul(y)))),
    }
}

fn minus(y: u64, tail: Tail) -> Tail
    ensures { (x : ℕ) → applied (minus_of x y) tail ≡ applied x result }
{
    match tail {
        None => Some((1, 0u64.wrapping_sub(y))),
        Some((factor, total)) => Some((factor, total.wrapping_sub(factor.wrapping_mul(y)))),
    }
}

fn times(y: u64, tail: Tail) -> Tail
    ensures { (x : ℕ) → applied (times_of x y) tail ≡ applied x result }
{
    match tail {
        None => Some((y, 0)),
        Some((factor, total)) => Some((factor.wrapping_mul(y), total)),
    }
}

// What is done with a left part of the operator, before what comes behind it.
fn gather(operator: Operator, y: u64, tail: Tail) -> Tail
    ensures { (x : ℕ) → applied (operated operator x y) tail ≡ applied x result }
{
    match operator {
        Operator::Plus => plus(y, tail),
        Operator::Minus => minus(y, tail),
        Operator::Times => times(y, tail),
    }
}

fn gather_right(
    operator: Operator,
    y: u64,
    tail: Result<Tail, EvalFault>,
) -> Result<Tail, EvalFault>
    ensures { (left : Answer ℕ) → on_numbers applied (on_numbers (operated operator) left (Ok y)) tail ≡ on_numbers applied left result }
{
    match tail {
        Ok(tail) => Ok(gather(operator, y, tail)),
        Err(fault) => Err(fault),
    }
}

// The first fault counts.
fn gather_answer(
    operator: Operator,
    a: Result<u64, EvalFault>,
    tail: Result<Tail, EvalFault>,
) -> Result<Tail, EvalFault>
    ensures { (left : Answer ℕ) → on_numbers applied (on_numbers (operated operator) left a) tail ≡ on_numbers applied left result }
{
    match a {
        Ok(y) => gather_right(operator, y, tail),
        Err(fault) => Err(fault),
    }
}

/// A cell of a data array.
fn read_data<M: Memory>(cell: &Cell, memory: &M) -> Result<u64, EvalFault>
    requires { IsTrue (data_cell_fits cell.now (M.scope memory.now)) }
    ensures { result ≡ data_value cell.now (state_of (M.scope memory.now) (M.sight memory.now) (M.rest memory.now)) }
{
    match eval_subscripts(&cell.at, memory) {
        Ok(at) => match memory.data_cell(&cell.array, at) {
            Some(value) => Ok(value),
            None => Err(EvalFault::Outside { array: cell.array }),
        },
        Err(fault) => Err(fault),
    }
}

/// What a data expression is worth. Its right parts are gathered on the way down its left parts, which may be many.
pub(crate) fn eval_data<M: Memory>(e: &Expr, memory: &M) -> Result<u64, EvalFault>
    requires { IsTrue (data_fits e.now (M.scope memory.now)) }
    ensures { result ≡ worth_of e.now (state_of (M.scope memory.now) (M.sight memory.now) (M.rest memory.now)) }
{
    let mut rest = e;
    let mut tail = Ok(None);
    loop {
        match rest {
            Expr::Const(n) => return apply_answer(Ok(*n), tail),
            Expr::At(cell) => return apply_answer(read_data(cell, memory), tail),
            Expr::Plus(left, part) => {
                tail = gather_answer(Operator::Plus, eval_data(part.get(), memory), tail);
                rest = left.get();
            }
            Expr::Minus(left, part) => {
                tail = gather_answer(Operator::Minus, eval_data(part.get(), memory), tail);
                rest = left.get();
            }
            Expr::Times(left, part) => {
                tail = gather_answer(Operator::Times, eval_data(part.get(), memory), tail);
                rest = left.get();
            }
        }
    }
}
