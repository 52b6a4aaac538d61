// Sums and bounds, taken apart from the left.
ghost use Rattle.std.specs.Prelude.{◌≤◌, IsTrue, IfOk};
ghost use Rattle.std.specs.List.{list_all};
ghost use Rattle.c_tree.specs.declared.data.Expr.{size-Expr};
ghost use Rattle.c_tree.specs.declared.index.Index.{size-Index};
ghost use Rattle.source_limits.specs.Parts.{is_smaller, is_smaller_link};

use c_tree::{Cell, Expr, Index};
use chill_base::NoMemory;
use std::alloc::Global;

/// What is added to a sum, or taken away.
#[derive(Clone, Copy)]
pub struct Summand<'a> {
    pub is_negative: bool,
    pub part: &'a Index,
}

/// An expression as its leftmost part, and what is added behind it, the last one first.
#[derive(Drop)]
pub struct Sum<'a> {
    pub first: &'a Index,
    pub behind: Vec<Summand<'a>>,
}

/// The summands of an expression.
pub fn summands<'a>(alloc: Global, e: &'a Index) -> Result<Sum<'a>, NoMemory>
    ensures first { IfOk result (λ s. size-Index s.first.now ≤ size-Index e.now) }
    ensures behind { IfOk result (λ s. IsTrue (list_all (is_smaller (size-Index e.now)) s.behind.items)) }
{
    let mut behind = Vec::new(alloc);
    let mut first = e;
    loop {
        match first {
            Index::Plus(left, right) => {
                behind.push(Summand {
                    is_negative: false,
                    part: right.get(),
                })?;
                first = left.get();
            }
            Index::Minus(left, right) => {
                behind.push(Summand {
                    is_negative: true,
                    part: right.get(),
                })?;
                first = left.get();
            }
            _ => return Ok(Sum { first, behind }),
        }
    }
}

/// Which end of a loop an expression is.
#[derive(Clone, Copy, Debug, PartialEq, Eq)]
pub enum End {
    Low,
    High,
}

/// The operands of a bound, from the left: those of `max` in a lower one and of `min` in an upper one.
pub fn operands<'a>(alloc: Global, end: End, e: &'a Index) -> Result<Vec<&'a Index>, NoMemory> {
    let mut all = Vec::new(alloc);
    push_operands(&mut all, end, e)?;
    Ok(all)
}

fn push_operands<'a>(all: &mut Vec<&'a Index>, end: End, e: &'a Index) -> Result<(), NoMemory> {
    match (end, e) {
        (End::Low, Index::Max(a, b)) => {
            push_operands(all, end, a.get())?;
            push_operands(all, end, b.get())
        }
        (End::High, Index::Min(a, b)) => {
            push_operands(all, end, a.get())?;
            push_operands(all, end, b.get())
        }
        _ => {
            all.push(e)?;
            Ok(())
        }
    }
}

/// How a part of a right side goes with what stands before it.
#[derive(Clone, Copy, Debug, PartialEq, Eq)]
pub enum Sign {
    Plus,
    Minus,
    Times,
}

/// A part of a right side that goes with what stands before it.
#[derive(Clone, Copy)]
pub struct Link<'a> {
    pub sign: Sign,
    pub value: &'a Expr,
}

/// The leftmost part of a right side.
#[derive(Clone, Copy)]
pub enum Leaf<'a> {
    Number(u64),
    Cell(&'a Cell),
}

/// A right side as its leftmost part, and what goes with it, the last one first.
#[derive(Drop)]
pub struct Chain<'a> {
    pub first: Leaf<'a>,
    pub behind: Vec<Link<'a>>,
}

/// The parts of a right side.
pub fn chain_of<'a>(alloc: Global, value: &'a Expr) -> Result<Chain<'a>, NoMemory>
    ensures { IfOk result (λ c. IsTrue (list_all (is_smaller_link (size-Expr value.now)) c.behind.items)) }
{
    let mut behind = Vec::new(alloc);
    let mut rest = value;
    loop {
        match rest {
            Expr::Const(n) => {
                return Ok(Chain {
                    first: Leaf::Number(*n),
                    behind,
                });
            }
            Expr::At(cell) => {
                return Ok(Chain {
                    first: Leaf::Cell(cell),
                    behind,
                });
            }
            Expr::Plus(left, right) => {
                behind.push(Link {
                    sign: Sign::Plus,
                    value: right.get(),
                })?;
                rest = left.get();
            }
            Expr::Minus(left, right) => {
                behind.push(Link {
                    sign: Sign::Minus,
                    value: right.get(),
                })?;
                rest = left.get();
            }
            Expr::Times(left, right) => {
                behind.push(Link {
                    sign: Sign::Times,
                    value: right.get(),
                })?;
                rest = left.get();
            }
        }
    }
}
