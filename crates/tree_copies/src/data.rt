// Copies of data expressions.
ghost use Rattle.std.specs.Prelude.{◌≡◌, IfOk, IsTrue};
ghost use Rattle.std.specs.List.{list_all};
ghost use Rattle.c_tree.specs.declared.data.Expr.{size-Expr};
ghost use Rattle.tree_copies.specs.Operations.{applied, leaf_expr, linked, is_smaller};

use crate::index::copy_cell;
use c_tree::{Cell, Expr};
use chill_base::{Boxed, NoMemory};
use std::alloc::Global;

/// What joins two data expressions.
#[derive(Clone, Copy)]
enum Operation {
    Plus,
    Minus,
    Times,
}

/// An operation and its right operand.
#[derive(Clone, Copy)]
struct Link<'a> {
    operation: Operation,
    right: &'a Expr,
}

/// A data expression without operations.
#[derive(Clone, Copy)]
enum Leaf<'a> {
    Number(u64),
    Place(&'a Cell),
}

/// A data expression as its leftmost operand and what is joined to it, the last one first.
#[derive(Drop)]
struct Chain<'a> {
    first: Leaf<'a>,
    links: Vec<Link<'a>>,
}

fn chain_of<'a>(alloc: Global, e: &'a Expr) -> Result<Chain<'a>, NoMemory>
    ensures whole { IfOk result (λ c. linked (leaf_expr c.first) c.links.items ≡ e.now) }
    ensures smaller { IfOk result (λ c. IsTrue (list_all (is_smaller (size-Expr e.now)) c.links.items)) }
{
    let mut links = Vec::new(alloc);
    let mut rest = e;
    loop {
        match rest {
            Expr::Const(number) => {
                let first = Leaf::Number(*number);
                return Ok(Chain { first, links });
            }
            Expr::At(cell) => {
                let first = Leaf::Place(cell);
                return Ok(Chain { first, links });
            }
            Expr::Plus(left, right) => {
                links.push(Link {
                    operation: Operation::Plus,
                    right: right.get(),
                })?;
                rest = left.get();
            }
            Expr::Minus(left, right) => {
                links.push(Link {
                    operation: Operation::Minus,
                    right: right.get(),
                })?;
                rest = left.get();
            }
            Expr::Times(left, right) => {
                links.push(Link {
                    operation: Operation::Times,
                    right: right.get(),
                })?;
                rest = left.get();
            }
        }
    }
}

/// The operation of two data expressions.
fn join(alloc: Global, operation: Operation, left: Expr, right: Expr) -> Result<Expr, NoMemory>
    ensures { IfOk result (λ e. e ≡ applied operation left right) }
{
    let a = Boxed::new(alloc, left)?;
    let b = Boxed::new(alloc, right)?;
    match operation {
        Operation::Plus => Ok(Expr::Plus(a, b)),
        Operation::Minus => Ok(Expr::Minus(a, b)),
        Operation::Times => Ok(Expr::Times(a, b)),
    }
}

fn copy_leaf(alloc: Global, leaf: Leaf<'_>) -> Result<Expr, NoMemory>
    ensures { IfOk result (λ copy. copy ≡ leaf_expr leaf.entry) }
{
    match leaf {
        Leaf::Number(number) => Ok(Expr::Const(number)),
        Leaf::Place(cell) => Ok(Expr::At(copy_cell(alloc, cell)?)),
    }
}

/// A copy of a data expression.
pub fn copy_expr(alloc: Global, e: &Expr) -> Result<Expr, NoMemory>
    ensures { IfOk result (λ copy. copy ≡ e.now) }
{
    let Chain { first, mut links } = chain_of(alloc, e)?;
    let mut whole = copy_leaf(alloc, first)?;
    while let Some(link) = links.pop() {
        let right = copy_expr(alloc, link.right)?;
        whole = join(alloc, link.operation, whole, right)?;
    }
    Ok(whole)
}
