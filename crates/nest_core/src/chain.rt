// A right side as its leftmost operand and what is joined to it: a walk along a long sum by a loop, without stack.
ghost use Rattle.std.specs.Prelude.{◌≡◌, IfOk, IsTrue};
ghost use Rattle.std.specs.List.{list_all};
ghost use Rattle.nest_tree.specs.declared.body.Body.{size-Body};
ghost use Rattle.nest_core.specs.Chains.{applied, leaf_body, linked, is_smaller};

use chill_base::{Boxed, NoMemory};
use nest_tree::{Access, Body};
use std::alloc::Global;

/// What joins two right sides.
#[derive(Clone, Copy, Debug, PartialEq, Eq)]
pub enum Operation {
    Plus,
    Minus,
    Times,
}

/// An operation and its right operand.
#[derive(Clone, Copy)]
pub struct Link<'a> {
    pub operation: Operation,
    pub right: &'a Body,
}

/// A right side without operations.
#[derive(Clone, Copy)]
pub enum Leaf<'a> {
    Number(u64),
    Cell(&'a Access),
}

/// A right side as its leftmost operand and what is joined to it, the last one first.
#[derive(Drop)]
pub struct Chain<'a> {
    pub first: Leaf<'a>,
    pub links: Vec<Link<'a>>,
}

/// The chain of a right side.
pub fn chain_of<'a>(alloc: Global, body: &'a Body) -> Result<Chain<'a>, NoMemory>
    ensures whole { IfOk result (λ c. linked (leaf_body c.first) c.links.items ≡ body.now) }
    ensures smaller { IfOk result (λ c. IsTrue (list_all (is_smaller (size-Body body.now)) c.links.items)) }
{
    let mut links = Vec::new(alloc);
    let mut rest = body;
    loop {
        match rest {
            Body::Const(n) => {
                let first = Leaf::Number(*n);
                return Ok(Chain { first, links });
            }
            Body::At(access) => {
                let first = Leaf::Cell(access);
                return Ok(Chain { first, links });
            }
            Body::Plus(left, right) => {
                links.push(Link {
                    operation: Operation::Plus,
                    right: right.get(),
                })?;
                rest = left.get();
            }
            Body::Minus(left, right) => {
                links.push(Link {
                    operation: Operation::Minus,
                    right: right.get(),
                })?;
                rest = left.get();
            }
            Body::Times(left, right) => {
                links.push(Link {
                    operation: Operation::Times,
                    right: right.get(),
                })?;
                rest = left.get();
            }
        }
    }
}

/// The operation of two right sides.
pub fn join(alloc: Global, operation: Operation, left: Body, right: Body) -> Result<Body, NoMemory>
    ensures { IfOk result (λ b. b ≡ applied operation left right) }
{
    let a = Boxed::new(alloc, left)?;
    let b = Boxed::new(alloc, right)?;
    match operation {
        Operation::Plus => Ok(Body::Plus(a, b)),
        Operation::Minus => Ok(Body::Minus(a, b)),
        Operation::Times => Ok(Body::Times(a, b)),
    }
}
