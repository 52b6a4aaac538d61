// Index expressions, and the cells that they and the statements name.
use chill_base::{Boxed, Name};

/// The subscripts of a cell: one to three, as an array has one to three extents.
#[cycle(tree)]
#[derive(Drop)]
pub enum Subscripts {
    One(Boxed<Index>),
    Two(Boxed<Index>, Boxed<Index>),
    Three(Boxed<Index>, Boxed<Index>, Boxed<Index>),
}

/// A cell of an array.
#[cycle(tree)]
#[derive(Drop)]
pub struct Cell {
    pub array: Name,
    pub at: Subscripts,
}

/// An index expression, over whole numbers.
///
/// Sums and products bind from the left without a bracket, so left parts may be millions deep: `drop` and each walk
/// go down them by a loop.
#[cycle(tree)]
pub enum Index {
    Const(i64),
    Var(Name),
    At(Cell),
    Neg(Boxed<Index>),
    Plus(Boxed<Index>, Boxed<Index>),
    Minus(Boxed<Index>, Boxed<Index>),
    Times(i64, Boxed<Index>),
    Min(Boxed<Index>, Boxed<Index>),
    Max(Boxed<Index>, Boxed<Index>),
    /// The greatest integer whose product with the divisor isn't above the expression.
    Floor(Boxed<Index>, i64),
    /// The least integer whose product with the divisor isn't below the expression.
    Ceil(Boxed<Index>, i64),
}

// By a loop down the left part, so that a long sum needs no stack. What is taken out at the right is dropped where its
// arm ends.
impl Drop for Index {
    fn drop(mut self) {
        loop {
            match self {
                Index::Const(_) => return,
                Index::Var(_) => return,
                Index::At(cell) => {
                    let Cell { array: _, at } = cell;
                    match at {
                        Subscripts::One(first) => self = first.into_inner(),
                        Subscripts::Two(first, second) => {
                            let _second = second.into_inner();
                            self = first.into_inner();
                        }
                        Subscripts::Three(first, second, third) => {
                            let _second = second.into_inner();
                            let _third = third.into_inner();
                            self = first.into_inner();
                        }
                    }
                }
                Index::Neg(inner) => self = inner.into_inner(),
                Index::Plus(left, right) => {
                    let _right = right.into_inner();
                    self = left.into_inner();
                }
                Index::Minus(left, right) => {
                    let _right = right.into_inner();
                    self = left.into_inner();
                }
                Index::Times(_, inner) => self = inner.into_inner(),
                Index::Min(left, right) => {
                    let _right = right.into_inner();
                    self = left.into_inner();
                }
                Index::Max(left, right) => {
                    let _right = right.into_inner();
                    self = left.into_inner();
                }
                Index::Floor(inner, _) => self = inner.into_inner(),
                Index::Ceil(inner, _) => self = inner.into_inner(),
            }
        }
    }
}
