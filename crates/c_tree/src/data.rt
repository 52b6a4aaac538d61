// Data expressions, over numbers modulo 2^64.
use crate::Cell;
use chill_base::Boxed;

/// A data expression, over numbers modulo 2^64.
///
/// Sums and products bind from the left without a bracket, so left parts may be millions deep: `drop` and each walk
/// go down them by a loop.
pub enum Expr {
    Const(u64),
    At(Cell),
    Plus(Boxed<Expr>, Boxed<Expr>),
    Minus(Boxed<Expr>, Boxed<Expr>),
    Times(Boxed<Expr>, Boxed<Expr>),
}

impl Drop for Expr {
    fn drop(mut self) {
        loop {
            match self {
                Expr::Const(_) => return,
                Expr::At(cell) => {
                    let _cell = cell;
                    return;
                }
                Expr::Plus(left, right) => {
                    let _right = right.into_inner();
                    self = left.into_inner();
                }
                Expr::Minus(left, right) => {
                    let _right = right.into_inner();
                    self = left.into_inner();
                }
                Expr::Times(left, right) => {
                    let _right = right.into_inner();
                    self = left.into_inner();
                }
            }
        }
    }
}
