// What a statement computes.
use chill_base::{Boxed, List, Name};
use int_rows::Aff;

/// A cell that a statement names. Each subscript is a form over the parameters, levels and terms.
#[derive(Drop)]
pub struct Access {
    pub array: Name,
    pub at: List<Aff>,
}

/// The right side of a statement, over numbers modulo 2^64. Left parts may be deep: they are walked by loops.
pub enum Body {
    Const(u64),
    At(Access),
    Plus(Boxed<Body>, Boxed<Body>),
    Minus(Boxed<Body>, Boxed<Body>),
    Times(Boxed<Body>, Boxed<Body>),
}

impl Drop for Body {
    fn drop(mut self) {
        loop {
            match self {
                Body::Const(_) => return,
                Body::At(access) => {
                    let _access = access;
                    return;
                }
                Body::Plus(left, right) => {
                    let _right = right.into_inner();
                    self = left.into_inner();
                }
                Body::Minus(left, right) => {
                    let _right = right.into_inner();
                    self = left.into_inner();
                }
                Body::Times(left, right) => {
                    let _right = right.into_inner();
                    self = left.into_inner();
                }
            }
        }
    }
}
