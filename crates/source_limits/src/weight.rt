// How large an expression can be.
use c_tree::Index;
use chill_base::Name;

/// The size of a parameter and of a read.
const UNIT: u64 = 16777216;

/// A loop variable with the greatest size of its bounds.
#[derive(Clone, Copy)]
pub struct LevelSize {
    pub name: Name,
    pub size: u64,
}

/// The size of a name: that of the loop variable, or else that of a parameter.
pub fn name_weight(sizes: &[LevelSize], name: Name) -> u64 {
    for level in sizes {
        if level.name == name {
            return level.size;
        }
    }
    UNIT
}

/// The size of an expression as it stands, at most 2^64-1. A sum is walked down its left part.
pub fn weight(sizes: &[LevelSize], e: &Index) -> u64 {
    let mut total = 0u64;
    let mut rest = e;
    loop {
        match rest {
            Index::Const(n) => return total.saturating_add(n.unsigned_abs()),
            Index::Var(name) => return total.saturating_add(name_weight(sizes, *name)),
            Index::At(_) => return total.saturating_add(UNIT),
            Index::Neg(inner) => rest = inner.get(),
            Index::Plus(left, right) => {
                total = total.saturating_add(weight(sizes, right.get()));
                rest = left.get();
            }
            Index::Minus(left, right) => {
                total = total.saturating_add(weight(sizes, right.get()));
                rest = left.get();
            }
            Index::Times(n, inner) => {
                let product = n.unsigned_abs().saturating_mul(weight(sizes, inner.get()));
                return total.saturating_add(product);
            }
            Index::Min(left, right) => {
                let greater = weight(sizes, left.get()).max(weight(sizes, right.get()));
                return total.saturating_add(greater);
            }
            Index::Max(left, right) => {
                let greater = weight(sizes, left.get()).max(weight(sizes, right.get()));
                return total.saturating_add(greater);
            }
            Index::Floor(inner, _) => rest = inner.get(),
            Index::Ceil(inner, _) => rest = inner.get(),
        }
    }
}
