// How large an extent can be.
ghost use Rattle.std.specs.Prelude.{◌≡◌};
ghost use Rattle.c_judge.specs.Limits.{capped, size_of};

use c_tree::Index;

/// What a name or a cell counts, whatever it names.
const UNIT: u64 = 16777216;

/// The size of an expression, at most 2^64-1. A sum is walked down its left part.
pub fn size(e: &Index) -> u64
    ensures { result ≡ capped (size_of e.now) }
{
    let mut total = 0u64;
    let mut rest = e;
    loop {
        match rest {
            Index::Const(n) => return total.saturating_add(n.unsigned_abs()),
            Index::Var(_) => return total.saturating_add(UNIT),
            Index::At(_) => return total.saturating_add(UNIT),
            Index::Neg(inner) => rest = inner.get(),
            Index::Plus(left, right) => {
                total = total.saturating_add(size(right.get()));
                rest = left.get();
            }
            Index::Minus(left, right) => {
                total = total.saturating_add(size(right.get()));
                rest = left.get();
            }
            Index::Times(n, inner) => {
                let product = n.unsigned_abs().saturating_mul(size(inner.get()));
                return total.saturating_add(product);
            }
            Index::Min(left, right) => {
                let greater = size(left.get()).max(size(right.get()));
                return total.saturating_add(greater);
            }
            Index::Max(left, right) => {
                let greater = size(left.get()).max(size(right.get()));
                return total.saturating_add(greater);
            }
            Index::Floor(inner, _) => rest = inner.get(),
            Index::Ceil(inner, _) => rest = inner.get(),
        }
    }
}
