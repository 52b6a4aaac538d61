// The limit on the numbers of set work.
ghost use Rattle.std.specs.Prelude.{◌≡◌};
ghost use Rattle.nest_core.specs.Numbers.{is_small, product};

/// The greatest size of a number of set work.
pub const LIMIT: i128 = 1 << 126;

/// Whether a number is within the limit.
pub fn is_small(number: i128) -> bool
    ensures { result ≡ is_small number }
{
    -LIMIT <= number && number <= LIMIT
}

/// The product, where it is within the limit.
pub fn product(a: i128, b: i128) -> Option<i128>
    ensures { result ≡ product a b }
{
    match a.checked_mul(b) {
        Some(product) if is_small(product) => Some(product),
        _ => None,
    }
}
