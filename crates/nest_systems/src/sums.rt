// Sums and products that stop at the ends of 128 bits, and numbers of lists that end.
ghost use Rattle.std.specs.Prelude.{◌≡◌};
ghost use Rattle.nest_systems.specs.Sums.{stopped_sum, stopped_difference, stopped_product, number_at};

#[tactic(auto, unfolding(crate::specs::Sums::stopped_sum))]
pub fn stopped_sum(a: i128, b: i128) -> i128
    ensures { result ≡ stopped_sum a b }
{
    a.saturating_add(b)
}

#[tactic(auto, unfolding(crate::specs::Sums::stopped_difference))]
pub fn stopped_difference(a: i128, b: i128) -> i128
    ensures { result ≡ stopped_difference a b }
{
    a.saturating_sub(b)
}

#[tactic(auto, unfolding(crate::specs::Sums::stopped_product))]
pub fn stopped_product(a: i128, b: i128) -> i128
    ensures { result ≡ stopped_product a b }
{
    a.saturating_mul(b)
}

/// The number of a list at a place, or 0 behind its end.
#[tactic(auto, unfolding(crate::specs::Sums::number_at))]
pub fn number_at(numbers: &[i128], place: usize) -> i128
    ensures { result ≡ number_at numbers.now place }
{
    if place < numbers.len() {
        numbers[place]
    } else {
        0
    }
}
