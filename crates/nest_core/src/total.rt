// Exact sums of numbers of set work, which may pass 128 bits on the way.
ghost use Rattle.std.specs.Prelude.{◌≡◌, ◌≤◌, ◌^◌, ℤ, pos, ◌+ℤ◌, unsigned_abs, IsTrue};
ghost use Rattle.nest_core.specs.Numbers.{is_small, judged_number};

use crate::numbers::{LIMIT, is_small};
use std::marker::Model;

/// An exact sum of numbers, each within the limit: `LIMIT * times + rest`.
#[derive(Drop)]
pub struct Total {
    times: i128,
    rest: i128,
}

impl Model for Total {
    ghost use Rattle.std.specs.Prelude.{ℤ, pos, ◌+ℤ◌, ◌*ℤ◌, ◌^◌, ◌<◌, unsigned_abs};

    ghost Value = { ℤ };

    ghost view = { λ t. pos (2 ^ 126) *ℤ t.times +ℤ t.rest };

    ghost invariant = { λ t. unsigned_abs t.rest < 2 ^ 126 };
}

impl Total {
    pub fn zero() -> Total
        ensures { result ≡ pos 0 }
    {
        Total { times: 0, rest: 0 }
    }

    pub fn add(&mut self, number: i128)
        requires number { IsTrue (is_small number) }
        requires room { unsigned_abs self.old ≤ 2 ^ 200 }
        ensures { self.new ≡ self.old +ℤ number }
    {
        let sum = self.rest + number;
        if sum >= LIMIT {
            self.times += 1;
            self.rest = sum - LIMIT;
        } else if sum <= -LIMIT {
            self.times -= 1;
            self.rest = sum + LIMIT;
        } else {
            self.rest = sum;
        }
    }

    /// The sum, where it is within the limit.
    pub fn number(&self) -> Option<i128>
        ensures { result ≡ judged_number self.now }
    {
        if self.times == 0 {
            Some(self.rest)
        } else if self.times == 1 && self.rest <= 0 {
            Some(LIMIT + self.rest)
        } else if self.times == -1 && self.rest >= 0 {
            Some(self.rest - LIMIT)
        } else {
            None
        }
    }
}
