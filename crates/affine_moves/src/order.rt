// The order of `permute`.
ghost use Rattle.std.specs.Prelude.{◌≡◌, ◌<◌, ◌+◌, ◌^◌, cond, max, nat_eq, suc, IfOk, take};
ghost use Rattle.std.specs.List.{list_all};
ghost use Rattle.affine_moves.specs.Change.{is_level};
ghost use Rattle.affine_moves.specs.Moves.{holds_next, is_permutation, first_moving, last_moving, reordering};

use crate::change::Change;
use crate::shapes::is_level;
use chill_base::{List, NoMemory};
use std::alloc::Global;

/// Whether each number is one of the levels.
pub fn are_levels(depth: usize, order: &[usize]) -> bool
    ensures { result ≡ list_all (is_level depth) order.now }
{
    for level in order {
        if !is_level(depth, *level) {
            return false;
        }
    }
    true
}

/// Whether the number behind this place is in the list.
#[tactic(auto, unfolding(crate::specs::Moves::holds_next))]
fn holds_next(order: &[usize], place: usize) -> bool
    requires { place + 1 < 2 ^ 64 }
    ensures { result ≡ holds_next order.now place }
{
    let number = place + 1;
    order.contains(&number)
}

/// Whether the list is a permutation of 1 to its length.
pub fn is_permutation(order: &[usize]) -> bool
    ensures { result ≡ is_permutation order.now }
{
    for t in 0..order.len() {
        if !holds_next(order, t) {
            return false;
        }
    }
    true
}

/// The first level that moves, or 0.
pub fn first_moving(order: &[usize]) -> usize
    ensures { result ≡ first_moving 0 order.now }
{
    for t in 0..order.len() {
        if order[t] != t + 1 {
            return t + 1;
        }
    }
    0
}

/// The greater level, where one moves.
fn later(found: usize, t: usize, level: usize) -> usize
    requires { t + 1 < 2 ^ 64 }
    ensures { result ≡ cond (nat_eq level (suc t)) found (max found (max (suc t) level)) }
{
    if level == t + 1 {
        found
    } else {
        found.max(level.max(t + 1))
    }
}

/// The last level that moves, or that another moves to, or 0.
pub fn last_moving(order: &[usize]) -> usize
    ensures { result ≡ last_moving 0 0 order.now }
{
    let mut found = 0;
    for t in 0..order.len() {
        found = later(found, t, order[t]);
    }
    found
}

/// The order without the levels behind the last one that moves.
pub fn reordering(alloc: Global, order: &[usize]) -> Result<Change, NoMemory>
    ensures { IfOk result (λ c. c ≡ reordering order.now) }
{
    let end = last_moving(order).min(order.len());
    Ok(Change::Order(List::from_slice(alloc, &order[..end])?))
}
