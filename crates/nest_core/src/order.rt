// The order of statements in the text, the loops that they share, and their positions counted anew.
ghost use Rattle.std.specs.Prelude.{◌≡◌, ◌+◌, ◌<◌, ◌≤◌, ◌^◌, length, insert, replicate, slice_index_or, suc, IfOk, IsTrue, OnOk};
ghost use Rattle.std.specs.List.{AllByRecursion};
ghost use Rattle.nest_core.specs.Order.{HasPositions, shares_loop, is_earlier, placed, in_text_order, next_positions, at_positions, numbered};
ghost use Rattle.nest_tree.specs.Carriers.{shared};

use chill_base::{List, NoMemory};
use nest_tree::Nest;
use std::alloc::Global;
use std::mem;

/// How many loops two statements share, by their positions.
pub fn shared_loops(first: &[usize], second: &[usize]) -> usize
    ensures value { result ≡ shared first.now second.now }
    ensures first { length first.now ≡ 0 → result ≡ 0 }
    ensures within { 0 < length first.now → result < length first.now }
    ensures second { 0 < length second.now → result < length second.now }
{
    let levels = first.len().min(second.len()).saturating_sub(1);
    for common in 0..levels {
        if first[common] != second[common] {
            return common;
        }
    }
    levels
}

/// Whether two statements share the loop at a level, which counts from 1.
pub fn shares_loop(level: usize, first: &Nest, second: &Nest) -> bool
    ensures { result ≡ shares_loop level first.now second.now }
{
    level <= shared_loops(first.positions.as_slice(), second.positions.as_slice())
}

/// Whether the first positions stand before the second in the text.
fn is_earlier(first: &[usize], second: &[usize]) -> bool
    ensures { result ≡ is_earlier first.now second.now }
{
    let both = first.len().min(second.len());
    for i in 0..both {
        if first[i] != second[i] {
            return first[i] < second[i];
        }
    }
    first.len() < second.len()
}

/// Where a statement stands among ordered ones: before the first that isn't earlier.
fn place_in(ordered: &[Nest], nest: &Nest) -> usize
    ensures place { insert ordered.now result nest.now ≡ placed nest.now ordered.now }
    ensures within { result ≤ length ordered.now }
{
    for i in 0..ordered.len() {
        if !is_earlier(ordered[i].positions.as_slice(), nest.positions.as_slice()) {
            return i;
        }
    }
    ordered.len()
}

/// The statements in textual order; those at equal positions keep theirs.
pub fn in_text_order(alloc: Global, nests: List<Nest>) -> Result<Vec<Nest>, NoMemory>
    ensures { IfOk result (λ v. v.items ≡ in_text_order nests) }
{
    let mut rest = nests;
    let mut ordered = Vec::new(alloc);
    while let Some(nest) = rest.pop() {
        let place = place_in(ordered.as_slice(), &nest);
        ordered.insert(place, nest)?;
    }
    Ok(ordered)
}

/// So many zeros.
fn zeros(alloc: Global, count: usize) -> Result<List<usize>, NoMemory>
    ensures { IfOk result (λ zs. zs ≡ replicate count 0) }
{
    let mut zeros = List::new(alloc);
    for _ in 0..count {
        zeros.push(0)?;
    }
    Ok(zeros)
}

/// The positions of the next child of the last loop in common.
#[tactic(auto, unfolding(crate::specs::Order::next_positions))]
fn next_positions(
    alloc: Global,
    common: usize,
    before: &[usize],
    count: usize,
) -> Result<List<usize>, NoMemory>
    requires common { common < length before.now }
    requires count { common < count }
    requires room { slice_index_or before.now common 0 + 1 < 2 ^ 64 }
    ensures { IfOk result (λ ps. ps ≡ next_positions common before.now count) }
{
    let mut positions = List::from_slice(alloc, &before[..common])?;
    positions.push(before[common] + 1)?;
    positions.append(zeros(alloc, count - (common + 1))?)?;
    Ok(positions)
}

/// The positions of a statement behind one that stood at `old` and stands now at `before`.
fn follow(
    alloc: Global,
    old: &[usize],
    before: &[usize],
    at: &[usize],
) -> Result<List<usize>, NoMemory>
    requires old { 0 < length old.now }
    requires same { length before.now ≡ length old.now }
    requires some { 0 < length at.now }
    requires room { slice_index_or before.now (shared old.now at.now) 0 + 1 < 2 ^ 64 }
    ensures { IfOk result (λ ps. ps ≡ next_positions (shared old.now at.now) before.now (length at.now)) }
{
    next_positions(alloc, shared_loops(old, at), before, at.len())
}

/// Puts a statement at other positions, and gives its old ones.
fn put_at(nest: &mut Nest, positions: List<usize>) -> List<usize>
    ensures old { result ≡ nest.old.positions }
    ensures new { nest.new ≡ at_positions nest.old positions }
{
    mem::replace(&mut nest.positions, positions)
}

/// Counts the positions of ordered statements anew.
pub fn number(alloc: Global, nests: &mut Vec<Nest>) -> Result<(), NoMemory>
    requires { AllByRecursion HasPositions nests.old.items }
    ensures { OnOk result (nests.new.items ≡ numbered nests.old.items) }
{
    if nests.is_empty() {
        return Ok(());
    }
    let mut before = zeros(alloc, nests[0].positions.len())?;
    let first = List::from_slice(alloc, before.as_slice())?;
    let mut old = put_at(&mut nests[0], first);
    for i in 1..nests.len() {
        let at = nests[i].positions.as_slice();
        let next = follow(alloc, old.as_slice(), before.as_slice(), at)?;
        before = List::from_slice(alloc, next.as_slice())?;
        old = put_at(&mut nests[i], next);
    }
    Ok(())
}
