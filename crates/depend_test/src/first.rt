// The first system that isn't excluded.
ghost use Rattle.std.specs.Prelude.{◌≡◌, ◌<◌, ◌||◌, length, not, List, slice_get, IfSome, IfOk};
ghost use Rattle.std.specs.List.{AllByRecursion};
ghost use Rattle.nest_core.specs.Shapes.{IsShaped, Fits};
ghost use Rattle.depend_test.specs.Candidates as spec;
ghost use Rattle.depend_test.specs.First.{IsFirst};
ghost use Rattle.depend_test.specs.Sides.{IsSide, IsMoved, AreMoved};
ghost use Rattle.depend_test.specs.Systems.{with_old as with_old_order, with_new as with_new_order, Decides, DecidesNew, DecidesOrders};
ghost use Rattle.depend_test.specs.declared.side.Moved.{Moved as MovedOf};

use crate::conflict::conflict;
use crate::order::{carriers, order_rows};
use crate::pair::{Pair, make_pair, subscript_rows, with_rows};
use crate::quick::{any_impossible, has_room};
use crate::side::{Moved, Side, make_moved};
use chill_base::{List, NoMemory};
use int_sets::{SetFault, System};
use nest_core::shared_loops;
use nest_tree::{Access, Dependence, Kernel, Moves};
use std::alloc::Global;

/// An old carrier and a new one.
#[derive(Clone, Copy)]
pub struct Carried {
    pub old: usize,
    pub new: usize,
}

/// What may carry the orders of two statements, and how many loops they share.
#[derive(Drop)]
struct Orders {
    old_shared: usize,
    old: List<usize>,
    new_shared: usize,
    new: List<usize>,
}

/// What may carry the old order of the first statement before the second, and the new order of a piece of the second
/// before one of the first.
fn orders_of(
    alloc: Global,
    a: &Moved,
    b: &Moved,
    one: &Side,
    other: &Side,
) -> Result<Orders, NoMemory>
    ensures { IfOk result (λ o. o ≡ spec.orders_between a.now b.now one.now other.now) }
{
    let first = a.positions.as_slice();
    let second = b.positions.as_slice();
    let late = one.positions.as_slice();
    let early = other.positions.as_slice();
    Ok(Orders {
        old_shared: shared_loops(first, second),
        old: carriers(alloc, first, second)?,
        new_shared: shared_loops(early, late),
        new: carriers(alloc, early, late)?,
    })
}

/// Whether a system isn't excluded to which the new order by this carrier is added.
fn is_open(
    alloc: Global,
    system: &System,
    pair: &Pair,
    shared: usize,
    carrier: usize,
) -> Result<bool, SetFault>
    requires { system.now.vars ≡ pair.now.first.vars }
    ensures { IfOk result (λ is_open. DecidesNew system.now pair.now shared carrier (not is_open)) }
{
    let early = pair.second_new.as_slice();
    let late = pair.first_new.as_slice();
    let rows = order_rows(alloc, pair.first.vars, carrier, shared, early, late)?;
    let all = with_rows(alloc, system, rows.as_slice())?;
    Ok(!all.excluded(alloc)?)
}

/// The first new carrier by which a system isn't excluded to which its order is added.
fn first_new(
    alloc: Global,
    system: &System,
    pair: &Pair,
    shared: usize,
    carriers: &[usize],
) -> Result<Option<usize>, SetFault>
    requires { system.now.vars ≡ pair.now.first.vars }
    ensures { IfOk result (λ new. IsFirst (DecidesNew system.now pair.now shared) (λ n. n) carriers.now new) }
{
    for carrier in carriers {
        if is_open(alloc, system, pair, shared, *carrier)? {
            return Ok(Some(*carrier));
        }
    }
    Ok(None)
}

/// A system with the old order by a carrier.
fn with_old(
    alloc: Global,
    system: &System,
    pair: &Pair,
    shared: usize,
    carrier: usize,
) -> Result<System, SetFault>
    requires { system.now.vars ≡ pair.now.first.vars }
    ensures vars { IfOk result (λ s. s.vars ≡ pair.now.first.vars) }
    ensures value { IfOk result (λ s. s ≡ with_old_order system.now pair.now shared carrier) }
{
    let early = pair.first_old.as_slice();
    let late = pair.second_old.as_slice();
    let rows = order_rows(alloc, pair.first.vars, carrier, shared, early, late)?;
    with_rows(alloc, system, rows.as_slice())
}

/// The first two carriers by which a system isn't excluded.
fn first_carried(
    alloc: Global,
    system: &System,
    pair: &Pair,
    orders: &Orders,
) -> Result<Option<Carried>, SetFault>
    requires { system.now.vars ≡ pair.now.first.vars }
    ensures { IfOk result (λ both. IsFirst (DecidesOrders system.now pair.now orders.now) (λ c. c) (spec.carried_each orders.now.old orders.now.new) both) }
{
    for old in orders.old.as_slice() {
        let before = with_old(alloc, system, pair, orders.old_shared, *old)?;
        let found = first_new(
            alloc,
            &before,
            pair,
            orders.new_shared,
            orders.new.as_slice(),
        )?;
        if let Some(new) = found {
            return Ok(Some(Carried { old: *old, new }));
        }
    }
    Ok(None)
}

/// The first two carriers of two accesses of two pieces.
fn first_of_pieces(
    alloc: Global,
    kernel: &Kernel,
    orders: &Orders,
    a: &Side,
    b: &Side,
    first: &Access,
    second: &Access,
) -> Result<Option<Carried>, SetFault>
    requires first { IsSide (length kernel.now.head.params) a.now }
    requires second { IsSide (length kernel.now.head.params) b.now }
    ensures { IfOk result (λ both. spec.IsFirstCarried kernel.now (spec.of_accesses a.now b.now orders.now first.now second.now) both) }
{
    if orders.old.len() == 0 {
        return Ok(None);
    }
    if orders.new.len() == 0 {
        return Ok(None);
    }
    let pair = make_pair(alloc, kernel, a, b)?;
    let rows = subscript_rows(alloc, &pair, first, second)?;
    let equal = rows.as_slice();
    if has_room(&pair) && any_impossible(alloc, pair.first.vars, equal)? {
        return Ok(None);
    }
    let system = with_rows(alloc, &pair.system, equal)?;
    first_carried(alloc, &system, &pair, orders)
}

/// The first two carriers of the accesses with these numbers, where both pieces have them.
fn first_of_numbers(
    alloc: Global,
    kernel: &Kernel,
    orders: &Orders,
    a: &Side,
    b: &Side,
    i: usize,
    j: usize,
) -> Result<Option<Carried>, SetFault>
    requires first { IsSide (length kernel.now.head.params) a.now }
    requires second { IsSide (length kernel.now.head.params) b.now }
    ensures { IfOk result (λ both. spec.IsFirstCarried kernel.now (spec.of_pieces orders.now i j a.now b.now) both) }
{
    let firsts = a.accesses.as_slice();
    let seconds = b.accesses.as_slice();
    if i >= firsts.len() {
        return Ok(None);
    }
    if j >= seconds.len() {
        return Ok(None);
    }
    first_of_pieces(alloc, kernel, orders, a, b, &firsts[i], &seconds[j])
}

/// The first two carriers of two accesses, over the pieces of the second statement.
fn first_of_piece(
    alloc: Global,
    kernel: &Kernel,
    a: &Moved,
    b: &Moved,
    one: &Side,
    i: usize,
    j: usize,
) -> Result<Option<Carried>, SetFault>
    requires first { IsSide (length kernel.now.head.params) one.now }
    requires second { IsMoved (length kernel.now.head.params) b.now }
    ensures { IfOk result (λ both. spec.IsFirstCarried kernel.now (spec.of_piece a.now b.now i j one.now) both) }
{
    for other in b.sides.as_slice() {
        let orders = orders_of(alloc, a, b, one, other)?;
        let found = first_of_numbers(alloc, kernel, &orders, one, other, i, j)?;
        if found.is_some() {
            return Ok(found);
        }
    }
    Ok(None)
}

/// The first two carriers of two accesses, over the pieces of both statements.
fn first_of_accesses(
    alloc: Global,
    kernel: &Kernel,
    a: &Moved,
    b: &Moved,
    i: usize,
    j: usize,
) -> Result<Option<Carried>, SetFault>
    requires first { IsMoved (length kernel.now.head.params) a.now }
    requires second { IsMoved (length kernel.now.head.params) b.now }
    ensures { IfOk result (λ both. spec.IsFirstCarried kernel.now (spec.of_numbers a.now b.now i j) both) }
{
    for one in a.sides.as_slice() {
        let found = first_of_piece(alloc, kernel, a, b, one, i, j)?;
        if found.is_some() {
            return Ok(found);
        }
    }
    Ok(None)
}

/// The first two carriers of an access of one statement and one of another.
fn first_of_access(
    alloc: Global,
    kernel: &Kernel,
    a: &Moved,
    b: &Moved,
    cell: &Access,
    i: usize,
) -> Result<Option<Carried>, SetFault>
    requires first { IsMoved (length kernel.now.head.params) a.now }
    requires second { IsMoved (length kernel.now.head.params) b.now }
    ensures { IfOk result (λ both. spec.IsFirstCarried kernel.now (spec.of_access a.now b.now i cell.now) both) }
{
    let others = b.accesses.as_slice();
    for j in 0..others.len() {
        let other = &others[j];
        if conflict(a.how, cell, i, b.how, other, j) {
            let found = first_of_accesses(alloc, kernel, a, b, i, j)?;
            if found.is_some() {
                return Ok(found);
            }
        }
    }
    Ok(None)
}

/// The first dependence of two statements.
fn first_of_statements(
    alloc: Global,
    kernel: &Kernel,
    all: &[Moved],
    from: usize,
    to: usize,
) -> Result<Option<Dependence>, SetFault>
    requires from { from < length all.now }
    requires to { to < length all.now }
    requires moved { AllByRecursion (IsMoved (length kernel.now.head.params)) all.now }
    ensures { IfOk result (λ d. IfSome (slice_get all.now from) (λ a. IfSome (slice_get all.now to) (λ b. spec.IsFirstDependence kernel.now (spec.of_statements from a to b) d))) }
{
    let a = &all[from];
    let b = &all[to];
    let cells = a.accesses.as_slice();
    for i in 0..cells.len() {
        let cell = &cells[i];
        if let Some(carried) = first_of_access(alloc, kernel, a, b, cell, i)? {
            return Ok(Some(Dependence {
                from,
                to,
                array: cell.array,
                old_level: carried.old,
                new_level: carried.new,
            }));
        }
    }
    Ok(None)
}

/// Whether the command applies to one of two statements.
fn either_applies(a: &Moved, b: &Moved) -> bool
    ensures { result ≡ (a.now.applies || b.now.applies) }
{
    a.applies || b.applies
}

/// The first dependence of a statement and all others, where the command applies to one of the two.
fn first_of_statement(
    alloc: Global,
    kernel: &Kernel,
    all: &[Moved],
    from: usize,
) -> Result<Option<Dependence>, SetFault>
    requires from { from < length all.now }
    requires moved { AllByRecursion (IsMoved (length kernel.now.head.params)) all.now }
    ensures { IfOk result (λ d. IfSome (slice_get all.now from) (λ a. spec.IsFirstDependence kernel.now (spec.of_statement all.now from a) d)) }
{
    let a = &all[from];
    for to in 0..all.len() {
        if either_applies(a, &all[to]) {
            let found = first_of_statements(alloc, kernel, all, from, to)?;
            if found.is_some() {
                return Ok(found);
            }
        }
    }
    Ok(None)
}

/// The first system that isn't excluded, of statements and what their pieces make of them.
pub fn first_dependence_among(
    alloc: Global,
    kernel: &Kernel,
    all: &[Moved],
) -> Result<Option<Dependence>, SetFault>
    requires moved { AllByRecursion (IsMoved (length kernel.now.head.params)) all.now }
    ensures { IfOk result (λ d. spec.IsFirstDependence kernel.now (spec.candidates all.now) d) }
{
    for from in 0..all.len() {
        let found = first_of_statement(alloc, kernel, all, from)?;
        if found.is_some() {
            return Ok(found);
        }
    }
    Ok(None)
}

/// The first system that isn't excluded of two instances that name one cell by conflicting accesses and change their
/// order by the moves.
pub fn first_dependence(
    alloc: Global,
    kernel: &Kernel,
    moves: &Moves,
) -> Result<Option<Dependence>, SetFault>
    requires shaped { IsShaped kernel.now }
    requires fits { Fits kernel.now moves.now }
    ensures { IfOk result (λ d. (all : List MovedOf) × AreMoved kernel.now moves.now all × spec.IsFirstDependence kernel.now (spec.candidates all) d) }
{
    let all = make_moved(alloc, kernel, moves)?;
    first_dependence_among(alloc, kernel, all.as_slice())
}
