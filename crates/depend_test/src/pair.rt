// Two statements in one system.
ghost use Rattle.std.specs.Prelude.{◌≡◌, ◌+◌, ◌≤◌, ◌++◌, map, length, IsTrue, IfOk, OnOk};
ghost use Rattle.std.specs.List.{list_all, list_any};
ghost use Rattle.nest_systems.specs.Owns.{row_has_vars};
ghost use Rattle.nest_systems.specs.Instances.{IsInstance};
ghost use Rattle.nest_systems.specs.Begun.{begun, end_rows};
ghost use Rattle.nest_systems.specs.Extending.{extended};
ghost use Rattle.nest_systems.specs.Extents.{has_name};
ghost use Rattle.nest_systems.specs.Placing.{placed, seated_levels};
ghost use Rattle.nest_systems.specs.Seating.{AreSeats};
ghost use Rattle.depend_test.specs.Pairs as spec;
ghost use Rattle.depend_test.specs.Sides.{IsSide};
ghost use Rattle.depend_test.specs.Systems as systems;
ghost use Rattle.depend_test.specs.Systems.{IsPair};

use crate::order::equal_rows;
use crate::side::Side;
use c_tree::Program;
use chill_base::{List, Name, NoMemory};
use int_rows::{Aff, Row};
use int_sets::{SetFault, System};
use nest_systems::{
    Instance, Places, Seats, begin_system, copy_row, end_names, is_name, place_rows,
    push_end_ranges, take_seats,
};
use nest_tree::{Access, Kernel};
use std::alloc::Global;

/// A system of two statements with all rows that don't speak of an order, and the forms of which orders are made.
#[derive(Drop)]
pub struct Pair {
    pub system: System,
    pub first: Seats,
    pub second: Seats,
    /// The old levels of both.
    pub first_old: List<Aff>,
    pub second_old: List<Aff>,
    /// Their new levels.
    pub first_new: List<Aff>,
    pub second_new: List<Aff>,
}

/// Where two statements stand in a system.
#[derive(Drop)]
struct Both {
    first: Seats,
    second: Seats,
    ends: List<Name>,
    first_end: usize,
    vars: usize,
}

fn has_name(names: &[Name], name: Name) -> bool
    ensures { result ≡ list_any (has_name name) names.now }
{
    names.iter().any(|other| is_name(*other, name))
}

/// The names of the first list, and those of the second that aren't among them.
fn join_names(alloc: Global, first: &[Name], second: &[Name]) -> Result<List<Name>, NoMemory>
    ensures { IfOk result (λ all. all ≡ spec.joined_names first.now second.now) }
{
    let mut all = List::from_slice(alloc, first)?;
    for name in second {
        if !has_name(first, *name) {
            all.push(*name)?;
        }
    }
    Ok(all)
}

/// The arrays of the reads at the very end, of both statements.
fn join_ends(
    alloc: Global,
    params: usize,
    a: &Instance,
    b: &Instance,
) -> Result<List<Name>, NoMemory>
    requires first { IsInstance params a.now }
    requires second { IsInstance params b.now }
    ensures { IfOk result (λ ends. ends ≡ spec.pair_ends a.now b.now) }
{
    let first = end_names(alloc, params, a)?;
    let second = end_names(alloc, params, b)?;
    join_names(alloc, first.as_slice(), second.as_slice())
}

/// The parameters, the levels of both, the terms of both, and the reads at the very end.
fn seat_both(alloc: Global, head: &Program, a: &Instance, b: &Instance) -> Result<Both, NoMemory>
    requires first { IsInstance (length head.now.params) a.now }
    requires second { IsInstance (length head.now.params) b.now }
    ensures first_seats { IfOk result (λ it. AreSeats a.now (spec.first_places (length head.now.params) a.now b.now) (spec.pair_ends a.now b.now) it.first) }
    ensures second_seats { IfOk result (λ it. AreSeats b.now (spec.second_places (length head.now.params) a.now b.now) (spec.pair_ends a.now b.now) it.second) }
    ensures names { IfOk result (λ it. it.ends ≡ spec.pair_ends a.now b.now) }
    ensures first_end { IfOk result (λ it. it.first_end ≡ spec.first_end (length head.now.params) a.now b.now) }
    ensures vars { IfOk result (λ it. it.vars ≡ spec.pair_vars (length head.now.params) a.now b.now) }
    ensures first { IfOk result (λ it. it.first.vars ≡ it.vars) }
    ensures second { IfOk result (λ it. it.second.vars ≡ it.vars) }
    ensures ends { IfOk result (λ it. it.first_end + length it.ends ≤ it.vars) }
    ensures params { IfOk result (λ it. length head.now.params ≤ it.vars) }
{
    let params = head.params.as_slice().len();
    let ends = join_ends(alloc, params, a, b)?;
    let names = ends.as_slice();
    let first_term = params + a.levels + b.levels;
    let second_term = first_term + a.chosen.order.as_slice().len();
    let first_end = second_term + b.chosen.order.as_slice().len();
    let vars = first_end + names.len();
    let one = Places {
        params,
        first_level: params,
        first_term,
        first_end,
        vars,
    };
    let other = Places {
        params,
        first_level: params + a.levels,
        first_term: second_term,
        first_end,
        vars,
    };
    Ok(Both {
        first: take_seats(alloc, a, one, names)?,
        second: take_seats(alloc, b, other, names)?,
        ends,
        first_end,
        vars,
    })
}

/// Pushes the rows of both statements, and then the value ranges of their terms.
fn place_both(
    alloc: Global,
    system: &mut System,
    both: &Both,
    a: &Instance,
    b: &Instance,
) -> Result<(), SetFault>
    requires vars { system.old.vars ≡ both.now.vars }
    requires first { both.now.first.vars ≡ both.now.vars }
    requires second { both.now.second.vars ≡ both.now.vars }
    ensures rows { OnOk result (system.new ≡ extended system.old (spec.both_rows a.now b.now both.now.first both.now.second)) }
    ensures vars { system.new.vars ≡ system.old.vars }
{
    place_rows(alloc, system, &both.first, a.rows.as_slice())?;
    place_rows(alloc, system, &both.second, b.rows.as_slice())?;
    place_rows(alloc, system, &both.first, a.ranges.as_slice())?;
    place_rows(alloc, system, &both.second, b.ranges.as_slice())
}

/// The forms, placed in a system.
fn place_forms(alloc: Global, seats: &Seats, forms: &[Aff]) -> Result<List<Aff>, NoMemory>
    ensures { IfOk result (λ all. all ≡ map (placed seats.now) forms.now) }
{
    let mut all = List::new(alloc);
    for form in forms {
        all.push(seats.place(alloc, form)?)?;
    }
    Ok(all)
}

/// The system of two statements: the rows of parameters and extents, those of the first and of the second, and the
/// value ranges of their terms.
pub fn make_pair(alloc: Global, kernel: &Kernel, a: &Side, b: &Side) -> Result<Pair, SetFault>
    requires first { IsSide (length kernel.now.head.params) a.now }
    requires second { IsSide (length kernel.now.head.params) b.now }
    ensures vars { IfOk result (λ p. p.system.vars ≡ p.first.vars) }
    ensures pair { IfOk result (λ p. IsPair kernel.now a.now b.now p) }
{
    let both = seat_both(alloc, &kernel.head, &a.instance, &b.instance)?;
    let system = fill_system(alloc, kernel, &both, &a.instance, &b.instance)?;
    Ok(finish_pair(alloc, system, both, a, b)?)
}

/// The system with all rows of two statements that don't speak of an order.
fn fill_system(
    alloc: Global,
    kernel: &Kernel,
    both: &Both,
    a: &Instance,
    b: &Instance,
) -> Result<System, SetFault>
    requires first { both.now.first.vars ≡ both.now.vars }
    requires second { both.now.second.vars ≡ both.now.vars }
    requires ends { both.now.first_end + length both.now.ends ≤ both.now.vars }
    requires params { length kernel.now.head.params ≤ both.now.vars }
    ensures vars { IfOk result (λ s. s.vars ≡ both.now.vars) }
    ensures value { IfOk result (λ s. s ≡ extended (begun kernel.now.head both.now.vars) (spec.both_rows a.now b.now both.now.first both.now.second ++ end_rows kernel.now.head kernel.now.made both.now.vars both.now.first_end both.now.ends)) }
{
    let made = kernel.made.as_slice();
    let mut system = begin_system(alloc, &kernel.head, both.vars)?;
    place_both(alloc, &mut system, both, a, b)?;
    let ends = both.ends.as_slice();
    push_end_ranges(
        alloc,
        &kernel.head,
        made,
        &mut system,
        ends,
        both.first_end,
        both.vars,
    )?;
    Ok(system)
}

/// The pair with the forms of which orders are made.
fn finish_pair(
    alloc: Global,
    system: System,
    both: Both,
    a: &Side,
    b: &Side,
) -> Result<Pair, NoMemory>
    ensures parts { IfOk result (λ p. (p.system ≡ system) × (p.first ≡ both.first) × (p.second ≡ both.second)) }
    ensures first_old { IfOk result (λ p. p.first_old ≡ map (placed p.first) a.now.old) }
    ensures second_old { IfOk result (λ p. p.second_old ≡ map (placed p.second) b.now.old) }
    ensures first_new { IfOk result (λ p. p.first_new ≡ seated_levels p.first) }
    ensures second_new { IfOk result (λ p. p.second_new ≡ seated_levels p.second) }
{
    let first_old = place_forms(alloc, &both.first, a.old.as_slice())?;
    let second_old = place_forms(alloc, &both.second, b.old.as_slice())?;
    let first_new = both.first.level_forms(alloc)?;
    let second_new = both.second.level_forms(alloc)?;
    Ok(Pair {
        system,
        first: both.first,
        second: both.second,
        first_old,
        second_old,
        first_new,
        second_new,
    })
}

/// A copy of a system with further rows.
pub fn with_rows(alloc: Global, system: &System, rows: &[Row]) -> Result<System, SetFault>
    requires { IsTrue (list_all (row_has_vars system.now.vars) rows.now) }
    ensures vars { IfOk result (λ s. s.vars ≡ system.now.vars) }
    ensures value { IfOk result (λ s. s ≡ extended system.now rows.now) }
{
    let mut new = system.copy(alloc)?;
    for row in rows {
        new.push(copy_row(alloc, row)?)?;
    }
    Ok(new)
}

/// The rows that two cells have equal subscripts.
pub fn subscript_rows(
    alloc: Global,
    pair: &Pair,
    a: &Access,
    b: &Access,
) -> Result<List<Row>, NoMemory>
    ensures width { IfOk result (λ rows. IsTrue (list_all (row_has_vars pair.now.first.vars) rows)) }
    ensures value { IfOk result (λ rows. rows ≡ systems.subscript_rows pair.now a.now b.now) }
{
    let x = place_forms(alloc, &pair.first, a.at.as_slice())?;
    let y = place_forms(alloc, &pair.second, b.at.as_slice())?;
    equal_rows(alloc, pair.first.vars, x.len(), x.as_slice(), y.as_slice())
}
