// The seats that a statement's variables take in a system.
ghost use Rattle.std.specs.Prelude.{◌≡◌, ◌+◌, ◌<◌, ◌≤◌, map, length, Some, IfOk, IfSome};
ghost use Rattle.std.specs.List.{position_from};
ghost use Rattle.nest_systems.specs.Instances.{IsInstance, HasRoom};
ghost use Rattle.nest_systems.specs.Seating as spec;

use crate::instance::Instance;
use crate::needs::find_name;
use crate::seats::{Places, Seats};
use chill_base::{List, Name, NoMemory};
use nest_tree::Term;
use std::alloc::Global;

/// The first place of a number in a list.
fn find_number(numbers: &[usize], number: usize) -> Option<usize>
    ensures value { result ≡ position_from (spec.is_number number) 0 numbers.now }
    ensures bound { IfSome result (λ t. t < length numbers.now) }
{
    numbers.iter().position(|other| *other == number)
}

/// The variable of a read at the very end, by its array.
fn end_seat(places: Places, ends: &[Name], term: &Term) -> Option<usize>
    requires room { places.first_end + length ends.now ≤ places.vars }
    ensures { result ≡ spec.end_seat places ends.now (Some term.now) }
{
    match find_name(ends, term.array) {
        Some(place) => Some(places.first_end + place),
        None => None,
    }
}

/// The variable of the term that stands for others.
fn seat_of(instance: &Instance, places: Places, ends: &[Name], one: usize) -> Option<usize>
    requires room { HasRoom places instance.now (length ends.now) }
    requires one { one < length instance.now.terms }
    ensures { result ≡ spec.seat_of instance.now places ends.now one }
{
    match find_number(instance.chosen.order.as_slice(), one) {
        Some(place) => Some(places.first_term + place),
        None => end_seat(places, ends, &instance.terms.as_slice()[one]),
    }
}

/// The variables of all terms.
fn term_seats(
    alloc: Global,
    instance: &Instance,
    places: Places,
    ends: &[Name],
) -> Result<List<Option<usize>>, NoMemory>
    requires instance { IsInstance places.params instance.now }
    requires room { HasRoom places instance.now (length ends.now) }
    ensures value { IfOk result (λ ts. ts ≡ map (spec.seat instance.now places ends.now) instance.now.chosen.same) }
    ensures count { IfOk result (λ ts. length ts ≡ length instance.now.terms) }
{
    let mut terms = List::new(alloc);
    for same in instance.chosen.same.as_slice() {
        match *same {
            Some(one) => terms.push(seat_of(instance, places, ends, one))?,
            None => terms.push(None)?,
        }
    }
    Ok(terms)
}

/// Where the variables of a statement stand.
pub fn take_seats(
    alloc: Global,
    instance: &Instance,
    places: Places,
    ends: &[Name],
) -> Result<Seats, NoMemory>
    requires instance { IsInstance places.params instance.now }
    requires room { HasRoom places instance.now (length ends.now) }
    ensures seats { IfOk result (λ s. spec.AreSeats instance.now places ends.now s) }
    ensures vars { IfOk result (λ s. s.vars ≡ places.vars) }
    ensures params { IfOk result (λ s. s.params ≡ places.params) }
    ensures levels { IfOk result (λ s. s.levels ≡ instance.now.levels) }
    ensures first_level { IfOk result (λ s. s.first_level ≡ places.first_level) }
    ensures terms { IfOk result (λ s. length s.terms ≡ length instance.now.terms) }
{
    Ok(Seats {
        params: places.params,
        levels: instance.levels,
        first_level: places.first_level,
        terms: term_seats(alloc, instance, places, ends)?,
        vars: places.vars,
    })
}
