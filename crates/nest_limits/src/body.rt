// Brackets of right sides.
ghost use Rattle.std.specs.Prelude.{◌≡◌, ◌+◌, ℕ, List, length, IsTrue};
ghost use Rattle.std.specs.List.{list_all};
ghost use Rattle.nest_tree.specs.declared.kernel.Term.{Term};
ghost use Rattle.nest_core.specs.Shapes.{is_access_over, is_body_over, is_term_over};
ghost use Rattle.nest_limits.specs.Brackets.{access_fits, is_sum, is_atom, printed, part, left_room, summand_fits, factor_fits};

use crate::form::forms_fit;
use nest_tree::{Access, Body, Term};

/// Whether the cell has at most so many brackets around one place: its subscripts stand in brackets.
fn access_fits(first: usize, terms: &[Term], room: usize, access: &Access) -> bool
    requires width { IsTrue (is_access_over (first + length terms.now) access.now) }
    requires terms { IsTrue (list_all (is_term_over (first + length terms.now)) terms.now) }
    ensures { result ≡ access_fits first terms.now access.now room }
{
    if room == 0 {
        return false;
    }
    forms_fit(first, terms, room - 1, access.at.as_slice())
}

/// What a right side is, as it is printed.
#[derive(Clone, Copy)]
pub enum Level {
    Atom,
    Sum,
    Product,
}

fn level_of(body: &Body) -> Level
    ensures { (first : ℕ) (terms : List Term) → result ≡ (printed first terms body.now).level }
{
    match body {
        Body::Const(_) => Level::Atom,
        Body::At(_) => Level::Atom,
        Body::Plus(_, _) => Level::Sum,
        Body::Minus(_, _) => Level::Sum,
        Body::Times(_, _) => Level::Product,
    }
}

fn is_sum(level: Level) -> bool
    ensures { result ≡ is_sum level }
{
    match level {
        Level::Sum => true,
        Level::Atom => false,
        Level::Product => false,
    }
}

fn is_atom(level: Level) -> bool
    ensures { result ≡ is_atom level }
{
    match level {
        Level::Atom => true,
        Level::Sum => false,
        Level::Product => false,
    }
}

/// Whether the right side has at most so many brackets around one place.
#[cycle(bodies)]
pub fn body_fits(first: usize, terms: &[Term], room: usize, body: &Body) -> bool
    requires width { IsTrue (is_body_over (first + length terms.now) body.now) }
    requires terms { IsTrue (list_all (is_term_over (first + length terms.now)) terms.now) }
    ensures { result ≡ (printed first terms.now body.now).fits room }
{
    let mut inside = room;
    let mut rest = body;
    loop {
        match rest {
            Body::Const(_) => return true,
            Body::At(access) => return access_fits(first, terms, inside, access),
            Body::Plus(a, b) => {
                if !summand_fits(first, terms, inside, b.get()) {
                    return false;
                }
                rest = a.get();
            }
            Body::Minus(a, b) => {
                if !summand_fits(first, terms, inside, b.get()) {
                    return false;
                }
                rest = a.get();
            }
            Body::Times(a, b) => {
                if !factor_fits(first, terms, inside, b.get()) {
                    return false;
                }
                let Some(left) = room_of_left(inside, a.get()) else {
                    return false;
                };
                inside = left;
                rest = a.get();
            }
        }
    }
}

/// The right part of a sum: a sum there stands in brackets.
#[cycle(bodies)]
fn summand_fits(first: usize, terms: &[Term], room: usize, body: &Body) -> bool
    requires width { IsTrue (is_body_over (first + length terms.now) body.now) }
    requires terms { IsTrue (list_all (is_term_over (first + length terms.now)) terms.now) }
    ensures { result ≡ summand_fits (printed first terms.now body.now) room }
{
    part_fits(first, terms, room, is_sum(level_of(body)), body)
}

/// The right part of a product: all but a number or a cell stands there in brackets.
#[cycle(bodies)]
fn factor_fits(first: usize, terms: &[Term], room: usize, body: &Body) -> bool
    requires width { IsTrue (is_body_over (first + length terms.now) body.now) }
    requires terms { IsTrue (list_all (is_term_over (first + length terms.now)) terms.now) }
    ensures { result ≡ factor_fits (printed first terms.now body.now) room }
{
    part_fits(first, terms, room, !is_atom(level_of(body)), body)
}

/// The brackets that are left for the left part of a product: a sum stands there in brackets.
fn room_of_left(room: usize, left: &Body) -> Option<usize>
    ensures { (first : ℕ) (terms : List Term) → result ≡ left_room (is_sum (printed first terms left.now).level) room }
{
    if !is_sum(level_of(left)) {
        Some(room)
    } else if room == 0 {
        None
    } else {
        Some(room - 1)
    }
}

/// A part, which stands in brackets or not.
#[cycle(bodies)]
fn part_fits(first: usize, terms: &[Term], room: usize, inside: bool, body: &Body) -> bool
    requires width { IsTrue (is_body_over (first + length terms.now) body.now) }
    requires terms { IsTrue (list_all (is_term_over (first + length terms.now)) terms.now) }
    ensures { result ≡ part inside (printed first terms.now body.now).fits room }
{
    if !inside {
        return body_fits(first, terms, room, body);
    }
    room != 0 && body_fits(first, terms, room - 1, body)
}
