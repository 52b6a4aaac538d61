// The shapes that `unroll` looks for.
ghost use Rattle.std.specs.Prelude.{◌≡◌, ◌≤◌, ◌<◌, suc, cond, length, IsTrue};
ghost use Rattle.std.specs.List.{list_any, AllByRecursion};
ghost use Rattle.nest_core.specs.Forms.{has_vars};
ghost use Rattle.nest_core.specs.Order.{shares_loop};
ghost use Rattle.nest_core.specs.Shapes.{vars_of, is_row_over, IsShapedNest};
ghost use Rattle.affine_moves.specs.Change.{is_level};
ghost use Rattle.unroll.specs.Moves as spec;

use crate::bounds::{names_in_term, names_later, var_of};
use crate::roles::Role;
use c_tree::Program;
use int_rows::Aff;
use nest_core::{is_held, names, shares_loop};
use nest_tree::{KernelRow, Nest};

/// Whether the other statement shares the loop, and has another depth or doesn't share all deeper loops.
fn parts(level: usize, nest: &Nest, other: &Nest) -> bool
    ensures { result ≡ spec.parts level nest.now other.now }
{
    let depth = nest.levels.len();
    shares_loop(level, nest, other)
        && !(other.levels.len() == depth && shares_loop(depth, nest, other))
}

/// Whether that is so for some statement.
pub fn any_parts(level: usize, nest: &Nest, nests: &[Nest]) -> bool
    ensures { result ≡ list_any (spec.parts level nest.now) nests.now }
{
    for other in nests {
        if parts(level, nest, other) {
            return true;
        }
    }
    false
}

/// Whether the form names the level, as itself or in an argument.
#[tactic(auto, unfolding(crate::specs::Moves::names_level))]
fn names_level(head: &Program, level: usize, nest: &Nest, form: &Aff) -> bool
    requires shaped { IsShapedNest head.now nest.now }
    requires level { IsTrue (is_level (length nest.now.levels) level) }
    requires width { IsTrue (has_vars (vars_of (length head.now.params) nest.now) form.now) }
    ensures { result ≡ spec.names_level (length head.now.params) level nest.now form.now }
{
    let terms = nest.terms.as_slice();
    let first = head.params.as_slice().len() + nest.levels.len();
    names(first, terms, var_of(head, level), terms.len(), form)
}

/// Whether the row names the level and a later one, or is a bound that holds the level and names it in an argument too.
#[tactic(auto, unfolding(crate::specs::Moves::is_tangled))]
fn is_tangled(head: &Program, level: usize, nest: &Nest, row: &KernelRow) -> bool
    requires shaped { IsShapedNest head.now nest.now }
    requires level { IsTrue (is_level (length nest.now.levels) level) }
    requires row { IsTrue (is_row_over (vars_of (length head.now.params) nest.now) (length nest.now.levels) row.now) }
    ensures { result ≡ spec.is_tangled (length head.now.params) level nest.now row.now }
{
    let form = &row.row.form;
    if names_level(head, level, nest, form) && names_later(head, level, nest, form) {
        return true;
    }
    row.own != 0
        && is_held(form.coefs.as_slice(), var_of(head, level))
        && names_in_term(head, level, nest, form)
}

/// Whether that is so for some row.
fn any_tangled(head: &Program, level: usize, nest: &Nest) -> bool
    requires shaped { IsShapedNest head.now nest.now }
    requires level { IsTrue (is_level (length nest.now.levels) level) }
    ensures { result ≡ list_any (spec.is_tangled (length head.now.params) level nest.now) nest.now.rows }
{
    for row in nest.rows.as_slice() {
        if is_tangled(head, level, nest, row) {
            return true;
        }
    }
    false
}

/// Whether the other statement shares the loop and has such a row.
fn tangles(head: &Program, level: usize, nest: &Nest, other: &Nest) -> bool
    requires shaped { IsShapedNest head.now other.now }
    requires level { 1 ≤ level }
    ensures { result ≡ spec.tangles (length head.now.params) level nest.now other.now }
{
    shares_loop(level, nest, other) && any_tangled(head, level, other)
}

/// Whether that is so for some statement.
pub fn any_tangles(head: &Program, level: usize, nest: &Nest, nests: &[Nest]) -> bool
    requires shaped { AllByRecursion (IsShapedNest head.now) nests.now }
    requires level { 1 ≤ level }
    ensures { result ≡ list_any (spec.tangles (length head.now.params) level nest.now) nests.now }
{
    for other in nests {
        if tangles(head, level, nest, other) {
            return true;
        }
    }
    false
}

/// One more, where the other statement is in the loop.
fn count_with(found: usize, level: usize, nest: &Nest, other: &Nest) -> usize
    requires { found < 64 }
    ensures { result ≡ cond (shares_loop level nest.now other.now) (suc found) found }
{
    if shares_loop(level, nest, other) {
        found + 1
    } else {
        found
    }
}

/// How many statements are in the loop.
pub fn count_sharers(level: usize, nest: &Nest, nests: &[Nest]) -> usize
    requires { length nests.now ≤ 64 }
    ensures value { result ≡ spec.count_from 0 level nest.now nests.now }
    ensures small { result ≤ 64 }
{
    let mut found = 0;
    for other in nests {
        found = count_with(found, level, nest, other);
    }
    found
}

/// What is left of the room when the pieces of a statement have it.
fn room_behind(factor: usize, room: usize, role: &Role) -> Option<usize>
    ensures { result ≡ spec.room_behind factor room role.now }
{
    match role {
        Role::Stays => room.checked_sub(1),
        Role::Unrolls(bounds) => match room.checked_sub(bounds.uppers.len()) {
            Some(rest) => rest.checked_sub(factor),
            None => None,
        },
    }
}

/// Whether the pieces of all statements are at most so many.
fn has_room(factor: usize, most: usize, roles: &[Role]) -> bool
    ensures { result ≡ spec.has_room factor most roles.now }
{
    let mut room = most;
    for role in roles {
        match room_behind(factor, room, role) {
            Some(rest) => room = rest,
            None => return false,
        }
    }
    true
}

/// Whether the statement has rests, which would have too many levels.
fn is_deep(nest: &Nest, role: &Role) -> bool
    ensures { result ≡ spec.is_deep nest.now role.now }
{
    match role {
        Role::Stays => false,
        Role::Unrolls(bounds) => 0 < bounds.uppers.len() && 8 <= nest.levels.len(),
    }
}

/// Whether that is so for some statement.
fn any_deep(nests: &[Nest], roles: &[Role]) -> bool
    requires { length nests.now ≡ length roles.now }
    ensures { result ≡ spec.any_deep nests.now roles.now }
{
    for i in 0..nests.len() {
        if is_deep(&nests[i], &roles[i]) {
            return true;
        }
    }
    false
}

/// Whether the factor is none of 2 to 16, or the new kernel would have more than 64 statements or 8 levels.
pub fn is_large(factor: u32, rests: usize, nests: &[Nest], roles: &[Role]) -> bool
    requires { length nests.now ≡ length roles.now }
    ensures { result ≡ spec.is_large factor rests nests.now roles.now }
{
    if !(2 <= factor && factor <= 16) || rests > 64 {
        return true;
    }
    !has_room(factor as usize, 64, roles) || any_deep(nests, roles)
}
