// What becomes of each statement.
ghost use Rattle.std.specs.Prelude.{◌≡◌, ◌≤◌, length, IfOk, IfSome};
ghost use Rattle.std.specs.List.{AllByRecursion};
ghost use Rattle.nest_core.specs.Order.{shares_loop};
ghost use Rattle.nest_core.specs.Shapes.{IsShapedNest, vars_of};
ghost use Rattle.affine_moves.specs.Change.{is_level};
ghost use Rattle.unroll.specs.Bounds.{AreBounds, first_term};
ghost use Rattle.unroll.specs.Moves.{role_of, roles_of, RoleFits, RolesFit};

use crate::bounds::{Bounds, bounds_of};
use crate::same::same_bounds;
use c_tree::Program;
use chill_base::{List, NoMemory};
use nest_core::shares_loop;
use nest_tree::Nest;
use std::alloc::Global;

/// What becomes of a statement: it stays, or it is unrolled by the rows that bound the level.
#[derive(Drop)]
pub enum Role {
    Stays,
    Unrolls(Bounds),
}

/// What becomes of a statement, where it has one lower row that may go or isn't in the loop.
#[tactic(auto, unfolding(crate::specs::Moves::role_of))]
fn role_of(
    alloc: Global,
    head: &Program,
    level: usize,
    nest: &Nest,
    other: &Nest,
) -> Result<Option<Role>, NoMemory>
    requires shaped { IsShapedNest head.now other.now }
    requires level { 1 ≤ level }
    ensures { IfOk result (λ role. role ≡ role_of (length head.now.params) level nest.now other.now) }
{
    if !shares_loop(level, nest, other) {
        return Ok(Some(Role::Stays));
    }
    match bounds_of(alloc, head, level, other)? {
        Some(bounds) => Ok(Some(Role::Unrolls(bounds))),
        None => Ok(None),
    }
}

/// What becomes of each statement, where each that is in the loop has one lower row that may go.
pub fn roles_of(
    alloc: Global,
    head: &Program,
    level: usize,
    nest: &Nest,
    nests: &[Nest],
) -> Result<Option<List<Role>>, NoMemory>
    requires shaped { AllByRecursion (IsShapedNest head.now) nests.now }
    requires level { 1 ≤ level }
    ensures roles { IfOk result (λ found. found ≡ roles_of (length head.now.params) level nest.now nests.now) }
    ensures fit { IfOk result (λ found. IfSome found (λ rs. RolesFit (length head.now.params) level nests.now rs)) }
{
    let mut roles = List::new(alloc);
    for other in nests {
        match role_of(alloc, head, level, nest, other)? {
            Some(role) => roles.push(role)?,
            None => return Ok(None),
        }
    }
    Ok(Some(roles))
}

/// Whether a statement that is unrolled has the same rows as the one of these bounds.
fn agrees(
    head: &Program,
    level: usize,
    nest: &Nest,
    mine: &Bounds,
    other: &Nest,
    role: &Role,
) -> bool
    requires nest { IsShapedNest head.now nest.now }
    requires other { IsShapedNest head.now other.now }
    requires mine { AreBounds (length head.now.params) nest.now mine.now }
    requires role { RoleFits (length head.now.params) level other.now role.now }
{
    match role {
        Role::Stays => true,
        Role::Unrolls(bounds) => {
            nest.levels.len() == other.levels.len()
                && same_bounds(
                    head.params.as_slice().len() + nest.levels.len(),
                    nest.terms.as_slice(),
                    other.terms.as_slice(),
                    mine,
                    bounds,
                )
        }
    }
}

/// Whether all statements that are unrolled have the same rows as this one.
pub fn all_agree(
    head: &Program,
    level: usize,
    nest: &Nest,
    mine: &Bounds,
    nests: &[Nest],
    roles: &[Role],
) -> bool
    requires nest { IsShapedNest head.now nest.now }
    requires nests { AllByRecursion (IsShapedNest head.now) nests.now }
    requires mine { AreBounds (length head.now.params) nest.now mine.now }
    requires roles { RolesFit (length head.now.params) level nests.now roles.now }
{
    for i in 0..nests.len() {
        if !agrees(head, level, nest, mine, &nests[i], &roles[i]) {
            return false;
        }
    }
    true
}
