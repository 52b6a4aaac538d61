// Arrays that must stay as they are: those of the signature in an inspector, index arrays in an executor, and what the
// upper bound of an inspector's loop names in its body.
ghost use Rattle.std.specs.Prelude.{◌≡◌, [], IfOk, map};
ghost use Rattle.c_judge.specs.Names as names;
ghost use Rattle.c_judge.specs.Fixed as spec;
ghost use Rattle.c_judge.specs.Outcomes.{Tells};

use crate::ProgramFault;
use crate::names::{Part, refuse};
use crate::scope::{Meaning, Scope};
use crate::uses::{Rule, index_fault};
use c_tree::{Index, Kind, Stmt};
use chill_base::{Name, NoMemory, Stop};
use std::alloc::Global;

fn change_fault(part: Part, name: Name, meaning: Option<Meaning>) -> Option<ProgramFault>
    ensures { result ≡ spec.change_fault part name meaning }
{
    match (part, meaning) {
        (Part::Executor, Some(Meaning::Array(Kind::Position, _, _))) => {
            Some(ProgramFault::Fixed { name })
        }
        (Part::Inspector, Some(Meaning::Array(_, _, false))) => Some(ProgramFault::Fixed { name }),
        _ => None,
    }
}

// Adds a growable array that isn't there yet.
fn add_growable(changed: &mut Scope, name: Name, meaning: Option<Meaning>) -> Result<(), NoMemory>
    ensures { IfOk result (λ u. changed.new ≡ spec.with_growable name meaning changed.old) }
{
    match meaning {
        Some(Meaning::Array(kind, extents, true)) => match changed.find(name) {
            Some(_) => Ok(()),
            None => changed.enter(name, Meaning::Array(kind, extents, true)),
        },
        _ => Ok(()),
    }
}

// Adds the growable arrays that the statements change.
#[cycle(changed)]
fn add_all(
    scope: &Scope,
    part: Part,
    changed: &mut Scope,
    statements: &[Stmt],
) -> Result<(), NoMemory>
    ensures { IfOk result (λ u. changed.new ≡ spec.all_onto (map (spec.changes scope.now part) statements.now) changed.old) }
{
    for statement in statements {
        add_one(scope, part, changed, statement)?;
    }
    Ok(())
}

#[cycle(changed)]
fn add_one(scope: &Scope, part: Part, changed: &mut Scope, statement: &Stmt) -> Result<(), NoMemory>
    ensures { IfOk result (λ u. changed.new ≡ (spec.changes scope.now part statement.now).onto changed.old) }
{
    match statement {
        Stmt::For { body, .. } => add_all(scope, part, changed, body.as_slice()),
        Stmt::If { body, .. } => add_all(scope, part, changed, body.as_slice()),
        Stmt::Assign { target, .. } => add_growable(
            changed,
            target.array,
            scope.find(target.array),
        ),
        Stmt::Put { target, .. } => add_growable(changed, target.array, scope.find(target.array)),
        Stmt::Declare { .. } => Ok(()),
        Stmt::Grow { name, .. } => add_growable(changed, *name, scope.find(*name)),
    }
}

// The first name of a loop's upper bound that its body changes.
fn judge_bound(
    alloc: Global,
    scope: &Scope,
    part: Part,
    high: &Index,
    body: &[Stmt],
) -> Result<(), Stop<ProgramFault>>
    ensures { Tells (spec.bound_fault part high.now (map (spec.changes scope.now part) body.now)) result }
{
    match part {
        Part::Executor => Ok(()),
        Part::Inspector => {
            let mut changed = Scope::new(alloc);
            add_all(scope, part, &mut changed, body)?;
            refuse(index_fault(Rule::Unchanged, &changed, high))
        }
    }
}

/// The first array that the statements change though it must stay as it is.
#[cycle(fixed)]
pub fn judge_fixed(
    alloc: Global,
    scope: &Scope,
    part: Part,
    statements: &[Stmt],
) -> Result<(), Stop<ProgramFault>>
    ensures { Tells (spec.fixed_fault scope.now part statements.now) result }
{
    for statement in statements {
        judge_change(alloc, scope, part, statement)?;
    }
    Ok(())
}

#[cycle(fixed)]
fn judge_change(
    alloc: Global,
    scope: &Scope,
    part: Part,
    statement: &Stmt,
) -> Result<(), Stop<ProgramFault>>
    ensures { Tells (spec.changes scope.now part statement.now).fault result }
{
    match statement {
        Stmt::For { high, body, .. } => {
            judge_bound(alloc, scope, part, high, body.as_slice())?;
            judge_fixed(alloc, scope, part, body.as_slice())
        }
        Stmt::If { body, .. } => judge_fixed(alloc, scope, part, body.as_slice()),
        Stmt::Assign { target, .. } => {
            refuse(change_fault(part, target.array, scope.find(target.array)))
        }
        Stmt::Put { target, .. } => {
            refuse(change_fault(part, target.array, scope.find(target.array)))
        }
        Stmt::Declare { .. } => Ok(()),
        Stmt::Grow { name, .. } => refuse(change_fault(part, *name, scope.find(*name))),
    }
}
