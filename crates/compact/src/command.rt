// `compact`: a level runs over the values that the entries have.
ghost use Rattle.std.specs.Prelude.{◌≡◌, ◌<◌, ◌≤◌, ◌∷◌, [], length, slice_get, true, IfOk, IfSome, OnOk, OnErr, Ok, Some, None};
ghost use Rattle.nest_core.specs.Making.{Gives};
ghost use Rattle.nest_core.specs.Shapes.{IsShaped, IsShapedNest};
ghost use Rattle.depend_test.specs.Tested.{FindsAt, OnRefused};
ghost use Rattle.inspectors.specs.Numbers.{IsKept};
ghost use Rattle.one_statement.specs.Put as putting;
ghost use Rattle.compact.specs.Entered as entered;
ghost use Rattle.compact.specs.Entered.{IsCompacted, IsEntered, IsPlan};
ghost use Rattle.compact.specs.Faults as faults;
ghost use Rattle.compact.specs.Faults.{AnswersFirst, IsFaultOf, IsPlanFault};
ghost use Rattle.compact.specs.Shapes as shapes;
ghost use Rattle.compact.specs.Shapes.{Judges};
ghost use Rattle.nest_limits.specs.Brackets.{are_within};

use crate::arrays::{lines, made_arrays};
use crate::names::free_names;
use crate::plan::Plan;
use crate::shapes::target;
use crate::statement::compacted;
use c_tree::Program;
use chill_base::{Name, NoMemory, Stop};
use depend_test::{first_compact_dependence, overflow};
use nest_limits::are_within;
use nest_tree::{CommandFault, Kernel, Nest, ShapeWhy};
use one_statement::put_statement;
use std::alloc::Global;

/// What is compacted, or the lowest shape that holds.
fn judged(kernel: &Kernel, statement: usize, level: usize, prefix: Name) -> Result<Plan, ShapeWhy>
    ensures shape { Judges (faults.judged_shape kernel.now statement level prefix) result }
    ensures plan { IfOk result (λ p. IsPlan kernel.now statement level prefix p) }
    ensures small { IfOk result (λ p. IsKept p.target.form) }
{
    let target = target(kernel, statement, level)?;
    let names = free_names(kernel, prefix)?;
    Ok(Plan { target, names })
}

/// The statement, where its expressions have no more brackets than the limit.
fn within(head: &Program, nest: Nest) -> Result<Nest, Stop<CommandFault>>
    requires { IsShapedNest head.now nest }
    ensures value { IfOk result (λ n. n ≡ nest) }
    ensures within { IfOk result (λ n. are_within (length head.now.params) (n ∷ []) ≡ true) }
    ensures faults { OnRefused result (faults.IsTooDeep (length head.now.params) nest) }
{
    let nests = [nest];
    if !are_within(head, &nests) {
        return Err(Stop::Refused(CommandFault::Shape(ShapeWhy::Limit)));
    }
    let [nest] = nests;
    Ok(nest)
}

/// The statement over the places of kept values.
fn new_statement(
    alloc: Global,
    kernel: &Kernel,
    statement: usize,
    level: usize,
    plan: &Plan,
) -> Result<Nest, Stop<CommandFault>>
    requires shaped { IsShaped kernel.now }
    requires target { shapes.IsTarget kernel.now statement level plan.now.target }
    ensures new { IfOk result (λ n. entered.IsNew kernel.now statement level plan.now n) }
    ensures within { IfOk result (λ n. are_within (length kernel.now.head.params) (n ∷ []) ≡ true) }
    ensures faults { OnRefused result (IsFaultOf kernel.now statement level plan.now) }
{
    let nest = &kernel.nests.as_slice()[statement];
    match compacted(
        alloc,
        &kernel.head,
        nest,
        level,
        plan.target.group,
        &plan.names,
    ) {
        Ok(new) => within(&kernel.head, new),
        Err(stop) => Err(overflow(stop)),
    }
}

/// Judges whether instances that differ first at the level name one cell by conflicting accesses.
fn test(
    alloc: Global,
    kernel: &Kernel,
    statement: usize,
    level: usize,
) -> Result<(), Stop<CommandFault>>
    requires shaped { IsShaped kernel.now }
    requires statement { statement < length kernel.now.nests }
    requires level { IfSome (slice_get kernel.now.nests statement) (λ n. (1 ≤ level) × (level ≤ length n.levels)) }
    ensures tested { OnOk result (FindsAt kernel.now statement level None) }
    ensures faults { OnRefused result (faults.IsLevelFault kernel.now statement level) }
{
    match first_compact_dependence(alloc, kernel, statement, level) {
        Ok(Some(dependence)) => Err(Stop::Refused(CommandFault::Depends(dependence))),
        Ok(None) => Ok(()),
        Err(stop) => Err(overflow(stop)),
    }
}

/// Puts the statement, its arrays and its lines into the kernel.
fn enter(
    alloc: Global,
    kernel: &mut Kernel,
    statement: usize,
    plan: &Plan,
    nest: Nest,
) -> Result<(), NoMemory>
    requires shaped { IsShaped kernel.old }
    requires statement { statement < length kernel.old.nests }
    requires matrix { plan.now.target.matrix < length kernel.old.head.matrices }
    requires kept { IsKept plan.now.target.form }
    requires nest { IsShapedNest kernel.old.head nest }
    ensures entered { OnOk result (IsEntered kernel.old kernel.new statement plan.now nest) }
    ensures shaped { OnOk result (IsShaped kernel.new) }
    ensures unchanged { OnErr result (kernel.new ≡ kernel.old) }
{
    let made = made_arrays(alloc, &plan.target, &plan.names)?;
    let lines = lines(alloc, &kernel.head, &plan.target, &plan.names)?;
    put_statement(alloc, kernel, statement, nest, made, lines)
}

/// Compacts the level by a plan.
fn compact_by(
    alloc: Global,
    kernel: &mut Kernel,
    statement: usize,
    level: usize,
    prefix: Name,
    plan: &Plan,
) -> Result<(), Stop<CommandFault>>
    requires shaped { IsShaped kernel.old }
    requires plan { IsPlan kernel.old statement level prefix plan.now }
    requires kept { IsKept plan.now.target.form }
    ensures compacted { OnOk result (IsCompacted kernel.old kernel.new statement level prefix) }
    ensures faults { OnRefused result (IsPlanFault kernel.old statement level prefix) }
    ensures shaped { OnOk result (IsShaped kernel.new) }
    ensures unchanged { OnErr result (kernel.new ≡ kernel.old) }
{
    let nest = new_statement(alloc, kernel, statement, level, plan)?;
    test(alloc, kernel, statement, level)?;
    enter(alloc, kernel, statement, plan, nest)?;
    Ok(())
}

/// The level runs over the places of the values that the entries of its group have, in order of first appearance. The
/// inspector finds these values.
pub fn compact(
    alloc: Global,
    kernel: &mut Kernel,
    statement: usize,
    level: usize,
    name: Name,
) -> Result<(), Stop<CommandFault>>
    requires { IsShaped kernel.old }
    ensures first { AnswersFirst kernel.old statement level name (faults.judged_shape kernel.old statement level name) result }
    ensures compacted { OnOk result (IsCompacted kernel.old kernel.new statement level name) }
    ensures shaped { OnOk result (IsShaped kernel.new) }
    ensures unchanged { OnErr result (kernel.new ≡ kernel.old) }
{
    match judged(kernel, statement, level, name) {
        Ok(plan) => compact_by(alloc, kernel, statement, level, name, &plan),
        Err(why) => Err(Stop::Refused(CommandFault::Shape(why))),
    }
}
