// `compact_and_pad`.
ghost use Rattle.std.specs.Prelude.{◌≡◌, ◌<◌, ◌≤◌, ◌∷◌, [], length, slice_get, IsTrue, IfOk, IfSome, OnOk, OnErr, Some, None};
ghost use Rattle.nest_core.specs.Shapes.{vars_of, IsShaped, IsShapedNest};
ghost use Rattle.depend_test.specs.Tested.{FindsAt, OnRefused};
ghost use Rattle.pad_layouts.specs.Moved.{is_pick};
ghost use Rattle.pad_layouts.specs.Plans.{plan_of, IsPlan, IsPlanAt};
ghost use Rattle.compact_pad.specs.Answers.{AnswersFirst, IsPadFault, Judges};
ghost use Rattle.compact_pad.specs.Names as names;
ghost use Rattle.compact_pad.specs.Names.{AreFree};
ghost use Rattle.compact_pad.specs.Padded as spec;
ghost use Rattle.compact_pad.specs.Padded.{IsPadded, IsPut};
ghost use Rattle.compact_pad.specs.Tested.{tested_levels, FindNone, IsLevelFault, IsLevelsFault};

use crate::kinds::{Entered, enter_blocks, enter_diagonals, enter_rows};
use crate::names::{free_kept_names, free_row_names};
use chill_base::{Name, Padding, Stop};
use depend_test::{first_compact_dependence, overflow};
use nest_tree::{CommandFault, Kernel, Nest, ShapeWhy};
use one_statement::put_statement;
use pad_layouts::{Layout, Plan, Sides, plan_of};
use std::alloc::Global;

/// What blocks bring into the kernel, or the shape of their names.
fn named_blocks(
    alloc: Global,
    kernel: &Kernel,
    nest: &Nest,
    plan: &Plan,
    sides: Sides,
    name: Name,
) -> Result<Entered, Stop<ShapeWhy>>
    requires shaped { IsShapedNest kernel.now.head nest.now }
    requires depth { length nest.now.levels ≡ 5 }
    ensures value { IfOk result (λ e. spec.named_blocks kernel.now.head.params nest.now plan.now sides name ≡ Some e) }
    ensures free { OnOk result (AreFree kernel.now (names.kept_list name)) }
    ensures shape { Judges (names.shape_of kernel.now (names.kept_list name)) result }
    ensures shaped { IfOk result (λ e. IsShapedNest kernel.now.head e.nest) }
{
    let names = free_kept_names(kernel, name)?;
    Ok(enter_blocks(alloc, &kernel.head, nest, plan, sides, &names)?)
}

/// What diagonals bring into the kernel, or the shape of their names.
fn named_diagonals(
    alloc: Global,
    kernel: &Kernel,
    nest: &Nest,
    plan: &Plan,
    name: Name,
) -> Result<Entered, Stop<ShapeWhy>>
    requires shaped { IsShapedNest kernel.now.head nest.now }
    requires depth { length nest.now.levels ≡ 3 }
    ensures value { IfOk result (λ e. spec.named_diagonals kernel.now.head.params nest.now plan.now name ≡ Some e) }
    ensures free { OnOk result (AreFree kernel.now (names.kept_list name)) }
    ensures shape { Judges (names.shape_of kernel.now (names.kept_list name)) result }
    ensures shaped { IfOk result (λ e. IsShapedNest kernel.now.head e.nest) }
{
    let names = free_kept_names(kernel, name)?;
    Ok(enter_diagonals(alloc, &kernel.head, nest, plan, &names)?)
}

/// What padded rows bring into the kernel, or the shape of their names.
fn named_rows(
    alloc: Global,
    kernel: &Kernel,
    nest: &Nest,
    plan: &Plan,
    name: Name,
) -> Result<Entered, Stop<ShapeWhy>>
    requires shaped { IsShapedNest kernel.now.head nest.now }
    requires depth { length nest.now.levels ≡ 2 }
    requires column { IsTrue (is_pick (vars_of (length kernel.now.head.params) nest.now) plan.now.column) }
    ensures value { IfOk result (λ e. spec.named_rows kernel.now.head.params nest.now plan.now name ≡ Some e) }
    ensures free { OnOk result (AreFree kernel.now (names.row_list name)) }
    ensures shape { Judges (names.shape_of kernel.now (names.row_list name)) result }
    ensures shaped { IfOk result (λ e. IsShapedNest kernel.now.head e.nest) }
{
    let names = free_row_names(kernel, name)?;
    Ok(enter_rows(alloc, &kernel.head, nest, plan, &names)?)
}

/// What the padding brings into the kernel, or the shape of its names.
fn entered(
    alloc: Global,
    kernel: &Kernel,
    nest: &Nest,
    plan: &Plan,
    name: Name,
) -> Result<Entered, Stop<ShapeWhy>>
    requires shaped { IsShapedNest kernel.now.head nest.now }
    requires plan { IsPlan kernel.now.head nest.now plan.now }
    ensures value { IfOk result (λ e. spec.entered kernel.now.head.params nest.now plan.now name ≡ Some e) }
    ensures free { OnOk result (AreFree kernel.now (names.made_list plan.now.layout name)) }
    ensures shape { Judges (names.name_shape kernel.now plan.now.layout name) result }
    ensures shaped { IfOk result (λ e. IsShapedNest kernel.now.head e.nest) }
{
    match plan.layout {
        Layout::Block {
            rows,
            cols,
            swapped,
        } => {
            let sides = Sides {
                rows,
                cols,
                swapped,
            };
            named_blocks(alloc, kernel, nest, plan, sides, name)
        }
        Layout::Diag => named_diagonals(alloc, kernel, nest, plan, name),
        Layout::Rows => named_rows(alloc, kernel, nest, plan, name),
    }
}

/// Tests whether instances that differ first at the level may come in any order.
fn test_level(
    alloc: Global,
    kernel: &Kernel,
    statement: usize,
    level: usize,
) -> Result<(), Stop<CommandFault>>
    requires shaped { IsShaped kernel.now }
    requires statement { statement < length kernel.now.nests }
    requires level { IfSome (slice_get kernel.now.nests statement) (λ n. (1 ≤ level) × (level ≤ length n.levels)) }
    ensures tested { OnOk result (FindsAt kernel.now statement level None) }
    ensures faults { OnRefused result (IsLevelFault kernel.now statement level) }
{
    match first_compact_dependence(alloc, kernel, statement, level) {
        Ok(Some(dependence)) => Err(Stop::Refused(CommandFault::Depends(dependence))),
        Ok(None) => Ok(()),
        Err(stop) => Err(overflow(stop)),
    }
}

/// Tests one level, and then another.
fn test_two(
    alloc: Global,
    kernel: &Kernel,
    statement: usize,
    first: usize,
    second: usize,
) -> Result<(), Stop<CommandFault>>
    requires shaped { IsShaped kernel.now }
    requires statement { statement < length kernel.now.nests }
    requires first { IfSome (slice_get kernel.now.nests statement) (λ n. (1 ≤ first) × (first ≤ length n.levels)) }
    requires second { IfSome (slice_get kernel.now.nests statement) (λ n. (1 ≤ second) × (second ≤ length n.levels)) }
    ensures tested { OnOk result (FindNone kernel.now statement (first ∷ second ∷ [])) }
    ensures faults { OnRefused result (IsLevelsFault kernel.now statement (first ∷ second ∷ [])) }
{
    test_level(alloc, kernel, statement, first)?;
    test_level(alloc, kernel, statement, second)
}

/// Tests the compacted level, and then that of the entry's place, since the entries of a row and a column are put together.
/// Padded rows keep the order.
fn test(
    alloc: Global,
    kernel: &Kernel,
    statement: usize,
    plan: &Plan,
) -> Result<(), Stop<CommandFault>>
    requires shaped { IsShaped kernel.now }
    requires plan { IsPlanAt kernel.now statement plan.now }
    ensures tested { OnOk result (FindNone kernel.now statement (tested_levels plan.now.layout)) }
    ensures faults { OnRefused result (IsLevelsFault kernel.now statement (tested_levels plan.now.layout)) }
{
    match plan.layout {
        Layout::Block { .. } => test_two(alloc, kernel, statement, 2, 5),
        Layout::Diag => test_two(alloc, kernel, statement, 1, 3),
        Layout::Rows => Ok(()),
    }
}

/// What the padding of a statement brings into the kernel, or why it is refused before any test.
fn entered_at(
    alloc: Global,
    kernel: &Kernel,
    statement: usize,
    plan: &Plan,
    name: Name,
) -> Result<Entered, Stop<CommandFault>>
    requires shaped { IsShaped kernel.now }
    requires plan { IsPlanAt kernel.now statement plan.now }
    ensures put { IfOk result (λ e. IsPut kernel.now statement plan.now name e) }
    ensures free { OnOk result (AreFree kernel.now (names.made_list plan.now.layout name)) }
    ensures named { OnOk result (names.name_shape kernel.now plan.now.layout name ≡ None) }
    ensures faults { OnRefused result (IsPadFault kernel.now statement plan.now name) }
    ensures shaped { IfOk result (λ e. IsShapedNest kernel.now.head e.nest) }
{
    let nest = &kernel.nests.as_slice()[statement];
    match entered(alloc, kernel, nest, plan, name) {
        Ok(entered) => Ok(entered),
        Err(Stop::Refused(why)) => Err(Stop::Refused(CommandFault::Shape(why))),
        Err(Stop::NoMemory) => Err(Stop::NoMemory),
    }
}

/// Pads the statement by a plan.
fn pad_by(
    alloc: Global,
    kernel: &mut Kernel,
    statement: usize,
    plan: &Plan,
    name: Name,
) -> Result<(), Stop<CommandFault>>
    requires shaped { IsShaped kernel.old }
    requires plan { IsPlanAt kernel.old statement plan.now }
    ensures padded { OnOk result (IsPadded kernel.old kernel.new statement plan.now name) }
    ensures free { OnOk result (AreFree kernel.old (names.made_list plan.now.layout name)) }
    ensures faults { OnRefused result (IsPadFault kernel.old statement plan.now name) }
    ensures shaped { OnOk result (IsShaped kernel.new) }
    ensures unchanged { OnErr result (kernel.new ≡ kernel.old) }
{
    let Entered { nest, made, lines } = entered_at(alloc, kernel, statement, plan, name)?;
    test(alloc, kernel, statement, plan)?;
    put_statement(alloc, kernel, statement, nest, made, lines)?;
    Ok(())
}

/// The statement goes over dense blocks, over diagonals, or over rows of one width in the place of a matrix's entries; the
/// inspector lays them out. Of a cell without an entry, 0 is added.
pub fn compact_and_pad(
    alloc: Global,
    kernel: &mut Kernel,
    statement: usize,
    level: usize,
    kind: Padding,
    name: Name,
) -> Result<(), Stop<CommandFault>>
    requires { IsShaped kernel.old }
    ensures first { AnswersFirst kernel.old statement name (plan_of kernel.old statement level kind) result }
    ensures padded { OnOk result (IfOk (plan_of kernel.old statement level kind) (λ p. IsPadded kernel.old kernel.new statement p name)) }
    ensures free { OnOk result (IfOk (plan_of kernel.old statement level kind) (λ p. AreFree kernel.old (names.made_list p.layout name))) }
    ensures shaped { OnOk result (IsShaped kernel.new) }
    ensures unchanged { OnErr result (kernel.new ≡ kernel.old) }
{
    match plan_of(kernel, statement, level, kind) {
        Ok(plan) => pad_by(alloc, kernel, statement, &plan, name),
        Err(why) => Err(Stop::Refused(CommandFault::Shape(why))),
    }
}
