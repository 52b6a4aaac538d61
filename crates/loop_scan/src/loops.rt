// The loops of a kernel, from the outside and in textual order.
ghost use Rattle.std.specs.Prelude.{◌≡◌, ◌+◌, ◌≤◌, ◌<◌, ◌^◌, ◌++◌, length, IfOk, OnOk};
ghost use Rattle.nest_core.specs.Shapes.{IsShaped};
ghost use Rattle.loop_scan.specs.Groups.{HasLevel, IsGroup};
ghost use Rattle.loop_scan.specs.Heads.{KeepsHead};
ghost use Rattle.loop_scan.specs.Choices.{known_of};

use crate::assignment::{Around, gained_tests, guarded, scan_assignment};
use crate::group::{Group, group_end};
use crate::head::{Head, ask_bounds, printed_sides, write_head, writer};
use crate::nests::nest_at;
use crate::part::{Part, make_parts};
use crate::safe::Opening;
use crate::sides::{Sides, all_sides};
use c_tree::{Program, Stmt, Test};
use chill_base::{List, NoMemory, Stop};
use nest_tree::Kernel;
use scan_forms::{
    Claim, MOST_LEVELS, ScanFault, Sizes, Table, level_name, push_claims, with_executor,
};
use std::alloc::Global;

/// A loop's head, the tests around it, and what is known in it.
#[derive(Drop)]
struct Opened {
    head: Head,
    tests: List<Test>,
    around: Around,
}

/// Appends the rows of the bounds of a loop whose statements all have the same.
fn push_known(alloc: Global, context: &mut List<Claim>, printed: &[Sides]) -> Result<(), NoMemory>
    ensures { OnOk result (context.new ≡ context.old ++ known_of printed.now) }
{
    match printed {
        [sides] => push_claims(alloc, context, sides.used.as_slice()),
        _ => Ok(()),
    }
}

fn order_of(printed: &[Sides]) -> &[usize] {
    match printed {
        [first, ..] => first.order.as_slice(),
        [] => &[],
    }
}

/// The sizes with that of one more level.
fn with_size(sizes: Sizes, level: usize, size: u128) -> Sizes
    requires low { 1 ≤ level }
    requires high { level ≤ MOST_LEVELS }
{
    let mut all = sizes;
    all[level - 1] = size;
    all
}

/// What is known before the bounds of a loop are read.
fn ask(
    alloc: Global,
    kernel: &Kernel,
    table: &mut Table,
    printed: &[Sides],
    known: &[Claim],
) -> Result<List<Claim>, NoMemory>
    ensures { IfOk result (λ context. length known.now ≤ length context) }
{
    let mut context = List::new(alloc);
    push_claims(alloc, &mut context, known)?;
    ask_bounds(alloc, kernel, table, &mut context, printed)?;
    Ok(context)
}

/// A loop's head, by the sides that are printed.
fn open(
    alloc: Global,
    kernel: &Kernel,
    table: &mut Table,
    group: Group,
    printed: &[Sides],
    around: &Around,
) -> Result<Opened, Stop<ScanFault>>
    requires low { 1 ≤ group.level }
    requires high { group.level ≤ 8 }
    requires room { group.from + length printed.now < 2 ^ 64 }
{
    let head = write_head(alloc, kernel, table, group, printed, around.sizes)?;
    let known = around.context.as_slice();
    let mut context = ask(alloc, kernel, table, printed, known)?;
    let order = order_of(printed);
    let w = writer(alloc, kernel, table, order, around.sizes, group.from);
    let tests = gained_tests(w, known.len(), context.as_slice())?;
    push_known(alloc, &mut context, printed)?;
    let sizes = with_size(around.sizes, group.level, head.size);
    Ok(Opened {
        head,
        tests,
        around: Around { context, sizes },
    })
}

/// A loop of this head and body.
fn make_loop(
    alloc: Global,
    level: usize,
    head: Head,
    tests: List<Test>,
    body: List<Stmt>,
) -> Result<Stmt, NoMemory>
    requires low { 1 ≤ level }
    requires high { level ≤ 8 }
{
    let Head { low, high, size: _ } = head;
    let statement = Stmt::For {
        var: level_name(level - 1),
        low,
        high,
        body,
    };
    guarded(alloc, tests, statement)
}

/// What stands around the statements of a loop.
fn open_loop(
    alloc: Global,
    kernel: &Kernel,
    table: &mut Table,
    parts: &mut [Part],
    group: Group,
    around: &Around,
) -> Result<Opened, Stop<ScanFault>>
    requires shaped { IsShaped kernel.now }
    requires parts { length parts.old ≡ length kernel.now.nests }
    requires group { IsGroup kernel.now.nests group }
{
    let opening = Opening {
        alloc,
        kernel,
        group,
        context: around.context.as_slice(),
    };
    let all = all_sides(opening, table, parts)?;
    open(
        alloc,
        kernel,
        table,
        group,
        printed_sides(all.as_slice()),
        around,
    )
}

/// A loop around statements.
#[cycle(scan)]
fn scan_loop(
    alloc: Global,
    kernel: &Kernel,
    table: &mut Table,
    parts: &mut [Part],
    group: Group,
    around: &Around,
) -> Result<Stmt, Stop<ScanFault>>
    requires shaped { IsShaped kernel.now }
    requires parts { length parts.old ≡ length kernel.now.nests }
    requires group { IsGroup kernel.now.nests group }
{
    let Opened {
        head,
        tests,
        around: inner,
    } = open_loop(alloc, kernel, table, parts, group, around)?;
    let body = scan_range(alloc, kernel, table, parts, group, &inner)?;
    Ok(make_loop(alloc, group.level, head, tests, body)?)
}

/// The statements of a group, each in the loops that are left around it.
#[cycle(scan)]
fn scan_range(
    alloc: Global,
    kernel: &Kernel,
    table: &mut Table,
    parts: &mut [Part],
    group: Group,
    around: &Around,
) -> Result<List<Stmt>, Stop<ScanFault>>
    requires shaped { IsShaped kernel.now }
    requires parts { length parts.old ≡ length kernel.now.nests }
    requires within { group.to ≤ length kernel.now.nests }
    requires level { group.level ≤ 8 }
{
    let mut statements = List::new(alloc);
    let mut at = group.from;
    while at < group.to {
        if nest_at(kernel, at).levels.len() > group.level {
            let inner = inner_group(kernel, at, group);
            statements.push(scan_loop(alloc, kernel, table, parts, inner, around)?)?;
            at = inner.to;
        } else {
            statements.push(scan_assignment(alloc, kernel, table, &parts[at], at, around)?)?;
            at += 1;
        }
    }
    Ok(statements)
}

/// The next loop of a group: that around the statement at a number.
fn inner_group(kernel: &Kernel, at: usize, group: Group) -> Group
    requires shaped { IsShaped kernel.now }
    requires at { at < group.to }
    requires within { group.to ≤ length kernel.now.nests }
    requires deeper { HasLevel kernel.now.nests (group.level + 1) at }
    ensures group { IsGroup kernel.now.nests result }
    ensures level { result.level ≡ group.level + 1 }
    ensures more { at < result.to }
    ensures within { result.to ≤ group.to }
{
    let level = group.level + 1;
    let to = group_end(kernel.nests.as_slice(), at, group.to, level);
    Group {
        from: at,
        to,
        level,
    }
}

fn scan_all(alloc: Global, kernel: &Kernel) -> Result<List<Stmt>, Stop<ScanFault>>
    requires { IsShaped kernel.now }
{
    let mut table = Table::new(alloc);
    let mut parts = make_parts(alloc, &kernel.head, kernel.nests.as_slice(), &mut table)?;
    let group = Group {
        from: 0,
        to: kernel.nests.len(),
        level: 0,
    };
    let around = Around {
        context: List::new(alloc),
        sizes: [0; MOST_LEVELS],
    };
    scan_range(alloc, kernel, &mut table, &mut parts, group, &around)
}

/// The program that a kernel is printed as: its signature and its inspector, and the loops around its statements.
pub fn scan(alloc: Global, kernel: &Kernel) -> Result<Program, Stop<ScanFault>>
    requires { IsShaped kernel.now }
    ensures { IfOk result (λ program. KeepsHead kernel.now.head program) }
{
    let executor = scan_all(alloc, kernel)?;
    Ok(with_executor(alloc, &kernel.head, executor)?)
}
