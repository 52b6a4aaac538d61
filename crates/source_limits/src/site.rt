// The assignments of an executor, each with the loops and guards around it.
ghost use Rattle.std.specs.Prelude.{◌≡◌, List, ◌+◌, ◌-◌, ◌≤◌, suc, length, take, vec_len, IsTrue, OnOk, IfOk};
ghost use Rattle.std.specs.List.{list_all};
ghost use Rattle.c_judge.specs.Limits.{count_of, count_in};
ghost use Rattle.c_judge.specs.declared.limits.Counted.TheVariants.{Assignments};
ghost use Rattle.c_tree.specs.declared.program.Array.{Array};
ghost use Rattle.source_limits.specs.Dimensions.{are_declared, is_declared_site, has_declared, have_declared};
ghost use Rattle.source_limits.specs.Executor.{is_executed, are_executed};
ghost use Rattle.source_limits.specs.Sites.{count_loops, is_shallow};

use c_tree::{Cell, Expr, How, Index, Stmt, Test};
use chill_base::{List, Name, NoMemory};
use std::alloc::Global;

/// A loop or a guard around an assignment. `first` is the number of the first assignment in it.
#[derive(Clone, Copy)]
pub enum Around<'a> {
    Loop {
        first: usize,
        var: &'a Name,
        low: &'a Index,
        high: &'a Index,
    },
    Guard {
        first: usize,
        tests: &'a [Test],
    },
}

/// An assignment with what stands around it, from the outside.
#[derive(Drop)]
pub struct Site<'a> {
    pub around: Vec<Around<'a>>,
    /// Its number among the assignments.
    pub number: usize,
    pub target: &'a Cell,
    pub how: How,
    pub value: &'a Expr,
}

/// A walk over an executor: what stands around the place, and the assignments so far.
#[derive(Drop)]
struct Walk<'a> {
    alloc: Global,
    path: Vec<Around<'a>>,
    sites: Vec<Site<'a>>,
}

/// The assignments of an executor, in textual order.
pub fn sites<'a>(alloc: Global, executor: &'a [Stmt]) -> Result<Vec<Site<'a>>, NoMemory>
    requires { IsTrue (are_executed 8 executor.now) }
    ensures shallow { IfOk result (λ v. IsTrue (list_all is_shallow v.items)) }
    ensures count { IfOk result (λ v. length v.items ≡ count_of Assignments executor.now) }
    ensures some { IfOk result (λ v. length executor.now ≤ length v.items) }
    ensures declared { (arrays : List Array) → IsTrue (have_declared arrays executor.now) → IfOk result (λ v. IsTrue (list_all (is_declared_site arrays) v.items)) }
{
    let mut walk = Walk {
        alloc,
        path: Vec::new(alloc),
        sites: Vec::new(alloc),
    };
    visit_all(&mut walk, executor)?;
    let Walk {
        alloc: _,
        path: _path,
        sites,
    } = walk;
    Ok(sites)
}

#[cycle(visit)]
fn visit_all<'a>(walk: &mut Walk<'a>, statements: &'a [Stmt]) -> Result<(), NoMemory>
    requires depth { count_loops walk.old.path.items ≤ 8 }
    requires executed { IsTrue (are_executed (8 - count_loops walk.old.path.items) statements.now) }
    requires shallow { IsTrue (list_all is_shallow walk.old.sites.items) }
    ensures path { OnOk result (walk.new.path.items ≡ walk.old.path.items) }
    ensures shallow { OnOk result (IsTrue (list_all is_shallow walk.new.sites.items)) }
    ensures count { OnOk result (length walk.new.sites.items ≡ length walk.old.sites.items + count_of Assignments statements.now) }
    ensures some { OnOk result (length walk.old.sites.items + length statements.now ≤ length walk.new.sites.items) }
    ensures declared { (arrays : List Array) → IsTrue (list_all (is_declared_site arrays) walk.old.sites.items) → IsTrue (have_declared arrays statements.now) → OnOk result (IsTrue (list_all (is_declared_site arrays) walk.new.sites.items)) }
{
    for statement in statements {
        visit(walk, statement)?;
    }
    Ok(())
}

#[cycle(visit)]
fn visit<'a>(walk: &mut Walk<'a>, statement: &'a Stmt) -> Result<(), NoMemory>
    requires depth { count_loops walk.old.path.items ≤ 8 }
    requires executed { IsTrue (is_executed statement.now (8 - count_loops walk.old.path.items)) }
    requires shallow { IsTrue (list_all is_shallow walk.old.sites.items) }
    ensures path { OnOk result (walk.new.path.items ≡ walk.old.path.items) }
    ensures shallow { OnOk result (IsTrue (list_all is_shallow walk.new.sites.items)) }
    ensures count { OnOk result (length walk.new.sites.items ≡ length walk.old.sites.items + count_in Assignments statement.now) }
    ensures some { OnOk result (length walk.old.sites.items + 1 ≤ length walk.new.sites.items) }
    ensures declared { (arrays : List Array) → IsTrue (list_all (is_declared_site arrays) walk.old.sites.items) → IsTrue (has_declared arrays statement.now) → OnOk result (IsTrue (list_all (is_declared_site arrays) walk.new.sites.items)) }
{
    match statement {
        Stmt::For {
            var,
            low,
            high,
            body,
        } => {
            enter_loop(walk, var, low, high)?;
            visit_inside(walk, body.as_slice())
        }
        Stmt::If { tests, body } => {
            enter_guard(walk, tests.as_slice())?;
            visit_inside(walk, body.as_slice())
        }
        Stmt::Assign { target, how, value } => add_site(walk, target, *how, value),
        Stmt::Put { .. } => unreachable!(),
        Stmt::Declare { .. } => unreachable!(),
        Stmt::Grow { .. } => unreachable!(),
    }
}

#[cycle(visit)]
fn visit_inside<'a>(walk: &mut Walk<'a>, body: &'a [Stmt]) -> Result<(), NoMemory>
    requires depth { count_loops walk.old.path.items ≤ 8 }
    requires executed { IsTrue (are_executed (8 - count_loops walk.old.path.items) body.now) }
    requires body { 1 ≤ length body.now }
    requires shallow { IsTrue (list_all is_shallow walk.old.sites.items) }
    ensures path { OnOk result (walk.new.path.items ≡ take (length walk.old.path.items - 1) walk.old.path.items) }
    ensures shallow { OnOk result (IsTrue (list_all is_shallow walk.new.sites.items)) }
    ensures count { OnOk result (length walk.new.sites.items ≡ length walk.old.sites.items + count_of Assignments body.now) }
    ensures some { OnOk result (length walk.old.sites.items + 1 ≤ length walk.new.sites.items) }
    ensures declared { (arrays : List Array) → IsTrue (list_all (is_declared_site arrays) walk.old.sites.items) → IsTrue (have_declared arrays body.now) → OnOk result (IsTrue (list_all (is_declared_site arrays) walk.new.sites.items)) }
{
    visit_all(walk, body)?;
    let _left = walk.path.pop();
    Ok(())
}

fn enter_loop<'a>(
    walk: &mut Walk<'a>,
    var: &'a Name,
    low: &'a Index,
    high: &'a Index,
) -> Result<(), NoMemory>
    ensures count { OnOk result (count_loops walk.new.path.items ≡ suc (count_loops walk.old.path.items)) }
    ensures path { OnOk result (take (length walk.new.path.items - 1) walk.new.path.items ≡ walk.old.path.items) }
    ensures sites { walk.new.sites ≡ walk.old.sites }
{
    let first = walk.sites.len();
    walk.path.push(Around::Loop {
        first,
        var,
        low,
        high,
    })?;
    Ok(())
}

fn enter_guard<'a>(walk: &mut Walk<'a>, tests: &'a [Test]) -> Result<(), NoMemory>
    ensures count { OnOk result (count_loops walk.new.path.items ≡ count_loops walk.old.path.items) }
    ensures path { OnOk result (take (length walk.new.path.items - 1) walk.new.path.items ≡ walk.old.path.items) }
    ensures sites { walk.new.sites ≡ walk.old.sites }
{
    let first = walk.sites.len();
    walk.path.push(Around::Guard { first, tests })?;
    Ok(())
}

fn add_site<'a>(
    walk: &mut Walk<'a>,
    target: &'a Cell,
    how: How,
    value: &'a Expr,
) -> Result<(), NoMemory>
    requires depth { count_loops walk.old.path.items ≤ 8 }
    requires shallow { IsTrue (list_all is_shallow walk.old.sites.items) }
    ensures path { walk.new.path ≡ walk.old.path }
    ensures shallow { OnOk result (IsTrue (list_all is_shallow walk.new.sites.items)) }
    ensures count { OnOk result (length walk.new.sites.items ≡ length walk.old.sites.items + 1) }
    ensures declared { (arrays : List Array) → IsTrue (list_all (is_declared_site arrays) walk.old.sites.items) → IsTrue (are_declared arrays target.now value.now) → OnOk result (IsTrue (list_all (is_declared_site arrays) walk.new.sites.items)) }
{
    let around = Vec::from_slice(walk.alloc, walk.path.as_slice())?;
    let number = walk.sites.len();
    walk.sites.push(Site {
        around,
        number,
        target,
        how,
        value,
    })?;
    Ok(())
}

/// The number of the first assignment in a loop or a guard.
pub fn first_inside(around: &Around) -> usize {
    match around {
        Around::Loop { first, .. } => *first,
        Around::Guard { first, .. } => *first,
    }
}

/// The place of an assignment: for each loop around it the number of the first assignment in it, and then its own.
pub fn positions(alloc: Global, around: &[Around], number: usize) -> Result<List<usize>, NoMemory>
    ensures { IfOk result (λ ps. length ps ≡ suc (count_loops around.now)) }
{
    let mut places = List::new(alloc);
    for one in around {
        match one {
            Around::Loop { first, .. } => places.push(*first)?,
            Around::Guard { .. } => (),
        }
    }
    places.push(number)?;
    Ok(places)
}
