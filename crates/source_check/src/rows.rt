// The rows of loops and guards.
ghost use Rattle.std.specs.Prelude.{◌≡◌, ℕ, ◌+◌, ◌≤◌, ◌<◌, ◌^◌, [], ◌∷◌, length, IfOk, OnOk, IsTrue};
ghost use Rattle.std.specs.List.{list_all};
ghost use Rattle.nest_core.specs.Shapes.{is_row_over};
ghost use Rattle.source_limits.specs.Sites.{count_loops};

use c_tree::{Cmp, Index, Test};
use chill_base::{List, NoMemory, Stop};
use int_rows::{Aff, Row};
use nest_systems::unit_form;
use nest_tree::KernelRow;
use source_limits::{Around, At, End, Part, SourceFault, Variables, form, operands};
use std::alloc::Global;

/// The form `a - b - less`.
pub fn difference(alloc: Global, a: &Aff, b: &Aff, less: i128) -> Result<Aff, NoMemory>
    requires { length a.now.coefs ≡ length b.now.coefs }
    ensures { IfOk result (λ f. length f.coefs ≡ length a.now.coefs) }
{
    let xs = a.coefs.as_slice();
    let ys = b.coefs.as_slice();
    let mut coefs = List::new(alloc);
    for i in 0..xs.len() {
        coefs.push(xs[i].saturating_sub(ys[i]))?;
    }
    Ok(Aff {
        coefs,
        constant: a.constant.saturating_sub(b.constant).saturating_sub(less),
    })
}

/// Whether a test says that its sides are equal.
fn is_same(cmp: Cmp) -> bool {
    match cmp {
        Cmp::Same => true,
        _ => false,
    }
}

/// The form of a test: the greater side less the other, and 1 less where they may not be equal.
fn test_form(alloc: Global, cmp: Cmp, left: &Aff, right: &Aff) -> Result<Aff, NoMemory>
    requires { length left.now.coefs ≡ length right.now.coefs }
    ensures { IfOk result (λ f. length f.coefs ≡ length left.now.coefs) }
{
    match cmp {
        Cmp::Less => difference(alloc, right, left, 1),
        Cmp::AtMost => difference(alloc, right, left, 0),
        Cmp::More => difference(alloc, left, right, 1),
        Cmp::AtLeast => difference(alloc, left, right, 0),
        Cmp::Same => difference(alloc, left, right, 0),
    }
}

/// Appends the row of a test.
pub fn push_test(
    alloc: Global,
    rows: &mut List<KernelRow>,
    statement: usize,
    vars: Variables,
    test: &Test,
) -> Result<(), Stop<SourceFault>>
    ensures { (d : ℕ) → IsTrue (list_all (is_row_over (length vars.entry.names.now + length vars.entry.reads.now) d) rows.old) → OnOk result (IsTrue (list_all (is_row_over (length vars.entry.names.now + length vars.entry.reads.now) d) rows.new)) }
{
    let at = At {
        statement,
        part: Part::Guard,
    };
    let left = form(alloc, at, vars, &test.left)?;
    let right = form(alloc, at, vars, &test.right)?;
    let row = Row {
        equal: is_same(test.cmp),
        form: test_form(alloc, test.cmp, &left, &right)?,
    };
    rows.push(KernelRow { row, own: 0 })?;
    Ok(())
}

/// The row of an operand of a bound: the variable isn't below a lower bound, or it is below an upper one.
fn bound_form(alloc: Global, end: End, variable: &Aff, bound: &Aff) -> Result<Aff, NoMemory>
    requires { length variable.now.coefs ≡ length bound.now.coefs }
    ensures { IfOk result (λ f. length f.coefs ≡ length bound.now.coefs) }
{
    match end {
        End::Low => difference(alloc, variable, bound, 0),
        End::High => difference(alloc, bound, variable, 1),
    }
}

/// A loop's level, which counts from 1, and its variable.
#[derive(Clone, Copy)]
pub struct Own {
    pub level: usize,
    pub var: usize,
}

/// Appends the rows of a bound of a loop.
pub fn push_bound(
    alloc: Global,
    rows: &mut List<KernelRow>,
    statement: usize,
    vars: Variables,
    own: Own,
    end: End,
    e: &Index,
) -> Result<(), Stop<SourceFault>>
    ensures { (d : ℕ) → own.level ≤ d → IsTrue (list_all (is_row_over (length vars.entry.names.now + length vars.entry.reads.now) d) rows.old) → OnOk result (IsTrue (list_all (is_row_over (length vars.entry.names.now + length vars.entry.reads.now) d) rows.new)) }
{
    let at = At {
        statement,
        part: Part::Bound,
    };
    let count = vars.names.len() + vars.reads.len();
    let variable = unit_form(alloc, own.var, count)?;
    let operands = operands(alloc, end, e)?;
    for operand in operands.as_slice() {
        let bound = form(alloc, at, vars, operand)?;
        let row = Row {
            equal: false,
            form: bound_form(alloc, end, &variable, &bound)?,
        };
        rows.push(KernelRow {
            row,
            own: own.level,
        })?;
    }
    Ok(())
}

/// Appends the rows of a loop, those of its lower bound first, or of a guard. So many levels stand around it.
fn push_around(
    alloc: Global,
    rows: &mut List<KernelRow>,
    statement: usize,
    params: usize,
    vars: Variables,
    levels: usize,
    around: Around,
) -> Result<(), Stop<SourceFault>>
    requires levels { levels ≤ 8 }
    requires room { params + 8 < 2 ^ 64 }
    ensures { (d : ℕ) → count_loops (around.entry ∷ []) + levels ≤ d → IsTrue (list_all (is_row_over (length vars.entry.names.now + length vars.entry.reads.now) d) rows.old) → OnOk result (IsTrue (list_all (is_row_over (length vars.entry.names.now + length vars.entry.reads.now) d) rows.new)) }
{
    match around {
        Around::Loop { low, high, .. } => {
            let own = Own {
                level: levels + 1,
                var: params + levels,
            };
            push_bound(alloc, rows, statement, vars, own, End::Low, low)?;
            push_bound(alloc, rows, statement, vars, own, End::High, high)
        }
        Around::Guard { tests, .. } => {
            for test in tests {
                push_test(alloc, rows, statement, vars, test)?;
            }
            Ok(())
        }
    }
}

/// How many levels there are behind a loop or a guard that stands behind so many.
pub fn levels_behind(levels: usize, around: Around) -> usize
    requires { levels ≤ 8 }
    ensures { result ≡ count_loops (around.entry ∷ []) + levels }
{
    match around {
        Around::Loop { .. } => levels + 1,
        Around::Guard { .. } => levels,
    }
}

/// All rows around an assignment.
pub fn rows_around(
    alloc: Global,
    statement: usize,
    params: usize,
    vars: Variables,
    around: &[Around],
) -> Result<List<KernelRow>, Stop<SourceFault>>
    requires depth { count_loops around.now ≤ 8 }
    requires room { params + 8 < 2 ^ 64 }
    ensures { IfOk result (λ rows. IsTrue (list_all (is_row_over (length vars.entry.names.now + length vars.entry.reads.now) (count_loops around.now)) rows)) }
{
    let mut rows = List::new(alloc);
    let mut levels = 0;
    for one in around {
        push_around(alloc, &mut rows, statement, params, vars, levels, *one)?;
        levels = levels_behind(levels, *one);
    }
    Ok(rows)
}
