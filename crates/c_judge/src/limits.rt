// Counts that have a limit.
ghost use Rattle.std.specs.Prelude.{◌≡◌, ◌+◌, ◌^◌, ◌<◌};
ghost use Rattle.c_judge.specs.Limits as spec;
ghost use Rattle.c_judge.specs.Limits.{capped};

use crate::size::size;
use crate::{LimitWhat, ProgramFault};
use c_tree::{Array, Index, Program, Stmt};

/// Names of parameters and arrays.
const SIGNATURE: u64 = 32;
/// Growable arrays.
const LOCALS: u64 = 384;
/// Assignments of the executor.
const ASSIGNMENTS: u64 = 64;
/// Statements of the inspector.
const INSPECTOR: u64 = 2048;
/// Sparse matrices.
const MATRICES: u64 = 2;
/// The size of an extent.
const EXTENT: u64 = 2199023255552;

/// The kinds of statements that are counted.
#[derive(Clone, Copy, Debug, PartialEq, Eq)]
pub enum Counted {
    All,
    Declarations,
    Assignments,
}

// What a statement of no further interest counts.
fn plain(counted: Counted) -> u64
    ensures { result ≡ spec.plain counted }
{
    match counted {
        Counted::All => 1,
        Counted::Declarations => 0,
        Counted::Assignments => 0,
    }
}

fn declaration(counted: Counted) -> u64
    ensures { result ≡ spec.declaration counted }
{
    match counted {
        Counted::All => 1,
        Counted::Declarations => 1,
        Counted::Assignments => 0,
    }
}

fn assignment(counted: Counted) -> u64
    ensures { result ≡ spec.assignment counted }
{
    match counted {
        Counted::All => 1,
        Counted::Declarations => 0,
        Counted::Assignments => 1,
    }
}

// How many statements of that kind there are, inner ones too.
#[cycle(count)]
fn count(counted: Counted, statements: &[Stmt]) -> u64
    ensures { result ≡ capped (spec.count_of counted statements.now) }
{
    let mut total = 0u64;
    for statement in statements {
        total = total.saturating_add(count_one(counted, statement));
    }
    total
}

#[cycle(count)]
fn count_one(counted: Counted, statement: &Stmt) -> u64
    ensures { result ≡ capped (spec.count_in counted statement.now) }
{
    match statement {
        Stmt::For { body, .. } => plain(counted).saturating_add(count(counted, body.as_slice())),
        Stmt::If { body, .. } => plain(counted).saturating_add(count(counted, body.as_slice())),
        Stmt::Assign { .. } => assignment(counted),
        Stmt::Put { .. } => plain(counted),
        Stmt::Declare { .. } => declaration(counted),
        Stmt::Grow { .. } => plain(counted),
    }
}

fn over(what: LimitWhat, count: u64, limit: u64) -> Option<ProgramFault>
    ensures { result ≡ spec.over_by what count limit }
{
    if count > limit {
        Some(ProgramFault::Limit { what, count })
    } else {
        None
    }
}

fn has_large(mut extents: &[Index]) -> bool
    ensures { result ≡ spec.has_large extents.entry.now }
{
    'extents: while let [e, rest @ ..] = extents {
        if size(e) > EXTENT {
            return true;
        }
        extents = rest;
    }
    false
}

// The first array with an extent that can be too large.
fn large_extent(mut arrays: &[Array]) -> Option<ProgramFault>
    ensures { result ≡ spec.large_extent 0 arrays.entry.now }
{
    let mut number = 0u64;
    'arrays: while let [array, rest @ ..] = arrays {
        if has_large(array.extents.as_slice()) {
            return Some(ProgramFault::Limit {
                what: LimitWhat::Extent,
                count: number,
            });
        }
        number += 1;
        arrays = rest;
    }
    None
}

// A number of statements.
fn statements_fault(
    what: LimitWhat,
    counted: Counted,
    statements: &[Stmt],
    limit: u64,
) -> Option<ProgramFault>
    ensures { result ≡ spec.over what (spec.count_of counted statements.now) limit }
{
    over(what, count(counted, statements), limit)
}

// The length of a list, or of two together.
fn length_fault(what: LimitWhat, one: usize, other: usize, limit: u64) -> Option<ProgramFault>
    ensures { result ≡ spec.over what (one + other) limit }
{
    over(what, (one as u64).saturating_add(other as u64), limit)
}

/// The first limit that the program passes.
#[tactic(auto, unfolding(crate::specs::Limits::limit_fault))]
pub fn limit_fault(program: &Program) -> Option<ProgramFault>
    ensures { result ≡ spec.limit_fault program.now }
{
    let inspector = program.inspector.as_slice();
    let executor = program.executor.as_slice();
    let extents = large_extent(program.arrays.as_slice());
    let matrices = length_fault(LimitWhat::Matrices, program.matrices.len(), 0, MATRICES).or(
        extents,
    );
    let statements = statements_fault(
        LimitWhat::InspectorStatements,
        Counted::All,
        inspector,
        INSPECTOR,
    )
    .or(matrices);
    let assignments = statements_fault(
        LimitWhat::Assignments,
        Counted::Assignments,
        executor,
        ASSIGNMENTS,
    )
    .or(statements);
    let locals = statements_fault(LimitWhat::Locals, Counted::Declarations, inspector, LOCALS).or(
        assignments,
    );
    length_fault(
        LimitWhat::Signature,
        program.params.len(),
        program.arrays.len(),
        SIGNATURE,
    )
    .or(locals)
}
