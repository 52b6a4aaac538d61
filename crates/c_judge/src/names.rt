// The names of statements, in the order of the tree.
ghost use Rattle.std.specs.Prelude.{◌≡◌, ◌≢◌, ◌+◌, length, None, Some};
ghost use Rattle.std.specs.Option.{option_or};
ghost use Rattle.c_judge.specs.Names as names;
ghost use Rattle.c_judge.specs.Statements as spec;
ghost use Rattle.c_judge.specs.Outcomes.{Tells, Leaves};

use crate::scope::{Meaning, Scope};
use crate::uses::{
    Rule, dims_fault, expr_fault, index_fault, indexes_fault, refused, subscript_count,
    subscripts_fault,
};
use crate::{NameWhy, ProgramFault};
use c_tree::{Cell, Expr, Index, Kind, Stmt, Test};
use chill_base::{Name, Stop};

/// The part of a program in which a statement stands.
#[derive(Clone, Copy, Debug, PartialEq, Eq)]
pub enum Part {
    Inspector,
    Executor,
}

/// Refuses a fault, where there is one.
pub fn refuse(found: Option<ProgramFault>) -> Result<(), Stop<ProgramFault>>
    ensures tells { Tells found result }
    ensures memory { result ≢ Err Stop.NoMemory }
{
    match found {
        Some(fault) => Err(Stop::Refused(fault)),
        None => Ok(()),
    }
}

// A name that comes into scope.
fn new_fault(name: Name, meaning: Option<Meaning>) -> Option<ProgramFault>
    ensures { result ≡ spec.new_fault name meaning }
{
    match meaning {
        None => None,
        Some(_) => refused(name, NameWhy::Twice),
    }
}

// The target of an assignment to data. In an inspector no growable index array is one.
fn target_fault(
    part: Part,
    name: Name,
    subscripts: usize,
    meaning: Option<Meaning>,
) -> Option<ProgramFault>
    ensures { result ≡ spec.target_fault part name subscripts meaning }
{
    match meaning {
        None => refused(name, NameWhy::Unknown),
        Some(Meaning::Value) => refused(name, NameWhy::Kind),
        Some(Meaning::Array(kind, extents, growable)) => match (part, kind, growable) {
            (Part::Inspector, Kind::Position, true) => refused(name, NameWhy::Kind),
            _ => dims_fault(name, extents, subscripts),
        },
    }
}

// The target of an assignment to a growable index array.
fn put_fault(name: Name, subscripts: usize, meaning: Option<Meaning>) -> Option<ProgramFault>
    ensures { result ≡ spec.put_fault name subscripts meaning }
{
    match meaning {
        None => refused(name, NameWhy::Unknown),
        Some(Meaning::Value) => refused(name, NameWhy::Kind),
        Some(Meaning::Array(kind, extents, growable)) => match (kind, growable) {
            (Kind::Position, true) => dims_fault(name, extents, subscripts),
            _ => refused(name, NameWhy::Kind),
        },
    }
}

fn grow_fault(name: Name, meaning: Option<Meaning>) -> Option<ProgramFault>
    ensures { result ≡ spec.grow_fault name meaning }
{
    match meaning {
        None => refused(name, NameWhy::Unknown),
        Some(Meaning::Value) => refused(name, NameWhy::Kind),
        Some(Meaning::Array(_, _, _)) => None,
    }
}

fn test_fault(scope: &Scope, test: &Test) -> Option<ProgramFault>
    ensures { result ≡ spec.test_fault scope.now test.now }
{
    let right = index_fault(Rule::InScope, scope, &test.right);
    index_fault(Rule::InScope, scope, &test.left).or(right)
}

fn tests_fault(scope: &Scope, mut tests: &[Test]) -> Option<ProgramFault>
    ensures { result ≡ spec.tests_fault scope.now tests.entry.now }
{
    'tests: while let [test, rest @ ..] = tests {
        if let Some(fault) = test_fault(scope, test) {
            return Some(fault);
        }
        tests = rest;
    }
    None
}

fn loop_fault(scope: &Scope, var: Name, low: &Index, high: &Index) -> Option<ProgramFault>
    ensures { result ≡ spec.loop_fault scope.now var low.now high.now }
{
    let of_high = index_fault(Rule::InScope, scope, high);
    let bounds = index_fault(Rule::InScope, scope, low).or(of_high);
    new_fault(var, scope.find(var)).or(bounds)
}

fn assign_fault(scope: &Scope, part: Part, target: &Cell, value: &Expr) -> Option<ProgramFault>
    ensures { result ≡ spec.assign_fault scope.now part target.now value.now }
{
    let of_value = expr_fault(Rule::InScope, scope, value);
    let inside = subscripts_fault(Rule::InScope, scope, &target.at).or(of_value);
    let count = subscript_count(&target.at);
    target_fault(part, target.array, count, scope.find(target.array)).or(inside)
}

fn put_statement_fault(scope: &Scope, target: &Cell, value: &Index) -> Option<ProgramFault>
    ensures { result ≡ spec.put_statement_fault scope.now target.now value.now }
{
    let of_value = index_fault(Rule::InScope, scope, value);
    let inside = subscripts_fault(Rule::InScope, scope, &target.at).or(of_value);
    let count = subscript_count(&target.at);
    put_fault(target.array, count, scope.find(target.array)).or(inside)
}

fn declare_fault(scope: &Scope, name: Name, inner: &[Index]) -> Option<ProgramFault>
    ensures { result ≡ spec.declare_fault scope.now name inner.now }
{
    let extents = indexes_fault(Rule::InScope, scope, inner);
    new_fault(name, scope.find(name)).or(extents)
}

fn grow_statement_fault(scope: &Scope, name: Name, by: &Index) -> Option<ProgramFault>
    ensures { result ≡ spec.grow_statement_fault scope.now name by.now }
{
    let of_by = index_fault(Rule::InScope, scope, by);
    grow_fault(name, scope.find(name)).or(of_by)
}

fn judge_declaration(
    scope: &mut Scope,
    name: Name,
    kind: Kind,
    inner: &[Index],
) -> Result<(), Stop<ProgramFault>>
    ensures { Leaves (spec.declared name kind inner.now scope.old) result scope.new }
{
    refuse(declare_fault(scope, name, inner))?;
    scope.enter(name, Meaning::Array(kind, inner.len() + 1, true))?;
    Ok(())
}

/// The statements one after another. What they declare stays in scope.
#[cycle(names)]
pub fn judge_names(
    scope: &mut Scope,
    part: Part,
    statements: &[Stmt],
) -> Result<(), Stop<ProgramFault>>
    ensures { Leaves (spec.judged_all part statements.now scope.old) result scope.new }
{
    for statement in statements {
        judge_statement(scope, part, statement)?;
    }
    Ok(())
}

#[cycle(names)]
fn judge_loop(
    scope: &mut Scope,
    part: Part,
    var: Name,
    body: &[Stmt],
) -> Result<(), Stop<ProgramFault>>
    requires { names.find scope.old var ≡ None }
    ensures { Leaves (spec.loop_outcome part var body.now scope.old) result scope.new }
{
    let outside = scope.len();
    scope.enter(var, Meaning::Value)?;
    judge_names(scope, part, body)?;
    scope.leave(outside);
    Ok(())
}

#[cycle(names)]
fn judge_statement(
    scope: &mut Scope,
    part: Part,
    statement: &Stmt,
) -> Result<(), Stop<ProgramFault>>
    ensures { Leaves (spec.judged part statement.now scope.old) result scope.new }
{
    match statement {
        Stmt::For {
            var,
            low,
            high,
            body,
        } => {
            refuse(loop_fault(scope, *var, low, high))?;
            judge_loop(scope, part, *var, body.as_slice())
        }
        Stmt::If { tests, body } => {
            refuse(tests_fault(scope, tests.as_slice()))?;
            judge_names(scope, part, body.as_slice())
        }
        Stmt::Assign { target, value, .. } => refuse(assign_fault(scope, part, target, value)),
        Stmt::Put { target, value } => refuse(put_statement_fault(scope, target, value)),
        Stmt::Declare { name, kind, inner } => {
            judge_declaration(scope, *name, *kind, inner.as_slice())
        }
        Stmt::Grow { name, by } => refuse(grow_statement_fault(scope, *name, by)),
    }
}
