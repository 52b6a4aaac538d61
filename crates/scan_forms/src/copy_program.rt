// Copies of statements, and of a program's signature and inspector.
ghost use Rattle.std.specs.Prelude.{◌≡◌, IfOk};

use c_tree::{Array, Program, Stmt, Test};
use chill_base::{List, NoMemory};
use std::alloc::Global;
use tree_copies::{copy_cell, copy_expr, copy_index, copy_indexes};

fn copy_test(alloc: Global, test: &Test) -> Result<Test, NoMemory>
    ensures { IfOk result (λ copy. copy ≡ test.now) }
{
    let left = copy_index(alloc, &test.left)?;
    Ok(Test {
        left,
        cmp: test.cmp,
        right: copy_index(alloc, &test.right)?,
    })
}

fn copy_tests(alloc: Global, tests: &[Test]) -> Result<List<Test>, NoMemory>
    ensures { IfOk result (λ copies. copies ≡ tests.now) }
{
    let mut copies = List::new(alloc);
    for test in tests {
        copies.push(copy_test(alloc, test)?)?;
    }
    Ok(copies)
}

#[cycle(statement)]
fn copy_statement(alloc: Global, statement: &Stmt) -> Result<Stmt, NoMemory>
    ensures { IfOk result (λ copy. copy ≡ statement.now) }
{
    match statement {
        Stmt::For {
            var,
            low,
            high,
            body,
        } => {
            let low = copy_index(alloc, low)?;
            let high = copy_index(alloc, high)?;
            Ok(Stmt::For {
                var: *var,
                low,
                high,
                body: copy_statements(alloc, body.as_slice())?,
            })
        }
        Stmt::If { tests, body } => {
            let tests = copy_tests(alloc, tests.as_slice())?;
            Ok(Stmt::If {
                tests,
                body: copy_statements(alloc, body.as_slice())?,
            })
        }
        Stmt::Assign { target, how, value } => {
            let target = copy_cell(alloc, target)?;
            Ok(Stmt::Assign {
                target,
                how: *how,
                value: copy_expr(alloc, value)?,
            })
        }
        Stmt::Put { target, value } => {
            let target = copy_cell(alloc, target)?;
            Ok(Stmt::Put {
                target,
                value: copy_index(alloc, value)?,
            })
        }
        Stmt::Declare { name, kind, inner } => Ok(Stmt::Declare {
            name: *name,
            kind: *kind,
            inner: copy_indexes(alloc, inner.as_slice())?,
        }),
        Stmt::Grow { name, by } => Ok(Stmt::Grow {
            name: *name,
            by: copy_index(alloc, by)?,
        }),
    }
}

/// Copies of statements.
#[cycle(statement)]
fn copy_statements(alloc: Global, statements: &[Stmt]) -> Result<List<Stmt>, NoMemory>
    ensures { IfOk result (λ copies. copies ≡ statements.now) }
{
    let mut copies = List::new(alloc);
    for statement in statements {
        copies.push(copy_statement(alloc, statement)?)?;
    }
    Ok(copies)
}

fn copy_array(alloc: Global, array: &Array) -> Result<Array, NoMemory>
    ensures { IfOk result (λ copy. copy ≡ array.now) }
{
    Ok(Array {
        name: array.name,
        kind: array.kind,
        extents: copy_indexes(alloc, array.extents.as_slice())?,
    })
}

fn copy_arrays(alloc: Global, arrays: &[Array]) -> Result<List<Array>, NoMemory>
    ensures { IfOk result (λ copies. copies ≡ arrays.now) }
{
    let mut copies = List::new(alloc);
    for array in arrays {
        copies.push(copy_array(alloc, array)?)?;
    }
    Ok(copies)
}

/// A program with the signature and the inspector of another, and with this executor.
pub fn with_executor(
    alloc: Global,
    head: &Program,
    executor: List<Stmt>,
) -> Result<Program, NoMemory>
    ensures { IfOk result (λ program. program ≡ record head.now { executor = executor }) }
{
    let arrays = copy_arrays(alloc, head.arrays.as_slice())?;
    let inspector = copy_statements(alloc, head.inspector.as_slice())?;
    let matrices = List::from_slice(alloc, head.matrices.as_slice())?;
    Ok(Program {
        name: head.name,
        matrices,
        params: List::from_slice(alloc, head.params.as_slice())?,
        arrays,
        inspector,
        executor,
    })
}
