// `make_dense`: a level for the columns before one that goes over the entries of a row.
ghost use Rattle.std.specs.Prelude.{◌≡◌, Ok, None, IfOk, OnOk, OnErr};
ghost use Rattle.nest_core.specs.Shapes.{IsShapedNest, IsShaped};
ghost use Rattle.depend_test.specs.Tested.{Finds, OnRefused};
ghost use Rattle.make_dense.specs.Judge.{judged_matrix, IsJudged};
ghost use Rattle.make_dense.specs.Dense.{dense_nest};
ghost use Rattle.make_dense.specs.Dense as spec;

use crate::dense::dense_nest;
use crate::judge::judged_matrix;
use crate::moves::moves_with;
use crate::piece::dense_piece;
use c_tree::Matrix;
use chill_base::{List, Stop};
use depend_test::{first_dependence, overflow};
use nest_tree::{CommandFault, Kernel, Nest};
use one_statement::put_statement;
use std::alloc::Global;

/// Whether the new level keeps the order of all instances that name one cell by conflicting accesses.
fn test_order(
    alloc: Global,
    kernel: &Kernel,
    statement: usize,
    nest: &Nest,
    level: usize,
    matrix: &Matrix,
) -> Result<(), Stop<CommandFault>>
    requires shaped { IsShaped kernel.now }
    requires judged { IsJudged kernel.now statement level nest.now }
    ensures tested { OnOk result (Finds kernel.now (spec.dense_moves kernel.now statement nest.now level matrix.now) None) }
    ensures faults { OnRefused result (spec.IsOrderFault kernel.now statement nest.now level matrix.now) }
{
    let piece = dense_piece(alloc, &kernel.head, nest, level, matrix)?;
    let moves = moves_with(alloc, kernel, statement, nest, piece)?;
    match first_dependence(alloc, kernel, &moves) {
        Ok(None) => Ok(()),
        Ok(Some(dependence)) => Err(Stop::Refused(CommandFault::Depends(dependence))),
        Err(stop) => Err(overflow(stop)),
    }
}

/// The statement with its new level, tested.
fn tested_nest(
    alloc: Global,
    kernel: &Kernel,
    statement: usize,
    nest: &Nest,
    level: usize,
    matrix: &Matrix,
) -> Result<Nest, Stop<CommandFault>>
    requires shaped { IsShaped kernel.now }
    requires judged { IsJudged kernel.now statement level nest.now }
    ensures dense { IfOk result (λ n. dense_nest kernel.now.head.params nest.now level matrix.now ≡ Ok n) }
    ensures tested { OnOk result (Finds kernel.now (spec.dense_moves kernel.now statement nest.now level matrix.now) None) }
    ensures faults { OnRefused result (spec.IsNestFault kernel.now statement nest.now level matrix.now) }
    ensures shaped { IfOk result (λ n. IsShapedNest kernel.now.head n) }
{
    match dense_nest(alloc, &kernel.head, nest, level, matrix) {
        Ok(dense) => {
            test_order(alloc, kernel, statement, nest, level, matrix)?;
            Ok(dense)
        }
        Err(stop) => Err(overflow(stop)),
    }
}

/// The statement with this number with its new level, tested.
fn tested_at(
    alloc: Global,
    kernel: &Kernel,
    statement: usize,
    level: usize,
    matrix: &Matrix,
) -> Result<Nest, Stop<CommandFault>>
    requires shaped { IsShaped kernel.now }
    requires judged { judged_matrix kernel.now statement level ≡ Ok matrix.now }
    ensures dense { IfOk result (λ n. spec.IsMadeOf kernel.now statement level matrix.now n) }
    ensures faults { OnRefused result (spec.IsDenseFault kernel.now statement level matrix.now) }
    ensures shaped { IfOk result (λ n. IsShapedNest kernel.now.head n) }
{
    let nest = &kernel.nests.as_slice()[statement];
    tested_nest(alloc, kernel, statement, nest, level, matrix)
}

/// Puts the statement with its new level in the place of the old one.
fn put_dense(
    alloc: Global,
    kernel: &mut Kernel,
    statement: usize,
    level: usize,
    matrix: &Matrix,
) -> Result<(), Stop<CommandFault>>
    requires shaped { IsShaped kernel.old }
    requires judged { judged_matrix kernel.old statement level ≡ Ok matrix.now }
    ensures shaped { OnOk result (IsShaped kernel.new) }
    ensures unchanged { OnErr result (kernel.new ≡ kernel.old) }
    ensures dense { OnOk result (spec.IsMadeDense kernel.old kernel.new statement level matrix.now) }
    ensures faults { OnRefused result (spec.IsDenseFault kernel.old statement level matrix.now) }
{
    let dense = tested_at(alloc, kernel, statement, level, matrix)?;
    put_statement(
        alloc,
        kernel,
        statement,
        dense,
        List::new(alloc),
        List::new(alloc),
    )?;
    Ok(())
}

/// A level for the columns of a matrix goes in before the level, which must go over the entries of one of the matrix's rows:
/// to each column, in order, come the entries that stand in it. The subscripts of the statement's cells name the new level
/// where they held the entry's column.
pub fn make_dense(
    alloc: Global,
    kernel: &mut Kernel,
    statement: usize,
    level: usize,
) -> Result<(), Stop<CommandFault>>
    requires { IsShaped kernel.old }
    ensures shaped { OnOk result (IsShaped kernel.new) }
    ensures unchanged { OnErr result (kernel.new ≡ kernel.old) }
    ensures shape { spec.Refuses (spec.IsDenseFault kernel.old statement level) (judged_matrix kernel.old statement level) result }
    ensures dense { OnOk result (spec.IsDense kernel.old kernel.new statement level (judged_matrix kernel.old statement level)) }
{
    match judged_matrix(alloc, kernel, statement, level) {
        Ok(matrix) => put_dense(alloc, kernel, statement, level, &matrix),
        Err(Stop::Refused(why)) => Err(Stop::Refused(CommandFault::Shape(why))),
        Err(Stop::NoMemory) => Err(Stop::NoMemory),
    }
}
