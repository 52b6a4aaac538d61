// The loops and the assignment of the first form.
ghost use Rattle.std.specs.Prelude.{◌≡◌, IfOk, MatchOption, Some, None};
ghost use Rattle.first_form.specs.Nests as spec;
ghost use Rattle.first_form.specs.Written.{written};

use crate::copied::{copied_arrays, copied_names};
use crate::size::{Size, expression_of, has_name, is_name, is_same, is_zero, size_of};
use c_tree::{Array, Cell, Expr, Index, Program, Stmt, Subscripts};
use chill_base::{Boxed, List, Name, NoMemory};
use std::alloc::Global;

/// A loop from 0: its variable, its upper bound, and the name that its variable gets.
#[derive(Clone, Copy)]
pub struct Turn {
    pub variable: Name,
    pub high: Size,
    pub written: Name,
}

/// The program with its loop variables named `t1` and `t2` from the outside; none where it isn't of the first form.
pub fn renamed(alloc: Global, program: &Program) -> Result<Option<Program>, NoMemory>
    ensures { IfOk result (λ o. o ≡ written program.now) }
{
    if !program.matrices.is_empty() || !program.inspector.is_empty() {
        return Ok(None);
    }
    let params = program.params.as_slice();
    let Some(arrays) = copied_arrays(alloc, params, program.arrays.as_slice())? else {
        return Ok(None);
    };
    let [statement] = program.executor.as_slice() else {
        return Ok(None);
    };
    let Some(statement) = renamed_nest(alloc, params, arrays.as_slice(), statement)? else {
        return Ok(None);
    };
    let mut executor = List::new(alloc);
    executor.push(statement)?;
    Ok(Some(Program {
        name: program.name,
        matrices: List::new(alloc),
        params: copied_names(alloc, params)?,
        arrays,
        inspector: List::new(alloc),
        executor,
    }))
}

fn outer_name() -> Name
    ensures { result ≡ spec.outer_name }
{
    Name::new(b"t1").unwrap()
}

fn inner_name() -> Name
    ensures { result ≡ spec.inner_name }
{
    Name::new(b"t2").unwrap()
}

/// A loop, with the statement in it.
#[derive(Clone, Copy)]
struct Around<'a> {
    turn: Turn,
    inner: &'a Stmt,
}

// Neither is the name of a parameter.
fn are_free(params: &[Name], variable: Name, written: Name) -> bool
    ensures { result ≡ spec.are_free params.now variable written }
{
    !has_name(params, variable) && !has_name(params, written)
}

// A loop of the first form.
fn loop_of<'a>(params: &[Name], written: Name, statement: &'a Stmt) -> Option<Around<'a>>
    ensures { MatchOption result (spec.loop_of params.now written statement.now ≡ None) (λ r. spec.loop_of params.now written statement.now ≡ Some (record { turn = r.turn; inner = r.inner.now })) }
{
    let Stmt::For {
        var,
        low,
        high,
        body,
    } = statement
    else {
        return None;
    };
    if !is_zero(low) || !are_free(params, *var, written) {
        return None;
    }
    let Some(high) = size_of(params, high) else {
        return None;
    };
    let [inner] = body.as_slice() else {
        return None;
    };
    let turn = Turn {
        variable: *var,
        high,
        written,
    };
    Some(Around { turn, inner })
}

// The loop around a statement.
fn in_loop(alloc: Global, turn: &Turn, inner: Option<Stmt>) -> Result<Option<Stmt>, NoMemory>
    ensures { IfOk result (λ o. o ≡ spec.in_loop turn.now inner) }
{
    let Some(inner) = inner else {
        return Ok(None);
    };
    let mut body = List::new(alloc);
    body.push(inner)?;
    Ok(Some(Stmt::For {
        var: turn.written,
        low: Index::Const(0),
        high: expression_of(turn.high),
        body,
    }))
}

fn renamed_nest(
    alloc: Global,
    params: &[Name],
    arrays: &[Array],
    statement: &Stmt,
) -> Result<Option<Stmt>, NoMemory>
    ensures { IfOk result (λ o. o ≡ spec.nest params.now arrays.now statement.now) }
{
    match loop_of(params, outer_name(), statement) {
        Some(outer) => {
            let renamed = renamed_below(alloc, params, arrays, &outer.turn, outer.inner)?;
            in_loop(alloc, &outer.turn, renamed)
        }
        None => Ok(None),
    }
}

// The statement in the outer loop.
fn renamed_below(
    alloc: Global,
    params: &[Name],
    arrays: &[Array],
    outer: &Turn,
    statement: &Stmt,
) -> Result<Option<Stmt>, NoMemory>
    ensures { IfOk result (λ o. o ≡ spec.below arrays.now outer.now statement.now (spec.loop_of params.now spec.inner_name statement.now)) }
{
    match loop_of(params, inner_name(), statement) {
        Some(within) => {
            let turns = [within.turn, *outer];
            let renamed = renamed_assignment(alloc, arrays, &turns, within.inner)?;
            in_loop(alloc, &within.turn, renamed)
        }
        None => renamed_assignment(alloc, arrays, &[*outer], statement),
    }
}

fn renamed_assignment(
    alloc: Global,
    arrays: &[Array],
    turns: &[Turn],
    statement: &Stmt,
) -> Result<Option<Stmt>, NoMemory>
    ensures { IfOk result (λ o. o ≡ spec.assignment arrays.now turns.now statement.now) }
{
    let Stmt::Assign { target, how, value } = statement else {
        return Ok(None);
    };
    let Some(target) = renamed_cell(alloc, arrays, turns, target)? else {
        return Ok(None);
    };
    let Some(value) = renamed_value(alloc, arrays, turns, value)? else {
        return Ok(None);
    };
    Ok(Some(Stmt::Assign {
        target,
        how: *how,
        value,
    }))
}

fn renamed_value(
    alloc: Global,
    arrays: &[Array],
    turns: &[Turn],
    value: &Expr,
) -> Result<Option<Expr>, NoMemory>
    ensures { IfOk result (λ o. o ≡ spec.value arrays.now turns.now value.now) }
{
    match value {
        Expr::Const(number) => Ok(Some(Expr::Const(*number))),
        Expr::At(cell) => match renamed_cell(alloc, arrays, turns, cell)? {
            Some(cell) => Ok(Some(Expr::At(cell))),
            None => Ok(None),
        },
        _ => Ok(None),
    }
}

// The extents of the first array of that name.
fn extents_of<'a>(mut arrays: &'a [Array], name: Name) -> &'a [Index]
    ensures { result.now ≡ spec.extents_of arrays.entry.now name }
{
    'arrays: while let [array, rest @ ..] = arrays {
        if is_name(array.name, name) {
            return array.extents.as_slice();
        }
        arrays = rest;
    }
    &[]
}

fn renamed_cell(
    alloc: Global,
    arrays: &[Array],
    turns: &[Turn],
    cell: &Cell,
) -> Result<Option<Cell>, NoMemory>
    ensures { IfOk result (λ o. o ≡ spec.cell arrays.now turns.now cell.now) }
{
    let extents = extents_of(arrays, cell.array);
    match renamed_subscripts(alloc, turns, extents, &cell.at)? {
        Some(at) => Ok(Some(Cell {
            array: cell.array,
            at,
        })),
        None => Ok(None),
    }
}

fn renamed_subscripts(
    alloc: Global,
    turns: &[Turn],
    extents: &[Index],
    at: &Subscripts,
) -> Result<Option<Subscripts>, NoMemory>
    ensures { IfOk result (λ o. o ≡ spec.subscripts turns.now extents.now at.now) }
{
    match at {
        Subscripts::One(i) => match extents {
            [e] => one(alloc, renamed_subscript(turns, e, i.get())),
            _ => Ok(None),
        },
        Subscripts::Two(i, j) => match extents {
            [e, f] => two(
                alloc,
                renamed_subscript(turns, e, i.get()),
                renamed_subscript(turns, f, j.get()),
            ),
            _ => Ok(None),
        },
        Subscripts::Three(i, j, k) => match extents {
            [e, f, g] => three(
                alloc,
                renamed_subscript(turns, e, i.get()),
                renamed_subscript(turns, f, j.get()),
                renamed_subscript(turns, g, k.get()),
            ),
            _ => Ok(None),
        },
    }
}

fn one(alloc: Global, first: Option<Index>) -> Result<Option<Subscripts>, NoMemory>
    ensures { IfOk result (λ o. o ≡ spec.one first) }
{
    match first {
        Some(i) => Ok(Some(Subscripts::One(Boxed::new(alloc, i)?))),
        None => Ok(None),
    }
}

fn two(
    alloc: Global,
    first: Option<Index>,
    second: Option<Index>,
) -> Result<Option<Subscripts>, NoMemory>
    ensures { IfOk result (λ o. o ≡ spec.two first second) }
{
    match (first, second) {
        (Some(i), Some(j)) => Ok(Some(Subscripts::Two(
            Boxed::new(alloc, i)?,
            Boxed::new(alloc, j)?,
        ))),
        _ => Ok(None),
    }
}

fn three(
    alloc: Global,
    first: Option<Index>,
    second: Option<Index>,
    third: Option<Index>,
) -> Result<Option<Subscripts>, NoMemory>
    ensures { IfOk result (λ o. o ≡ spec.three first second third) }
{
    match (first, second, third) {
        (Some(i), Some(j), Some(k)) => Ok(Some(Subscripts::Three(
            Boxed::new(alloc, i)?,
            Boxed::new(alloc, j)?,
            Boxed::new(alloc, k)?,
        ))),
        _ => Ok(None),
    }
}

// The innermost loop with that variable.
fn turn_with(mut turns: &[Turn], name: Name) -> Option<Turn>
    ensures { result ≡ spec.turn_with turns.entry.now name }
{
    'turns: while let [turn, rest @ ..] = turns {
        if is_name(turn.variable, name) {
            return Some(*turn);
        }
        turns = rest;
    }
    None
}

// The variable of a loop, as it is written, where the loop goes over the extent.
fn over(extent: &Index, turn: Option<Turn>) -> Option<Index>
    ensures { result ≡ spec.over extent.now turn }
{
    match turn {
        Some(turn) => {
            if is_same(turn.high, extent) {
                Some(Index::Var(turn.written))
            } else {
                None
            }
        }
        None => None,
    }
}

// A subscript that is a loop variable which goes over the extent.
fn renamed_subscript(turns: &[Turn], extent: &Index, subscript: &Index) -> Option<Index>
    ensures { result ≡ spec.subscript turns.now extent.now subscript.now }
{
    match subscript {
        Index::Var(name) => over(extent, turn_with(turns, *name)),
        _ => None,
    }
}
