// Copies of index expressions and of cells.
ghost use Rattle.std.specs.Prelude.{◌≡◌, ◌≤◌, max, IfOk, IsTrue};
ghost use Rattle.std.specs.List.{list_all};
ghost use Rattle.c_tree.specs.declared.index.Index.{size-Index};
ghost use Rattle.tree_copies.specs.Sums.{applied, linked, is_at_most};

use c_tree::{Cell, Index, Subscripts};
use chill_base::{Boxed, List, NoMemory};
use std::alloc::Global;

/// How a part of a sum goes with what stands before it.
#[derive(Clone, Copy)]
enum Sign {
    Plus,
    Minus,
}

/// A part of a sum behind the first.
#[derive(Clone, Copy)]
struct Summand<'a> {
    sign: Sign,
    part: &'a Index,
}

/// A sum as its first part and those behind it, the last one first.
#[derive(Drop)]
struct Sum<'a> {
    first: &'a Index,
    behind: Vec<Summand<'a>>,
}

/// The parts of the sum of an expression and a last part.
fn parts_of<'a>(alloc: Global, left: &'a Index, last: Summand<'a>) -> Result<Sum<'a>, NoMemory>
    ensures whole { IfOk result (λ s. linked s.first.now s.behind.items ≡ applied last.entry.sign left.now last.entry.part.now) }
    ensures first { IfOk result (λ s. size-Index s.first.now ≤ size-Index left.now) }
    ensures behind { IfOk result (λ s. IsTrue (list_all (is_at_most (max (size-Index left.now) (size-Index last.entry.part.now))) s.behind.items)) }
{
    let mut behind = Vec::new(alloc);
    behind.push(last)?;
    let mut first = left;
    loop {
        match first {
            Index::Plus(a, b) => {
                behind.push(Summand {
                    sign: Sign::Plus,
                    part: b.get(),
                })?;
                first = a.get();
            }
            Index::Minus(a, b) => {
                behind.push(Summand {
                    sign: Sign::Minus,
                    part: b.get(),
                })?;
                first = a.get();
            }
            _ => return Ok(Sum { first, behind }),
        }
    }
}

/// The sum of two expressions.
fn join(alloc: Global, sign: Sign, left: Index, right: Index) -> Result<Index, NoMemory>
    ensures { IfOk result (λ e. e ≡ applied sign left right) }
{
    let a = Boxed::new(alloc, left)?;
    let b = Boxed::new(alloc, right)?;
    match sign {
        Sign::Plus => Ok(Index::Plus(a, b)),
        Sign::Minus => Ok(Index::Minus(a, b)),
    }
}

/// A copy of the sum of two expressions.
#[cycle(copy)]
fn copy_sum(alloc: Global, left: &Index, sign: Sign, right: &Index) -> Result<Index, NoMemory>
    ensures { IfOk result (λ copy. copy ≡ applied sign left.now right.now) }
{
    let Sum { first, mut behind } = parts_of(alloc, left, Summand { sign, part: right })?;
    let mut whole = copy_index(alloc, first)?;
    while let Some(summand) = behind.pop() {
        let part = copy_index(alloc, summand.part)?;
        whole = join(alloc, summand.sign, whole, part)?;
    }
    Ok(whole)
}

#[cycle(copy)]
fn copy_boxed(alloc: Global, e: &Index) -> Result<Boxed<Index>, NoMemory>
    ensures { IfOk result (λ copy. copy ≡ e.now) }
{
    Ok(Boxed::new(alloc, copy_index(alloc, e)?)?)
}

/// A copy of an index expression.
#[cycle(copy)]
pub fn copy_index(alloc: Global, e: &Index) -> Result<Index, NoMemory>
    ensures { IfOk result (λ copy. copy ≡ e.now) }
{
    match e {
        Index::Const(number) => Ok(Index::Const(*number)),
        Index::Var(name) => Ok(Index::Var(*name)),
        Index::At(cell) => Ok(Index::At(copy_cell(alloc, cell)?)),
        Index::Neg(a) => Ok(Index::Neg(copy_boxed(alloc, a.get())?)),
        Index::Plus(a, b) => copy_sum(alloc, a.get(), Sign::Plus, b.get()),
        Index::Minus(a, b) => copy_sum(alloc, a.get(), Sign::Minus, b.get()),
        Index::Times(number, a) => Ok(Index::Times(*number, copy_boxed(alloc, a.get())?)),
        Index::Min(a, b) => {
            let left = copy_boxed(alloc, a.get())?;
            Ok(Index::Min(left, copy_boxed(alloc, b.get())?))
        }
        Index::Max(a, b) => {
            let left = copy_boxed(alloc, a.get())?;
            Ok(Index::Max(left, copy_boxed(alloc, b.get())?))
        }
        Index::Floor(a, divisor) => Ok(Index::Floor(copy_boxed(alloc, a.get())?, *divisor)),
        Index::Ceil(a, divisor) => Ok(Index::Ceil(copy_boxed(alloc, a.get())?, *divisor)),
    }
}

#[cycle(copy)]
fn copy_subscripts(alloc: Global, at: &Subscripts) -> Result<Subscripts, NoMemory>
    ensures { IfOk result (λ copy. copy ≡ at.now) }
{
    match at {
        Subscripts::One(a) => Ok(Subscripts::One(copy_boxed(alloc, a.get())?)),
        Subscripts::Two(a, b) => {
            let first = copy_boxed(alloc, a.get())?;
            Ok(Subscripts::Two(first, copy_boxed(alloc, b.get())?))
        }
        Subscripts::Three(a, b, c) => {
            let first = copy_boxed(alloc, a.get())?;
            let second = copy_boxed(alloc, b.get())?;
            Ok(Subscripts::Three(first, second, copy_boxed(alloc, c.get())?))
        }
    }
}

/// A copy of a cell.
#[cycle(copy)]
pub fn copy_cell(alloc: Global, cell: &Cell) -> Result<Cell, NoMemory>
    ensures { IfOk result (λ copy. copy ≡ cell.now) }
{
    Ok(Cell {
        array: cell.array,
        at: copy_subscripts(alloc, &cell.at)?,
    })
}

/// Copies of index expressions.
pub fn copy_indexes(alloc: Global, es: &[Index]) -> Result<List<Index>, NoMemory>
    ensures { IfOk result (λ copies. copies ≡ es.now) }
{
    let mut copies = List::new(alloc);
    for e in es {
        copies.push(copy_index(alloc, e)?)?;
    }
    Ok(copies)
}
