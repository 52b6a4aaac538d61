// Reads of index arrays in expressions.
ghost use Rattle.std.specs.Prelude.{◌≡◌, ◌<◌, bytes_eq, IfSome, IfOk, OnOk, IsTrue};
ghost use Rattle.std.specs.List.{list_all};
ghost use Rattle.c_tree.specs.declared.index.Cell.{size-Cell};
ghost use Rattle.c_tree.specs.declared.index.Index.{size-Index};
ghost use Rattle.source_limits.specs.Matrices as spec;

use c_tree::{Cell, Index, Matrix, Subscripts};
use chill_base::{Name, NoMemory};
use int_rows::Aff;
use std::alloc::Global;

/// A read of an index array. Its argument is a form over the parameters and the levels.
#[derive(Drop)]
pub struct Read {
    pub array: Name,
    pub at: Aff,
}

/// A read as the source names it.
#[derive(Clone, Copy)]
pub struct Mention<'a> {
    pub array: &'a Name,
    pub at: &'a Index,
}

/// Whether two reads are of one cell.
pub fn is_read(a: &Read, b: &Read) -> bool {
    a.array == b.array
        && a.at.constant == b.at.constant
        && a.at.coefs.as_slice() == b.at.coefs.as_slice()
}

/// Whether two names are the same.
pub fn is_name(a: Name, b: Name) -> bool
    ensures { result ≡ bytes_eq a b }
{
    a == b
}

/// Whether an array holds the rows or the columns of a matrix.
fn is_index_array(mut matrices: &[Matrix], name: Name) -> bool
    ensures { result ≡ spec.is_index_array matrices.entry.now name }
{
    'matrices: while let [matrix, rest @ ..] = matrices {
        if is_name(matrix.index, name) || is_name(matrix.col, name) {
            return true;
        }
        matrices = rest;
    }
    false
}

/// Whether an expression is a sum of multiples of names and of numbers.
fn is_plain(e: &Index) -> bool {
    let mut rest = e;
    loop {
        match rest {
            Index::Const(_) => return true,
            Index::Var(_) => return true,
            Index::Neg(inner) => rest = inner.get(),
            Index::Times(_, inner) => rest = inner.get(),
            Index::Plus(left, right) => {
                if !is_plain(right.get()) {
                    return false;
                }
                rest = left.get();
            }
            Index::Minus(left, right) => {
                if !is_plain(right.get()) {
                    return false;
                }
                rest = left.get();
            }
            _ => return false,
        }
    }
}

/// The subscript of a cell that is a term: a read of a matrix's rows or columns at a sum without reads.
pub fn term_subscript<'a>(matrices: &[Matrix], cell: &'a Cell) -> Option<&'a Index>
    ensures size { IfSome result (λ e. size-Index e.now < size-Cell cell.now) }
    ensures array { IfSome result (λ e. IsTrue (spec.is_index_array matrices.now cell.now.array)) }
{
    match &cell.at {
        Subscripts::One(first) => {
            if is_index_array(matrices, cell.array) && is_plain(first.get()) {
                Some(first.get())
            } else {
                None
            }
        }
        _ => None,
    }
}

/// Whether an expression is a sum of multiples of names, terms and numbers.
pub fn is_affine(matrices: &[Matrix], e: &Index) -> bool {
    let mut rest = e;
    loop {
        match rest {
            Index::Const(_) => return true,
            Index::Var(_) => return true,
            Index::At(cell) => return term_subscript(matrices, cell).is_some(),
            Index::Neg(inner) => rest = inner.get(),
            Index::Times(_, inner) => rest = inner.get(),
            Index::Plus(left, right) => {
                if !is_affine(matrices, right.get()) {
                    return false;
                }
                rest = left.get();
            }
            Index::Minus(left, right) => {
                if !is_affine(matrices, right.get()) {
                    return false;
                }
                rest = left.get();
            }
            _ => return false,
        }
    }
}

/// The terms that an expression names, from the left.
pub fn mentions<'a>(
    alloc: Global,
    matrices: &[Matrix],
    e: &'a Index,
) -> Result<Vec<Mention<'a>>, NoMemory>
    ensures { IfOk result (λ v. IsTrue (list_all (spec.is_of_matrix matrices.now) v.items)) }
{
    let mut all = Vec::new(alloc);
    push_mentions(&mut all, matrices, e)?;
    all.reverse();
    Ok(all)
}

/// Appends the terms, the last one first.
#[cycle(mentions)]
fn push_mentions<'a>(
    all: &mut Vec<Mention<'a>>,
    matrices: &[Matrix],
    e: &'a Index,
) -> Result<(), NoMemory>
    requires { IsTrue (list_all (spec.is_of_matrix matrices.now) all.old.items) }
    ensures { OnOk result (IsTrue (list_all (spec.is_of_matrix matrices.now) all.new.items)) }
{
    let mut rest = e;
    loop {
        match rest {
            Index::Const(_) => return Ok(()),
            Index::Var(_) => return Ok(()),
            Index::At(cell) => return push_cell(all, matrices, cell),
            Index::Neg(inner) => rest = inner.get(),
            Index::Times(_, inner) => rest = inner.get(),
            Index::Floor(inner, _) => rest = inner.get(),
            Index::Ceil(inner, _) => rest = inner.get(),
            Index::Plus(left, right) => {
                push_mentions(all, matrices, right.get())?;
                rest = left.get();
            }
            Index::Minus(left, right) => {
                push_mentions(all, matrices, right.get())?;
                rest = left.get();
            }
            Index::Min(left, right) => {
                push_mentions(all, matrices, right.get())?;
                rest = left.get();
            }
            Index::Max(left, right) => {
                push_mentions(all, matrices, right.get())?;
                rest = left.get();
            }
        }
    }
}

fn push_mention<'a>(
    all: &mut Vec<Mention<'a>>,
    matrices: &[Matrix],
    array: &'a Name,
    at: &'a Index,
) -> Result<(), NoMemory>
    requires array { IsTrue (spec.is_index_array matrices.now array.now) }
    requires all { IsTrue (list_all (spec.is_of_matrix matrices.now) all.old.items) }
    ensures { OnOk result (IsTrue (list_all (spec.is_of_matrix matrices.now) all.new.items)) }
{
    all.push(Mention { array, at })?;
    Ok(())
}

#[cycle(mentions)]
fn push_cell<'a>(
    all: &mut Vec<Mention<'a>>,
    matrices: &[Matrix],
    cell: &'a Cell,
) -> Result<(), NoMemory>
    requires { IsTrue (list_all (spec.is_of_matrix matrices.now) all.old.items) }
    ensures { OnOk result (IsTrue (list_all (spec.is_of_matrix matrices.now) all.new.items)) }
{
    match term_subscript(matrices, cell) {
        Some(at) => push_mention(all, matrices, &cell.array, at),
        None => push_inside(all, matrices, &cell.at),
    }
}

#[cycle(mentions)]
fn push_inside<'a>(
    all: &mut Vec<Mention<'a>>,
    matrices: &[Matrix],
    at: &'a Subscripts,
) -> Result<(), NoMemory>
    requires { IsTrue (list_all (spec.is_of_matrix matrices.now) all.old.items) }
    ensures { OnOk result (IsTrue (list_all (spec.is_of_matrix matrices.now) all.new.items)) }
{
    match at {
        Subscripts::One(a) => push_mentions(all, matrices, a.get()),
        Subscripts::Two(a, b) => {
            push_mentions(all, matrices, b.get())?;
            push_mentions(all, matrices, a.get())
        }
        Subscripts::Three(a, b, c) => {
            push_mentions(all, matrices, c.get())?;
            push_mentions(all, matrices, b.get())?;
            push_mentions(all, matrices, a.get())
        }
    }
}
