// What a padded statement is made of.
ghost use Rattle.std.specs.Prelude.{◌≡◌, ◌++◌, ◌∷◌, [], ◌<◌, ◌≤◌, suc, Some, map, length, replicate, IfOk, IsTrue, OnOk};
ghost use Rattle.std.specs.List.{list_all, range_with_len};
ghost use Rattle.nest_tree.specs.declared.form.Form.TheVariants.{Other};
ghost use Rattle.pad_layouts.specs.Moved.{suits, suits_body};
ghost use Rattle.pad_layouts.specs.Parts as spec;

use crate::body::padded_body;
use crate::forms::{list_of_one, one, push_bound, two};
use crate::moved::moved_access;
use chill_base::{List, Name, NoMemory};
use int_rows::Aff;
use nest_tree::{Access, Form, KernelRow, Nest, Term};
use std::alloc::Global;

/// What a padded statement is made of.
#[derive(Drop)]
pub struct Parts {
    pub depth: usize,
    /// For each new variable the old one that it stands for.
    pub picks: List<Option<usize>>,
    pub terms: List<Term>,
    pub rows: List<KernelRow>,
    /// The cell of the layout.
    pub cell: Access,
}

/// The names of kept values and of their layout.
#[derive(Clone, Copy)]
pub struct KeptArrays {
    pub pointer: Name,
    pub kept: Name,
    pub layout: Name,
}

/// The names of padded rows.
#[derive(Clone, Copy)]
pub struct RowArrays {
    pub width: Name,
    pub layout: Name,
    pub columns: Name,
}

/// The parameters stand for themselves, and the new levels and terms for these.
pub fn picks_of(
    alloc: Global,
    params: usize,
    more: &[Option<usize>],
) -> Result<List<Option<usize>>, NoMemory>
    ensures { IfOk result (λ ps. ps ≡ spec.picks_of params more.now) }
{
    let mut picks = Vec::new(alloc);
    for param in 0..params {
        picks.push(Some(param))?;
    }
    picks.extend_from_slice(more)?;
    Ok(List::from_vec(picks))
}

/// A read of one argument.
pub fn read(alloc: Global, array: Name, argument: Aff) -> Result<Term, NoMemory>
    ensures { IfOk result (λ t. t ≡ spec.read array argument) }
{
    Ok(Term {
        array,
        at: list_of_one(alloc, argument)?,
    })
}

/// The kept value at a level, and where those of its group begin and end.
pub fn kept_terms(
    alloc: Global,
    vars: usize,
    arrays: &KeptArrays,
    level: usize,
    group: Aff,
    next: Aff,
) -> Result<List<Term>, NoMemory>
    ensures { IfOk result (λ ts. ts ≡ spec.kept_terms vars arrays.now level group next) }
{
    let mut terms = List::new(alloc);
    terms.push(read(alloc, arrays.kept, one(alloc, vars, level, 0)?)?)?;
    terms.push(read(alloc, arrays.pointer, group)?)?;
    terms.push(read(alloc, arrays.pointer, next)?)?;
    Ok(terms)
}

/// Appends the bounds of a level between the begin and the end of a group; `begin` is the variable of the begin's term,
/// and the next one that of the end's.
pub fn push_pointer_rows(
    alloc: Global,
    rows: &mut List<KernelRow>,
    vars: usize,
    own: usize,
    level: usize,
    begin: usize,
) -> Result<(), NoMemory>
    requires { begin < vars }
    ensures { OnOk result (rows.new ≡ rows.old ++ spec.pointer_rows vars own level begin) }
{
    push_bound(rows, own, two(alloc, vars, level, 1, begin, -1, 0)?)?;
    push_bound(rows, own, two(alloc, vars, begin + 1, 1, level, -1, -1)?)
}

/// So many levels that stand for nothing of a matrix.
fn other_levels(alloc: Global, count: usize) -> Result<List<Form>, NoMemory>
    ensures { IfOk result (λ fs. fs ≡ replicate count Other) }
{
    let mut levels = List::new(alloc);
    for _ in 0..count {
        levels.push(Form::Other)?;
    }
    Ok(levels)
}

/// The positions of a statement in loops of its own.
fn inner_positions(alloc: Global, depth: usize, first: usize) -> Result<List<usize>, NoMemory>
    ensures { IfOk result (λ ps. ps ≡ first ∷ replicate depth 0) }
{
    let mut positions = List::new(alloc);
    positions.push(first)?;
    for _ in 0..depth {
        positions.push(0)?;
    }
    Ok(positions)
}

/// The statement of these parts in the place of an old one.
#[tactic(auto, unfolding(crate::specs::Parts::padded_nest))]
pub fn padded_nest(alloc: Global, value: Name, nest: &Nest, parts: Parts) -> Result<Nest, NoMemory>
    requires target { IsTrue (list_all (suits parts.picks) nest.now.target.at) }
    requires value { IsTrue (suits_body parts.picks nest.now.value) }
    requires positions { 0 < length nest.now.positions }
    ensures { IfOk result (λ n. n ≡ spec.padded_nest value nest.now parts) }
{
    let Parts {
        depth,
        picks,
        terms,
        rows,
        cell,
    } = parts;
    let target = moved_access(alloc, picks.as_slice(), &nest.target)?;
    let value = padded_body(alloc, picks.as_slice(), value, &cell, &nest.value)?;
    let first = nest.positions.as_slice()[0];
    Ok(Nest {
        levels: other_levels(alloc, depth)?,
        positions: inner_positions(alloc, depth, first)?,
        terms,
        rows,
        target,
        how: nest.how,
        value,
        whole: None,
    })
}
