// The piece that puts a level for the columns before one that goes over entries.
ghost use Rattle.std.specs.Prelude.{◌≡◌, ◌≤◌, ◌<◌, ◌+◌, ◌-◌, ◌++◌, ◌∷◌, length, map, insert, IfOk};
ghost use Rattle.std.specs.List.{range_with_len};
ghost use Rattle.nest_core.specs.Shapes.{IsShapedNest};
ghost use Rattle.make_dense.specs.Places.{vars, new_place, IsPlaces};
ghost use Rattle.make_dense.specs.Piece as spec;

use crate::forms::{difference, find_read};
use crate::places::{Places, column_var, dense_var, entry_var, vars};
use affine_moves::{list_of, padded, unit};
use c_tree::{Matrix, Program};
use chill_base::{List, Name, NoMemory};
use int_rows::{Aff, Row};
use nest_systems::parameter_form;
use nest_tree::{Form, KernelRow, Nest, Piece, Term};
use std::alloc::Global;

/// The new place of an old level.
fn new_place(level: usize, place: usize) -> usize
    requires { place < 8 }
    ensures value { result ≡ new_place level place }
    ensures within { result ≤ place + 1 }
{
    if place + 1 < level { place } else { place + 1 }
}

/// An old level as a form of the new variables.
#[tactic(auto, unfolding(crate::specs::Piece::old_form))]
fn old_form(alloc: Global, places: Places, place: usize) -> Result<Aff, NoMemory>
    requires places { IsPlaces places }
    requires place { place < places.depth }
    requires small { place < 8 }
    ensures { IfOk result (λ f. f ≡ spec.old_form places place) }
{
    unit(
        alloc,
        vars(places),
        places.params + new_place(places.level, place),
    )
}

/// The old levels as forms of the new variables.
fn old_forms(alloc: Global, places: Places) -> Result<List<Aff>, NoMemory>
    requires places { IsPlaces places }
    requires depth { places.depth ≤ 8 }
    ensures { IfOk result (λ fs. fs ≡ map (spec.old_form places) (range_with_len 0 places.depth)) }
{
    let mut forms = List::new(alloc);
    for place in 0..places.depth {
        forms.push(old_form(alloc, places, place)?)?;
    }
    Ok(forms)
}

/// A bound of the new level.
fn bound(own: usize, form: Aff) -> KernelRow
    ensures { result ≡ spec.bound own form }
{
    KernelRow {
        row: Row { equal: false, form },
        own,
    }
}

/// How far the new level lies below the number of columns.
#[tactic(auto, unfolding(crate::specs::Piece::below_columns))]
fn below_columns(
    alloc: Global,
    head: &Program,
    places: Places,
    columns: Name,
) -> Result<Aff, NoMemory>
    requires places { IsPlaces places }
    ensures { IfOk result (λ f. f ≡ spec.below_columns head.now.params places columns) }
{
    let Aff {
        mut coefs,
        constant: _,
    } = parameter_form(alloc, head, columns)?;
    let levels = vars(places) - places.params;
    coefs.append(padded(alloc, levels, places.level - 1, &[-1])?)?;
    Ok(Aff {
        coefs,
        constant: -1,
    })
}

/// The row that the new level is the entry's column.
fn at_column(alloc: Global, places: Places) -> Result<KernelRow, NoMemory>
    requires { IsPlaces places }
    ensures { IfOk result (λ r. r ≡ spec.at_column places) }
{
    let form = difference(alloc, vars(places), dense_var(places), column_var(places))?;
    Ok(KernelRow {
        row: Row { equal: true, form },
        own: 0,
    })
}

/// The rows of the new level.
fn dense_rows(
    alloc: Global,
    head: &Program,
    places: Places,
    columns: Name,
) -> Result<List<KernelRow>, NoMemory>
    requires places { IsPlaces places }
    ensures { IfOk result (λ rs. rs ≡ spec.dense_rows head.now.params places columns) }
{
    let mut rows = List::new(alloc);
    let low = unit(alloc, vars(places), dense_var(places))?;
    rows.push(bound(places.level, low))?;
    let high = below_columns(alloc, head, places, columns)?;
    rows.push(bound(places.level, high))?;
    rows.push(at_column(alloc, places)?)?;
    Ok(rows)
}

/// A read of the entry's column.
fn column_read(alloc: Global, places: Places, column: Name) -> Result<Term, NoMemory>
    requires { IsPlaces places }
    ensures { IfOk result (λ t. t ≡ spec.column_read places column) }
{
    let entry = unit(alloc, vars(places), entry_var(places))?;
    Ok(Term {
        array: column,
        at: list_of(alloc, entry)?,
    })
}

/// A read of the entry's column, where the statement has none.
fn dense_terms(alloc: Global, places: Places, column: Name) -> Result<List<Term>, NoMemory>
    requires { IsPlaces places }
    ensures { IfOk result (λ ts. ts ≡ spec.dense_terms places column) }
{
    match places.column {
        Some(_) => Ok(List::new(alloc)),
        None => list_of(alloc, column_read(alloc, places, column)?),
    }
}

/// What the new level stands for.
fn dense_form(whole: Option<usize>) -> Form
    ensures { result ≡ spec.dense_form whole }
{
    match whole {
        Some(_) => Form::Whole {
            r: 0,
            j: 1,
            k: 0,
            constant: 0,
            divisor: 1,
        },
        None => Form::Other,
    }
}

/// The items with one more at a place.
fn inserted<T: Copy + Drop>(
    alloc: Global,
    items: &[T],
    place: usize,
    item: T,
) -> Result<List<T>, NoMemory>
    requires { place ≤ length items.now }
    ensures { IfOk result (λ xs. xs ≡ insert items.now place item) }
{
    let mut new = List::from_slice(alloc, &items[..place])?;
    new.push(item)?;
    new.append(List::from_slice(alloc, &items[place..])?)?;
    Ok(new)
}

/// Where the variables will stand.
#[tactic(auto, unfolding(crate::specs::Piece::places_of))]
pub fn places_of(head: &Program, nest: &Nest, level: usize, matrix: &Matrix) -> Places
    requires shaped { IsShapedNest head.now nest.now }
    requires low { 1 ≤ level }
    requires high { level ≤ length nest.now.levels }
    ensures value { result ≡ spec.places_of (length head.now.params) nest.now level matrix.now }
    ensures depth { result.depth ≡ length nest.now.levels }
    ensures places { IsPlaces result }
{
    let params = head.params.as_slice().len();
    let terms = nest.terms.as_slice();
    Places {
        params,
        depth: nest.levels.len(),
        terms: terms.len(),
        level,
        column: find_read(terms, matrix.col, params + (level - 1)),
    }
}

/// The piece that puts a level for the columns of the matrix before the level, which goes over entries of its rows.
#[tactic(auto, unfolding(crate::specs::Piece::dense_piece))]
pub fn dense_piece(
    alloc: Global,
    head: &Program,
    nest: &Nest,
    level: usize,
    matrix: &Matrix,
) -> Result<Piece, NoMemory>
    requires shaped { IsShapedNest head.now nest.now }
    requires low { 1 ≤ level }
    requires high { level ≤ length nest.now.levels }
    ensures { IfOk result (λ p. p ≡ spec.dense_piece head.now.params nest.now level matrix.now) }
{
    let places = places_of(head, nest, level, matrix);
    let positions = nest.positions.as_slice();
    let form = dense_form(nest.whole);
    Ok(Piece {
        drops: List::new(alloc),
        terms: dense_terms(alloc, places, matrix.col)?,
        rows: dense_rows(alloc, head, places, matrix.cols)?,
        old: old_forms(alloc, places)?,
        levels: inserted(alloc, nest.levels.as_slice(), level - 1, form)?,
        positions: inserted(alloc, positions, level, 0)?,
    })
}
