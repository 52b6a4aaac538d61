// The extents of arrays.
ghost use Rattle.std.specs.Prelude.{◌≡◌, IfOk, IsTrue, length, slice_get, Some};
ghost use Rattle.std.specs.List.{list_all};
ghost use Rattle.nest_core.specs.Forms.{has_vars};
ghost use Rattle.datacopy.specs.Extents as spec;

use crate::reads::is_name;
use c_tree::{Array, Program};
use chill_base::{List, Name, NoMemory};
use int_rows::Aff;
use nest_systems::{extent_form, parameter_form, zero_form};
use nest_tree::{Made, MadeWhat};
use std::alloc::Global;

/// An extent of an array: a form over the parameters, and perhaps the first cell of an index array.
#[derive(Drop)]
pub struct Extent {
    pub form: Aff,
    pub count: Option<Name>,
}

/// An extent that is a form.
fn of_form(form: Aff) -> Extent
    ensures { result ≡ spec.of_form form }
{
    Extent { form, count: None }
}

/// An extent that is a number.
#[tactic(auto, unfolding(nest_systems::specs::Ranges::of_none))]
fn of_number(alloc: Global, head: &Program, number: i64) -> Result<Extent, NoMemory>
    ensures extent { IfOk result (λ e. e ≡ spec.of_number head.now.params number) }
    ensures width { IfOk result (λ e. IsTrue (has_vars (length head.now.params) e.form)) }
{
    let mut form = zero_form(alloc, head.params.len())?;
    form.constant = number as i128;
    Ok(of_form(form))
}

/// An extent that is the first cell of an array.
#[tactic(auto, unfolding(nest_systems::specs::Ranges::of_none))]
fn of_count(alloc: Global, head: &Program, count: Name) -> Result<Extent, NoMemory>
    ensures extent { IfOk result (λ e. e ≡ spec.of_count head.now.params count) }
    ensures width { IfOk result (λ e. IsTrue (has_vars (length head.now.params) e.form)) }
{
    let form = zero_form(alloc, head.params.len())?;
    Ok(Extent {
        form,
        count: Some(count),
    })
}

/// The number of rows of a matrix.
fn of_rows(alloc: Global, head: &Program, matrix: usize) -> Result<Option<Extent>, NoMemory>
    ensures extent { IfOk result (λ e. e ≡ spec.of_rows head.now.params (slice_get head.now.matrices matrix)) }
    ensures width { IfOk result (λ e. IsTrue (spec.is_extent_over (length head.now.params) e)) }
{
    match head.matrices.get(matrix) {
        Some(matrix) => Ok(Some(of_form(parameter_form(alloc, head, matrix.rows)?))),
        None => Ok(None),
    }
}

/// An extent of an array of the signature.
fn signature_extent(
    alloc: Global,
    head: &Program,
    array: &Array,
    dim: usize,
) -> Result<Option<Extent>, NoMemory>
    ensures extent { IfOk result (λ e. e ≡ spec.extent_signature head.now.params (slice_get array.now.extents dim)) }
    ensures width { IfOk result (λ e. IsTrue (spec.is_extent_over (length head.now.params) e)) }
{
    match array.extents.get(dim) {
        Some(extent) => match extent_form(alloc, head, extent)? {
            Some(form) => Ok(Some(of_form(form))),
            None => Ok(None),
        },
        None => Ok(None),
    }
}

/// An extent of dense blocks.
fn block_extent(
    alloc: Global,
    head: &Program,
    count: Name,
    rows: i64,
    cols: i64,
    dim: usize,
) -> Result<Option<Extent>, NoMemory>
    ensures extent { IfOk result (λ e. e ≡ spec.by_dimension dim (Some (spec.of_count head.now.params count)) (Some (spec.of_number head.now.params rows)) (Some (spec.of_number head.now.params cols))) }
    ensures width { IfOk result (λ e. IsTrue (spec.is_extent_over (length head.now.params) e)) }
{
    match dim {
        0 => Ok(Some(of_count(alloc, head, count)?)),
        1 => Ok(Some(of_number(alloc, head, rows)?)),
        2 => Ok(Some(of_number(alloc, head, cols)?)),
        _ => Ok(None),
    }
}

/// An extent of an array that a command made and that holds data.
fn made_extent(
    alloc: Global,
    head: &Program,
    made: &Made,
    dim: usize,
) -> Result<Option<Extent>, NoMemory>
    ensures extent { IfOk result (λ e. e ≡ spec.extent_made head.now.params (slice_get head.now.matrices made.now.matrix) dim made.now.what) }
    ensures width { IfOk result (λ e. IsTrue (spec.is_extent_over (length head.now.params) e)) }
{
    match &made.what {
        MadeWhat::Block { count, rows, cols } => {
            block_extent(alloc, head, *count, *rows, *cols, dim)
        }
        MadeWhat::Diag { count } => match dim {
            0 => Ok(Some(of_count(alloc, head, *count)?)),
            1 => of_rows(alloc, head, made.matrix),
            _ => Ok(None),
        },
        MadeWhat::Padded { width } => match dim {
            0 => of_rows(alloc, head, made.matrix),
            1 => Ok(Some(of_count(alloc, head, *width)?)),
            _ => Ok(None),
        },
        MadeWhat::Copy { extents } => match extents.get(dim) {
            Some(extent) => Ok(Some(of_number(alloc, head, *extent)?)),
            None => Ok(None),
        },
        _ => Ok(None),
    }
}

/// The extent of an array in a dimension, where it is known.
#[tactic(auto, unfolding(crate::specs::Extents::extent_at))]
fn extent_at(
    alloc: Global,
    head: &Program,
    made: &[Made],
    array: Name,
    dim: usize,
) -> Result<Option<Extent>, NoMemory>
    ensures extent { IfOk result (λ e. e ≡ spec.extent_at head.now made.now array dim) }
    ensures width { IfOk result (λ e. IsTrue (spec.is_extent_over (length head.now.params) e)) }
{
    for known in head.arrays.as_slice() {
        if is_name(known.name, array) {
            return signature_extent(alloc, head, known, dim);
        }
    }
    for known in made {
        if is_name(known.name, array) {
            return made_extent(alloc, head, known, dim);
        }
    }
    Ok(None)
}

/// The extents of an array in the first dimensions.
pub fn extents_of(
    alloc: Global,
    head: &Program,
    made: &[Made],
    array: Name,
    dims: usize,
) -> Result<Vec<Option<Extent>>, NoMemory>
    ensures extents { IfOk result (λ es. es.items ≡ spec.extents_of head.now made.now array dims) }
    ensures width { IfOk result (λ es. IsTrue (list_all (spec.is_extent_over (length head.now.params)) es.items)) }
    ensures count { IfOk result (λ es. length es.items ≡ dims) }
{
    let mut extents = Vec::new(alloc);
    for dim in 0..dims {
        extents.push(extent_at(alloc, head, made, array, dim)?)?;
    }
    Ok(extents)
}

/// The first array whose first cell is one of the extents.
pub fn count_of(extents: &[Option<Extent>]) -> Option<Name>
    ensures { result ≡ spec.count_of extents.now }
{
    for known in extents {
        if let Some(extent) = known {
            if extent.count.is_some() {
                return extent.count;
            }
        }
    }
    None
}
