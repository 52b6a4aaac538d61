// The signature of a program of the first form, copied.
ghost use Rattle.std.specs.Prelude.{◌≡◌, if◌then◌else◌, IfOk, Some, None};
ghost use Rattle.std.specs.List.{list_all};
ghost use Rattle.first_form.specs.Sizes.{is_size};
ghost use Rattle.first_form.specs.Written as spec;

use crate::size::copied_size;
use c_tree::{Array, Index, Kind};
use chill_base::{List, Name, NoMemory};
use std::alloc::Global;

/// The names once more.
pub fn copied_names(alloc: Global, names: &[Name]) -> Result<List<Name>, NoMemory>
    ensures { IfOk result (λ copies. copies ≡ names.now) }
{
    Ok(List::from_slice(alloc, names)?)
}

/// The data arrays once more; none where one of them is no data array, or has an extent that is no size.
pub fn copied_arrays(
    alloc: Global,
    params: &[Name],
    mut arrays: &[Array],
) -> Result<Option<List<Array>>, NoMemory>
    ensures { IfOk result (λ o. o ≡ (if list_all (spec.is_plain params.now) arrays.entry.now then Some arrays.entry.now else None)) }
{
    let mut copies = List::new(alloc);
    'arrays: while let [array, rest @ ..] = arrays {
        let Some(copy) = copied_array(alloc, params, array)? else {
            return Ok(None);
        };
        copies.push(copy)?;
        arrays = rest;
    }
    Ok(Some(copies))
}

fn copied_array(alloc: Global, params: &[Name], array: &Array) -> Result<Option<Array>, NoMemory>
    ensures { IfOk result (λ o. o ≡ (if spec.is_plain params.now array.now then Some array.now else None)) }
{
    if !is_data(array.kind) {
        return Ok(None);
    }
    match copied_extents(alloc, params, array.extents.as_slice())? {
        Some(extents) => Ok(Some(Array {
            name: array.name,
            kind: array.kind,
            extents,
        })),
        None => Ok(None),
    }
}

fn is_data(kind: Kind) -> bool
    ensures { result ≡ spec.is_data kind }
{
    match kind {
        Kind::Number => true,
        Kind::Position => false,
    }
}

fn copied_extents(
    alloc: Global,
    params: &[Name],
    mut extents: &[Index],
) -> Result<Option<List<Index>>, NoMemory>
    ensures { IfOk result (λ o. o ≡ (if list_all (is_size params.now) extents.entry.now then Some extents.entry.now else None)) }
{
    let mut copies = List::new(alloc);
    'extents: while let [extent, rest @ ..] = extents {
        let Some(copy) = copied_size(params, extent) else {
            return Ok(None);
        };
        copies.push(copy)?;
        extents = rest;
    }
    Ok(Some(copies))
}
