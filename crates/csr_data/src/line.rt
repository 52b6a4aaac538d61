// What a line is about, and what it gives.
ghost use Rattle.std.specs.Prelude.{◌≡◌, ◌≤◌, ◌^◌, ◌++◌, ◌∷◌, [], ℕ, List, suc, drop, take, length, MatchOption, OnOk, OnErr, None};
ghost use Rattle.csr_data.specs.Extents.{Stores};
ghost use Rattle.csr_data.specs.Lines.{dues, new_names, shape_of_due, shape_at, judged, parameter, array as array_due};
ghost use Rattle.csr_data.specs.Reading.{Says};
ghost use Rattle.csr_data.specs.Parameters.{names_of, AreSmall};
ghost use Rattle.csr_data.specs.Wanted.{due_of, given_of};
ghost use Rattle.csr_data.specs.Signature.{IsSignature, extents_of};

use crate::fault::{Halt, ValuesFault};
use crate::parts::Wanted;
use crate::shape::Shape;
use crate::values::{Parameter, Table, Values};
use c_tree::{Array, Program};
use chill_base::Name;
use raw_store::{Cells, Grid};

/// The greatest value of a parameter.
const GREATEST: u64 = 16777216;

/// What the line behind so many lines is about. None behind the last.
pub(crate) fn wanted_at<'a>(program: &'a Program, lines: usize) -> Option<Wanted<'a>>
    ensures { MatchOption result (drop lines (dues program.now) ≡ []) (λ w. drop lines (dues program.now) ≡ due_of w ∷ drop (suc lines) (dues program.now)) }
{
    let params = program.params.as_slice();
    if lines < params.len() {
        return Some(Wanted::Parameter(params[lines]));
    }
    let arrays = program.arrays.as_slice();
    let at = lines - params.len();
    if at < arrays.len() {
        Some(Wanted::Array(&arrays[at]))
    } else {
        None
    }
}

/// The extents of the line behind so many lines.
pub(crate) fn shape_behind(program: &Program, params: &[Parameter], lines: usize) -> Shape
    requires signature { IsSignature program.now }
    requires names { names_of params.now ≡ take lines program.now.params }
    requires small { AreSmall params.now }
    ensures { result ≡ shape_at program.now params.now lines }
{
    match wanted_at(program, lines) {
        Some(Wanted::Array(array)) => Shape::of(array.extents.as_slice(), params),
        Some(Wanted::Parameter(_)) => Shape::one(),
        None => Shape::one(),
    }
}

// A parameter's line.
fn add_parameter(
    params: &mut Vec<Parameter>,
    name: Name,
    number: usize,
    found: u64,
    cells: &Cells,
) -> Result<(), Halt>
    requires { found ≤ 1 → length cells.now ≡ found }
    ensures says { (arrays : List Table) → Says result (judged number (parameter name) (record { params = params.old.items; arrays = arrays }) found cells.now []) (record { params = params.new.items; arrays = arrays }) }
    ensures names { OnOk result (names_of params.new.items ≡ names_of params.old.items ++ name ∷ []) }
    ensures small { OnOk result (AreSmall params.old.items → AreSmall params.new.items) }
    ensures kept { OnErr result (params.new.items ≡ params.old.items) }
{
    if found != 1 {
        return Err(Halt::Fault(ValuesFault::Line { number }));
    }
    let value = cells.get(0);
    if value > GREATEST {
        return Err(Halt::Fault(ValuesFault::Limit {
            name,
            value: value.min(i64::MAX as u64) as i64,
        }));
    }
    let Ok(()) = params.push(Parameter { name, value }) else {
        return Err(Halt::NoMemory);
    };
    Ok(())
}

// An array's line.
fn add_array(
    arrays: &mut Vec<Table>,
    array: &Array,
    shape: &Shape,
    found: u64,
    cells: Cells,
) -> Result<(), Halt>
    requires few { found ≤ 2 ^ 62 }
    requires stored { Stores shape.now found cells }
    ensures says { (number : ℕ) (params : List Parameter) → shape.now ≡ extents_of array.now params → Says result (judged number (array_due array.now) (record { params = params; arrays = arrays.old.items }) found cells []) (record { params = params; arrays = arrays.new.items }) }
    ensures kept { OnErr result (arrays.new.items ≡ arrays.old.items) }
{
    if let Some(value) = shape.negative() {
        return Err(Halt::Fault(ValuesFault::Limit {
            name: array.name,
            value,
        }));
    }
    let wanted = shape.wanted();
    if found as u128 != wanted {
        return Err(Halt::Fault(ValuesFault::Count {
            name: array.name,
            wanted,
            found,
        }));
    }
    let (first, inner) = shape.parts();
    let table = Table {
        name: array.name,
        kind: array.kind,
        dimensions: array.extents.len(),
        cells: Grid::from_cells(cells, first, inner),
    };
    let Ok(()) = arrays.push(table) else {
        return Err(Halt::NoMemory);
    };
    Ok(())
}

/// Adds what the line gives, which is the one of that number.
pub(crate) fn add_line(
    values: &mut Values,
    wanted: &Wanted,
    number: usize,
    shape: &Shape,
    found: u64,
    cells: Cells,
) -> Result<(), Halt>
    requires few { found ≤ 2 ^ 62 }
    requires shape { shape.now ≡ shape_of_due (due_of wanted.now) values.old.params.items }
    requires stored { Stores shape.now found cells }
    ensures says { Says result (judged number (due_of wanted.now) (given_of values.old) found cells []) (given_of values.new) }
    ensures names { OnOk result (names_of values.new.params.items ≡ names_of values.old.params.items ++ new_names (due_of wanted.now)) }
    ensures small { OnOk result (AreSmall values.old.params.items → AreSmall values.new.params.items) }
    ensures kept { OnErr result (values.new.params.items ≡ values.old.params.items) }
{
    match wanted {
        Wanted::Parameter(name) => add_parameter(&mut values.params, *name, number, found, &cells),
        Wanted::Array(array) => add_array(&mut values.arrays, array, shape, found, cells),
    }
}
