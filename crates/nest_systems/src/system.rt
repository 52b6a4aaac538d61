// The rows that all systems have.
ghost use Rattle.std.specs.Prelude.{◌≡◌, ◌+◌, ◌≤◌, ◌∷◌, [], map, length, None, IfOk, OnOk};
ghost use Rattle.std.specs.List.{flat_map, range_with_len};
ghost use Rattle.nest_systems.specs.Extending.{extended};
ghost use Rattle.nest_systems.specs.Placing.{placed_row};
ghost use Rattle.nest_systems.specs.Begun as spec;

use crate::extent::extent_form;
use crate::range::{Span, value_span};
use crate::seats::Seats;
use crate::span::{high_row, low_row, unit_form};
use crate::widen::widened_form;
use c_tree::{Array, Index, Program};
use chill_base::Name;
use int_rows::{Aff, Row};
use int_sets::{SetFault, System};
use nest_tree::Made;
use std::alloc::Global;

/// Whether a form has no variables.
pub fn is_constant(form: &Aff) -> bool
    ensures { result ≡ spec.is_constant form.now }
{
    form.coefs.as_slice().iter().all(|c| *c == 0)
}

fn push_form(system: &mut System, form: Aff) -> Result<(), SetFault>
    requires { length form.coefs ≡ system.old.vars }
    ensures rows { OnOk result (system.new ≡ extended system.old (spec.at_least_zero form ∷ [])) }
    ensures vars { system.new.vars ≡ system.old.vars }
{
    system.push(Row { equal: false, form })
}

/// Each parameter is at least 0.
fn push_parameters(
    alloc: Global,
    system: &mut System,
    params: usize,
    vars: usize,
) -> Result<(), SetFault>
    requires { system.old.vars ≡ vars }
    ensures rows { OnOk result (system.new ≡ extended system.old (map (spec.sign_row vars) (range_with_len 0 params))) }
    ensures vars { system.new.vars ≡ system.old.vars }
{
    for var in 0..params {
        push_form(system, unit_form(alloc, var, vars)?)?;
    }
    Ok(())
}

/// An extent that isn't a constant is at least 0.
fn push_extent(
    alloc: Global,
    head: &Program,
    system: &mut System,
    extent: &Index,
    vars: usize,
) -> Result<(), SetFault>
    requires vars { system.old.vars ≡ vars }
    ensures rows { OnOk result (system.new ≡ extended system.old (spec.extent_rows head.now.params vars extent.now)) }
    ensures vars { system.new.vars ≡ system.old.vars }
{
    if let Some(form) = extent_form(alloc, head, extent)? {
        if !is_constant(&form) {
            push_form(system, widened_form(alloc, &form, vars)?)?;
        }
    }
    Ok(())
}

/// Each extent of an array that isn't a constant is at least 0.
fn push_array(
    alloc: Global,
    head: &Program,
    system: &mut System,
    array: &Array,
    vars: usize,
) -> Result<(), SetFault>
    requires vars { system.old.vars ≡ vars }
    requires params { length head.now.params ≤ vars }
    ensures rows { OnOk result (system.new ≡ extended system.old (spec.array_rows head.now.params vars array.now)) }
    ensures vars { system.new.vars ≡ system.old.vars }
{
    for extent in array.extents.as_slice() {
        push_extent(alloc, head, system, extent, vars)?;
    }
    Ok(())
}

/// So is each of all arrays.
fn push_arrays(
    alloc: Global,
    head: &Program,
    system: &mut System,
    vars: usize,
) -> Result<(), SetFault>
    requires vars { system.old.vars ≡ vars }
    requires params { length head.now.params ≤ vars }
    ensures rows { OnOk result (system.new ≡ extended system.old (flat_map (spec.array_rows head.now.params vars) head.now.arrays)) }
    ensures vars { system.new.vars ≡ system.old.vars }
{
    for array in head.arrays.as_slice() {
        push_array(alloc, head, system, array, vars)?;
    }
    Ok(())
}

/// A system over so many variables, of which the parameters are the first, with the rows of the parameters and extents.
pub fn begin_system(alloc: Global, head: &Program, vars: usize) -> Result<System, SetFault>
    requires { length head.now.params ≤ vars }
    ensures value { IfOk result (λ s. s ≡ spec.begun head.now vars) }
    ensures vars { IfOk result (λ s. s.vars ≡ vars) }
{
    let mut system = System::new(alloc, vars);
    push_parameters(alloc, &mut system, head.params.len(), vars)?;
    push_arrays(alloc, head, &mut system, vars)?;
    Ok(system)
}

/// Pushes rows of a statement.
pub fn place_rows(
    alloc: Global,
    system: &mut System,
    seats: &Seats,
    rows: &[Row],
) -> Result<(), SetFault>
    requires { system.old.vars ≡ seats.now.vars }
    ensures rows { OnOk result (system.new ≡ extended system.old (map (placed_row seats.now) rows.now)) }
    ensures vars { system.new.vars ≡ system.old.vars }
{
    for row in rows {
        let form = seats.place(alloc, &row.form)?;
        system.push(Row {
            equal: row.equal,
            form,
        })?;
    }
    Ok(())
}

/// The two rows of a range of a form, where there is a range.
fn push_range(
    alloc: Global,
    system: &mut System,
    span: &Option<Span>,
    form: &Aff,
    vars: usize,
) -> Result<(), SetFault>
    requires vars { system.old.vars ≡ vars }
    ensures rows { OnOk result (system.new ≡ extended system.old (spec.range_rows span.now form.now None vars)) }
    ensures vars { system.new.vars ≡ system.old.vars }
{
    if let Some(span) = span {
        system.push(low_row(alloc, span, form, vars)?)?;
        system.push(high_row(alloc, span, form, None, vars)?)?;
    }
    Ok(())
}

/// Pushes the value ranges of the reads `array[0]` at the very end.
pub fn push_end_ranges(
    alloc: Global,
    head: &Program,
    made: &[Made],
    system: &mut System,
    ends: &[Name],
    first_end: usize,
    vars: usize,
) -> Result<(), SetFault>
    requires vars { system.old.vars ≡ vars }
    requires room { first_end + length ends.now ≤ vars }
    ensures rows { OnOk result (system.new ≡ extended system.old (spec.end_rows head.now made.now vars first_end ends.now)) }
    ensures vars { system.new.vars ≡ system.old.vars }
{
    for i in 0..ends.len() {
        let span = value_span(alloc, head, made, ends[i])?;
        let form = unit_form(alloc, first_end + i, vars)?;
        push_range(alloc, system, &span, &form, vars)?;
    }
    Ok(())
}
