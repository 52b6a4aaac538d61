// Data as a text.
ghost use Rattle.std.specs.Prelude.{◌≡◌, ◌++◌, OnOk, IfOk};
ghost use Rattle.std.specs.List.{flat_map};
ghost use Rattle.csr_data.specs.Printed.{number_text, line_text, parameter_text, parameters_text, table_text, data_text};
ghost use Rattle.csr_data.specs.Values.{params_of, arrays_of};
ghost use Rattle.csr_data.specs.Whole.{AreNumbers, IsWhole};

use crate::values::{Parameter, Table, Values};
use chill_base::{List, Name, NoMemory, Text};
use itoa::Buffer;
use raw_store::{Cells, Grid};
use std::alloc::Global;

fn push_number(text: &mut Vec<u8>, number: u64) -> Result<(), NoMemory>
    ensures { OnOk result (text.new.items ≡ text.old.items ++ number_text number) }
{
    let mut buffer = Buffer::new();
    text.push(b' ')?;
    text.extend_from_slice(buffer.format(number).as_bytes())?;
    Ok(())
}

fn push_numbers(text: &mut Vec<u8>, cells: &Cells) -> Result<(), NoMemory>
    ensures text { OnOk result (text.new.items ≡ text.old.items ++ flat_map number_text cells.now) }
    ensures numbers { OnOk result (AreNumbers cells.now) }
{
    for at in 0..cells.len() {
        push_number(text, cells.get(at))?;
    }
    Ok(())
}

/// Appends the line of an array. What it appends are all cells of the array, each below 2^64.
pub fn push_array(text: &mut Vec<u8>, name: &Name, grid: &Grid) -> Result<(), NoMemory>
    ensures text { OnOk result (text.new.items ≡ text.old.items ++ line_text name.now grid.now.cells) }
    ensures whole { OnOk result (IsWhole grid.now) }
{
    let _extents = grid.extents();
    text.extend_from_slice(name.bytes())?;
    push_numbers(text, grid.cells())?;
    text.push(b'\n')?;
    Ok(())
}

fn push_parameter(text: &mut Vec<u8>, param: &Parameter) -> Result<(), NoMemory>
    ensures { OnOk result (text.new.items ≡ text.old.items ++ parameter_text param.now) }
{
    text.extend_from_slice(param.name.bytes())?;
    push_number(text, param.value)?;
    text.push(b'\n')?;
    Ok(())
}

/// Appends the lines of parameters.
pub fn push_parameters(text: &mut Vec<u8>, params: &[Parameter]) -> Result<(), NoMemory>
    ensures { OnOk result (text.new.items ≡ text.old.items ++ parameters_text params.now) }
{
    for param in params {
        push_parameter(text, param)?;
    }
    Ok(())
}

/// Appends the lines of arrays.
fn push_arrays(text: &mut Vec<u8>, arrays: &[Table]) -> Result<(), NoMemory>
    ensures { OnOk result (text.new.items ≡ text.old.items ++ flat_map table_text arrays.now) }
{
    for array in arrays {
        push_array(text, &array.name, &array.cells)?;
    }
    Ok(())
}

/// The data text of the values, a line for each parameter and array in their order.
pub fn print_values(alloc: Global, values: &Values) -> Result<Text, NoMemory>
    ensures { IfOk result (λ text. text ≡ data_text (params_of values.now) (arrays_of values.now)) }
{
    let mut text = Vec::new(alloc);
    push_parameters(&mut text, values.params.as_slice())?;
    push_arrays(&mut text, values.arrays.as_slice())?;
    Ok(List::from_vec(text))
}
