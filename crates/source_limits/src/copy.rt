// The signature of a program, copied.
ghost use Rattle.std.specs.Prelude.{◌≡◌, IfOk};
ghost use Rattle.source_limits.specs.Heads.{signature_of};

use c_tree::{Array, Program};
use chill_base::{List, NoMemory};
use std::alloc::Global;
use tree_copies::copy_indexes;

/// The program's signature with empty sections.
pub fn signature_of(alloc: Global, program: &Program) -> Result<Program, NoMemory>
    ensures { IfOk result (λ h. h ≡ signature_of program.now) }
{
    Ok(Program {
        name: program.name,
        matrices: List::from_slice(alloc, program.matrices.as_slice())?,
        params: List::from_slice(alloc, program.params.as_slice())?,
        arrays: copy_arrays(alloc, program.arrays.as_slice())?,
        inspector: List::new(alloc),
        executor: List::new(alloc),
    })
}

fn copy_arrays(alloc: Global, arrays: &[Array]) -> Result<List<Array>, NoMemory>
    ensures { IfOk result (λ copy. copy ≡ arrays.now) }
{
    let mut copies = List::new(alloc);
    for array in arrays {
        copies.push(copy_array(alloc, array)?)?;
    }
    Ok(copies)
}

fn copy_array(alloc: Global, array: &Array) -> Result<Array, NoMemory>
    ensures { IfOk result (λ copy. copy ≡ array.now) }
{
    Ok(Array {
        name: array.name,
        kind: array.kind,
        extents: copy_indexes(alloc, array.extents.as_slice())?,
    })
}
