// The arrays that a padding makes.
ghost use Rattle.std.specs.Prelude.{◌≡◌, ◌++◌, ◌∷◌, [], OnOk, IfOk};
ghost use Rattle.compact_pad.specs.Made as spec;

use crate::names::KeptNames;
use chill_base::{List, Name, NoMemory};
use inspectors::RowNames;
use nest_tree::{Made, MadeWhat};
use std::alloc::Global;

fn push_made(
    made: &mut List<Made>,
    name: Name,
    matrix: usize,
    what: MadeWhat,
) -> Result<(), NoMemory>
    ensures { OnOk result (made.new ≡ made.old ++ spec.array name matrix what ∷ []) }
{
    made.push(Made { name, matrix, what })?;
    Ok(())
}

/// The kept values of `floord(column + c*row, divisor)` in groups of so many rows, with their begins, number and marks.
fn kept_arrays(
    alloc: Global,
    names: &KeptNames,
    matrix: usize,
    rows: i64,
    c: i64,
    divisor: i64,
) -> Result<List<Made>, NoMemory>
    ensures { IfOk result (λ made. made ≡ spec.kept_arrays names.now matrix rows c divisor) }
{
    let marks = names.marks;
    let count = marks.num;
    let kept = MadeWhat::Kept {
        c,
        s0: 0,
        divisor,
        count,
    };
    let mut made = List::new(alloc);
    push_made(
        &mut made,
        marks.ptr,
        matrix,
        MadeWhat::Pointer { rows, count },
    )?;
    push_made(&mut made, marks.val, matrix, kept)?;
    push_made(&mut made, marks.num, matrix, MadeWhat::Count)?;
    push_made(&mut made, marks.mark, matrix, MadeWhat::Mark)?;
    Ok(made)
}

/// The arrays of blocks.
pub fn block_arrays(
    alloc: Global,
    names: &KeptNames,
    matrix: usize,
    rows: i64,
    cols: i64,
) -> Result<List<Made>, NoMemory>
    ensures { IfOk result (λ made. made ≡ spec.block_arrays names.now matrix rows cols) }
{
    let mut made = kept_arrays(alloc, names, matrix, rows, 0, cols)?;
    let block = MadeWhat::Block {
        count: names.marks.num,
        rows,
        cols,
    };
    push_made(&mut made, names.layout, matrix, block)?;
    Ok(made)
}

/// The arrays of diagonals.
pub fn diag_arrays(alloc: Global, names: &KeptNames, matrix: usize) -> Result<List<Made>, NoMemory>
    ensures { IfOk result (λ made. made ≡ spec.diag_arrays names.now matrix) }
{
    let mut made = kept_arrays(alloc, names, matrix, 0, -1, 1)?;
    let count = names.marks.num;
    push_made(&mut made, names.layout, matrix, MadeWhat::Diag { count })?;
    Ok(made)
}

/// The arrays of padded rows.
pub fn row_arrays(alloc: Global, names: &RowNames, matrix: usize) -> Result<List<Made>, NoMemory>
    ensures { IfOk result (λ made. made ≡ spec.row_arrays names.now matrix) }
{
    let width = names.wid;
    let mut made = List::new(alloc);
    push_made(&mut made, names.wid, matrix, MadeWhat::Width)?;
    push_made(&mut made, names.lay, matrix, MadeWhat::Padded { width })?;
    push_made(&mut made, names.lcol, matrix, MadeWhat::Columns { width })?;
    Ok(made)
}
