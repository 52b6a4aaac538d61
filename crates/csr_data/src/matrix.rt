// Whether the arrays of the matrices are in CSR form.
ghost use Rattle.std.specs.Prelude.{◌≡◌, drop};
ghost use Rattle.csr_data.specs.Matrices.{index_broken, columns_broken, row_of, broken, matrices_fault};
ghost use Rattle.csr_data.specs.Wanted.{given_of};

use crate::fault::{CsrWhy, ValuesFault};
use crate::values::Values;
use c_tree::{Matrix, Program};
use raw_store::Cells;

// The first row that ends before it begins, or an end that is wrong.
fn row_fault(index: &Cells, count: u64) -> Option<(CsrWhy, u64, u64)>
    ensures { result ≡ index_broken count index.now }
{
    let len = index.len();
    if len == 0 {
        return None;
    }
    let start = index.get(0);
    if start != 0 {
        return Some((CsrWhy::Start, 0, start));
    }
    let mut from = start;
    for end in 1..len {
        let to = index.get(end);
        if to < from {
            return Some((CsrWhy::Falls, (end - 1) as u64, to));
        }
        from = to;
    }
    if from == count {
        None
    } else {
        Some((CsrWhy::End, (len - 1) as u64, from))
    }
}

// The row of a place: how many rows end at it or before it.
fn row_of(index: &Cells, place: u64) -> u64
    ensures { result ≡ row_of (drop 1 index.now) place }
{
    let len = index.len();
    let mut row = 1;
    while row < len && index.get(row) <= place {
        row += 1;
    }
    (row - 1) as u64
}

// The first place whose column is too large, with its row.
fn column_fault(index: &Cells, col: &Cells, cols: u64) -> Option<(CsrWhy, u64, u64)>
    ensures { result ≡ columns_broken cols (drop 1 index.now) 0 col.now }
{
    for place in 0..col.len() {
        if col.get(place) >= cols {
            return Some((CsrWhy::Column, row_of(index, place as u64), place as u64));
        }
    }
    None
}

// What the arrays of one matrix break.
fn broken(matrix: &Matrix, values: &Values) -> Option<(CsrWhy, u64, u64)>
    ensures { result ≡ broken (given_of values.now) matrix.now }
{
    let index = values.array(&matrix.index)?.cells();
    let col = values.array(&matrix.col)?.cells();
    let cols = values.param(&matrix.cols)?;
    let count = values.param(&matrix.count)?;
    match row_fault(index, count) {
        Some(fault) => Some(fault),
        None => column_fault(index, col, cols),
    }
}

/// The first matrix that isn't in CSR form.
pub(crate) fn matrix_fault(program: &Program, values: &Values) -> Option<ValuesFault>
    ensures { result ≡ matrices_fault 0 (given_of values.now) program.now.matrices }
{
    for (number, matrix) in program.matrices.as_slice().iter().enumerate() {
        if let Some((why, row, place)) = broken(matrix, values) {
            return Some(ValuesFault::NotCsr {
                matrix: number,
                why,
                row,
                place,
            });
        }
    }
    None
}
