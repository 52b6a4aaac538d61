// The data of a measured run: a square matrix with a few entries a row, and vectors.
ghost use Rattle.std.specs.Prelude.{◌≡◌, ◌≤◌, ◌<◌, ◌+◌, ◌^◌, length, OnOk};

use crate::values::{Parameter, Table, Values};
use c_tree::Kind;
use chill_base::{Name, NoMemory};
use raw_store::{Cells, Grid};
use std::alloc::Global;

/// The most entries of a row.
const MOST: u64 = 256;
/// Values of entries and cells are below this.
const BELOW: u64 = 1000;

// Numbers that depend on the seed alone.
#[derive(Drop)]
struct Draws {
    state: u64,
    ghost small: { state < 2 ^ 31 },
}

impl Draws {
    fn below(&mut self, bound: u64) -> u64
        requires { 0 < bound }
        ensures { result < bound }
    {
        self.state = (self.state * 1103515245 + 12345) % 2147483648;
        self.state / 65536 % bound
    }
}

fn push(cells: &mut Cells, value: u64) -> Result<(), NoMemory>
    ensures { OnOk result (length cells.new ≡ length cells.old + 1) }
{
    let at = cells.len();
    cells.grow(1)?;
    cells.set(at, value);
    Ok(())
}

// The arrays of the matrix as they grow.
#[derive(Drop)]
struct Entries {
    index: Cells,
    col: Cells,
    value: Cells,
}

// One row: columns that rise, with their values.
fn draw_row(draws: &mut Draws, entries: &mut Entries, size: u64) -> Result<(), NoMemory>
    requires { size ≤ 65536 }
    ensures index { OnOk result (length entries.new.index ≡ length entries.old.index + 1) }
    ensures col { OnOk result (length entries.new.col ≤ length entries.old.col + 256) }
    ensures value { OnOk result (length entries.new.value ≤ length entries.old.value + 256) }
{
    let stride = size / 4 + 1;
    let mut column = draws.below(stride);
    let mut count = 0;
    while column < size && count < MOST {
        push(&mut entries.col, column)?;
        push(&mut entries.value, draws.below(BELOW))?;
        column += 1 + draws.below(stride);
        count += 1;
    }
    push(&mut entries.index, entries.col.len() as u64)
}

fn name(bytes: &[u8]) -> Name
    requires { (1 ≤ length bytes.now) × (length bytes.now ≤ 63) }
    ensures { result ≡ bytes.now }
{
    Name::new(bytes).unwrap()
}

fn table(bytes: &[u8], kind: Kind, cells: Cells) -> Table
    requires name { (1 ≤ length bytes.now) × (length bytes.now ≤ 63) }
    requires few { length cells ≤ 2 ^ 62 }
{
    let first = cells.len();
    Table {
        name: name(bytes),
        kind,
        dimensions: 1,
        cells: Grid::from_cells(cells, first, [1, 1]),
    }
}

/// The data of the sparse matrix-vector product: parameters `n`, `m` and `nnz`, arrays `index`, `col`, `a`, `x` and `y`.
pub fn generate(alloc: Global, seed: u32, size: u32) -> Result<Values, NoMemory>
    requires seed { seed ≤ 2147483647 }
    requires size { (1 ≤ size) × (size ≤ 65536) }
{
    let size = size as u64;
    let mut draws = Draws { state: seed as u64 };
    let mut entries = Entries {
        index: Cells::new(alloc),
        col: Cells::new(alloc),
        value: Cells::new(alloc),
    };
    push(&mut entries.index, 0)?;
    for _row in 0..size {
        draw_row(&mut draws, &mut entries, size)?;
    }
    let mut x = Cells::new(alloc);
    for _cell in 0..size {
        push(&mut x, draws.below(BELOW))?;
    }
    let mut y = Cells::new(alloc);
    y.grow(size as usize)?;
    let Entries { index, col, value } = entries;
    let count = col.len() as u64;
    let mut params = Vec::new(alloc);
    params.push(Parameter {
        name: name(b"n"),
        value: size,
    })?;
    params.push(Parameter {
        name: name(b"m"),
        value: size,
    })?;
    params.push(Parameter {
        name: name(b"nnz"),
        value: count,
    })?;
    let mut arrays = Vec::new(alloc);
    arrays.push(table(b"index", Kind::Position, index))?;
    arrays.push(table(b"col", Kind::Position, col))?;
    arrays.push(table(b"a", Kind::Number, value))?;
    arrays.push(table(b"x", Kind::Number, x))?;
    arrays.push(table(b"y", Kind::Number, y))?;
    Ok(Values { params, arrays })
}
