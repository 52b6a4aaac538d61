// Cells by rows: a row is a plane of lines of cells.
ghost use Rattle.std.specs.Prelude.{◌≡◌, ℕ, ◌+◌, ◌*◌, ◌^◌, ◌≤◌, [], ◌∷◌, ◌++◌, length, replicate, slice_index_or, slice_set, OnOk, OnErr};
ghost use Rattle.raw_store.specs.Rows.{IsInside, place, sub};

use crate::store::Cells;
use chill_base::NoMemory;
use std::alloc::Global;
use std::marker::Model;

/// A grid of cells with three extents, of which the first grows.
#[derive(Drop)]
pub struct Grid {
    cells: Cells,
    first: usize,
    deep: usize,
    wide: usize,
}

impl Model for Grid {
    ghost use Rattle.raw_store.specs.Rows.{Rows};

    ghost Value = { Rows };

    ghost use Rattle.raw_store.specs.GridInside.{rows_of, IsGrid};

    ghost view = { rows_of };

    ghost invariant = { IsGrid };
}

impl Grid {
    /// A grid without rows, of which each will have these extents.
    pub fn new(alloc: Global, inner: [usize; 2]) -> Grid
        requires { (sub inner 0 ≤ 2 ^ 62) × (sub inner 1 ≤ 2 ^ 62) }
        ensures { result ≡ record { first = 0; deep = sub inner 0; wide = sub inner 1; cells = [] } }
    {
        Grid {
            cells: Cells::new(alloc),
            first: 0,
            deep: inner[0],
            wide: inner[1],
        }
    }

    /// The grid of these cells, the last subscript running fastest.
    pub fn from_cells(cells: Cells, first: usize, inner: [usize; 2]) -> Grid
        requires few { (first ≤ 2 ^ 62) × (length cells ≤ 2 ^ 62) }
        requires product { length cells ≡ first * (sub inner 0 * sub inner 1) }
        ensures { result ≡ record { first = first; deep = sub inner 0; wide = sub inner 1; cells = cells } }
    {
        Grid {
            cells,
            first,
            deep: inner[0],
            wide: inner[1],
        }
    }

    pub fn first(&self) -> usize
        ensures { result ≡ self.now.first }
    {
        self.first
    }

    /// The three extents.
    pub fn extents(&self) -> [usize; 3]
        ensures extents { result ≡ self.now.first ∷ self.now.deep ∷ self.now.wide ∷ [] }
        ensures product { length self.now.cells ≡ self.now.first * (self.now.deep * self.now.wide) }
        ensures rows { self.now.first ≤ 2 ^ 62 }
    {
        let _first = self.first;
        [self.first, self.deep, self.wide]
    }

    /// The cells in order, the last subscript running fastest.
    pub fn cells(&self) -> &Cells
        ensures { result.now ≡ self.now.cells }
    {
        &self.cells
    }

    /// Appends rows of zeros.
    pub fn grow_rows(&mut self, count: usize) -> Result<(), NoMemory>
        requires rows { self.old.first + count ≤ 2 ^ 62 }
        requires cells { (self.old.first + count) * (self.old.deep * self.old.wide) ≤ 2 ^ 62 }
        ensures grown { OnOk result (self.new ≡ record self.old { first = self.old.first + count; cells = self.old.cells ++ replicate (count * (self.old.deep * self.old.wide)) 0 }) }
        ensures kept { OnErr result (self.new ≡ self.old) }
    {
        if count == 0 {
            return Ok(());
        }
        let row = self.deep * self.wide;
        self.cells.grow(count * row)?;
        self.first += count;
        Ok(())
    }

    pub fn get(&self, at: [usize; 3]) -> u64
        requires { IsInside self.now at }
        ensures { result ≡ slice_index_or self.now.cells (place self.now at) 0 }
    {
        let row = self.deep * self.wide;
        self.cells.get(at[0] * row + (at[1] * self.wide + at[2]))
    }

    pub fn set(&mut self, at: [usize; 3], value: u64)
        requires { IsInside self.old at }
        ensures { self.new ≡ record self.old { cells = slice_set self.old.cells (place self.old at) value } }
    {
        let row = self.deep * self.wide;
        self.cells
            .set(at[0] * row + (at[1] * self.wide + at[2]), value);
    }
}
