// The arrays of a run.
ghost use Rattle.std.specs.Prelude.{◌≡◌, ℕ, ◌+◌, ◌*◌, ◌≤◌, ℤ, pos, [], ◌∷◌, ◌++◌, List, length, ◌&&◌, if◌then◌else◌, slice_index, None, Some, is_some, IsTrue, MatchOption, OnOk, OnErr, vec_len};
ghost use Rattle.std.specs.Option.{option_map};
ghost use Rattle.c_meaning.specs.Names.{Name, same_name, same_numbers};
ghost use Rattle.c_meaning.specs.Value.{is_inside};
ghost use Rattle.c_meaning.specs.Run.{is_within, grown};
ghost use Rattle.csr_data.specs.Values.{array_of};
ghost use Rattle.c_run.specs.Arrays.{table_of, number_in, shape_in, extents_of_rows, extents_of, cell_at, seen_in, place_in, all_places, places_in, grown_shape};
ghost use Rattle.c_run.specs.Printing.{rows_in};

use c_tree::Kind;
use chill_base::{Name, NoMemory};
use csr_data::Table;
use raw_store::{Cells, Grid};
use std::alloc::Global;

/// The arrays of the signature, and the growable ones.
#[derive(Drop)]
pub(crate) struct Arrays {
    pub(crate) tables: Vec<Table>,
}

// The subscript as a place, where it is inside.
fn place(extent: usize, at: &i64) -> Option<usize>
    ensures { result ≡ place_in at.now (pos extent) }
{
    if *at >= 0 && (*at as usize) < extent {
        Some(*at as usize)
    } else {
        None
    }
}

fn all_three(row: Option<usize>, line: Option<usize>, cell: Option<usize>) -> Option<[usize; 3]>
    ensures { result ≡ all_places row line cell }
{
    Some([row?, line?, cell?])
}

// The subscripts as places of the grid, where they are inside.
fn places(grid: &Grid, at: [i64; 3]) -> Option<[usize; 3]>
    ensures places { result ≡ places_in at (extents_of_rows grid.now) }
    ensures product { length grid.now.cells ≡ grid.now.first * (grid.now.deep * grid.now.wide) }
{
    let [first, deep, wide] = grid.extents();
    all_three(
        place(first, &at[0]),
        place(deep, &at[1]),
        place(wide, &at[2]),
    )
}

// The array of that name.
fn find_table<'a>(tables: &'a [Table], name: &Name) -> &'a Table
    requires { IsTrue (is_some (table_of tables.now name.now)) }
    ensures { table_of tables.now name.now ≡ Some result.now }
{
    for table in tables {
        if table.name.bytes() == name.bytes() {
            return table;
        }
    }
    unreachable!()
}

// The number of the array of that name.
fn number(tables: &[Table], name: &Name) -> usize
    requires { IsTrue (is_some (table_of tables.now name.now)) }
    ensures { result ≡ number_in tables.now name.now }
{
    let mut number = 0;
    for table in tables {
        if table.name.bytes() == name.bytes() {
            return number;
        }
        number += 1;
    }
    unreachable!()
}

impl Arrays {
    ghost use Rattle.c_run.specs.Store.{tables_of};

    /// The arrays of the signature.
    pub(crate) fn new(tables: Vec<Table>) -> Arrays
        ensures { tables_of result ≡ tables.items }
    {
        Arrays { tables }
    }

    /// The cells of an array that is there.
    pub(crate) fn grid(&self, name: &Name) -> &Grid
        requires { IsTrue (is_some (table_of (tables_of self.now) name.now)) }
        ensures { result.now ≡ rows_in (table_of (tables_of self.now) name.now) }
    {
        &find_table(self.tables.as_slice(), name).cells
    }

    /// The cells of an array. None exactly where there is no array of that name.
    pub(crate) fn find(&self, name: &Name) -> Option<&Grid>
        ensures { MatchOption result (array_of (tables_of self.now) name.now ≡ None) (λ g. array_of (tables_of self.now) name.now ≡ Some g.now) }
    {
        for table in self.tables.as_slice() {
            if table.name.bytes() == name.bytes() {
                return Some(&table.cells);
            }
        }
        None
    }

    /// The cell, where its subscripts are inside.
    pub(crate) fn get(&self, name: &Name, at: [i64; 3]) -> Option<u64>
        requires { IsTrue (is_some (table_of (tables_of self.now) name.now)) }
        ensures { result ≡ seen_in (tables_of self.now) name.now at }
    {
        let table = find_table(self.tables.as_slice(), name);
        match places(&table.cells, at) {
            Some(places) => Some(table.cells.get(places)),
            None => None,
        }
    }

    /// Writes a cell.
    pub(crate) fn set(&mut self, name: &Name, at: [i64; 3], value: u64)
        requires has { IsTrue (is_some (table_of (tables_of self.old) name.now)) }
        requires inside { IsTrue (is_inside at (extents_of (shape_in (tables_of self.old) name.now))) }
        ensures shapes { (x : Name) → shape_in (tables_of self.new) x ≡ shape_in (tables_of self.old) x }
        ensures cells { (x : Name) (q : List ℤ) → cell_at (tables_of self.new) x q ≡ (if same_name name.now x && same_numbers at q then value else cell_at (tables_of self.old) x q) }
    {
        let number = number(self.tables.as_slice(), name);
        let table = &mut self.tables[number];
        match places(&table.cells, at) {
            Some(places) => table.cells.set(places, value),
            None => unreachable!(),
        }
    }

    /// The three extents.
    pub(crate) fn extents(&self, name: &Name) -> [u64; 3]
        requires { IsTrue (is_some (table_of (tables_of self.now) name.now)) }
        ensures { extents_of (shape_in (tables_of self.now) name.now) ≡ pos (slice_index result 0) ∷ pos (slice_index result 1) ∷ pos (slice_index result 2) ∷ [] }
    {
        let table = find_table(self.tables.as_slice(), name);
        let [first, deep, wide] = table.cells.extents();
        [first as u64, deep as u64, wide as u64]
    }

    /// Appends rows of zeros.
    pub(crate) fn grow(&mut self, name: &Name, count: u64) -> Result<(), NoMemory>
        requires has { IsTrue (is_some (table_of (tables_of self.old) name.now)) }
        requires within { IsTrue (is_within (grown (pos count) (extents_of (shape_in (tables_of self.old) name.now)))) }
        ensures grown { OnOk result ((x : Name) → shape_in (tables_of self.new) x ≡ (if same_name name.now x then option_map (grown_shape (pos count)) (shape_in (tables_of self.old) x) else shape_in (tables_of self.old) x)) }
        ensures kept { OnErr result ((x : Name) → shape_in (tables_of self.new) x ≡ shape_in (tables_of self.old) x) }
        ensures cells { (x : Name) (q : List ℤ) → cell_at (tables_of self.new) x q ≡ cell_at (tables_of self.old) x q }
    {
        let number = number(self.tables.as_slice(), name);
        let table = &mut self.tables[number];
        let _extents = table.cells.extents();
        table.cells.grow_rows(count as usize)
    }

    /// A new array without cells.
    pub(crate) fn declare(
        &mut self,
        alloc: Global,
        name: Name,
        kind: Kind,
        dimensions: usize,
        inner: [usize; 2],
    ) -> Result<(), NoMemory>
        ensures declared { OnOk result (tables_of self.new ≡ tables_of self.old ++ record { name = name; kind = kind; dimensions = dimensions; cells = record { first = 0; deep = slice_index inner 0; wide = slice_index inner 1; cells = [] } } ∷ []) }
        ensures kept { OnErr result (tables_of self.new ≡ tables_of self.old) }
    {
        let cells = Grid::from_cells(Cells::new(alloc), 0, inner);
        self.tables.push(Table {
            name,
            kind,
            dimensions,
            cells,
        })?;
        Ok(())
    }
}
