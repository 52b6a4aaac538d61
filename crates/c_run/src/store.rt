// What a program runs on: numbers and arrays by their names.
use crate::arrays::Arrays;
use crate::numbers::Numbers;
use crate::signed::{cell_of, number_of};
use c_meaning::View;
use c_walk::Memory;
use chill_base::{Name, NoMemory};

#[derive(Drop)]
pub(crate) struct Store {
    pub(crate) numbers: Numbers,
    pub(crate) arrays: Arrays,
}

impl View for Store {
    ghost use Rattle.c_run.specs.Store.{scope_of_store, sight_of_store};

    ghost scope = { scope_of_store };

    ghost sight = { sight_of_store };

    fn value(&self, name: &Name) -> i64 {
        self.numbers.get(name)
    }

    fn cell(&self, array: &Name, at: [i64; 3]) -> Option<i64> {
        match self.arrays.get(array, at) {
            Some(cell) => Some(number_of(cell)),
            None => None,
        }
    }
}

impl Memory for Store {
    ghost use Rattle.c_run.specs.Store.{rest_of_store};

    ghost rest = { rest_of_store };

    fn enter(&mut self, variable: Name, value: i64) {
        self.numbers.enter(variable, value);
    }

    fn leave(&mut self) {
        self.numbers.leave();
    }

    fn data_cell(&self, array: &Name, at: [i64; 3]) -> Option<u64> {
        self.arrays.get(array, at)
    }

    fn set_data(&mut self, array: &Name, at: [i64; 3], value: u64) {
        self.arrays.set(array, at, value);
    }

    fn set_index(&mut self, array: &Name, at: [i64; 3], value: i64) {
        self.arrays.set(array, at, cell_of(value));
    }

    fn extents(&self, array: &Name) -> [u64; 3] {
        self.arrays.extents(array)
    }

    fn grow(&mut self, array: &Name, count: u64) -> Result<(), NoMemory> {
        self.arrays.grow(array, count)
    }
}
