// The values of a signature's parameters, and the cells of its arrays.
ghost use Rattle.std.specs.Prelude.{◌≡◌, Some, None, MatchOption};

use c_tree::Kind;
use chill_base::Name;
use raw_store::Grid;

/// A parameter with its value.
#[derive(Clone, Copy)]
pub struct Parameter {
    pub name: Name,
    pub value: u64,
}

/// An array with its cells.
#[derive(Drop)]
pub struct Table {
    pub name: Name,
    pub kind: Kind,
    /// How many extents it has.
    pub dimensions: usize,
    pub cells: Grid,
}

/// The values of a signature's parameters, and the cells of its arrays, in the signature's order.
#[derive(Drop)]
pub struct Values {
    pub(crate) params: Vec<Parameter>,
    pub(crate) arrays: Vec<Table>,
}

impl Values {
    ghost use Rattle.raw_store.specs.Rows.{IsInside};
    ghost use Rattle.csr_data.specs.Values.{param_of, array_of, has_cell, arrays_of, params_of, with_cell};

    /// The values of these parameters, and of these arrays.
    pub fn from_parts(params: Vec<Parameter>, arrays: Vec<Table>) -> Values
        ensures params { params_of result ≡ params.items }
        ensures arrays { arrays_of result ≡ arrays.items }
    {
        Values { params, arrays }
    }

    /// The parameters, and the arrays.
    pub fn into_parts(self) -> (Vec<Parameter>, Vec<Table>)
        ensures params { result.0.items ≡ params_of self }
        ensures arrays { result.1.items ≡ arrays_of self }
    {
        let Values { params, arrays } = self;
        (params, arrays)
    }

    /// The parameters, in the signature's order.
    pub fn params(&self) -> &[Parameter]
        ensures { result.now ≡ params_of self.now }
    {
        self.params.as_slice()
    }

    /// The value of a parameter. None exactly where there is no parameter of that name.
    pub fn param(&self, name: &Name) -> Option<u64>
        ensures { result ≡ param_of (params_of self.now) name.now }
    {
        for param in self.params.as_slice() {
            if param.name.bytes() == name.bytes() {
                return Some(param.value);
            }
        }
        None
    }

    /// The cells of an array. None exactly where there is no array of that name.
    pub fn array(&self, name: &Name) -> Option<&Grid>
        ensures { MatchOption result (array_of (arrays_of self.now) name.now ≡ None) (λ g. array_of (arrays_of self.now) name.now ≡ Some g.now) }
    {
        for array in self.arrays.as_slice() {
            if array.name.bytes() == name.bytes() {
                return Some(&array.cells);
            }
        }
        None
    }

    /// Writes one cell of an array.
    pub fn set(&mut self, name: &Name, at: [usize; 3], value: u64)
        requires { has_cell (array_of (arrays_of self.old) name.now) at }
        ensures arrays { arrays_of self.new ≡ with_cell (arrays_of self.old) name.now at value }
        ensures params { params_of self.new ≡ params_of self.old }
    {
        let mut number = 0;
        while self.arrays[number].name.bytes() != name.bytes() {
            number += 1;
        }
        self.arrays[number].cells.set(at, value);
    }
}
