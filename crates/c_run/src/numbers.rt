// The numbers of a run: parameters, and the variables of the loops that were entered.
ghost use Rattle.std.specs.Prelude.{◌≡◌, ◌<◌, ◌≤◌, [], ◌∷◌, length, drop, vec_capacity, IsTrue, IfOk};
ghost use Rattle.csr_data.specs.Parameters.{AreSmall};
ghost use Rattle.c_run.specs.Numbers.{is_number, value_in};

use chill_base::{Name, NoMemory};
use csr_data::{Parameter, parameter_value};
use std::alloc::Global;

/// The most loops in one another.
const MOST_LOOPS: usize = 8;

/// A loop variable with its value.
#[derive(Clone, Copy)]
pub(crate) struct Variable {
    pub(crate) name: Name,
    pub(crate) value: i64,
}

/// The numbers by their names. A loop is entered without memory.
#[derive(Drop)]
pub(crate) struct Numbers {
    pub(crate) params: Vec<Parameter>,
    // The variable of the innermost loop is the last.
    pub(crate) loops: Vec<Variable>,
    ghost small: { AreSmall params.items },
    ghost room: { 8 ≤ vec_capacity loops },
}

impl Numbers {
    ghost use Rattle.c_run.specs.Store.{loops_of, params_of};

    pub(crate) fn new(alloc: Global, params: Vec<Parameter>) -> Result<Numbers, NoMemory>
        requires { AreSmall params.items }
        ensures { IfOk result (λ n. (loops_of n ≡ []) × (params_of n ≡ params.items)) }
    {
        Ok(Numbers {
            params,
            loops: Vec::with_capacity(alloc, MOST_LOOPS)?,
        })
    }

    /// The value of a loop variable, or else of a parameter.
    pub(crate) fn get(&self, name: &Name) -> i64
        requires { IsTrue (is_number (loops_of self.now) (params_of self.now) name.now) }
        ensures { result ≡ value_in (loops_of self.now) (params_of self.now) name.now }
    {
        let mut at = self.loops.len();
        while at > 0 {
            at -= 1;
            let variable = self.loops[at];
            if variable.name.bytes() == name.bytes() {
                return variable.value;
            }
        }
        parameter_value(self.params.as_slice(), name) as i64
    }

    pub(crate) fn enter(&mut self, name: Name, value: i64)
        requires { length (loops_of self.old) < 8 }
        ensures loops { loops_of self.new ≡ record { name = name; value = value } ∷ loops_of self.old }
        ensures params { params_of self.new ≡ params_of self.old }
    {
        self.loops.push_reserved(Variable { name, value });
    }

    pub(crate) fn leave(&mut self)
        requires { 0 < length (loops_of self.old) }
        ensures loops { drop 1 (loops_of self.old) ≡ loops_of self.new }
        ensures params { params_of self.new ≡ params_of self.old }
    {
        let _variable = self.loops.pop();
    }
}
