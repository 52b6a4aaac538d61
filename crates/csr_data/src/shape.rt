// The extents of an array, by the values of the parameters.
ghost use Rattle.std.specs.Prelude.{◌≡◌, ◌^◌, ◌≤◌, ℤ, pos, List, [], ◌∷◌, None, Ok, unsigned_abs, slice_index_or};
ghost use Rattle.c_meaning.specs.Value.{value_of, values_of};
ghost use Rattle.c_meaning.specs.Inputs.{three_of};
ghost use Rattle.csr_data.specs.Extents.{first_negative, extent_at, cells_wanted};
ghost use Rattle.csr_data.specs.Parameters.{names_of, sight_of, AreSmall};
ghost use Rattle.csr_data.specs.Signature.{IsExtent, AreExtents};

use crate::lookup::parameter_value;
use crate::values::Parameter;
use c_meaning::{View, eval_index};
use c_tree::Index;
use chill_base::Name;
use std::marker::Model;

/// What an extent sees: the values of the parameters, and no cell.
#[derive(Drop)]
struct Parameters<'a> {
    params: &'a [Parameter],
    ghost small: { AreSmall params.now },
}

impl View for Parameters<'_> {
    ghost use Rattle.csr_data.specs.Parameters.{scope_of, sight_of, names_of};

    ghost scope = { λ v. scope_of (names_of v.params.now) };

    ghost sight = { λ v. sight_of v.params.now };

    fn value(&self, name: &Name) -> i64 {
        parameter_value(self.params, name) as i64
    }

    #[tactic(auto, using(crate::proofs::Extents::none_seen))]
    fn cell(&self, _array: &Name, at: [i64; 3]) -> Option<i64> {
        // There are three subscripts, and no array has a cell.
        let _first = at[0];
        None
    }
}

/// The value of an extent.
fn extent(e: &Index, params: &[Parameter]) -> i64
    requires small { AreSmall params.now }
    requires extent { IsExtent (names_of params.now) e.now }
    ensures value { value_of e.now (sight_of params.now) ≡ Ok result }
    ensures size { unsigned_abs result ≤ 2 ^ 41 }
{
    match eval_index(e, &Parameters { params }) {
        Ok(value) => value,
        Err(_) => unreachable!(),
    }
}

/// The value of the extent at that place, or 1 where it is missing.
fn extent_or_one(extents: &[Index], at: usize, params: &[Parameter]) -> i64
    requires small { AreSmall params.now }
    requires extents { AreExtents (names_of params.now) extents.now }
    ensures value { (vs : List ℤ) → values_of extents.now (sight_of params.now) ≡ Ok vs → result ≡ slice_index_or vs at (pos 1) }
    ensures size { unsigned_abs result ≤ 2 ^ 41 }
{
    if at < extents.len() {
        extent(&extents[at], params)
    } else {
        1
    }
}

/// Three extents, of which missing ones are 1.
#[derive(Drop)]
pub(crate) struct Shape {
    first: i64,
    deep: i64,
    wide: i64,
}

impl Model for Shape {
    ghost use Rattle.std.specs.Prelude.{ℤ, List};

    ghost Value = { List ℤ };

    ghost use Rattle.csr_data.specs.Shape.{three_extents, IsSmall};

    ghost view = { three_extents };

    ghost invariant = { IsSmall };
}

impl Shape {
    /// The shape of a parameter, which has one number.
    pub(crate) fn one() -> Shape
        ensures { result ≡ pos 1 ∷ pos 1 ∷ pos 1 ∷ [] }
    {
        Shape {
            first: 1,
            deep: 1,
            wide: 1,
        }
    }

    /// The shape that the extents give.
    pub(crate) fn of(extents: &[Index], params: &[Parameter]) -> Shape
        requires small { AreSmall params.now }
        requires extents { AreExtents (names_of params.now) extents.now }
        ensures { result ≡ three_of (values_of extents.now (sight_of params.now)) }
    {
        Shape {
            first: extent_or_one(extents, 0, params),
            deep: extent_or_one(extents, 1, params),
            wide: extent_or_one(extents, 2, params),
        }
    }

    /// The first negative extent.
    pub(crate) fn negative(&self) -> Option<i64>
        ensures { result ≡ first_negative self.now }
    {
        if self.first < 0 {
            return Some(self.first);
        }
        if self.deep < 0 {
            return Some(self.deep);
        }
        if self.wide < 0 {
            return Some(self.wide);
        }
        None
    }

    /// How many cells there are.
    pub(crate) fn wanted(&self) -> u128
        requires { first_negative self.now ≡ None }
        ensures { result ≡ cells_wanted self.now }
    {
        self.first as u128 * (self.deep as u128 * self.wide as u128)
    }

    /// The extents as those of a grid.
    pub(crate) fn parts(&self) -> (usize, [usize; 2])
        requires { first_negative self.now ≡ None }
        ensures first { result.0 ≡ extent_at self.now 0 }
        ensures inner { result.1 ≡ extent_at self.now 1 ∷ extent_at self.now 2 ∷ [] }
        ensures small { result.0 ≤ 2 ^ 41 }
    {
        (
            self.first as usize,
            [self.deep as usize, self.wide as usize],
        )
    }
}
