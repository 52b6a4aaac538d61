// What tells rows apart of which more than one is kept.
ghost use Rattle.std.specs.Prelude.{◌≡◌, IfOk};
ghost use Rattle.int_sets.specs.Views.{row_of, equals_of};
ghost use Rattle.int_sets.specs.Keys.{IsKeyOf};

use crate::views::RowRef;
use chill_base::NoMemory;
use std::alloc::Global;

/// The constant of an equality, and the coefficients: of rows with the same key only one is kept.
#[derive(PartialEq, Eq, Hash, Drop)]
pub struct RowKey {
    pub equals: Option<i128>,
    pub coefs: Vec<i128>,
}

/// The constant of an equality.
fn equals(row: &RowRef) -> Option<i128>
    ensures { result ≡ equals_of (row_of row.now) }
{
    if row.equal {
        Some(row.form.constant)
    } else {
        None
    }
}

/// The key of a row.
pub fn row_key(alloc: Global, row: &RowRef) -> Result<RowKey, NoMemory>
    ensures { IfOk result (λ k. IsKeyOf k (row_of row.now)) }
{
    Ok(RowKey {
        equals: equals(row),
        coefs: Vec::from_slice(alloc, row.form.coefs)?,
    })
}
