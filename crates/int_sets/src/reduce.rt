// Division of a row by the greatest common divisor of its numbers.
ghost use Rattle.std.specs.Prelude.{◌≡◌, pos, ◌<ℤ◌, map, int_div, IfOk, IsTrue};
ghost use Rattle.std.specs.List.{list_all};
ghost use Rattle.int_rows.specs.Gcd.{gcd_of};
ghost use Rattle.int_rows.specs.Rows.{numbers};
ghost use Rattle.int_rows.specs.Elimination.{is_small, reduced as reduced_of};

use crate::numbers::{gcd, gcd_all, room};
use chill_base::NoMemory;
use int_rows::{Aff, Row};
use std::alloc::Global;

/// The greatest common divisor of a form's numbers.
fn form_gcd(form: &Aff) -> u128
    ensures { result ≡ gcd_of (numbers form.now) }
{
    gcd(gcd_all(form.coefs.as_slice()), form.constant.unsigned_abs())
}

/// The row with each number divided by `by`.
fn divided(alloc: Global, row: &Row, by: i128) -> Result<Row, NoMemory>
    requires { pos 0 <ℤ by }
    ensures { IfOk result (λ r. r ≡ record { equal = row.now.equal; form = record { coefs = map (λ z. int_div z by) row.now.form.coefs; constant = int_div row.now.form.constant by } }) }
{
    let mut coefs = room(alloc, row.form.coefs.len())?;
    for z in row.form.coefs.as_slice() {
        coefs.push(*z / by)?;
    }
    Ok(Row {
        equal: row.equal,
        form: Aff {
            coefs,
            constant: row.form.constant / by,
        },
    })
}

/// The row divided by the greatest common divisor of its numbers, unless that is 0.
pub fn reduced(alloc: Global, row: Row) -> Result<Row, NoMemory>
    requires { IsTrue (list_all is_small (numbers row.form)) }
    ensures { IfOk result (λ r. r ≡ reduced_of row) }
{
    let by = form_gcd(&row.form);
    if by <= 1 {
        return Ok(row);
    }
    divided(alloc, &row, by as i128)
}
