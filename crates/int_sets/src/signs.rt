// Whether and how a row holds a variable.
ghost use Rattle.std.specs.Prelude.{◌≡◌, length, ◌<◌};
ghost use Rattle.int_sets.specs.Views.{row_of};
ghost use Rattle.int_rows.specs.Elimination.{holds_not as holds_not_of, is_above as is_above_of, is_below as is_below_of, is_equality_with as is_equality_with_of};

use crate::views::RowRef;

/// Whether a row doesn't hold the variable.
pub fn holds_not(row: &RowRef, var: usize) -> bool
    requires { var < length row.now.form.coefs.now }
    ensures { result ≡ holds_not_of var (row_of row.now) }
{
    row.form.coefs[var] == 0
}

/// Whether a row has a positive coefficient of the variable.
pub fn is_above(row: &RowRef, var: usize) -> bool
    requires { var < length row.now.form.coefs.now }
    ensures { result ≡ is_above_of var (row_of row.now) }
{
    row.form.coefs[var] > 0
}

/// Whether a row has a negative coefficient of the variable.
pub fn is_below(row: &RowRef, var: usize) -> bool
    requires { var < length row.now.form.coefs.now }
    ensures { result ≡ is_below_of var (row_of row.now) }
{
    row.form.coefs[var] < 0
}

/// Whether a row is an equality that holds the variable.
pub fn is_equality_with(row: &RowRef, var: usize) -> bool
    requires { var < length row.now.form.coefs.now }
    ensures { result ≡ is_equality_with_of var (row_of row.now) }
{
    row.equal && !holds_not(row, var)
}
