// Forms and rows whose numbers lie elsewhere.
ghost use Rattle.std.specs.Prelude.{◌≡◌};
ghost use Rattle.int_sets.specs.Views.{form_of, row_of};

use int_rows::{Aff, Row};

/// An affine form that lies among others.
#[derive(Clone, Copy)]
pub struct AffRef<'a> {
    pub coefs: &'a [i128],
    pub constant: i128,
}

/// A row that lies among others.
#[derive(Clone, Copy)]
pub struct RowRef<'a> {
    pub equal: bool,
    pub form: AffRef<'a>,
}

/// The form, borrowed.
pub fn aff_ref(form: &Aff) -> AffRef<'_>
    ensures { form_of result ≡ form.now }
{
    AffRef {
        coefs: form.coefs.as_slice(),
        constant: form.constant,
    }
}

/// The row, borrowed.
pub fn row_ref(row: &Row) -> RowRef<'_>
    ensures { row_of result ≡ row.now }
{
    RowRef {
        equal: row.equal,
        form: aff_ref(&row.form),
    }
}
