// Copies.
ghost use Rattle.std.specs.Prelude.{◌≡◌, IfOk};

use chill_base::{List, NoMemory};
use int_rows::{Aff, Row};
use nest_tree::Term;
use std::alloc::Global;

/// A copy of a form.
pub fn copy_form(alloc: Global, form: &Aff) -> Result<Aff, NoMemory>
    ensures { IfOk result (λ f. f ≡ form.now) }
{
    Ok(Aff {
        coefs: List::from_slice(alloc, form.coefs.as_slice())?,
        constant: form.constant,
    })
}

/// Copies of forms.
pub fn copy_forms(alloc: Global, forms: &[Aff]) -> Result<List<Aff>, NoMemory>
    ensures { IfOk result (λ fs. fs ≡ forms.now) }
{
    let mut copies = List::new(alloc);
    for form in forms {
        copies.push(copy_form(alloc, form)?)?;
    }
    Ok(copies)
}

/// A copy of a row.
pub fn copy_row(alloc: Global, row: &Row) -> Result<Row, NoMemory>
    ensures { IfOk result (λ r. r ≡ row.now) }
{
    Ok(Row {
        equal: row.equal,
        form: copy_form(alloc, &row.form)?,
    })
}

/// Copies of rows.
pub fn copy_rows(alloc: Global, rows: &[Row]) -> Result<List<Row>, NoMemory>
    ensures { IfOk result (λ rs. rs ≡ rows.now) }
{
    let mut copies = List::new(alloc);
    for row in rows {
        copies.push(copy_row(alloc, row)?)?;
    }
    Ok(copies)
}

/// Copies of terms.
pub fn copy_terms(alloc: Global, terms: &[Term]) -> Result<List<Term>, NoMemory>
    ensures { IfOk result (λ ts. ts ≡ terms.now) }
{
    let mut copies = List::new(alloc);
    for term in terms {
        copies.push(copy_term(alloc, term)?)?;
    }
    Ok(copies)
}

/// A copy of a term.
pub fn copy_term(alloc: Global, term: &Term) -> Result<Term, NoMemory>
    ensures { IfOk result (λ t. t ≡ term.now) }
{
    Ok(Term {
        array: term.array,
        at: copy_forms(alloc, term.at.as_slice())?,
    })
}
