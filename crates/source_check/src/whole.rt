// Statements that go over a whole sparse matrix.
ghost use Rattle.std.specs.Prelude.{◌≡◌, ◌+◌, ◌≤◌, length, IfOk, IsTrue};
ghost use Rattle.nest_core.specs.Shapes.{is_below};

use crate::rows::difference;
use c_tree::{Matrix, Program};
use chill_base::{List, Name, NoMemory};
use int_rows::Aff;
use nest_systems::{unit_form, zero_form};
use nest_tree::{Form, KernelRow, Term};
use std::alloc::Global;

fn is_same_form(a: &Aff, b: &Aff) -> bool {
    a.constant == b.constant && a.coefs.as_slice() == b.coefs.as_slice()
}

/// Whether a row is an inequality of this form, made for the level.
fn is_bound(row: &KernelRow, own: usize, form: &Aff) -> bool {
    row.own == own && !row.row.equal && is_same_form(&row.row.form, form)
}

/// The variable of the term that reads the array at `row + more`.
fn term_at(
    alloc: Global,
    head: &Program,
    terms: &[Term],
    array: Name,
    row: usize,
    more: i128,
) -> Result<Option<usize>, NoMemory> {
    let first = head.params.as_slice().len() + 2;
    let mut wanted = unit_form(alloc, row, first + terms.len())?;
    wanted.constant = more;
    for i in 0..terms.len() {
        if terms[i].array == array {
            if let [at] = terms[i].at.as_slice() {
                if is_same_form(at, &wanted) {
                    return Ok(Some(first + i));
                }
            }
        }
    }
    Ok(None)
}

/// Whether two rows say that a level is from one form to below another.
fn is_between(
    alloc: Global,
    rows: &[KernelRow],
    level: usize,
    var: usize,
    low: &Aff,
    high: &Aff,
) -> Result<bool, NoMemory>
    requires { length low.now.coefs ≡ length high.now.coefs }
{
    match rows {
        [first, second] => {
            let variable = unit_form(alloc, var, low.coefs.len())?;
            let from = difference(alloc, &variable, low, 0)?;
            let below = difference(alloc, high, &variable, 1)?;
            Ok(is_bound(first, level, &from) && is_bound(second, level, &below))
        }
        _ => Ok(false),
    }
}

/// The parameters of that name, over so many variables.
fn size_form(alloc: Global, params: &[Name], name: Name, vars: usize) -> Result<Aff, NoMemory>
    requires { length params.now ≤ vars }
    ensures { IfOk result (λ f. length f.coefs ≡ vars) }
{
    let Aff {
        mut coefs,
        constant,
    } = zero_form(alloc, vars)?;
    for i in 0..params.len() {
        if params[i] == name {
            coefs.set(i, 1);
        }
    }
    Ok(Aff { coefs, constant })
}

/// Whether the rows of two levels are those of a whole matrix: each row of it, and each entry of the row.
fn is_whole(
    alloc: Global,
    head: &Program,
    matrix: &Matrix,
    terms: &[Term],
    rows: &[KernelRow],
) -> Result<bool, NoMemory> {
    if rows.len() != 4 {
        return Ok(false);
    }
    let row = head.params.as_slice().len();
    let first = row + 2;
    let vars = first + terms.len();
    let begin = term_at(alloc, head, terms, matrix.index, row, 0)?;
    let end = term_at(alloc, head, terms, matrix.index, row, 1)?;
    let (Some(begin), Some(end)) = (begin, end) else {
        return Ok(false);
    };
    let zero = zero_form(alloc, vars)?;
    let count = size_form(alloc, head.params.as_slice(), matrix.rows, vars)?;
    let from = unit_form(alloc, begin, vars)?;
    let to = unit_form(alloc, end, vars)?;
    Ok(
        is_between(alloc, &rows[..2], 1, row, &zero, &count)?
            && is_between(alloc, &rows[2..], 2, row + 1, &from, &to)?,
    )
}

/// The matrix that a statement with these levels, terms and rows goes over as a whole.
pub fn whole_matrix(
    alloc: Global,
    head: &Program,
    levels: usize,
    terms: &[Term],
    rows: &[KernelRow],
) -> Result<Option<usize>, NoMemory>
    ensures { IfOk result (λ w. IsTrue (is_below (length head.now.matrices) w)) }
{
    if levels != 2 {
        return Ok(None);
    }
    let matrices = head.matrices.as_slice();
    for i in 0..matrices.len() {
        if is_whole(alloc, head, &matrices[i], terms, rows)? {
            return Ok(Some(i));
        }
    }
    Ok(None)
}

fn level_form(r: i64, k: i64) -> Form {
    Form::Whole {
        r,
        j: 0,
        k,
        constant: 0,
        divisor: 1,
    }
}

/// What so many levels stand for: the row and the place of an entry in a whole statement.
pub fn level_forms(alloc: Global, levels: usize, is_whole: bool) -> Result<List<Form>, NoMemory>
    ensures { IfOk result (λ fs. length fs ≡ levels) }
{
    let mut forms = List::new(alloc);
    for level in 0..levels {
        forms.push(if !is_whole {
            Form::Other
        } else if level == 0 {
            level_form(1, 0)
        } else {
            level_form(0, 1)
        })?;
    }
    Ok(forms)
}
