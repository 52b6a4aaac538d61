// The read that gives an entry's column.
ghost use Rattle.std.specs.Prelude.{◌≡◌, ◌+◌, ◌<◌, ◌^◌, length};
ghost use Rattle.pad_layouts.specs.Products as spec;

use chill_base::Name;
use int_rows::Aff;
use nest_tree::Term;

pub fn is_name(name: Name, other: Name) -> bool
    ensures { result ≡ spec.is_name name other }
{
    name.bytes() == other.bytes()
}

pub fn one_if(here: bool) -> i128
    ensures { result ≡ spec.one_if here }
{
    if here { 1 } else { 0 }
}

/// Whether the form is that variable.
pub fn is_unit(var: usize, form: &Aff) -> bool
    ensures { result ≡ spec.is_unit var form.now }
{
    let coefs = form.coefs.as_slice();
    for other in 0..coefs.len() {
        if coefs[other] != one_if(other == var) {
            return false;
        }
    }
    form.constant == 0
}

/// Whether there is one form, and it is that variable.
pub fn is_single(var: usize, forms: &[Aff]) -> bool
    ensures { result ≡ spec.is_single var forms.now }
{
    match forms {
        [form] => is_unit(var, form),
        _ => false,
    }
}

/// The variable of the first term that reads the array at that variable. `first` is the variable of the first term.
pub fn find_read(array: Name, var: usize, first: usize, terms: &[Term]) -> Option<usize>
    requires { first + length terms.now < 2 ^ 64 }
    ensures { result ≡ spec.find_read array var first terms.now }
{
    for i in 0..terms.len() {
        if is_name(terms[i].array, array) && is_single(var, terms[i].at.as_slice()) {
            return Some(first + i);
        }
    }
    None
}
