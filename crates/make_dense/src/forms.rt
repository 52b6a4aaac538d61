// Forms of one and of two variables.
ghost use Rattle.std.specs.Prelude.{◌≡◌, map, IfOk};
ghost use Rattle.std.specs.List.{range_with_len};
ghost use Rattle.std.specs.Ordering.{int_eq};
ghost use Rattle.make_dense.specs.Forms as spec;

use chill_base::{List, Name, NoMemory};
use int_rows::Aff;
use nest_systems::is_name;
use nest_tree::Term;
use std::alloc::Global;

/// The coefficient of a variable in the form `x - y`; that form is `x` where both are one variable.
pub fn coef_of_difference(x: usize, y: usize, var: usize) -> i128
    ensures { result ≡ spec.coef_of_difference x y var }
{
    if var == x {
        1
    } else if var == y {
        -1
    } else {
        0
    }
}

/// The form `x - y` over so many variables.
#[tactic(auto, unfolding(crate::specs::Forms::difference))]
pub fn difference(alloc: Global, vars: usize, x: usize, y: usize) -> Result<Aff, NoMemory>
    ensures { IfOk result (λ f. f ≡ spec.difference vars x y) }
{
    let mut coefs = List::new(alloc);
    for var in 0..vars {
        coefs.push(coef_of_difference(x, y, var))?;
    }
    Ok(Aff { coefs, constant: 0 })
}

fn is_coef(number: i128, x: usize, y: usize, var: usize) -> bool
    ensures { result ≡ int_eq number (spec.coef_of_difference x y var) }
{
    number == coef_of_difference(x, y, var)
}

fn has_coefs(coefs: &[i128], x: usize, y: usize) -> bool
    ensures { result ≡ spec.has_coefs x y 0 coefs.now }
{
    for var in 0..coefs.len() {
        if !is_coef(coefs[var], x, y, var) {
            return false;
        }
    }
    true
}

/// Whether the form is `x - y + constant`.
#[tactic(auto, unfolding(crate::specs::Forms::is_difference))]
pub fn is_difference(form: &Aff, x: usize, y: usize, constant: i128) -> bool
    ensures { result ≡ spec.is_difference x y constant form.now }
{
    has_coefs(form.coefs.as_slice(), x, y) && form.constant == constant
}

/// Whether the term reads the array at the variable plus a number, and at nothing else.
pub fn reads_at(term: &Term, array: Name, var: usize, shift: i128) -> bool
    ensures { result ≡ spec.reads_at array var shift term.now }
{
    match term.at.as_slice() {
        [form] => is_name(term.array, array) && is_difference(form, var, var, shift),
        _ => false,
    }
}

/// The first of the terms that reads the array at the variable.
pub fn find_read(terms: &[Term], array: Name, var: usize) -> Option<usize>
    ensures { result ≡ spec.find_read array var 0 terms.now }
{
    for place in 0..terms.len() {
        if reads_at(&terms[place], array, var, 0) {
            return Some(place);
        }
    }
    None
}
