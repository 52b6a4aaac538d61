// The variables that forms name when a level is replaced by its lower bound.
ghost use Rattle.std.specs.Prelude.{◌≡◌, ◌+◌, ◌<◌, length, IsTrue};
ghost use Rattle.std.specs.List.{list_all, list_any};
ghost use Rattle.nest_core.specs.Forms.{has_vars};
ghost use Rattle.nest_core.specs.Shapes.{is_term_over};
ghost use Rattle.unroll.specs.Replaced.{held_after, names_after, names_inside_after};

use int_rows::Aff;
use nest_core::product;
use nest_tree::Term;

/// Whether the variable has a coefficient other than 0 in the form when the level is replaced by its lower bound, which
/// is its variable less the lower row.
#[tactic(auto, unfolding(crate::specs::Replaced::held_after))]
fn is_held_after(lower: &[i128], at: usize, coefs: &[i128], var: usize) -> bool
    requires level { at < length coefs.now }
    requires lower { var < length lower.now }
    requires within { var < length coefs.now }
    ensures { result ≡ held_after lower.now at coefs.now var }
{
    match product(coefs[at], lower[var]) {
        Some(product) => coefs[var] != product,
        None => true,
    }
}

/// Whether the form then names the variable, as itself or in an argument at most so many terms deep.
#[cycle(after)]
pub fn names_after(
    first: usize,
    terms: &[Term],
    lower: &[i128],
    at: usize,
    var: usize,
    deep: usize,
    form: &Aff,
) -> bool
    requires level { at < first + length terms.now }
    requires within { var < first + length terms.now }
    requires lower { length lower.now ≡ first + length terms.now }
    requires width { IsTrue (has_vars (first + length terms.now) form.now) }
    requires terms { IsTrue (list_all (is_term_over (first + length terms.now)) terms.now) }
    ensures { result ≡ names_after first terms.now lower.now at var deep form.now }
{
    if is_held_after(lower, at, form.coefs.as_slice(), var) {
        return true;
    }
    if deep == 0 {
        return false;
    }
    names_inside_after(first, terms, lower, at, var, deep - 1, form)
}

/// Whether a term that the form then holds names the variable in an argument.
#[cycle(after)]
fn names_inside_after(
    first: usize,
    terms: &[Term],
    lower: &[i128],
    at: usize,
    var: usize,
    deep: usize,
    form: &Aff,
) -> bool
    requires level { at < first + length terms.now }
    requires within { var < first + length terms.now }
    requires lower { length lower.now ≡ first + length terms.now }
    requires width { IsTrue (has_vars (first + length terms.now) form.now) }
    requires terms { IsTrue (list_all (is_term_over (first + length terms.now)) terms.now) }
    ensures { result ≡ names_inside_after first terms.now lower.now at var deep form.now }
{
    for i in 0..terms.len() {
        let term = &terms[i];
        if is_held_after(lower, at, form.coefs.as_slice(), first + i)
            && any_names_after(first, terms, lower, at, var, deep, term.at.as_slice())
        {
            return true;
        }
    }
    false
}

/// Whether one of the forms then names the variable.
#[cycle(after)]
fn any_names_after(
    first: usize,
    terms: &[Term],
    lower: &[i128],
    at: usize,
    var: usize,
    deep: usize,
    forms: &[Aff],
) -> bool
    requires level { at < first + length terms.now }
    requires within { var < first + length terms.now }
    requires lower { length lower.now ≡ first + length terms.now }
    requires width { IsTrue (list_all (has_vars (first + length terms.now)) forms.now) }
    requires terms { IsTrue (list_all (is_term_over (first + length terms.now)) terms.now) }
    ensures { result ≡ list_any (names_after first terms.now lower.now at var deep) forms.now }
{
    for form in forms {
        if names_after(first, terms, lower, at, var, deep, form) {
            return true;
        }
    }
    false
}
