// The variables that forms name, also inside the arguments of their terms.
ghost use Rattle.std.specs.Prelude.{◌≡◌, ◌+◌, ◌<◌, ◌≤◌, ◌^◌, length, IsTrue};
ghost use Rattle.std.specs.List.{list_all, list_any};
ghost use Rattle.nest_core.specs.Forms.{has_vars};
ghost use Rattle.nest_core.specs.Shapes.{is_term_over};
ghost use Rattle.nest_core.specs.Terms.{held, names, names_inside};

use int_rows::Aff;
use nest_tree::Term;

/// Whether the variable has a coefficient other than 0.
#[tactic(auto, unfolding(crate::specs::Terms::held))]
pub fn is_held(coefs: &[i128], var: usize) -> bool
    requires { var < length coefs.now }
    ensures { result ≡ held coefs.now var }
{
    coefs[var] != 0
}

/// Whether the form names the variable, as itself or in an argument at most so many terms deep.
#[cycle(terms)]
pub fn names(first: usize, terms: &[Term], var: usize, deep: usize, form: &Aff) -> bool
    requires within { var < first + length terms.now }
    requires width { IsTrue (has_vars (first + length terms.now) form.now) }
    requires terms { IsTrue (list_all (is_term_over (first + length terms.now)) terms.now) }
    ensures { result ≡ names first terms.now var deep form.now }
{
    if is_held(form.coefs.as_slice(), var) {
        return true;
    }
    if deep == 0 {
        return false;
    }
    names_inside(first, terms, var, deep - 1, form)
}

/// Whether a term that the form holds names the variable in an argument, at most so many terms deeper.
#[cycle(terms)]
pub fn names_inside(first: usize, terms: &[Term], var: usize, deep: usize, form: &Aff) -> bool
    requires within { var < first + length terms.now }
    requires width { IsTrue (has_vars (first + length terms.now) form.now) }
    requires terms { IsTrue (list_all (is_term_over (first + length terms.now)) terms.now) }
    ensures { result ≡ names_inside first terms.now var deep form.now }
{
    for i in 0..terms.len() {
        let term = &terms[i];
        if is_held(form.coefs.as_slice(), first + i)
            && any_names(first, terms, var, deep, term.at.as_slice())
        {
            return true;
        }
    }
    false
}

/// Whether one of the forms names the variable.
#[cycle(terms)]
fn any_names(first: usize, terms: &[Term], var: usize, deep: usize, forms: &[Aff]) -> bool
    requires within { var < first + length terms.now }
    requires width { IsTrue (list_all (has_vars (first + length terms.now)) forms.now) }
    requires terms { IsTrue (list_all (is_term_over (first + length terms.now)) terms.now) }
    ensures { result ≡ list_any (names first terms.now var deep) forms.now }
{
    for form in forms {
        if names(first, terms, var, deep, form) {
            return true;
        }
    }
    false
}
