// Brackets of affine forms.
ghost use Rattle.std.specs.Prelude.{◌≡◌, ◌+◌, length, IsTrue};
ghost use Rattle.std.specs.List.{list_all};
ghost use Rattle.nest_core.specs.Forms.{has_vars};
ghost use Rattle.nest_core.specs.Shapes.{is_term_over};
ghost use Rattle.nest_limits.specs.Brackets.{term_fits, form_fits};

use int_rows::Aff;
use nest_core::is_held;
use nest_tree::Term;

/// Whether the form has at most so many brackets around one place: those of the terms that it holds.
#[cycle(forms)]
pub fn form_fits(first: usize, terms: &[Term], room: usize, form: &Aff) -> bool
    requires width { IsTrue (has_vars (first + length terms.now) form.now) }
    requires terms { IsTrue (list_all (is_term_over (first + length terms.now)) terms.now) }
    ensures { result ≡ form_fits first terms.now room form.now }
{
    for i in 0..terms.len() {
        let term = &terms[i];
        if is_held(form.coefs.as_slice(), first + i) && !term_fits(first, terms, room, term) {
            return false;
        }
    }
    true
}

/// Whether the term has: its arguments stand in brackets.
#[cycle(forms)]
fn term_fits(first: usize, terms: &[Term], room: usize, term: &Term) -> bool
    requires width { IsTrue (is_term_over (first + length terms.now) term.now) }
    requires terms { IsTrue (list_all (is_term_over (first + length terms.now)) terms.now) }
    ensures { result ≡ term_fits first terms.now room term.now }
{
    if room == 0 {
        return false;
    }
    forms_fit(first, terms, room - 1, term.at.as_slice())
}

/// Whether all these forms have.
#[cycle(forms)]
pub fn forms_fit(first: usize, terms: &[Term], room: usize, forms: &[Aff]) -> bool
    requires width { IsTrue (list_all (has_vars (first + length terms.now)) forms.now) }
    requires terms { IsTrue (list_all (is_term_over (first + length terms.now)) terms.now) }
    ensures { result ≡ list_all (form_fits first terms.now room) forms.now }
{
    for form in forms {
        if !form_fits(first, terms, room, form) {
            return false;
        }
    }
    true
}
