// Forms, reads and claims over the reads that are at hand.
ghost use Rattle.std.specs.Prelude.{◌≡◌, ◌+◌, ◌<◌, length, IsTrue, IfOk, OnOk};
ghost use Rattle.std.specs.List.{list_all};
ghost use Rattle.scan_forms.specs.Reads.{are_in, has_places};
ghost use Rattle.nest_core.specs.Forms.{has_vars};
ghost use Rattle.nest_core.specs.Shapes.{is_term_over};

use crate::affine::{Affine, MOST_LEVELS, number_at};
use crate::claim::Claim;
use crate::reads::Read;
use chill_base::{List, NoMemory};
use int_rows::{Aff, Row};
use nest_tree::Term;
use std::alloc::Global;

/// Appends the first numbers of a list.
fn push_numbers(to: &mut List<i128>, numbers: &[i128], count: usize) -> Result<(), NoMemory>
    ensures { OnOk result (length to.new ≡ length to.old + count) }
{
    for at in 0..count {
        to.push(number_at(numbers, at))?;
    }
    Ok(())
}

/// Appends the numbers at chosen places of a list.
fn push_chosen(to: &mut List<i128>, numbers: &[i128], chosen: &[usize]) -> Result<(), NoMemory>
    ensures { OnOk result (length to.new ≡ length to.old + length chosen.now) }
{
    for at in chosen {
        to.push(number_at(numbers, *at))?;
    }
    Ok(())
}

/// The form over the parameters, the levels and the chosen reads.
pub fn local_form(
    alloc: Global,
    params: usize,
    chosen: &[usize],
    form: &Affine,
) -> Result<Aff, NoMemory>
    ensures { IfOk result (λ f. IsTrue (has_vars (params + 8 + length chosen.now) f)) }
{
    let mut coefs = List::new(alloc);
    push_numbers(&mut coefs, form.params.as_slice(), params)?;
    push_numbers(&mut coefs, form.levels.as_slice(), MOST_LEVELS)?;
    push_chosen(&mut coefs, form.reads.as_slice(), chosen)?;
    Ok(Aff {
        coefs,
        constant: form.constant,
    })
}

fn local_forms(
    alloc: Global,
    params: usize,
    chosen: &[usize],
    forms: &[Affine],
) -> Result<List<Aff>, NoMemory>
    ensures width { IfOk result (λ fs. IsTrue (list_all (has_vars (params + 8 + length chosen.now)) fs)) }
    ensures count { IfOk result (λ fs. length fs ≡ length forms.now) }
{
    let mut local = List::new(alloc);
    for form in forms {
        local.push(local_form(alloc, params, chosen, form)?)?;
    }
    Ok(local)
}

fn local_term(alloc: Global, params: usize, chosen: &[usize], read: &Read) -> Result<Term, NoMemory>
    requires { IsTrue (has_places read.now) }
    ensures { IfOk result (λ t. IsTrue (is_term_over (params + 8 + length chosen.now) t)) }
{
    Ok(Term {
        array: read.array,
        at: local_forms(alloc, params, chosen, read.at.as_slice())?,
    })
}

/// The chosen reads as terms.
pub fn local_terms(
    alloc: Global,
    params: usize,
    chosen: &[usize],
    reads: &[Read],
) -> Result<List<Term>, NoMemory>
    requires reads { IsTrue (list_all has_places reads.now) }
    requires chosen { IsTrue (are_in (length reads.now) chosen.now) }
    ensures width { IfOk result (λ ts. IsTrue (list_all (is_term_over (params + 8 + length chosen.now)) ts)) }
    ensures count { IfOk result (λ ts. length ts ≡ length chosen.now) }
{
    let mut terms = List::new(alloc);
    for at in chosen {
        terms.push(local_term(alloc, params, chosen, &reads[*at])?)?;
    }
    Ok(terms)
}

/// The claims as rows.
pub fn local_rows(
    alloc: Global,
    params: usize,
    chosen: &[usize],
    claims: &[Claim],
) -> Result<List<Row>, NoMemory> {
    let mut rows = List::new(alloc);
    for claim in claims {
        rows.push(Row {
            equal: claim.equal,
            form: local_form(alloc, params, chosen, &claim.form)?,
        })?;
    }
    Ok(rows)
}
