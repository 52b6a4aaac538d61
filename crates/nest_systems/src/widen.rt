// Forms over further variables.
ghost use Rattle.std.specs.Prelude.{◌≡◌, ◌+◌, ◌<◌, ◌≤◌, ◌^◌, map, length, IsTrue, IfOk};
ghost use Rattle.std.specs.List.{list_all, range_with_len};
ghost use Rattle.nest_core.specs.Forms.{has_vars};
ghost use Rattle.nest_core.specs.Shapes.{is_term_over};
ghost use Rattle.nest_systems.specs.Sums as spec;
ghost use Rattle.nest_systems.specs.Begun.{widened};
ghost use Rattle.nest_systems.specs.Parts.{widened_term, first_cell, extended_terms};

use crate::extent::zero_form;
use crate::sums::number_at;
use chill_base::{List, Name, NoMemory};
use int_rows::Aff;
use nest_tree::Term;
use std::alloc::Global;

/// So many numbers: those of a list, and 0 behind its end.
fn widened_numbers(alloc: Global, numbers: &[i128], vars: usize) -> Result<List<i128>, NoMemory>
    ensures { IfOk result (λ zs. zs ≡ map (spec.number_at numbers.now) (range_with_len 0 vars)) }
{
    let mut wide = List::new(alloc);
    for var in 0..vars {
        wide.push(number_at(numbers, var))?;
    }
    Ok(wide)
}

/// A form over more variables: 0 at each further one.
pub fn widened_form(alloc: Global, form: &Aff, vars: usize) -> Result<Aff, NoMemory>
    ensures value { IfOk result (λ f. f ≡ widened vars form.now) }
    ensures width { IfOk result (λ f. IsTrue (has_vars vars f)) }
{
    Ok(Aff {
        coefs: widened_numbers(alloc, form.coefs.as_slice(), vars)?,
        constant: form.constant,
    })
}

/// A term over more variables.
fn widened_term(alloc: Global, term: &Term, old: usize, vars: usize) -> Result<Term, NoMemory>
    requires term { IsTrue (is_term_over old term.now) }
    requires more { old ≤ vars }
    ensures value { IfOk result (λ t. t ≡ widened_term vars term.now) }
    ensures width { IfOk result (λ t. IsTrue (is_term_over vars t)) }
{
    let mut at = List::new(alloc);
    for form in term.at.as_slice() {
        at.push(widened_form(alloc, form, vars)?)?;
    }
    Ok(Term {
        array: term.array,
        at,
    })
}

/// The read `array[0]`.
pub fn first_cell(alloc: Global, array: Name, vars: usize) -> Result<Term, NoMemory>
    ensures value { IfOk result (λ t. t ≡ first_cell vars array) }
    ensures width { IfOk result (λ t. IsTrue (is_term_over vars t)) }
{
    let mut at = List::new(alloc);
    at.push(zero_form(alloc, vars)?)?;
    Ok(Term { array, at })
}

/// The terms with the reads `array[0]` of further arrays behind them, over the variables of them all. `first` is the
/// variable of the first term.
#[tactic(auto, unfolding(crate::specs::Parts::extended_terms))]
pub fn extended_terms(
    alloc: Global,
    first: usize,
    terms: &[Term],
    arrays: &[Name],
) -> Result<List<Term>, NoMemory>
    requires terms { IsTrue (list_all (is_term_over (first + length terms.now)) terms.now) }
    requires room { first + length terms.now + length arrays.now < 2 ^ 64 }
    ensures value { IfOk result (λ ts. ts ≡ extended_terms (first + length terms.now + length arrays.now) terms.now arrays.now) }
    ensures count { IfOk result (λ ts. length ts ≡ length terms.now + length arrays.now) }
    ensures terms { IfOk result (λ ts. IsTrue (list_all (is_term_over (first + length terms.now + length arrays.now)) ts)) }
{
    let old = first + terms.len();
    let vars = old + arrays.len();
    let mut all = List::new(alloc);
    for term in terms {
        all.push(widened_term(alloc, term, old, vars)?)?;
    }
    for array in arrays {
        all.push(first_cell(alloc, *array, vars)?)?;
    }
    Ok(all)
}
