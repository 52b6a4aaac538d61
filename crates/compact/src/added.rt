// The terms and rows of a compacted level.
ghost use Rattle.std.specs.Prelude.{◌≡◌, ◌<◌, IfOk};
ghost use Rattle.compact.specs.Statement as spec;
ghost use Rattle.compact.specs.Statement.{AreCounts};

use crate::counts::Counts;
use crate::variables::{begin_var, end_var, new_vars, place_var};
use chill_base::{List, Name, NoMemory};
use inspectors::{Group, MarkNames};
use int_rows::{Aff, Row};
use nest_systems::{unit_form, zero_form};
use nest_tree::{KernelRow, Term};
use std::alloc::Global;

/// The group, which is the first level or 0, plus a number.
fn group_plus(alloc: Global, counts: Counts, group: Group, number: i128) -> Result<Aff, NoMemory>
    requires { AreCounts counts }
    ensures { IfOk result (λ f. f ≡ spec.group_plus counts group number) }
{
    let mut form = match group {
        Group::All => zero_form(alloc, new_vars(counts))?,
        Group::Rows(_) => unit_form(alloc, counts.params, new_vars(counts))?,
    };
    form.constant = number;
    Ok(form)
}

fn read_of(alloc: Global, array: Name, form: Aff) -> Result<Term, NoMemory>
    ensures { IfOk result (λ t. t ≡ spec.read_of array form) }
{
    let mut at = List::new(alloc);
    at.push(form)?;
    Ok(Term { array, at })
}

/// The kept value at the level's place.
fn value_term(alloc: Global, counts: Counts, names: &MarkNames) -> Result<Term, NoMemory>
    requires { AreCounts counts }
    ensures { IfOk result (λ t. t ≡ spec.value_term counts names.now) }
{
    let place = unit_form(alloc, place_var(counts), new_vars(counts))?;
    read_of(alloc, names.val, place)
}

/// Where the kept values of a group begin.
fn pointer_term(
    alloc: Global,
    counts: Counts,
    group: Group,
    names: &MarkNames,
    number: i128,
) -> Result<Term, NoMemory>
    requires { AreCounts counts }
    ensures { IfOk result (λ t. t ≡ spec.pointer_term counts group names.now number) }
{
    let form = group_plus(alloc, counts, group, number)?;
    read_of(alloc, names.ptr, form)
}

/// The kept value, and where those of the group begin and end.
#[tactic(auto, unfolding(crate::specs::Statement::new_terms))]
pub fn new_terms(
    alloc: Global,
    counts: Counts,
    group: Group,
    names: &MarkNames,
) -> Result<List<Term>, NoMemory>
    requires { AreCounts counts }
    ensures value { IfOk result (λ ts. ts ≡ spec.new_terms counts group names.now) }
{
    let mut terms = List::new(alloc);
    terms.push(value_term(alloc, counts, names)?)?;
    terms.push(pointer_term(alloc, counts, group, names, 0)?)?;
    terms.push(pointer_term(alloc, counts, group, names, 1)?)?;
    Ok(terms)
}

/// One variable less another, plus a number.
#[tactic(auto, unfolding(crate::specs::Statement::difference))]
fn difference(
    alloc: Global,
    vars: usize,
    greater: usize,
    less: usize,
    number: i128,
) -> Result<Aff, NoMemory>
    requires greater { greater < vars }
    requires less { less < vars }
    ensures { IfOk result (λ f. f ≡ spec.difference vars greater less number) }
{
    let mut form = zero_form(alloc, vars)?;
    form.coefs.set(greater, 1);
    form.coefs.set(less, -1);
    form.constant = number;
    Ok(form)
}

/// The bound of the level that this difference is at least 0.
fn bound(
    alloc: Global,
    counts: Counts,
    greater: usize,
    less: usize,
    number: i128,
) -> Result<KernelRow, NoMemory>
    requires counts { AreCounts counts }
    requires greater { greater < spec.new_vars counts }
    requires less { less < spec.new_vars counts }
    ensures { IfOk result (λ r. r ≡ spec.bound counts greater less number) }
{
    let form = difference(alloc, new_vars(counts), greater, less, number)?;
    Ok(KernelRow {
        row: Row { equal: false, form },
        own: counts.level + 1,
    })
}

/// The place runs over those of the group.
#[tactic(auto, unfolding(crate::specs::Statement::new_rows))]
pub fn new_rows(alloc: Global, counts: Counts) -> Result<List<KernelRow>, NoMemory>
    requires { AreCounts counts }
    ensures value { IfOk result (λ rs. rs ≡ spec.new_rows counts) }
{
    let place = place_var(counts);
    let lower = bound(alloc, counts, place, begin_var(counts), 0)?;
    let upper = bound(alloc, counts, end_var(counts), place, -1)?;
    let mut rows = List::new(alloc);
    rows.push(lower)?;
    rows.push(upper)?;
    Ok(rows)
}
