// Which terms of a statement are variables of a system, and in which order.
ghost use Rattle.std.specs.Prelude.{◌≡◌, ◌+◌, ◌<◌, ◌^◌, not, map, length, replicate, slice_get, Some, None, IsTrue, IfOk, IfSome, OnOk};
ghost use Rattle.std.specs.List.{list_all, range_with_len};
ghost use Rattle.nest_systems.specs.Chosen.{IsChosen, is_within};
ghost use Rattle.nest_systems.specs.Begun.{is_zero};
ghost use Rattle.nest_systems.specs.Sums.{number_at as number_of};
ghost use Rattle.nest_systems.specs.Choosing as spec;

use crate::alike::are_alike;
use crate::sums::number_at;
use chill_base::{List, NoMemory};
use int_rows::{Aff, Row};
use nest_tree::Term;
use std::alloc::Global;

/// The terms that are variables.
#[derive(Drop)]
pub struct Chosen {
    /// The variable of the first term in the statement's forms.
    pub first: usize,
    /// The first of the terms that stand at the very end.
    pub ends_from: usize,
    /// By first appearance.
    pub order: List<usize>,
    /// Those that stand at the very end.
    pub ends: List<usize>,
    /// For each term the one that stands for it, once it is met.
    pub same: List<Option<usize>>,
}

/// So many terms of which none is met yet.
fn unmet(alloc: Global, count: usize) -> Result<List<Option<usize>>, NoMemory>
    ensures { IfOk result (λ same. same ≡ replicate count None) }
{
    let mut same = List::new(alloc);
    for _ in 0..count {
        same.push(None)?;
    }
    Ok(same)
}

/// No term yet, of so many.
pub fn none_chosen(
    alloc: Global,
    first: usize,
    ends_from: usize,
    count: usize,
) -> Result<Chosen, NoMemory>
    requires room { first + count < 2 ^ 64 }
    ensures shape { IfOk result (λ c. IsChosen first count c) }
    ensures value { IfOk result (λ c. c ≡ spec.none_chosen first ends_from count) }
{
    Ok(Chosen {
        first,
        ends_from,
        order: List::new(alloc),
        ends: List::new(alloc),
        same: unmet(alloc, count)?,
    })
}

/// Whether the terms with two numbers read the same cell.
fn is_alike(first: usize, terms: &[Term], same: &[Option<usize>], other: usize, term: usize) -> bool
    requires room { first + length same.now < 2 ^ 64 }
    requires other { other < length terms.now }
    requires term { term < length terms.now }
    ensures { result ≡ spec.is_alike first same.now (slice_get terms.now other) (slice_get terms.now term) }
{
    are_alike(first, same, &terms[other], &terms[term])
}

/// The first of these terms that reads the same cell as a term.
fn find_alike(
    first: usize,
    terms: &[Term],
    same: &[Option<usize>],
    among: &[usize],
    term: usize,
) -> Option<usize>
    requires room { first + length same.now < 2 ^ 64 }
    requires among { IsTrue (list_all (is_within (length terms.now)) among.now) }
    requires term { term < length terms.now }
    ensures bound { IfSome result (λ t. t < length terms.now) }
    ensures value { result ≡ spec.find_alike first terms.now same.now among.now term }
{
    for other in among {
        if is_alike(first, terms, same, *other, term) {
            return Some(*other);
        }
    }
    None
}

/// The term met before that reads the same cell as a term.
fn find_met(terms: &[Term], chosen: &Chosen, term: usize) -> Option<usize>
    requires chosen { IsChosen chosen.now.first (length terms.now) chosen.now }
    requires term { term < length terms.now }
    ensures bound { IfSome result (λ t. t < length terms.now) }
    ensures value { result ≡ spec.find_met terms.now chosen.now term }
{
    let same = chosen.same.as_slice();
    match find_alike(chosen.first, terms, same, chosen.order.as_slice(), term) {
        Some(other) => Some(other),
        None => find_alike(chosen.first, terms, same, chosen.ends.as_slice(), term),
    }
}

/// Tells which term stands for a term.
fn set_same(chosen: &mut Chosen, term: usize, one: usize)
    requires term { term < length chosen.old.same }
    requires one { one < length chosen.old.same }
    requires chosen { IsChosen chosen.old.first (length chosen.old.same) chosen.old }
    ensures value { chosen.new ≡ spec.with_same chosen.old term one }
    ensures kept { IsChosen chosen.old.first (length chosen.old.same) chosen.new }
    ensures ends_from { chosen.new.ends_from ≡ chosen.old.ends_from }
    ensures same { length chosen.new.same ≡ length chosen.old.same }
{
    chosen.same.set(term, Some(one));
}

/// A term more in order.
fn push_order(chosen: &mut Chosen, term: usize) -> Result<(), NoMemory>
    requires term { term < length chosen.old.same }
    requires chosen { IsChosen chosen.old.first (length chosen.old.same) chosen.old }
    ensures kept { IsChosen chosen.old.first (length chosen.old.same) chosen.new }
    ensures value { OnOk result (chosen.new ≡ spec.in_order chosen.old term) }
{
    chosen.order.push(term)?;
    Ok(())
}

/// A term more at the very end.
fn push_end(chosen: &mut Chosen, term: usize) -> Result<(), NoMemory>
    requires term { term < length chosen.old.same }
    requires chosen { IsChosen chosen.old.first (length chosen.old.same) chosen.old }
    ensures kept { IsChosen chosen.old.first (length chosen.old.same) chosen.new }
    ensures same { chosen.new.same ≡ chosen.old.same }
    ensures value { OnOk result (chosen.new ≡ spec.at_end chosen.old term) }
{
    chosen.ends.push(term)?;
    Ok(())
}

/// Makes a term a variable: at the very end, or in order.
fn add(chosen: &mut Chosen, term: usize) -> Result<(), NoMemory>
    requires term { term < length chosen.old.same }
    requires chosen { IsChosen chosen.old.first (length chosen.old.same) chosen.old }
    ensures kept { IsChosen chosen.old.first (length chosen.old.same) chosen.new }
    ensures value { OnOk result (chosen.new ≡ spec.added chosen.old term) }
{
    set_same(chosen, term, term);
    if term < chosen.ends_from {
        push_order(chosen, term)
    } else {
        push_end(chosen, term)
    }
}

/// Makes a term a variable, unless one that reads the same cell is one.
fn choose(terms: &[Term], chosen: &mut Chosen, term: usize) -> Result<(), NoMemory>
    requires term { term < length terms.now }
    requires chosen { IsChosen chosen.old.first (length terms.now) chosen.old }
    ensures kept { IsChosen chosen.old.first (length terms.now) chosen.new }
    ensures value { OnOk result (chosen.new ≡ spec.chosen terms.now chosen.old term) }
{
    match find_met(terms, chosen, term) {
        Some(other) => {
            set_same(chosen, term, other);
            Ok(())
        }
        None => add(chosen, term),
    }
}

/// Whether a term was met.
fn is_met(chosen: &Chosen, term: usize) -> bool
    requires { term < length chosen.now.same }
    ensures { result ≡ spec.is_met chosen.now term }
{
    chosen.same.as_slice()[term].is_some()
}

/// Whether a form holds a variable.
fn is_held(form: &Aff, var: usize) -> bool
    ensures { result ≡ not (is_zero (number_of form.now.coefs var)) }
{
    number_at(form.coefs.as_slice(), var) != 0
}

/// Meets the terms that a form holds, in their order.
#[cycle(meet)]
pub fn meet_form(
    terms: &[Term],
    chosen: &mut Chosen,
    deep: usize,
    form: &Aff,
) -> Result<(), NoMemory>
    requires chosen { IsChosen chosen.old.first (length terms.now) chosen.old }
    ensures kept { IsChosen chosen.old.first (length terms.now) chosen.new }
    ensures value { OnOk result (chosen.new ≡ spec.over_terms (spec.meet_term terms.now deep) form.now (range_with_len 0 (length terms.now)) chosen.old) }
{
    for i in 0..terms.len() {
        if is_held(form, chosen.first + i) {
            meet_term(terms, chosen, deep, i)?;
        }
    }
    Ok(())
}

/// Meets a term: those in its arguments come right before it.
#[cycle(meet)]
fn meet_term(terms: &[Term], chosen: &mut Chosen, deep: usize, term: usize) -> Result<(), NoMemory>
    requires term { term < length terms.now }
    requires chosen { IsChosen chosen.old.first (length terms.now) chosen.old }
    ensures kept { IsChosen chosen.old.first (length terms.now) chosen.new }
    ensures value { OnOk result (chosen.new ≡ spec.meet_term terms.now deep chosen.old term) }
{
    if is_met(chosen, term) {
        return Ok(());
    }
    if deep > 0 {
        meet_forms(terms, chosen, deep - 1, terms[term].at.as_slice())?;
    }
    choose(terms, chosen, term)
}

/// Meets the terms that forms hold, form by form.
#[cycle(meet)]
pub fn meet_forms(
    terms: &[Term],
    chosen: &mut Chosen,
    deep: usize,
    forms: &[Aff],
) -> Result<(), NoMemory>
    requires chosen { IsChosen chosen.old.first (length terms.now) chosen.old }
    ensures kept { IsChosen chosen.old.first (length terms.now) chosen.new }
    ensures value { OnOk result (chosen.new ≡ spec.over_forms (spec.meet_term terms.now deep) (length terms.now) forms.now chosen.old) }
{
    for form in forms {
        meet_form(terms, chosen, deep, form)?;
    }
    Ok(())
}

/// Meets the terms that rows hold, row by row.
pub fn meet_rows(terms: &[Term], chosen: &mut Chosen, rows: &[Row]) -> Result<(), NoMemory>
    requires chosen { IsChosen chosen.old.first (length terms.now) chosen.old }
    ensures kept { IsChosen chosen.old.first (length terms.now) chosen.new }
    ensures value { OnOk result (chosen.new ≡ spec.over_forms (spec.meet_term terms.now (length terms.now)) (length terms.now) (map spec.form_of rows.now) chosen.old) }
{
    for row in rows {
        meet_form(terms, chosen, terms.len(), &row.form)?;
    }
    Ok(())
}

/// Makes a term one at the end, where it isn't a variable yet.
pub fn choose_end(chosen: &mut Chosen, term: usize) -> Result<(), NoMemory>
    requires term { term < length chosen.old.same }
    requires chosen { IsChosen chosen.old.first (length chosen.old.same) chosen.old }
    ensures kept { IsChosen chosen.old.first (length chosen.old.same) chosen.new }
    ensures value { OnOk result (chosen.new ≡ spec.end_chosen chosen.old (Some term)) }
{
    if is_met(chosen, term) {
        return Ok(());
    }
    set_same(chosen, term, term);
    push_end(chosen, term)
}

/// One more term, which stands for itself.
fn push_same(chosen: &mut Chosen, term: usize) -> Result<(), NoMemory>
    requires room { chosen.old.first + length chosen.old.same + 1 < 2 ^ 64 }
    requires term { term ≡ length chosen.old.same }
    requires chosen { IsChosen chosen.old.first (length chosen.old.same) chosen.old }
    ensures kept { OnOk result (IsChosen chosen.old.first (length chosen.old.same + 1) chosen.new) }
    ensures value { OnOk result (chosen.new ≡ spec.with_more chosen.old term) }
{
    chosen.same.push(Some(term))?;
    Ok(())
}

/// One more term, at the very end.
pub fn choose_more(chosen: &mut Chosen) -> Result<(), NoMemory>
    requires room { chosen.old.first + length chosen.old.same + 1 < 2 ^ 64 }
    requires chosen { IsChosen chosen.old.first (length chosen.old.same) chosen.old }
    ensures kept { OnOk result (IsChosen chosen.old.first (length chosen.old.same + 1) chosen.new) }
    ensures value { OnOk result (chosen.new ≡ spec.one_more chosen.old) }
{
    let term = chosen.same.len();
    push_same(chosen, term)?;
    push_end(chosen, term)
}
