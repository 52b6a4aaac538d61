// Affine forms whose levels are replaced by forms of new variables.
ghost use Rattle.std.specs.Prelude.{◌≡◌, ◌+◌, ◌≤◌, ◌<◌, ◌^◌, ◌++◌, ◌∷◌, pos, length, take, drop, replicate, slice_index_or, IfOk, IsTrue, OnOk};
ghost use Rattle.nest_core.specs.Numbers.{is_small};
ghost use Rattle.nest_core.specs.Making.{Gives};
ghost use Rattle.nest_core.specs.Forms.{number_at, lifted, level_coefs, judged_sum, summands, number_made, numbers_made, rewritten, number_judged, numbers_judged, judged_form, old_vars, has_vars};

use crate::numbers::{is_small, product};
use crate::total::Total;
use chill_base::{List, NoMemory, Stop};
use int_rows::{Aff, Excess};
use std::alloc::Global;

/// How many parameters, levels and terms the old variables have, and how many levels and further terms the new ones.
#[derive(Clone, Copy, Debug)]
pub struct Frame {
    pub params: usize,
    pub levels: usize,
    pub terms: usize,
    pub new_levels: usize,
    pub new_terms: usize,
}

/// The number of a form at a variable, or behind the variables its constant.
fn number_at(form: &Aff, var: usize) -> i128
    ensures { result ≡ number_at var form.now }
{
    let coefs = form.coefs.as_slice();
    if var < coefs.len() {
        coefs[var]
    } else {
        form.constant
    }
}

fn push_zeros(coefs: &mut Vec<i128>, count: usize) -> Result<(), NoMemory>
    ensures { OnOk result (coefs.new.items ≡ coefs.old.items ++ replicate count (pos 0)) }
{
    for _ in 0..count {
        coefs.push(0)?;
    }
    Ok(())
}

/// The coefficients over the new variables, without those of the old levels.
#[tactic(auto, unfolding(crate::specs::Forms::lifted))]
fn lift(alloc: Global, frame: Frame, coefs: &[i128]) -> Result<List<i128>, NoMemory>
    requires { frame.params + frame.levels ≤ length coefs.now }
    ensures { IfOk result (λ cs. cs ≡ lifted frame coefs.now) }
{
    let mut new = Vec::new(alloc);
    new.extend_from_slice(&coefs[..frame.params])?;
    push_zeros(&mut new, frame.new_levels)?;
    new.extend_from_slice(&coefs[frame.params + frame.levels..])?;
    push_zeros(&mut new, frame.new_terms)?;
    Ok(List::from_vec(new))
}

/// The start with what each level adds at a variable, where all of these and the sum are within the limit.
fn make_sum(levels: &[i128], old: &[Aff], var: usize, start: i128) -> Option<i128>
    requires counts { length levels.now ≡ length old.now }
    ensures { result ≡ judged_sum (start ∷ summands var levels.now old.now) }
{
    if !is_small(start) {
        return None;
    }
    let mut total = Total::zero();
    total.add(start);
    for i in 0..levels.len() {
        match product(levels[i], number_at(&old[i], var)) {
            Some(summand) => total.add(summand),
            None => return None,
        }
    }
    total.number()
}

/// The new number at a variable.
#[tactic(auto, unfolding(crate::specs::Forms::number_made))]
fn make_number(levels: &[i128], old: &[Aff], var: usize, start: i128) -> Result<i128, Stop<Excess>>
    requires counts { length levels.now ≡ length old.now }
    ensures { Gives result (number_made levels.now old.now var start) }
{
    match make_sum(levels, old, var, start) {
        Some(number) => Ok(number),
        None => Err(Stop::Refused(Excess::Large { var })),
    }
}

/// The new numbers from their starts.
fn make_numbers(
    alloc: Global,
    levels: &[i128],
    old: &[Aff],
    starts: &[i128],
) -> Result<List<i128>, Stop<Excess>>
    requires counts { length levels.now ≡ length old.now }
    ensures { Gives result (numbers_made levels.now old.now 0 starts.now) }
{
    let mut numbers = List::new(alloc);
    for var in 0..starts.len() {
        numbers.push(make_number(levels, old, var, starts[var])?)?;
    }
    Ok(numbers)
}

/// The form with each old level replaced by its form in `old`.
pub fn rewrite(alloc: Global, frame: Frame, old: &[Aff], form: &Aff) -> Result<Aff, Stop<Excess>>
    requires width { IsTrue (has_vars (old_vars frame) form.now) }
    requires counts { length old.now ≡ frame.levels }
    ensures { Gives result (rewritten frame old.now form.now) }
{
    let coefs = form.coefs.as_slice();
    let levels = &coefs[frame.params..frame.params + frame.levels];
    let starts = lift(alloc, frame, coefs)?;
    let numbers = make_numbers(alloc, levels, old, starts.as_slice())?;
    let constant = make_number(levels, old, starts.len(), form.constant)?;
    Ok(Aff {
        coefs: numbers,
        constant,
    })
}

/// The number, where it is within the limit.
#[tactic(auto, unfolding(crate::specs::Forms::number_judged))]
fn judge_number(number: i128, var: usize) -> Result<i128, Stop<Excess>>
    ensures { Gives result (number_judged var number) }
{
    if is_small(number) {
        Ok(number)
    } else {
        Err(Stop::Refused(Excess::Large { var }))
    }
}

fn judge_numbers(alloc: Global, numbers: &[i128]) -> Result<List<i128>, Stop<Excess>>
    ensures { Gives result (numbers_judged 0 numbers.now) }
{
    let mut judged = List::new(alloc);
    for var in 0..numbers.len() {
        judged.push(judge_number(numbers[var], var)?)?;
    }
    Ok(judged)
}

/// A copy of the form, whose numbers are within the limit.
pub fn judge_form(alloc: Global, form: &Aff) -> Result<Aff, Stop<Excess>>
    ensures { Gives result (judged_form form.now) }
{
    let coefs = judge_numbers(alloc, form.coefs.as_slice())?;
    let constant = judge_number(form.constant, form.coefs.len())?;
    Ok(Aff { coefs, constant })
}
