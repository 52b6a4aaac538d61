// Affine forms whose levels and terms are replaced by forms of new variables.
ghost use Rattle.std.specs.Prelude.{◌≡◌, ◌≤◌, ◌++◌, ◌∷◌, pos, length, drop, replicate, IfOk, IsTrue, OnOk};
ghost use Rattle.nest_core.specs.Making.{Gives};
ghost use Rattle.nest_core.specs.Forms.{number_at, judged_sum, summands, number_made, numbers_made, lifted, has_vars};
ghost use Rattle.one_statement.specs.Images.{old_vars, frame_of, image_of};

use chill_base::{List, NoMemory, Stop};
use int_rows::{Aff, Excess};
use nest_core::{Total, is_small, product};
use std::alloc::Global;

/// What the variables of a statement become. Its parameters stay; behind them stands, for each of its levels and then for
/// each of its terms, a form over so many new variables.
#[derive(Drop)]
pub struct Images {
    pub params: usize,
    pub vars: usize,
    pub forms: List<Aff>,
}

/// The number of a form at a variable, or behind the variables its constant.
fn number_at(form: &Aff, var: usize) -> i128
    ensures { result ≡ number_at var form.now }
{
    let coefs = form.coefs.as_slice();
    if var < coefs.len() {
        coefs[var]
    } else {
        form.constant
    }
}

fn push_zeros(coefs: &mut Vec<i128>, count: usize) -> Result<(), NoMemory>
    ensures { OnOk result (coefs.new.items ≡ coefs.old.items ++ replicate count (pos 0)) }
{
    for _ in 0..count {
        coefs.push(0)?;
    }
    Ok(())
}

/// The coefficients of the parameters over the new variables.
fn starts_of(alloc: Global, images: &Images, coefs: &[i128]) -> Result<List<i128>, NoMemory>
    requires room { images.now.params ≤ images.now.vars }
    requires width { length coefs.now ≡ old_vars images.now }
    ensures { IfOk result (λ cs. cs ≡ lifted (frame_of images.now) coefs.now) }
{
    let mut new = Vec::new(alloc);
    new.extend_from_slice(&coefs[..images.params])?;
    push_zeros(&mut new, images.vars - images.params)?;
    Ok(List::from_vec(new))
}

/// The start with what each image adds at a variable, where all of these and the sum are within the limit.
fn make_sum(coefs: &[i128], forms: &[Aff], var: usize, start: i128) -> Option<i128>
    requires counts { length coefs.now ≡ length forms.now }
    ensures { result ≡ judged_sum (start ∷ summands var coefs.now forms.now) }
{
    if !is_small(start) {
        return None;
    }
    let mut total = Total::zero();
    total.add(start);
    for i in 0..coefs.len() {
        match product(coefs[i], number_at(&forms[i], var)) {
            Some(summand) => total.add(summand),
            None => return None,
        }
    }
    total.number()
}

/// The new number at a variable.
#[tactic(auto, unfolding(nest_core::specs::Forms::number_made))]
fn make_number(coefs: &[i128], forms: &[Aff], var: usize, start: i128) -> Result<i128, Stop<Excess>>
    requires counts { length coefs.now ≡ length forms.now }
    ensures { Gives result (number_made coefs.now forms.now var start) }
{
    match make_sum(coefs, forms, var, start) {
        Some(number) => Ok(number),
        None => Err(Stop::Refused(Excess::Large { var })),
    }
}

/// The new numbers from their starts.
fn make_numbers(
    alloc: Global,
    coefs: &[i128],
    forms: &[Aff],
    starts: &[i128],
) -> Result<List<i128>, Stop<Excess>>
    requires counts { length coefs.now ≡ length forms.now }
    ensures { Gives result (numbers_made coefs.now forms.now 0 starts.now) }
{
    let mut numbers = List::new(alloc);
    for var in 0..starts.len() {
        numbers.push(make_number(coefs, forms, var, starts[var])?)?;
    }
    Ok(numbers)
}

/// The form with each level and each term replaced by its image.
fn make_form(alloc: Global, images: &Images, form: &Aff) -> Result<Aff, Stop<Excess>>
    requires room { images.now.params ≤ images.now.vars }
    requires width { IsTrue (has_vars (old_vars images.now) form.now) }
    ensures { Gives result (image_of images.now form.now) }
{
    let coefs = form.coefs.as_slice();
    let replaced = &coefs[images.params..];
    let forms = images.forms.as_slice();
    let starts = starts_of(alloc, images, coefs)?;
    let numbers = make_numbers(alloc, replaced, forms, starts.as_slice())?;
    let constant = make_number(replaced, forms, starts.len(), form.constant)?;
    Ok(Aff {
        coefs: numbers,
        constant,
    })
}

/// The form with each level and each term replaced by its image.
pub fn image_form(alloc: Global, images: &Images, form: &Aff) -> Result<Aff, Stop<Excess>>
    requires room { images.now.params ≤ images.now.vars }
    requires width { IsTrue (has_vars (old_vars images.now) form.now) }
    ensures gives { Gives result (image_of images.now form.now) }
    ensures width { IfOk result (λ f. IsTrue (has_vars images.now.vars f)) }
{
    make_form(alloc, images, form)
}
