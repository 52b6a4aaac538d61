// Forms over the variables of a padded statement.
ghost use Rattle.std.specs.Prelude.{◌≡◌, ◌++◌, ◌∷◌, [], neg_ℤ, ◌-ℤ◌, pos, ◌≤◌, ◌^◌, map, unsigned_abs, IfOk, OnOk};
ghost use Rattle.std.specs.List.{range_with_len};
ghost use Rattle.pad_layouts.specs.Forms as spec;

use crate::column::{is_name, one_if};
use chill_base::{List, Name, NoMemory};
use int_rows::{Aff, Row};
use nest_tree::KernelRow;
use std::alloc::Global;

/// The numbers that are 1 at each parameter of that name and else 0.
pub fn named(alloc: Global, params: &[Name], name: Name) -> Result<List<i128>, NoMemory>
    ensures { IfOk result (λ cs. cs ≡ map (spec.one_at name) params.now) }
{
    let mut numbers = List::new(alloc);
    for param in params {
        numbers.push(one_if(is_name(*param, name)))?;
    }
    Ok(numbers)
}

/// The number of a list at a place; the list may end before it.
fn number_of(numbers: &[i128], place: usize) -> i128
    ensures { result ≡ spec.number_of numbers.now place }
{
    if place < numbers.len() {
        numbers[place]
    } else {
        0
    }
}

/// The number at a variable: `a` at x, `b` at y, and else that of the list.
fn number_with(base: &[i128], x: usize, a: i128, y: usize, b: i128, var: usize) -> i128
    ensures { result ≡ spec.number_with base.now x a y b var }
{
    if var == x {
        a
    } else if var == y {
        b
    } else {
        number_of(base, var)
    }
}

fn numbers_with(
    alloc: Global,
    vars: usize,
    base: &[i128],
    x: usize,
    a: i128,
    y: usize,
    b: i128,
) -> Result<List<i128>, NoMemory>
    ensures { IfOk result (λ cs. cs ≡ map (spec.number_with base.now x a y b) (range_with_len 0 vars)) }
{
    let mut numbers = List::new(alloc);
    for var in 0..vars {
        numbers.push(number_with(base, x, a, y, b, var))?;
    }
    Ok(numbers)
}

/// The form with `a` times variable x, `b` times variable y, and else the numbers of the list.
#[tactic(auto, unfolding(crate::specs::Forms::form_with))]
pub fn form_with(
    alloc: Global,
    vars: usize,
    base: &[i128],
    x: usize,
    a: i128,
    y: usize,
    b: i128,
    constant: i128,
) -> Result<Aff, NoMemory>
    ensures { IfOk result (λ f. f ≡ spec.form_with vars base.now x a y b constant) }
{
    Ok(Aff {
        coefs: numbers_with(alloc, vars, base, x, a, y, b)?,
        constant,
    })
}

/// The form `a*x + b*y + constant`.
pub fn two(
    alloc: Global,
    vars: usize,
    x: usize,
    a: i128,
    y: usize,
    b: i128,
    constant: i128,
) -> Result<Aff, NoMemory>
    ensures { IfOk result (λ f. f ≡ spec.two vars x a y b constant) }
{
    form_with(alloc, vars, &[], x, a, y, b, constant)
}

/// The form `x + constant`.
pub fn one(alloc: Global, vars: usize, x: usize, constant: i128) -> Result<Aff, NoMemory>
    ensures { IfOk result (λ f. f ≡ spec.one vars x constant) }
{
    form_with(alloc, vars, &[], x, 1, x, 1, constant)
}

/// A constant.
pub fn fixed(alloc: Global, vars: usize, constant: i128) -> Result<Aff, NoMemory>
    ensures { IfOk result (λ f. f ≡ spec.fixed vars constant) }
{
    form_with(alloc, vars, &[], 0, 0, 0, 0, constant)
}

/// The number of a side as a coefficient.
pub fn wide(side: i64) -> i128
    ensures { result ≡ side }
{
    side as i128
}

pub fn negative(side: i64) -> i128
    ensures { result ≡ neg_ℤ side }
{
    -(side as i128)
}

/// One less than a side.
pub fn last_of(side: i64) -> i128
    ensures { result ≡ side -ℤ pos 1 }
{
    side as i128 - 1
}

/// Appends a bound of a level.
pub fn push_bound(rows: &mut List<KernelRow>, own: usize, form: Aff) -> Result<(), NoMemory>
    ensures { OnOk result (rows.new ≡ rows.old ++ spec.bound own form ∷ []) }
{
    rows.push(KernelRow {
        row: Row { equal: false, form },
        own,
    })?;
    Ok(())
}

/// One form.
pub fn list_of_one(alloc: Global, first: Aff) -> Result<List<Aff>, NoMemory>
    ensures { IfOk result (λ fs. fs ≡ first ∷ []) }
{
    let mut forms = List::new(alloc);
    forms.push(first)?;
    Ok(forms)
}

/// Two forms.
pub fn list_of_two(alloc: Global, first: Aff, second: Aff) -> Result<List<Aff>, NoMemory>
    ensures { IfOk result (λ fs. fs ≡ first ∷ second ∷ []) }
{
    let mut forms = list_of_one(alloc, first)?;
    forms.push(second)?;
    Ok(forms)
}

/// Three forms.
pub fn list_of_three(
    alloc: Global,
    first: Aff,
    second: Aff,
    third: Aff,
) -> Result<List<Aff>, NoMemory>
    ensures { IfOk result (λ fs. fs ≡ first ∷ second ∷ third ∷ []) }
{
    let mut forms = list_of_two(alloc, first, second)?;
    forms.push(third)?;
    Ok(forms)
}
