// Old levels as forms of new variables.
ghost use Rattle.std.specs.Prelude.{◌≡◌, ◌≤◌, ◌<◌, ◌+◌, ◌-◌, ◌^◌, ◌++◌, ◌∷◌, [], suc, pos, neg_ℤ, length, map, replicate, cond, nat_eq, IsTrue, OnOk, IfOk};
ghost use Rattle.std.specs.List.{list_all, range_with_len};
ghost use Rattle.affine_moves.specs.Change.{is_level, suits, place_from, place_of, new_depth, padded, unit, unskewed, unshifted, old_form, of_two};

use crate::change::Change;
use chill_base::{List, NoMemory};
use int_rows::Aff;
use std::alloc::Global;

fn push_zeros(coefs: &mut Vec<i128>, count: usize) -> Result<(), NoMemory>
    ensures { OnOk result (coefs.new.items ≡ coefs.old.items ++ replicate count (pos 0)) }
{
    for _ in 0..count {
        coefs.push(0)?;
    }
    Ok(())
}

/// So many zeros, then these numbers, then zeros up to the number of variables.
#[tactic(auto, unfolding(crate::specs::Change::padded))]
pub fn padded(
    alloc: Global,
    vars: usize,
    var: usize,
    numbers: &[i128],
) -> Result<List<i128>, NoMemory>
    requires { var + length numbers.now ≤ vars }
    ensures { IfOk result (λ cs. cs ≡ padded vars var numbers.now) }
{
    let mut coefs = Vec::new(alloc);
    push_zeros(&mut coefs, var)?;
    coefs.extend_from_slice(numbers)?;
    push_zeros(&mut coefs, vars - (var + numbers.len()))?;
    Ok(List::from_vec(coefs))
}

/// The form that is one variable.
#[tactic(auto, unfolding(crate::specs::Change::unit))]
pub fn unit(alloc: Global, vars: usize, var: usize) -> Result<Aff, NoMemory>
    requires { var < vars }
    ensures { IfOk result (λ f. f ≡ unit vars var) }
{
    Ok(Aff {
        coefs: padded(alloc, vars, var, &[1])?,
        constant: 0,
    })
}

/// The old value of a shifted level.
#[tactic(auto, unfolding(crate::specs::Change::unshifted))]
fn unshifted(alloc: Global, vars: usize, var: usize, amount: i32) -> Result<Aff, NoMemory>
    requires { var < vars }
    ensures { IfOk result (λ f. f ≡ unshifted vars var amount) }
{
    Ok(Aff {
        coefs: padded(alloc, vars, var, &[1])?,
        constant: -(amount as i128),
    })
}

/// The old value of a skewed level.
#[tactic(auto, unfolding(crate::specs::Change::unskewed))]
fn unskewed(alloc: Global, vars: usize, params: usize, coefs: &[i32]) -> Result<Aff, NoMemory>
    requires { params + length coefs.now < vars }
    ensures { IfOk result (λ f. f ≡ unskewed vars params coefs.now) }
{
    let mut numbers = Vec::new(alloc);
    for coef in coefs {
        numbers.push(-(*coef as i128))?;
    }
    numbers.push(1)?;
    Ok(Aff {
        coefs: padded(alloc, vars, params, numbers.as_slice())?,
        constant: 0,
    })
}

/// The form `a*x + b*y + constant` of two variables, of which x is the first.
#[tactic(auto, unfolding(crate::specs::Change::of_two))]
pub fn of_two(
    alloc: Global,
    vars: usize,
    x: usize,
    a: i128,
    y: usize,
    b: i128,
    constant: i128,
) -> Result<Aff, NoMemory>
    requires order { x < y }
    requires within { y < vars }
    ensures { IfOk result (λ f. f ≡ of_two vars x a y b constant) }
{
    let mut numbers = Vec::new(alloc);
    numbers.push(a)?;
    push_zeros(&mut numbers, y - (x + 1))?;
    numbers.push(b)?;
    Ok(Aff {
        coefs: padded(alloc, vars, x, numbers.as_slice())?,
        constant,
    })
}

/// Where an old level stands in an order.
fn place_in(order: &[usize], level: usize) -> usize
    requires { level + 1 < 2 ^ 64 }
    ensures { result ≡ place_from 0 order.now level }
{
    for t in 0..order.len() {
        if order[t] == level + 1 {
            return t;
        }
    }
    level
}

/// The new place of an old level.
#[tactic(auto, unfolding(crate::specs::Change::place_of))]
pub fn place_of(change: &Change, level: usize) -> usize
    requires { level + 1 < 2 ^ 64 }
    ensures { result ≡ place_of change.now level }
{
    match change {
        Change::Order(order) => place_in(order.as_slice(), level),
        Change::Tile { outer, .. } => { if level + 1 < *outer { level } else { level + 1 } }
        Change::Stay => level,
        Change::Skew { .. } => level,
        Change::Shift { .. } => level,
    }
}

/// The new place of an old level, among the new levels.
fn new_place(depth: usize, change: &Change, level: usize) -> usize
    requires suits { IsTrue (suits depth change.now) }
    requires level { level < depth }
    ensures value { result ≡ place_of change.now level }
    ensures within { result < new_depth change.now depth }
{
    place_of(change, level)
}

/// An old level as a form of the new variables.
#[tactic(auto, unfolding(crate::specs::Change::old_form))]
fn old_form(
    alloc: Global,
    vars: usize,
    params: usize,
    depth: usize,
    change: &Change,
    level: usize,
) -> Result<Aff, NoMemory>
    requires suits { IsTrue (suits depth change.now) }
    requires level { level < depth }
    requires room { params + new_depth change.now depth ≤ vars }
    ensures { IfOk result (λ f. f ≡ old_form vars params change.now level) }
{
    let var = params + new_place(depth, change, level);
    match change {
        Change::Skew {
            level: skewed,
            coefs,
        } => {
            if level + 1 == *skewed {
                unskewed(alloc, vars, params, coefs.as_slice())
            } else {
                unit(alloc, vars, var)
            }
        }
        Change::Shift {
            level: shifted,
            amount,
        } => {
            if level + 1 == *shifted {
                unshifted(alloc, vars, var, *amount)
            } else {
                unit(alloc, vars, var)
            }
        }
        Change::Stay => unit(alloc, vars, var),
        Change::Order(_) => unit(alloc, vars, var),
        Change::Tile { .. } => unit(alloc, vars, var),
    }
}

/// The old levels as forms of the new variables.
pub fn old_forms(
    alloc: Global,
    vars: usize,
    params: usize,
    change: &Change,
    depth: usize,
) -> Result<List<Aff>, NoMemory>
    requires suits { IsTrue (suits depth change.now) }
    requires room { params + new_depth change.now depth ≤ vars }
    ensures { IfOk result (λ fs. fs ≡ map (old_form vars params change.now) (range_with_len 0 depth)) }
{
    let mut forms = List::new(alloc);
    for level in 0..depth {
        forms.push(old_form(alloc, vars, params, depth, change, level)?)?;
    }
    Ok(forms)
}
