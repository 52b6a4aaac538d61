// Extents as affine forms of the parameters.
ghost use Rattle.std.specs.Prelude.{◌≡◌, cond, pos, length, replicate, Some, None, IfOk, IfSome};
ghost use Rattle.std.specs.List.{list_any};
ghost use Rattle.nest_systems.specs.Sums as sums;
ghost use Rattle.nest_systems.specs.Extents as spec;

use crate::range::is_name;
use crate::sums::{stopped_product, stopped_sum};
use c_tree::{Index, Program};
use chill_base::{List, Name, NoMemory};
use int_rows::Aff;
use std::alloc::Global;

/// Whether one of the parameters has that name.
fn is_parameter(params: &[Name], name: Name) -> bool
    ensures { result ≡ list_any (spec.has_name name) params.now }
{
    params.iter().any(|param| is_name(*param, name))
}

fn add_if(same: bool, coef: i128, times: i128) -> i128
    ensures { result ≡ cond same (sums.stopped_sum coef times) coef }
{
    if same { stopped_sum(coef, times) } else { coef }
}

/// Adds a number at each parameter of that name.
fn add_at(coefs: &mut List<i128>, params: &[Name], name: Name, times: i128)
    requires { length coefs.old ≡ length params.now }
    ensures value { coefs.new ≡ spec.raised params.now name times coefs.old }
    ensures width { length coefs.new ≡ length params.now }
{
    for var in 0..params.len() {
        let coef = coefs.as_slice()[var];
        coefs.set(var, add_if(is_name(params[var], name), coef, times));
    }
}

/// Adds a multiple of a named parameter. False where there is none.
fn add_parameter(sum: &mut Aff, params: &[Name], name: Name, times: i128) -> bool
    requires width { length sum.old.coefs ≡ length params.now }
    ensures value { cond (list_any (spec.has_name name) params.now) (Some (spec.plus_parameter params.now name times sum.old)) None ≡ cond result (Some sum.new) None }
    ensures width { length sum.new.coefs ≡ length params.now }
{
    if !is_parameter(params, name) {
        return false;
    }
    add_at(&mut sum.coefs, params, name, times);
    true
}

fn negative(times: i128) -> i128
    ensures { result ≡ spec.negative times }
{
    stopped_product(times, -1)
}

fn add_constant(sum: &mut Aff, times: i128, number: i64)
    ensures { sum.new ≡ spec.plus_number (sums.stopped_product times number) sum.old }
{
    sum.constant = stopped_sum(sum.constant, stopped_product(times, number as i128));
}

/// Adds a multiple of an expression, down its left part. False where it isn't affine in the parameters alone.
#[tactic(auto, unfolding(crate::specs::Extents::with_multiple))]
fn add_multiple(sum: &mut Aff, params: &[Name], times: i128, e: &Index) -> bool
    requires width { length sum.old.coefs ≡ length params.now }
    ensures value { spec.with_multiple params.now e.now times sum.old ≡ cond result (Some sum.new) None }
    ensures width { length sum.new.coefs ≡ length params.now }
{
    let mut factor = times;
    let mut rest = e;
    loop {
        match rest {
            Index::Const(n) => {
                add_constant(sum, factor, *n);
                return true;
            }
            Index::Var(name) => return add_parameter(sum, params, *name, factor),
            Index::Neg(inner) => {
                factor = negative(factor);
                rest = inner.get();
            }
            Index::Plus(left, right) => {
                if !add_multiple(sum, params, factor, right.get()) {
                    return false;
                }
                rest = left.get();
            }
            Index::Minus(left, right) => {
                if !add_multiple(sum, params, negative(factor), right.get()) {
                    return false;
                }
                rest = left.get();
            }
            Index::Times(n, inner) => {
                factor = stopped_product(factor, *n as i128);
                rest = inner.get();
            }
            Index::At(_) => return false,
            Index::Min(_, _) => return false,
            Index::Max(_, _) => return false,
            Index::Floor(_, _) => return false,
            Index::Ceil(_, _) => return false,
        }
    }
}

/// The form 0 over so many variables.
pub fn zero_form(alloc: Global, vars: usize) -> Result<Aff, NoMemory>
    ensures { IfOk result (λ f. f ≡ record { coefs = replicate vars (pos 0); constant = pos 0 }) }
{
    let mut coefs = List::new(alloc);
    for _ in 0..vars {
        coefs.push(0)?;
    }
    Ok(Aff { coefs, constant: 0 })
}

/// The affine form of an extent over the parameters alone, or None where it isn't affine in these.
#[tactic(auto, unfolding(crate::specs::Extents::extent_form))]
pub fn extent_form(alloc: Global, head: &Program, extent: &Index) -> Result<Option<Aff>, NoMemory>
    ensures value { IfOk result (λ found. found ≡ spec.extent_form head.now.params extent.now) }
    ensures width { IfOk result (λ found. IfSome found (λ f. length f.coefs ≡ length head.now.params)) }
{
    let params = head.params.as_slice();
    let mut sum = zero_form(alloc, params.len())?;
    if add_multiple(&mut sum, params, 1, extent) {
        Ok(Some(sum))
    } else {
        Ok(None)
    }
}
