// Bounds of a level, as rows give them.
ghost use Rattle.std.specs.Prelude.{◌≡◌, ◌^◌, ◌++◌, [], cond, fold, IfOk, OnOk};
ghost use Rattle.scan_forms.specs.Bounds as spec;

use crate::affine::{Affine, opposite};
use crate::claim::Claim;
use chill_base::{List, NoMemory};
use std::alloc::Global;

/// A form that is divided by a number of at least 1. A lower bound is the least integer that isn't below the quotient,
/// an upper bound is 1 more than the greatest that isn't above it.
#[derive(Drop)]
pub struct Bound {
    pub form: Affine,
    pub divisor: i128,
}

/// The lower and upper bounds of a statement at a level, equal ones once.
#[derive(Drop)]
pub struct Bounds {
    pub lower: List<Bound>,
    pub upper: List<Bound>,
}

fn is_same(a: &Bound, b: &Bound) -> bool
    ensures { result ≡ spec.same_bound a.now b.now }
{
    a.divisor == b.divisor && a.form.is_same(&b.form)
}

fn has_bound(bounds: &[Bound], bound: &Bound) -> bool
    ensures { result ≡ spec.has_bound bounds.now bound.now }
{
    for other in bounds {
        if is_same(other, bound) {
            return true;
        }
    }
    false
}

/// Appends a bound, unless the list has the same.
#[tactic(auto, unfolding(crate::specs::Bounds::with_bound))]
fn push_bound(bounds: &mut List<Bound>, form: Affine, divisor: i128) -> Result<(), NoMemory>
    ensures { OnOk result (bounds.new ≡ spec.with_bound form divisor bounds.old) }
{
    let bound = Bound { form, divisor };
    if has_bound(bounds.as_slice(), &bound) {
        return Ok(());
    }
    bounds.push(bound)?;
    Ok(())
}

/// Appends a bound of an equality.
fn push_if(
    alloc: Global,
    wanted: bool,
    bounds: &mut List<Bound>,
    form: &Affine,
    divisor: i128,
) -> Result<(), NoMemory>
    ensures { OnOk result (bounds.new ≡ cond wanted (spec.with_bound form.now divisor bounds.old) bounds.old) }
{
    if !wanted {
        return Ok(());
    }
    push_bound(bounds, form.copy(alloc)?, divisor)
}

/// The bounds of a row in which the level's number is `divisor`.
#[tactic(auto, unfolding(crate::specs::Bounds::rising))]
fn push_rising(
    alloc: Global,
    bounds: &mut Bounds,
    level: usize,
    claim: &Claim,
    divisor: i128,
) -> Result<(), NoMemory>
    ensures { OnOk result (bounds.new ≡ spec.rising level claim.now divisor bounds.old) }
{
    let rest = claim.form.without_level(alloc, level)?.negated(alloc)?;
    push_if(alloc, claim.equal, &mut bounds.upper, &rest, divisor)?;
    push_bound(&mut bounds.lower, rest, divisor)
}

/// The bounds of a row in which the level's number is `-divisor`.
#[tactic(auto, unfolding(crate::specs::Bounds::falling))]
fn push_falling(
    alloc: Global,
    bounds: &mut Bounds,
    level: usize,
    claim: &Claim,
    divisor: i128,
) -> Result<(), NoMemory>
    ensures { OnOk result (bounds.new ≡ spec.falling level claim.now divisor bounds.old) }
{
    let rest = claim.form.without_level(alloc, level)?;
    push_if(alloc, claim.equal, &mut bounds.lower, &rest, divisor)?;
    push_bound(&mut bounds.upper, rest, divisor)
}

/// The bounds that a row gives: `times*level + rest >= 0`, or `= 0`.
#[tactic(auto, unfolding(crate::specs::Bounds::with_claim))]
fn push_claim(
    alloc: Global,
    bounds: &mut Bounds,
    level: usize,
    claim: &Claim,
) -> Result<(), NoMemory>
    ensures { OnOk result (bounds.new ≡ spec.with_claim level bounds.old claim.now) }
{
    let times = claim.form.level(level);
    if times > 0 {
        push_rising(alloc, bounds, level, claim, times)
    } else if times < 0 {
        push_falling(alloc, bounds, level, claim, opposite(times))
    } else {
        Ok(())
    }
}

/// The bounds that rows give for a level.
pub fn make_bounds(alloc: Global, level: usize, claims: &[Claim]) -> Result<Bounds, NoMemory>
    ensures { IfOk result (λ bounds. bounds ≡ spec.bounds_of level claims.now) }
{
    let mut bounds = Bounds {
        lower: List::new(alloc),
        upper: List::new(alloc),
    };
    for claim in claims {
        push_claim(alloc, &mut bounds, level, claim)?;
    }
    Ok(bounds)
}

fn same_lists(a: &[Bound], b: &[Bound]) -> bool
    ensures { result ≡ spec.same_lists a.now b.now }
{
    match a {
        [] => b.is_empty(),
        [x, xs @ ..] => match b {
            [] => false,
            [y, ys @ ..] => is_same(x, y) && same_lists(xs, ys),
        },
    }
}

impl Bounds {
    pub fn are_same(&self, other: &Bounds) -> bool
        ensures { result ≡ spec.same_bounds self.now other.now }
    {
        same_lists(self.lower.as_slice(), other.lower.as_slice())
            && same_lists(self.upper.as_slice(), other.upper.as_slice())
    }
}
