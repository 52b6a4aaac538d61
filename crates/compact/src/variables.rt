// The variables of a statement before and after a level is compacted.
ghost use Rattle.std.specs.Prelude.{◌≡◌, ◌<◌, ◌+◌, map, IfOk};
ghost use Rattle.std.specs.List.{range_with_len};
ghost use Rattle.compact.specs.Statement as spec;
ghost use Rattle.compact.specs.Statement.{AreCounts, AreImages};

use crate::counts::Counts;
use chill_base::{List, NoMemory};
use int_rows::Aff;
use nest_systems::unit_form;
use one_statement::Images;
use std::alloc::Global;

/// How many variables the statement had.
fn old_vars(counts: Counts) -> usize
    requires { AreCounts counts }
    ensures { result ≡ spec.old_vars counts }
{
    counts.params + counts.levels + counts.terms
}

/// How many variables the statement has: the kept value and the ends of its group are three terms more.
pub fn new_vars(counts: Counts) -> usize
    requires { AreCounts counts }
    ensures { result ≡ spec.new_vars counts }
{
    old_vars(counts) + 3
}

/// The variable of the level, which is now the place of a kept value.
pub fn place_var(counts: Counts) -> usize
    requires { AreCounts counts }
    ensures { result ≡ spec.place_var counts }
{
    counts.params + counts.level
}

/// The variable of the term that is the kept value.
pub fn value_var(counts: Counts) -> usize
    requires { AreCounts counts }
    ensures { result ≡ spec.value_var counts }
{
    old_vars(counts)
}

/// The variable of the term where the kept values of the group begin.
pub fn begin_var(counts: Counts) -> usize
    requires { AreCounts counts }
    ensures { result ≡ spec.begin_var counts }
{
    old_vars(counts) + 1
}

/// The variable of the term where they end.
pub fn end_var(counts: Counts) -> usize
    requires { AreCounts counts }
    ensures { result ≡ spec.end_var counts }
{
    old_vars(counts) + 2
}

/// The variable that stands for a level or a term: the kept value for the level, and for all others themselves.
fn image_var(counts: Counts, i: usize) -> usize
    requires counts { AreCounts counts }
    requires within { i < counts.levels + counts.terms }
    ensures { result ≡ spec.image_var counts i }
{
    if i == counts.level {
        value_var(counts)
    } else {
        counts.params + i
    }
}

fn image_at(alloc: Global, counts: Counts, i: usize) -> Result<Aff, NoMemory>
    requires counts { AreCounts counts }
    requires within { i < counts.levels + counts.terms }
    ensures { IfOk result (λ f. f ≡ spec.image_at counts i) }
{
    unit_form(alloc, image_var(counts, i), new_vars(counts))
}

fn image_forms(alloc: Global, counts: Counts) -> Result<List<Aff>, NoMemory>
    requires { AreCounts counts }
    ensures { IfOk result (λ fs. fs ≡ map (spec.image_at counts) (range_with_len 0 (counts.levels + counts.terms))) }
{
    let mut forms = List::new(alloc);
    for i in 0..counts.levels + counts.terms {
        forms.push(image_at(alloc, counts, i)?)?;
    }
    Ok(forms)
}

/// What the levels and terms of the statement become.
#[tactic(auto, unfolding(crate::specs::Statement::images))]
pub fn images(alloc: Global, counts: Counts) -> Result<Images, NoMemory>
    requires { AreCounts counts }
    ensures value { IfOk result (λ i. i ≡ spec.images counts) }
    ensures images { IfOk result (AreImages counts) }
{
    Ok(Images {
        params: counts.params,
        vars: new_vars(counts),
        forms: image_forms(alloc, counts)?,
    })
}
