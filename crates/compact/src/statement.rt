// The statement over the places of kept values.
ghost use Rattle.std.specs.Prelude.{◌≡◌, ◌≤◌, length, replicate, IfOk};
ghost use Rattle.nest_core.specs.Making.{Gives};
ghost use Rattle.nest_core.specs.Shapes.{vars_of, IsShapedNest};
ghost use Rattle.one_statement.specs.Images.{old_vars};
ghost use Rattle.nest_tree.specs.declared.form.Form.TheVariants.{Other};
ghost use Rattle.compact.specs.Statement as spec;
ghost use Rattle.compact.specs.Statement.{AreCounts, AreParts};

use crate::added::{new_rows, new_terms};
use crate::counts::Counts;
use crate::parts::Parts;
use crate::variables::images;
use c_tree::Program;
use chill_base::{List, NoMemory, Stop};
use inspectors::{Group, MarkNames};
use int_rows::Excess;
use nest_tree::{Form, Nest};
use one_statement::{Images, image_access, image_body, image_rows, image_terms};
use std::alloc::Global;

/// How the variables of a statement stand.
fn counts_of(head: &Program, nest: &Nest, level: usize) -> Counts
    requires shaped { IsShapedNest head.now nest.now }
    requires low { 1 ≤ level }
    requires high { level ≤ length nest.now.levels }
    ensures value { result ≡ spec.counts_of (length head.now.params) nest.now level }
    ensures of { spec.AreOf (length head.now.params) nest.now result }
    ensures counts { AreCounts result }
{
    Counts {
        params: head.params.as_slice().len(),
        levels: nest.levels.as_slice().len(),
        terms: nest.terms.as_slice().len(),
        level: level - 1,
    }
}

/// The rows, the terms and the cells with the levels and terms in them replaced.
#[tactic(auto, unfolding(crate::specs::Statement::parts))]
fn make_parts(
    alloc: Global,
    head: &Program,
    images: &Images,
    nest: &Nest,
) -> Result<Parts, Stop<Excess>>
    requires shaped { IsShapedNest head.now nest.now }
    requires room { images.now.params ≤ images.now.vars }
    requires old { old_vars images.now ≡ vars_of (length head.now.params) nest.now }
    ensures gives { Gives result (spec.parts images.now nest.now) }
    ensures parts { IfOk result (AreParts images.now.vars (length nest.now.levels) (length nest.now.terms)) }
{
    let rows = image_rows(alloc, images, nest.levels.len(), nest.rows.as_slice())?;
    let terms = image_terms(alloc, images, nest.terms.as_slice())?;
    let target = image_access(alloc, images, &nest.target)?;
    let value = image_body(alloc, images, &nest.value)?;
    Ok(Parts {
        rows,
        terms,
        target,
        value,
    })
}

/// No level of the statement stands for anything of a matrix.
fn other_levels(alloc: Global, count: usize) -> Result<List<Form>, NoMemory>
    ensures { IfOk result (λ fs. fs ≡ replicate count Other) }
{
    let mut levels = List::new(alloc);
    for _ in 0..count {
        levels.push(Form::Other)?;
    }
    Ok(levels)
}

/// The statement with these parts, and the terms and rows of the level.
fn assemble(
    alloc: Global,
    counts: Counts,
    group: Group,
    names: &MarkNames,
    nest: &Nest,
    parts: Parts,
) -> Result<Nest, NoMemory>
    requires counts { AreCounts counts }
    ensures { IfOk result (λ n. n ≡ spec.assembled counts group names.now nest.now parts) }
{
    let Parts {
        mut rows,
        mut terms,
        target,
        value,
    } = parts;
    terms.append(new_terms(alloc, counts, group, names)?)?;
    rows.append(new_rows(alloc, counts)?)?;
    let levels = other_levels(alloc, nest.levels.len())?;
    Ok(Nest {
        levels,
        positions: List::from_slice(alloc, nest.positions.as_slice())?,
        terms,
        rows,
        target,
        how: nest.how,
        value,
        whole: None,
    })
}

/// The statement over the places of kept values.
#[tactic(auto, unfolding(crate::specs::Statement::compacted))]
pub fn compacted(
    alloc: Global,
    head: &Program,
    nest: &Nest,
    level: usize,
    group: Group,
    names: &MarkNames,
) -> Result<Nest, Stop<Excess>>
    requires shaped { IsShapedNest head.now nest.now }
    requires low { 1 ≤ level }
    requires high { level ≤ length nest.now.levels }
    ensures gives { Gives result (spec.compacted (spec.counts_of (length head.now.params) nest.now level) group names.now nest.now) }
    ensures shaped { IfOk result (IsShapedNest head.now) }
{
    let counts = counts_of(head, nest, level);
    let images = images(alloc, counts)?;
    let parts = make_parts(alloc, head, &images, nest)?;
    Ok(assemble(alloc, counts, group, names, nest, parts)?)
}
