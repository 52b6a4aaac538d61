// The column of the entry in the subscripts of a statement's cells, once a level stands for it.
ghost use Rattle.std.specs.Prelude.{◌≡◌, ◌≤◌, ◌<◌, ◌+◌, ◌-◌, ◌++◌, length, map, IfOk};
ghost use Rattle.std.specs.List.{range_with_len};
ghost use Rattle.nest_core.specs.Making.{Gives};
ghost use Rattle.nest_core.specs.Shapes.{vars_of, IsShapedNest};
ghost use Rattle.make_dense.specs.Column as spec;

use crate::forms::reads_at;
use affine_moves::unit;
use c_tree::Program;
use chill_base::{List, Name, NoMemory, Stop};
use int_rows::{Aff, Excess};
use nest_tree::{Nest, Term};
use one_statement::{Images, image_access, image_body};
use std::alloc::Global;

/// The levels as they are.
fn same_levels(
    alloc: Global,
    vars: usize,
    params: usize,
    levels: usize,
) -> Result<List<Aff>, NoMemory>
    requires { params + levels ≤ vars }
    ensures { IfOk result (λ fs. fs ≡ spec.same_levels vars params levels) }
{
    let mut forms = List::new(alloc);
    for level in 0..levels {
        forms.push(unit(alloc, vars, params + level)?)?;
    }
    Ok(forms)
}

/// The variable that a term becomes: the column's level where it reads the column at that entry, and otherwise itself.
fn image_var(column: Name, dense: usize, entry: usize, term: &Term, var: usize) -> usize
    ensures { result ≡ spec.image_var column dense entry var term.now }
{
    if reads_at(term, column, entry, 0) {
        dense
    } else {
        var
    }
}

/// What a term becomes, as a form over so many variables.
fn term_image(
    alloc: Global,
    column: Name,
    dense: usize,
    entry: usize,
    vars: usize,
    term: &Term,
    var: usize,
) -> Result<Aff, NoMemory>
    requires dense { dense < vars }
    requires var { var < vars }
    ensures { IfOk result (λ f. f ≡ spec.term_image column dense entry vars var term.now) }
{
    unit(alloc, vars, image_var(column, dense, entry, term, var))
}

/// What the terms become, which are the variables from `first` on.
fn term_images(
    alloc: Global,
    column: Name,
    dense: usize,
    entry: usize,
    vars: usize,
    first: usize,
    terms: &[Term],
) -> Result<List<Aff>, NoMemory>
    requires dense { dense < vars }
    requires vars { first + length terms.now ≤ vars }
    ensures { IfOk result (λ fs. fs ≡ spec.term_images column dense entry vars first terms.now) }
{
    let mut forms = List::new(alloc);
    for place in 0..terms.len() {
        let term = &terms[place];
        forms.push(term_image(alloc, column, dense, entry, vars, term, first + place)?)?;
    }
    Ok(forms)
}

/// What the variables become where the column's level stands for each read of the column at the entry, which is the level
/// behind it.
#[tactic(auto, unfolding(crate::specs::Column::column_images))]
fn column_images(
    alloc: Global,
    head: &Program,
    nest: &Nest,
    level: usize,
    column: Name,
) -> Result<Images, NoMemory>
    requires shaped { IsShapedNest head.now nest.now }
    requires low { 1 ≤ level }
    requires high { level ≤ length nest.now.levels }
    ensures { IfOk result (λ i. i ≡ spec.column_images (length head.now.params) nest.now level column) }
{
    let params = head.params.as_slice().len();
    let terms = nest.terms.as_slice();
    let first = params + nest.levels.len();
    let vars = first + terms.len();
    let mut forms = same_levels(alloc, vars, params, nest.levels.len())?;
    let dense = params + (level - 1);
    forms.append(term_images(alloc, column, dense, params + level, vars, first, terms)?)?;
    Ok(Images {
        params,
        vars,
        forms,
    })
}

/// The statement with the column's level in the subscripts of its cells, where these held the column of the entry.
pub fn with_column(
    alloc: Global,
    head: &Program,
    nest: Nest,
    level: usize,
    column: Name,
) -> Result<Nest, Stop<Excess>>
    requires shaped { IsShapedNest head.now nest }
    requires low { 1 ≤ level }
    requires high { level ≤ length nest.levels }
    ensures gives { Gives result (spec.with_column (length head.now.params) nest level column) }
    ensures shaped { IfOk result (λ n. IsShapedNest head.now n) }
{
    let images = column_images(alloc, head, &nest, level, column)?;
    let target = image_access(alloc, &images, &nest.target)?;
    let value = image_body(alloc, &images, &nest.value)?;
    Ok(Nest {
        target,
        value,
        ..nest
    })
}
