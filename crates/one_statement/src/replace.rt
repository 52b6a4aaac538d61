// Rows, terms, cells and right sides whose levels and terms are replaced by forms of new variables.
ghost use Rattle.std.specs.Prelude.{◌≡◌, ◌≤◌, IfOk, IsTrue};
ghost use Rattle.std.specs.List.{list_all};
ghost use Rattle.nest_core.specs.Making.{Gives, each_made};
ghost use Rattle.nest_core.specs.Chains.{leaf_body};
ghost use Rattle.nest_core.specs.Forms.{has_vars};
ghost use Rattle.nest_core.specs.Pieces.{access_made, body_made, term_made};
ghost use Rattle.nest_core.specs.Shapes.{is_access_over, is_body_over, is_row_over, is_term_over};
ghost use Rattle.one_statement.specs.Images.{old_vars, image_of, row_image, same_row};

use crate::images::{Images, image_form};
use chill_base::{List, Stop};
use int_rows::{Aff, Excess, Row};
use nest_core::{Chain, Leaf, chain_of, join};
use nest_tree::{Access, Body, KernelRow, Term};
use std::alloc::Global;

/// The forms, each with its levels and terms replaced.
pub fn image_forms(alloc: Global, images: &Images, forms: &[Aff]) -> Result<List<Aff>, Stop<Excess>>
    requires room { images.now.params ≤ images.now.vars }
    requires width { IsTrue (list_all (has_vars (old_vars images.now)) forms.now) }
    ensures { Gives result (each_made (image_of images.now) forms.now) }
{
    let mut new = List::new(alloc);
    for form in forms {
        new.push(image_form(alloc, images, form)?)?;
    }
    Ok(new)
}

/// The row with its levels and terms replaced, as a row of this own level.
pub fn image_row(
    alloc: Global,
    images: &Images,
    row: &KernelRow,
    own: usize,
) -> Result<KernelRow, Stop<Excess>>
    requires room { images.now.params ≤ images.now.vars }
    requires width { IsTrue (has_vars (old_vars images.now) row.now.row.form) }
    ensures gives { Gives result (row_image images.now own row.now) }
    ensures width { IfOk result (λ r. IsTrue (has_vars images.now.vars r.row.form)) }
    ensures own { IfOk result (λ r. r.own ≡ own) }
    ensures equal { IfOk result (λ r. r.row.equal ≡ row.now.row.equal) }
{
    let form = image_form(alloc, images, &row.row.form)?;
    Ok(KernelRow {
        row: Row {
            equal: row.row.equal,
            form,
        },
        own,
    })
}

/// The rows with their levels and terms replaced, each of the same own level.
fn make_rows(
    alloc: Global,
    images: &Images,
    depth: usize,
    rows: &[KernelRow],
) -> Result<List<KernelRow>, Stop<Excess>>
    requires room { images.now.params ≤ images.now.vars }
    requires rows { IsTrue (list_all (is_row_over (old_vars images.now) depth) rows.now) }
    ensures { Gives result (each_made (same_row images.now) rows.now) }
{
    let mut new = List::new(alloc);
    for row in rows {
        new.push(image_row(alloc, images, row, row.own)?)?;
    }
    Ok(new)
}

/// The rows with their levels and terms replaced, for a statement of so many levels that keeps its levels' places.
pub fn image_rows(
    alloc: Global,
    images: &Images,
    depth: usize,
    rows: &[KernelRow],
) -> Result<List<KernelRow>, Stop<Excess>>
    requires room { images.now.params ≤ images.now.vars }
    requires rows { IsTrue (list_all (is_row_over (old_vars images.now) depth) rows.now) }
    ensures gives { Gives result (each_made (same_row images.now) rows.now) }
    ensures over { IfOk result (λ rs. IsTrue (list_all (is_row_over images.now.vars depth) rs)) }
{
    make_rows(alloc, images, depth, rows)
}

/// The term with the levels and terms in its arguments replaced.
pub fn image_term(alloc: Global, images: &Images, term: &Term) -> Result<Term, Stop<Excess>>
    requires room { images.now.params ≤ images.now.vars }
    requires term { IsTrue (is_term_over (old_vars images.now) term.now) }
    ensures { Gives result (term_made (image_of images.now) term.now) }
{
    let at = image_forms(alloc, images, term.at.as_slice())?;
    Ok(Term {
        array: term.array,
        at,
    })
}

fn make_terms(alloc: Global, images: &Images, terms: &[Term]) -> Result<List<Term>, Stop<Excess>>
    requires room { images.now.params ≤ images.now.vars }
    requires terms { IsTrue (list_all (is_term_over (old_vars images.now)) terms.now) }
    ensures { Gives result (each_made (term_made (image_of images.now)) terms.now) }
{
    let mut new = List::new(alloc);
    for term in terms {
        new.push(image_term(alloc, images, term)?)?;
    }
    Ok(new)
}

/// The terms with the levels and terms in their arguments replaced.
pub fn image_terms(
    alloc: Global,
    images: &Images,
    terms: &[Term],
) -> Result<List<Term>, Stop<Excess>>
    requires room { images.now.params ≤ images.now.vars }
    requires terms { IsTrue (list_all (is_term_over (old_vars images.now)) terms.now) }
    ensures gives { Gives result (each_made (term_made (image_of images.now)) terms.now) }
    ensures over { IfOk result (λ ts. IsTrue (list_all (is_term_over images.now.vars) ts)) }
{
    make_terms(alloc, images, terms)
}

fn make_access(alloc: Global, images: &Images, access: &Access) -> Result<Access, Stop<Excess>>
    requires room { images.now.params ≤ images.now.vars }
    requires access { IsTrue (is_access_over (old_vars images.now) access.now) }
    ensures { Gives result (access_made (image_of images.now) access.now) }
{
    let at = image_forms(alloc, images, access.at.as_slice())?;
    Ok(Access {
        array: access.array,
        at,
    })
}

/// The cell with the levels and terms in its subscripts replaced.
pub fn image_access(alloc: Global, images: &Images, access: &Access) -> Result<Access, Stop<Excess>>
    requires room { images.now.params ≤ images.now.vars }
    requires access { IsTrue (is_access_over (old_vars images.now) access.now) }
    ensures gives { Gives result (access_made (image_of images.now) access.now) }
    ensures over { IfOk result (λ a. IsTrue (is_access_over images.now.vars a)) }
{
    make_access(alloc, images, access)
}

/// A number as it is, and a cell with the levels and terms in its subscripts replaced.
fn make_leaf(alloc: Global, images: &Images, leaf: Leaf<'_>) -> Result<Body, Stop<Excess>>
    requires room { images.now.params ≤ images.now.vars }
    requires leaf { IsTrue (is_body_over (old_vars images.now) (leaf_body leaf)) }
    ensures { Gives result (body_made (image_of images.now) (leaf_body leaf.entry)) }
{
    match leaf {
        Leaf::Number(n) => Ok(Body::Const(n)),
        Leaf::Cell(access) => Ok(Body::At(make_access(alloc, images, access)?)),
    }
}

/// The right side with the levels and terms in the subscripts of its cells replaced.
fn make_body(alloc: Global, images: &Images, body: &Body) -> Result<Body, Stop<Excess>>
    requires room { images.now.params ≤ images.now.vars }
    requires body { IsTrue (is_body_over (old_vars images.now) body.now) }
    ensures { Gives result (body_made (image_of images.now) body.now) }
{
    let Chain { first, mut links } = chain_of(alloc, body)?;
    let mut whole = make_leaf(alloc, images, first)?;
    while let Some(link) = links.pop() {
        let right = make_body(alloc, images, link.right)?;
        whole = join(alloc, link.operation, whole, right)?;
    }
    Ok(whole)
}

/// The right side with the levels and terms in the subscripts of its cells replaced.
pub fn image_body(alloc: Global, images: &Images, body: &Body) -> Result<Body, Stop<Excess>>
    requires room { images.now.params ≤ images.now.vars }
    requires body { IsTrue (is_body_over (old_vars images.now) body.now) }
    ensures gives { Gives result (body_made (image_of images.now) body.now) }
    ensures over { IfOk result (λ b. IsTrue (is_body_over images.now.vars b)) }
{
    make_body(alloc, images, body)
}
