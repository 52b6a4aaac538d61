// The statement of an assignment.
ghost use Rattle.std.specs.Prelude.{◌≡◌, ℕ, ◌+◌, ◌≤◌, ◌<◌, length, IfOk, OnOk, IsTrue};
ghost use Rattle.std.specs.List.{list_all};
ghost use Rattle.nest_core.specs.Forms.{has_vars};
ghost use Rattle.nest_core.specs.Shapes.{is_access_over, is_body_over, is_term_over, is_row_over, IsShapedNest};
ghost use Rattle.source_limits.specs.Sites.{count_loops};
ghost use Rattle.source_limits.specs.Widths.{is_read_over};

use crate::rows::rows_around;
use crate::whole::{level_forms, whole_matrix};
use c_tree::{Cell, Expr};
use chill_base::{Boxed, List, Name, NoMemory, Stop};
use int_rows::Aff;
use nest_systems::{copy_form, widened_form};
use nest_tree::{Access, Body, KernelRow, Nest, Term};
use source_limits::{
    Chain, Leaf, Read, Scene, Sign, Site, SourceFault, Variables, cells, chain_of, form, positions,
    subscript_at, subscripts, variables,
};
use std::alloc::Global;

/// A cell with the forms of its subscripts.
pub fn access(
    alloc: Global,
    scene: Scene,
    vars: Variables,
    cell: &Cell,
) -> Result<Access, Stop<SourceFault>>
    ensures { IfOk result (λ a. IsTrue (is_access_over (length vars.entry.names.now + length vars.entry.reads.now) a)) }
{
    let mut at = List::new(alloc);
    let subscripts = subscripts(alloc, &cell.at)?;
    for e in subscripts.as_slice() {
        at.push(form(alloc, subscript_at(scene), vars, e)?)?;
    }
    Ok(Access {
        array: cell.array,
        at,
    })
}

/// A right side with the forms of its subscripts.
#[cycle(body)]
fn body(
    alloc: Global,
    scene: Scene,
    vars: Variables,
    value: &Expr,
) -> Result<Body, Stop<SourceFault>>
    ensures { IfOk result (λ b. IsTrue (is_body_over (length vars.entry.names.now + length vars.entry.reads.now) b)) }
{
    let Chain { first, behind } = chain_of(alloc, value)?;
    let mut whole = leaf(alloc, scene, vars, first)?;
    for i in 0..behind.len() {
        let link = behind[behind.len() - 1 - i];
        let right = body(alloc, scene, vars, link.value)?;
        whole = joined(alloc, link.sign, whole, right)?;
    }
    Ok(whole)
}

fn leaf(alloc: Global, scene: Scene, vars: Variables, leaf: Leaf) -> Result<Body, Stop<SourceFault>>
    ensures { IfOk result (λ b. IsTrue (is_body_over (length vars.entry.names.now + length vars.entry.reads.now) b)) }
{
    match leaf {
        Leaf::Number(n) => Ok(Body::Const(n)),
        Leaf::Cell(cell) => Ok(Body::At(access(alloc, scene, vars, cell)?)),
    }
}

fn joined(alloc: Global, sign: Sign, left: Body, right: Body) -> Result<Body, NoMemory>
    ensures { (n : ℕ) → IsTrue (is_body_over n left) → IsTrue (is_body_over n right) → IfOk result (λ b. IsTrue (is_body_over n b)) }
{
    let a = Boxed::new(alloc, left)?;
    let b = Boxed::new(alloc, right)?;
    match sign {
        Sign::Plus => Ok(Body::Plus(a, b)),
        Sign::Minus => Ok(Body::Minus(a, b)),
        Sign::Times => Ok(Body::Times(a, b)),
    }
}

/// The reads as terms of forms over so many names and these reads.
pub fn terms_of(alloc: Global, names: &[Name], reads: &[Read]) -> Result<List<Term>, NoMemory>
    requires { IsTrue (list_all (is_read_over (length names.now)) reads.now) }
    ensures terms { IfOk result (λ ts. IsTrue (list_all (is_term_over (length names.now + length reads.now)) ts)) }
    ensures count { IfOk result (λ ts. length ts ≡ length reads.now) }
{
    let vars = names.len() + reads.len();
    let mut terms = List::new(alloc);
    for read in reads {
        terms.push(term_of(alloc, vars, read)?)?;
    }
    Ok(terms)
}

/// A read as a term of forms over so many variables.
fn term_of(alloc: Global, vars: usize, read: &Read) -> Result<Term, NoMemory>
    requires { length read.now.at.coefs ≤ vars }
    ensures { IfOk result (λ t. IsTrue (is_term_over vars t)) }
{
    let mut at = List::new(alloc);
    at.push(widened_form(alloc, &read.at, vars)?)?;
    Ok(Term {
        array: read.array,
        at,
    })
}

/// Whether a form has a coefficient other than 0 at a variable.
fn holds(form: &Aff, var: usize) -> bool {
    match form.coefs.get(var) {
        Some(coef) => *coef != 0,
        None => false,
    }
}

fn any_row_holds(rows: &[KernelRow], var: usize) -> bool {
    rows.iter().any(|row| holds(&row.row.form, var))
}

fn any_form_holds(forms: &[Aff], var: usize) -> bool {
    forms.iter().any(|form| holds(form, var))
}

/// The forms of all subscripts of an assignment.
fn subscript_forms(
    alloc: Global,
    scene: Scene,
    vars: Variables,
    site: &Site,
) -> Result<List<Aff>, Stop<SourceFault>>
    ensures { IfOk result (λ fs. IsTrue (list_all (has_vars (length vars.entry.names.now + length vars.entry.reads.now)) fs)) }
{
    let mut forms = List::new(alloc);
    let cells = cells(alloc, site.target, site.value)?;
    for cell in cells.as_slice() {
        forms.append(access(alloc, scene, vars, cell)?.at)?;
    }
    Ok(forms)
}

/// The reads that a row or a subscript of the assignment holds.
fn held_reads(
    alloc: Global,
    scene: Scene,
    site: &Site,
    reads: &[Read],
) -> Result<Vec<Read>, Stop<SourceFault>>
    requires depth { count_loops site.now.around.items ≤ 8 }
    requires names { length scene.names.now ≡ length scene.head.now.params + count_loops site.now.around.items }
    requires reads { IsTrue (list_all (is_read_over (length scene.names.now)) reads.now) }
    ensures { IfOk result (λ v. IsTrue (list_all (is_read_over (length scene.entry.names.now)) v.items)) }
{
    let vars = variables(scene, reads);
    let params = scene.head.params.as_slice().len();
    let rows = rows_around(alloc, scene.statement, params, vars, site.around.as_slice())?;
    let forms = subscript_forms(alloc, scene, vars, site)?;
    let first = scene.names.len();
    let mut held = Vec::new(alloc);
    for i in 0..reads.len() {
        if any_row_holds(rows.as_slice(), first + i)
            || any_form_holds(forms.as_slice(), first + i)
        {
            held.push(Read {
                array: reads[i].array,
                at: copy_form(alloc, &reads[i].at)?,
            })?;
        }
    }
    Ok(held)
}

/// The statement of an assignment, of whose reads those that fall out of all sums are no terms.
pub fn make_nest(
    alloc: Global,
    scene: Scene,
    site: &Site,
    reads: &[Read],
) -> Result<Nest, Stop<SourceFault>>
    requires depth { count_loops site.now.around.items ≤ 8 }
    requires names { length scene.names.now ≡ length scene.head.now.params + count_loops site.now.around.items }
    requires reads { IsTrue (list_all (is_read_over (length scene.names.now)) reads.now) }
    ensures { IfOk result (λ n. IsShapedNest scene.entry.head.now n) }
{
    let held = held_reads(alloc, scene, site, reads)?;
    let vars = variables(scene, held.as_slice());
    let params = scene.head.params.as_slice().len();
    let levels = scene.names.len() - params;
    let terms = terms_of(alloc, scene.names, held.as_slice())?;
    let rows = rows_around(alloc, scene.statement, params, vars, site.around.as_slice())?;
    let whole = whole_matrix(alloc, scene.head, levels, terms.as_slice(), rows.as_slice())?;
    Ok(Nest {
        levels: level_forms(alloc, levels, whole.is_some())?,
        positions: positions(alloc, site.around.as_slice(), site.number)?,
        terms,
        rows,
        target: access(alloc, scene, vars, site.target)?,
        how: site.how,
        value: body(alloc, scene, vars, site.value)?,
        whole,
    })
}
