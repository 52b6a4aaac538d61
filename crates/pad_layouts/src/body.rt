// The right side over the new variables, with a cell of the layout for the entry's value.
ghost use Rattle.std.specs.Prelude.{◌≡◌, IfOk, IsTrue};
ghost use Rattle.std.specs.List.{list_all};
ghost use Rattle.nest_core.specs.Chains.{leaf_body};
ghost use Rattle.pad_layouts.specs.Moved as spec;

use crate::column::is_name;
use crate::moved::moved_access;
use chill_base::{List, Name, NoMemory};
use int_rows::Aff;
use nest_core::{Chain, Leaf, chain_of, join};
use nest_tree::{Access, Body};
use std::alloc::Global;

/// A copy of a form.
fn copy_form(alloc: Global, form: &Aff) -> Result<Aff, NoMemory>
    ensures { IfOk result (λ f. f ≡ form.now) }
{
    Ok(Aff {
        coefs: List::from_slice(alloc, form.coefs.as_slice())?,
        constant: form.constant,
    })
}

fn copy_forms(alloc: Global, forms: &[Aff]) -> Result<List<Aff>, NoMemory>
    ensures { IfOk result (λ fs. fs ≡ forms.now) }
{
    let mut copies = List::new(alloc);
    for form in forms {
        copies.push(copy_form(alloc, form)?)?;
    }
    Ok(copies)
}

/// A copy of a cell.
fn copy_access(alloc: Global, access: &Access) -> Result<Access, NoMemory>
    ensures { IfOk result (λ a. a ≡ access.now) }
{
    Ok(Access {
        array: access.array,
        at: copy_forms(alloc, access.at.as_slice())?,
    })
}

/// The cell of the layout in the place of a value of the matrix; any other cell over the new variables.
fn padded_access(
    alloc: Global,
    picks: &[Option<usize>],
    value: Name,
    cell: &Access,
    access: &Access,
) -> Result<Access, NoMemory>
    requires { IsTrue (list_all (spec.suits picks.now) access.now.at) }
    ensures { IfOk result (λ a. a ≡ spec.padded_access picks.now value cell.now access.now) }
{
    if is_name(access.array, value) {
        copy_access(alloc, cell)
    } else {
        moved_access(alloc, picks, access)
    }
}

/// A number as it is, and a cell over the new variables or the cell of the layout in its place.
fn padded_leaf(
    alloc: Global,
    picks: &[Option<usize>],
    value: Name,
    cell: &Access,
    leaf: Leaf<'_>,
) -> Result<Body, NoMemory>
    requires { IsTrue (spec.suits_body picks.now (leaf_body leaf)) }
    ensures { IfOk result (λ b. b ≡ spec.padded_body picks.now value cell.now (leaf_body leaf.entry)) }
{
    match leaf {
        Leaf::Number(n) => Ok(Body::Const(n)),
        Leaf::Cell(access) => Ok(Body::At(padded_access(alloc, picks, value, cell, access)?)),
    }
}

/// The right side over the new variables, with the cell of the layout in the place of a value of the matrix.
pub fn padded_body(
    alloc: Global,
    picks: &[Option<usize>],
    value: Name,
    cell: &Access,
    body: &Body,
) -> Result<Body, NoMemory>
    requires { IsTrue (spec.suits_body picks.now body.now) }
    ensures { IfOk result (λ b. b ≡ spec.padded_body picks.now value cell.now body.now) }
{
    let Chain { first, mut links } = chain_of(alloc, body)?;
    let mut whole = padded_leaf(alloc, picks, value, cell, first)?;
    while let Some(link) = links.pop() {
        let right = padded_body(alloc, picks, value, cell, link.right)?;
        whole = join(alloc, link.operation, whole, right)?;
    }
    Ok(whole)
}
