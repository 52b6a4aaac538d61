// Copies of statements.
ghost use Rattle.std.specs.Prelude.{◌≡◌, ◌++◌, IfOk, OnOk};
ghost use Rattle.nest_core.specs.Chains.{leaf_body};
ghost use Rattle.one_statement.specs.Copies.{with_value};

use chill_base::{List, NoMemory};
use nest_core::{Chain, Leaf, chain_of, join};
use nest_systems::{copy_forms, copy_row, copy_term};
use nest_tree::{Access, Body, KernelRow, Nest, Term};
use std::alloc::Global;

/// A copy of a cell.
pub fn copy_access(alloc: Global, access: &Access) -> Result<Access, NoMemory>
    ensures { IfOk result (λ a. a ≡ access.now) }
{
    Ok(Access {
        array: access.array,
        at: copy_forms(alloc, access.at.as_slice())?,
    })
}

fn copy_terms(alloc: Global, terms: &[Term]) -> Result<List<Term>, NoMemory>
    ensures { IfOk result (λ ts. ts ≡ terms.now) }
{
    let mut copies = List::new(alloc);
    for term in terms {
        copies.push(copy_term(alloc, term)?)?;
    }
    Ok(copies)
}

fn copy_kernel_row(alloc: Global, row: &KernelRow) -> Result<KernelRow, NoMemory>
    ensures { IfOk result (λ r. r ≡ row.now) }
{
    Ok(KernelRow {
        row: copy_row(alloc, &row.row)?,
        own: row.own,
    })
}

fn copy_rows(alloc: Global, rows: &[KernelRow]) -> Result<List<KernelRow>, NoMemory>
    ensures { IfOk result (λ rs. rs ≡ rows.now) }
{
    let mut copies = List::new(alloc);
    for row in rows {
        copies.push(copy_kernel_row(alloc, row)?)?;
    }
    Ok(copies)
}

/// A copy of a right side without operations.
fn copy_leaf(alloc: Global, leaf: Leaf<'_>) -> Result<Body, NoMemory>
    ensures { IfOk result (λ b. b ≡ leaf_body leaf.entry) }
{
    match leaf {
        Leaf::Number(n) => Ok(Body::Const(n)),
        Leaf::Cell(access) => Ok(Body::At(copy_access(alloc, access)?)),
    }
}

/// A copy of a right side.
fn copy_body(alloc: Global, body: &Body) -> Result<Body, NoMemory>
    ensures { IfOk result (λ b. b ≡ body.now) }
{
    let Chain { first, mut links } = chain_of(alloc, body)?;
    let mut whole = copy_leaf(alloc, first)?;
    while let Some(link) = links.pop() {
        let right = copy_body(alloc, link.right)?;
        whole = join(alloc, link.operation, whole, right)?;
    }
    Ok(whole)
}

/// A copy of a statement with another right side.
pub fn copy_with(alloc: Global, nest: &Nest, value: Body) -> Result<Nest, NoMemory>
    ensures { IfOk result (λ n. n ≡ with_value nest.now value) }
{
    let rows = copy_rows(alloc, nest.rows.as_slice())?;
    let terms = copy_terms(alloc, nest.terms.as_slice())?;
    let target = copy_access(alloc, &nest.target)?;
    Ok(Nest {
        levels: List::from_slice(alloc, nest.levels.as_slice())?,
        positions: List::from_slice(alloc, nest.positions.as_slice())?,
        terms,
        rows,
        target,
        how: nest.how,
        value,
        whole: nest.whole,
    })
}

/// A copy of a statement.
pub fn copy_nest(alloc: Global, nest: &Nest) -> Result<Nest, NoMemory>
    ensures { IfOk result (λ n. n ≡ nest.now) }
{
    let value = copy_body(alloc, &nest.value)?;
    copy_with(alloc, nest, value)
}

/// Appends copies of statements.
pub fn push_copies(alloc: Global, nests: &mut Vec<Nest>, more: &[Nest]) -> Result<(), NoMemory>
    ensures { OnOk result (nests.new.items ≡ nests.old.items ++ more.now) }
{
    for nest in more {
        nests.push(copy_nest(alloc, nest)?)?;
    }
    Ok(())
}
