// What rows, terms, cells and right sides become where each level is replaced by a form of new variables.
ghost use Rattle.std.specs.Prelude.{◌≡◌, ◌+◌, ◌≤◌, ◌<◌, ◌^◌, suc, pos, cond, length, IfOk, IsTrue, OnOk};
ghost use Rattle.std.specs.Ordering.{int_eq};
ghost use Rattle.std.specs.List.{list_all};
ghost use Rattle.nest_core.specs.Chains.{leaf_body};
ghost use Rattle.nest_core.specs.Making.{Gives, each_made, pair_made, both_lists};
ghost use Rattle.nest_core.specs.Forms.{rewritten, judged_form, old_vars, new_vars, has_vars};
ghost use Rattle.nest_core.specs.Pieces.{access_made, body_made, last_held, own_made, row_made, row_judged, kept, term_made};
ghost use Rattle.nest_core.specs.Shapes.{is_access_over, is_body_over, is_row_over, is_term_over};

use crate::chain::{Chain, Leaf, chain_of, join};
use crate::form::{Frame, judge_form, rewrite};
use chill_base::{List, Stop};
use int_rows::{Aff, Excess, Row};
use nest_tree::{Access, Body, KernelRow, Nest, Piece, Term};
use std::alloc::Global;

/// The forms, each rewritten.
pub fn rewrite_forms(
    alloc: Global,
    frame: Frame,
    old: &[Aff],
    forms: &[Aff],
) -> Result<List<Aff>, Stop<Excess>>
    requires counts { length old.now ≡ frame.levels }
    requires width { IsTrue (list_all (has_vars (old_vars frame)) forms.now) }
    ensures { Gives result (each_made (rewritten frame old.now) forms.now) }
{
    let mut new = List::new(alloc);
    for form in forms {
        new.push(rewrite(alloc, frame, old, form)?)?;
    }
    Ok(new)
}

/// The access with its subscripts rewritten.
pub fn rewrite_access(
    alloc: Global,
    frame: Frame,
    old: &[Aff],
    access: &Access,
) -> Result<Access, Stop<Excess>>
    requires counts { length old.now ≡ frame.levels }
    requires width { IsTrue (is_access_over (old_vars frame) access.now) }
    ensures { Gives result (access_made (rewritten frame old.now) access.now) }
{
    let at = rewrite_forms(alloc, frame, old, access.at.as_slice())?;
    Ok(Access {
        array: access.array,
        at,
    })
}

/// A number as it is, and a cell with its subscripts rewritten.
fn rewrite_leaf(
    alloc: Global,
    frame: Frame,
    old: &[Aff],
    leaf: Leaf<'_>,
) -> Result<Body, Stop<Excess>>
    requires counts { length old.now ≡ frame.levels }
    requires width { IsTrue (is_body_over (old_vars frame) (leaf_body leaf)) }
    ensures { Gives result (body_made (rewritten frame old.now) (leaf_body leaf.entry)) }
{
    match leaf {
        Leaf::Number(n) => Ok(Body::Const(n)),
        Leaf::Cell(access) => Ok(Body::At(rewrite_access(alloc, frame, old, access)?)),
    }
}

/// The right side with the subscripts of its cells rewritten.
pub fn rewrite_body(
    alloc: Global,
    frame: Frame,
    old: &[Aff],
    body: &Body,
) -> Result<Body, Stop<Excess>>
    requires counts { length old.now ≡ frame.levels }
    requires width { IsTrue (is_body_over (old_vars frame) body.now) }
    ensures { Gives result (body_made (rewritten frame old.now) body.now) }
{
    let Chain { first, mut links } = chain_of(alloc, body)?;
    let mut whole = rewrite_leaf(alloc, frame, old, first)?;
    while let Some(link) = links.pop() {
        let right = rewrite_body(alloc, frame, old, link.right)?;
        whole = join(alloc, link.operation, whole, right)?;
    }
    Ok(whole)
}

/// The next place where the number isn't 0, and otherwise the one found before.
fn latest(found: usize, q: usize, number: i128) -> usize
    requires { q + 1 < 2 ^ 64 }
    ensures { result ≡ cond (int_eq number (pos 0)) found (suc q) }
{
    if number == 0 { found } else { q + 1 }
}

/// The last place, counted from 1, of a number other than 0, or 0.
fn last_held(numbers: &[i128]) -> usize
    ensures value { result ≡ last_held 0 0 numbers.now }
    ensures within { result ≤ length numbers.now }
{
    let mut found = 0;
    for q in 0..numbers.len() {
        found = latest(found, q, numbers[q]);
    }
    found
}

/// The new own level of a row.
#[tactic(auto, unfolding(crate::specs::Pieces::own_made))]
fn make_own(frame: Frame, old: &[Aff], own: usize) -> usize
    requires own { own ≤ length old.now }
    requires width { IsTrue (list_all (has_vars (new_vars frame)) old.now) }
    ensures { result ≡ own_made frame old.now own }
{
    if own == 0 {
        return 0;
    }
    let coefs = old[own - 1].coefs.as_slice();
    last_held(&coefs[frame.params..frame.params + frame.new_levels])
}

/// The row rewritten.
fn rewrite_row(
    alloc: Global,
    frame: Frame,
    old: &[Aff],
    row: &KernelRow,
) -> Result<KernelRow, Stop<Excess>>
    requires counts { length old.now ≡ frame.levels }
    requires own { row.now.own ≤ length old.now }
    requires width { IsTrue (has_vars (old_vars frame) row.now.row.form) }
    requires new_width { IsTrue (list_all (has_vars (new_vars frame)) old.now) }
    ensures { Gives result (row_made frame old.now row.now) }
{
    let form = rewrite(alloc, frame, old, &row.row.form)?;
    Ok(KernelRow {
        row: Row {
            equal: row.row.equal,
            form,
        },
        own: make_own(frame, old, row.own),
    })
}

/// A copy of the row, whose numbers are within the limit.
fn judge_row(alloc: Global, row: &KernelRow) -> Result<KernelRow, Stop<Excess>>
    ensures { Gives result (row_judged row.now) }
{
    let form = judge_form(alloc, &row.row.form)?;
    Ok(KernelRow {
        row: Row {
            equal: row.row.equal,
            form,
        },
        own: row.own,
    })
}

/// Copies of the rows.
fn judge_rows(alloc: Global, rows: &[KernelRow]) -> Result<List<KernelRow>, Stop<Excess>>
    ensures { Gives result (each_made row_judged rows.now) }
{
    let mut new = List::new(alloc);
    for row in rows {
        new.push(judge_row(alloc, row)?)?;
    }
    Ok(new)
}

/// The rows that aren't dropped, each rewritten.
fn rewrite_rows(
    alloc: Global,
    frame: Frame,
    old: &[Aff],
    drops: &[usize],
    rows: &[KernelRow],
) -> Result<List<KernelRow>, Stop<Excess>>
    requires counts { length old.now ≡ frame.levels }
    requires rows { IsTrue (list_all (is_row_over (old_vars frame) frame.levels) rows.now) }
    requires new_width { IsTrue (list_all (has_vars (new_vars frame)) old.now) }
    ensures { Gives result (each_made (row_made frame old.now) (kept drops.now 0 rows.now)) }
{
    let mut new = List::new(alloc);
    for i in 0..rows.len() {
        if !drops.contains(&i) {
            new.push(rewrite_row(alloc, frame, old, &rows[i])?)?;
        }
    }
    Ok(new)
}

/// The term with its arguments rewritten.
fn rewrite_term(alloc: Global, frame: Frame, old: &[Aff], term: &Term) -> Result<Term, Stop<Excess>>
    requires counts { length old.now ≡ frame.levels }
    requires width { IsTrue (list_all (has_vars (old_vars frame)) term.now.at) }
    ensures { Gives result (term_made (rewritten frame old.now) term.now) }
{
    let at = rewrite_forms(alloc, frame, old, term.at.as_slice())?;
    Ok(Term {
        array: term.array,
        at,
    })
}

/// The terms, each rewritten.
fn rewrite_terms(
    alloc: Global,
    frame: Frame,
    old: &[Aff],
    terms: &[Term],
) -> Result<List<Term>, Stop<Excess>>
    requires counts { length old.now ≡ frame.levels }
    requires width { IsTrue (list_all (is_term_over (old_vars frame)) terms.now) }
    ensures { Gives result (each_made (term_made (rewritten frame old.now)) terms.now) }
{
    let mut new = List::new(alloc);
    for term in terms {
        new.push(rewrite_term(alloc, frame, old, term)?)?;
    }
    Ok(new)
}

/// A copy of the term, whose numbers are within the limit.
fn judge_term(alloc: Global, term: &Term) -> Result<Term, Stop<Excess>>
    ensures { Gives result (term_made judged_form term.now) }
{
    let mut at = List::new(alloc);
    for form in term.at.as_slice() {
        at.push(judge_form(alloc, form)?)?;
    }
    Ok(Term {
        array: term.array,
        at,
    })
}

/// Copies of the terms.
fn judge_terms(alloc: Global, terms: &[Term]) -> Result<List<Term>, Stop<Excess>>
    ensures { Gives result (each_made (term_made judged_form) terms.now) }
{
    let mut new = List::new(alloc);
    for term in terms {
        new.push(judge_term(alloc, term)?)?;
    }
    Ok(new)
}

/// All rows of the new statement.
pub fn make_rows(
    alloc: Global,
    frame: Frame,
    nest: &Nest,
    piece: &Piece,
) -> Result<List<KernelRow>, Stop<Excess>>
    requires counts { length piece.now.old ≡ frame.levels }
    requires rows { IsTrue (list_all (is_row_over (old_vars frame) frame.levels) nest.now.rows) }
    requires new_width { IsTrue (list_all (has_vars (new_vars frame)) piece.now.old) }
    ensures { Gives result (both_lists (each_made (row_made frame piece.now.old) (kept piece.now.drops 0 nest.now.rows)) (each_made row_judged piece.now.rows)) }
{
    let mut rows = rewrite_rows(
        alloc,
        frame,
        piece.old.as_slice(),
        piece.drops.as_slice(),
        nest.rows.as_slice(),
    )?;
    rows.append(judge_rows(alloc, piece.rows.as_slice())?)?;
    Ok(rows)
}

/// All terms of the new statement.
pub fn make_terms(
    alloc: Global,
    frame: Frame,
    nest: &Nest,
    piece: &Piece,
) -> Result<List<Term>, Stop<Excess>>
    requires counts { length piece.now.old ≡ frame.levels }
    requires width { IsTrue (list_all (is_term_over (old_vars frame)) nest.now.terms) }
    ensures { Gives result (both_lists (each_made (term_made (rewritten frame piece.now.old)) nest.now.terms) (each_made (term_made judged_form) piece.now.terms)) }
{
    let mut terms = rewrite_terms(alloc, frame, piece.old.as_slice(), nest.terms.as_slice())?;
    terms.append(judge_terms(alloc, piece.terms.as_slice())?)?;
    Ok(terms)
}
