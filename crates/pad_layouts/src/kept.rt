// The rows that a padded statement keeps.
ghost use Rattle.std.specs.Prelude.{◌≡◌, ◌≤◌, ◌<◌, ◌+◌, ◌^◌, suc, pos, cond, length, IfOk, IsTrue, OnOk};
ghost use Rattle.std.specs.Ordering.{int_eq};
ghost use Rattle.std.specs.List.{list_all, list_any};
ghost use Rattle.nest_core.specs.Pieces.{last_held};
ghost use Rattle.nest_core.specs.Shapes.{vars_of, is_row_over};
ghost use Rattle.pad_layouts.specs.Moved as spec;

use crate::forms::push_bound;
use crate::moved::moved_form;
use crate::product::is_plain;
use chill_base::{List, NoMemory};
use int_rows::{Aff, Row};
use nest_tree::{KernelRow, Nest};
use std::alloc::Global;

/// The next place where the number isn't 0, and otherwise the one found before.
fn latest(found: usize, place: usize, number: i128) -> usize
    requires { place + 1 < 2 ^ 64 }
    ensures { result ≡ cond (int_eq number (pos 0)) found (suc place) }
{
    if number == 0 { found } else { place + 1 }
}

/// The last place, counted from 1, of a number other than 0, or 0.
fn last_held(numbers: &[i128]) -> usize
    ensures value { result ≡ last_held 0 0 numbers.now }
    ensures within { result ≤ length numbers.now }
{
    let mut found = 0;
    for q in 0..numbers.len() {
        found = latest(found, q, numbers[q]);
    }
    found
}

/// The own level of a kept row: as before, where it is one of so many levels, and otherwise the last of these that the row
/// names.
#[tactic(auto, unfolding(crate::specs::Moved::kept_own))]
fn kept_own(params: usize, depth: usize, row: &KernelRow) -> usize
    requires { params + depth ≤ length row.now.row.form.coefs }
    ensures value { result ≡ spec.kept_own params depth row.now }
    ensures within { result ≤ depth }
    ensures guard { row.now.own ≡ 0 → result ≡ 0 }
{
    if row.own <= depth {
        return row.own;
    }
    last_held(&row.row.form.coefs.as_slice()[params..params + depth])
}

/// The row over the new variables.
fn moved_row(
    alloc: Global,
    params: usize,
    depth: usize,
    picks: &[Option<usize>],
    row: &KernelRow,
) -> Result<KernelRow, NoMemory>
    requires picks { IsTrue (list_all (spec.is_pick (length row.now.row.form.coefs)) picks.now) }
    requires depth { params + depth ≤ length row.now.row.form.coefs }
    ensures { IfOk result (λ r. r ≡ spec.moved_row params depth picks.now row.now) }
{
    Ok(KernelRow {
        row: Row {
            equal: row.row.equal,
            form: moved_form(alloc, picks, &row.row.form)?,
        },
        own: kept_own(params, depth, row),
    })
}

/// The statement's rows that name no variable from `entry` on, over the new variables.
pub fn kept_rows(
    alloc: Global,
    params: usize,
    depth: usize,
    entry: usize,
    picks: &[Option<usize>],
    nest: &Nest,
) -> Result<List<KernelRow>, NoMemory>
    requires picks { IsTrue (list_all (spec.is_pick (vars_of params nest.now)) picks.now) }
    requires depth { depth ≤ length nest.now.levels }
    requires rows { IsTrue (list_all (is_row_over (vars_of params nest.now) (length nest.now.levels)) nest.now.rows) }
    ensures { IfOk result (λ rs. rs ≡ spec.kept_rows params depth entry picks.now nest.now.rows) }
{
    let mut kept = List::new(alloc);
    for row in nest.rows.as_slice() {
        if is_plain(entry, None, &row.row.form) {
            kept.push(moved_row(alloc, params, depth, picks, row)?)?;
        }
    }
    Ok(kept)
}

/// Whether the row is a bound of that form.
fn is_bound(form: &Aff, row: &KernelRow) -> bool
    ensures { result ≡ spec.is_bound form.now row.now }
{
    !row.row.equal
        && row.row.form.constant == form.constant
        && row.row.form.coefs.as_slice() == form.coefs.as_slice()
}

fn has_bound(rows: &[KernelRow], form: &Aff) -> bool
    ensures { result ≡ list_any (spec.is_bound form.now) rows.now }
{
    for row in rows {
        if is_bound(form, row) {
            return true;
        }
    }
    false
}

/// Appends a bound of a level, unless there is one of that form.
#[tactic(auto, unfolding(crate::specs::Moved::with_missing))]
pub fn push_missing(rows: &mut List<KernelRow>, own: usize, form: Aff) -> Result<(), NoMemory>
    ensures { OnOk result (rows.new ≡ spec.with_missing own form rows.old) }
{
    if has_bound(rows.as_slice(), &form) {
        return Ok(());
    }
    push_bound(rows, own, form)
}
