// Rows that bound a level by what is known when its loop begins.
ghost use Rattle.std.specs.Prelude.{◌≡◌, ◌+◌, ◌<◌, ◌≤◌, ◌^◌, length, IsTrue, IfOk};
ghost use Rattle.std.specs.List.{list_all};
ghost use Rattle.nest_core.specs.Forms.{has_vars};
ghost use Rattle.nest_core.specs.Shapes.{is_term_over, IsShapedNest};
ghost use Rattle.nest_systems.specs.Chosen.{is_within};

use c_tree::Program;
use chill_base::{List, NoMemory};
use int_rows::Aff;
use nest_core::{is_held, names, names_inside};
use nest_tree::{KernelRow, Nest, Term};
use std::alloc::Global;

/// Whether forms name a level from `level` on, also inside arguments. `params` is the variable of the first level.
fn name_from(params: usize, levels: usize, terms: &[Term], level: usize, forms: &[Aff]) -> bool
    requires room { params + levels < 2 ^ 64 }
    requires terms { IsTrue (list_all (is_term_over (params + levels + length terms.now)) terms.now) }
    requires level { (1 ≤ level) × (level ≤ levels) }
    requires forms { IsTrue (list_all (has_vars (params + levels + length terms.now)) forms.now) }
{
    let first = params + levels;
    for form in forms {
        for var in params + (level - 1)..first {
            if names(first, terms, var, terms.len(), form) {
                return true;
            }
        }
    }
    false
}

/// Whether a term is ready at a level: its arguments name only levels before it, also inside terms.
pub fn is_ready(params: usize, levels: usize, terms: &[Term], level: usize, term: &Term) -> bool
    requires room { params + levels < 2 ^ 64 }
    requires terms { IsTrue (list_all (is_term_over (params + levels + length terms.now)) terms.now) }
    requires level { (1 ≤ level) × (level ≤ levels) }
    requires term { IsTrue (is_term_over (params + levels + length terms.now) term.now) }
{
    !name_from(params, levels, terms, level, term.at.as_slice())
}

/// Whether a row is direct at a level: a bound that holds the level and no later one, and whose terms are all ready.
pub fn is_direct(
    params: usize,
    levels: usize,
    terms: &[Term],
    level: usize,
    row: &KernelRow,
) -> bool
    requires room { params + levels < 2 ^ 64 }
    requires terms { IsTrue (list_all (is_term_over (params + levels + length terms.now)) terms.now) }
    requires level { (1 ≤ level) × (level ≤ levels) }
    requires row { IsTrue (has_vars (params + levels + length terms.now) row.now.row.form) }
{
    let form = &row.row.form;
    let coefs = form.coefs.as_slice();
    let own = params + (level - 1);
    let first = params + levels;
    if row.own == 0 || !is_held(coefs, own) {
        return false;
    }
    for var in own + 1..first {
        if is_held(coefs, var) {
            return false;
        }
    }
    for var in own..first {
        if names_inside(first, terms, var, terms.len(), form) {
            return false;
        }
    }
    true
}

/// The places of the rows of a statement that are direct at a level.
pub fn direct_rows(
    alloc: Global,
    head: &Program,
    nest: &Nest,
    level: usize,
) -> Result<List<usize>, NoMemory>
    requires nest { IsShapedNest head.now nest.now }
    requires level { (1 ≤ level) × (level ≤ length nest.now.levels) }
    ensures { IfOk result (λ places. IsTrue (list_all (is_within (length nest.now.rows)) places)) }
{
    let mut places = List::new(alloc);
    let params = head.params.as_slice().len();
    let terms = nest.terms.as_slice();
    let levels = nest.levels.len();
    let rows = nest.rows.as_slice();
    for place in 0..rows.len() {
        if is_direct(
            params,
            nest.levels.len(),
            nest.terms.as_slice(),
            level,
            &rows[place],
        ) {
            places.push(place)?;
        }
    }
    Ok(places)
}
