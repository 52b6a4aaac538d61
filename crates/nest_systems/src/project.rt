// What is left of a statement's rows at a level when all that comes later is eliminated.
ghost use Rattle.std.specs.Prelude.{◌≡◌, ◌+◌, ◌<◌, ◌≤◌, drop, map, length, slice_get, IsTrue, IfOk, IfSome};
ghost use Rattle.std.specs.List.{list_all};
ghost use Rattle.nest_core.specs.Shapes.{is_term_over, vars_of, IsShapedNest, IsShaped};
ghost use Rattle.nest_systems.specs.Owns.{IsOwn, IsProjection, is_left_over};
ghost use Rattle.nest_systems.specs.Statements.{plain_row};

use crate::access::{accesses, subscripts};
use crate::copy::{copy_row, copy_terms};
use crate::direct::is_ready;
use crate::own::{Own, own_system};
use crate::seats::Seats;
use crate::span::is_there;
use c_tree::Program;
use chill_base::{List, NoMemory};
use int_rows::Row;
use int_sets::{SetFault, System};
use nest_tree::{Kernel, KernelRow, Made, Nest, Term};
use std::alloc::Global;

/// The rows that are left at a level. They are over the parameters, the levels, the statement's terms and further terms.
#[derive(Drop)]
pub struct Projection {
    /// The further terms: reads `count[0]` that only ranges need.
    pub terms: List<Term>,
    pub rows: List<KernelRow>,
}

/// Copies of the rows of a statement, without their own levels.
pub fn plain_rows(alloc: Global, rows: &[KernelRow]) -> Result<List<Row>, NoMemory>
    ensures { IfOk result (λ copies. copies ≡ map plain_row rows.now) }
{
    let mut copies = List::new(alloc);
    for row in rows {
        copies.push(copy_row(alloc, &row.row)?)?;
    }
    Ok(copies)
}

/// Whether a ready term stands at a variable.
fn stays(seats: &Seats, terms: &[Term], level: usize, var: usize) -> bool
    requires levels { seats.now.levels ≤ 8 }
    requires terms { IsTrue (list_all (is_term_over (seats.now.params + seats.now.levels + length terms.now)) terms.now) }
    requires level { (1 ≤ level) × (level ≤ seats.now.levels) }
    requires seats { length seats.now.terms ≡ length terms.now }
{
    for term in 0..terms.len() {
        if is_there(var, seats.terms.as_slice()[term])
            && is_ready(seats.params, seats.levels, terms, level, &terms[term])
        {
            return true;
        }
    }
    false
}

/// Eliminates, from the last variable to the first, all terms, or those that aren't ready at a level, and the later
/// levels.
fn eliminate_later(
    system: &mut System,
    seats: &Seats,
    terms: &[Term],
    level: usize,
    all_terms: bool,
) -> Result<(), SetFault>
    requires levels { seats.now.levels ≤ 8 }
    requires terms { IsTrue (list_all (is_term_over (seats.now.params + seats.now.levels + length terms.now)) terms.now) }
    requires level { (1 ≤ level) × (level ≤ seats.now.levels) }
    requires seats { length seats.now.terms ≡ length terms.now }
    ensures { system.new.vars ≡ system.old.vars }
{
    let first_term = seats.params + seats.levels;
    let mut left = system.vars();
    while left > seats.params + level {
        left -= 1;
        if left < first_term || all_terms || !stays(seats, terms, level, left) {
            system.eliminate(left)?;
        }
    }
    Ok(())
}

/// The rows of a system that hold a level, as rows of the statement.
fn rows_at(
    alloc: Global,
    own: &Seats,
    system: &System,
    level: usize,
) -> Result<List<KernelRow>, NoMemory>
    requires vars { system.now.vars ≡ own.now.vars }
    requires level { (1 ≤ level) × (level ≤ own.now.levels) }
    ensures { IfOk result (λ rows. IsTrue (list_all (is_left_over (own.now.params + own.now.levels + length own.now.terms) level) rows)) }
{
    let mut rows = List::new(alloc);
    let var = own.params + (level - 1);
    for row in 0..system.rows() {
        if system.coef(row, var) != 0 {
            rows.push(KernelRow {
                row: own.back(alloc, system, row)?,
                own: level,
            })?;
        }
    }
    Ok(rows)
}

/// The terms from a number on.
fn terms_from(alloc: Global, terms: &[Term], count: usize) -> Result<List<Term>, NoMemory>
    requires { count ≤ length terms.now }
    ensures { IfOk result (λ ts. ts ≡ drop count terms.now) }
{
    copy_terms(alloc, &terms[count..])
}

/// The system of a statement with all its rows and subscripts.
pub fn nest_system(
    alloc: Global,
    head: &Program,
    made: &[Made],
    nest: &Nest,
) -> Result<Own, SetFault>
    requires { IsShapedNest head.now nest.now }
    ensures { IfOk result (λ own. IsOwn (length head.now.params) (length nest.now.levels) (length nest.now.terms) own) }
{
    let rows = plain_rows(alloc, nest.rows.as_slice())?;
    let cells = accesses(alloc, nest)?;
    let forms = subscripts(alloc, cells.as_slice())?;
    let levels = nest.levels.len();
    let terms = nest.terms.as_slice();
    own_system(
        alloc,
        head,
        made,
        levels,
        terms,
        0,
        rows.as_slice(),
        forms.as_slice(),
    )
}

/// The rows that hold a level and are left of a statement's system when all later levels are eliminated, and all terms
/// or those that aren't ready at the level.
pub fn project_nest(
    alloc: Global,
    head: &Program,
    made: &[Made],
    nest: &Nest,
    level: usize,
    all_terms: bool,
) -> Result<Projection, SetFault>
    requires nest { IsShapedNest head.now nest.now }
    requires level { (1 ≤ level) × (level ≤ length nest.now.levels) }
    ensures { IfOk result (λ p. IsProjection (vars_of (length head.now.params) nest.now) level p) }
{
    let own = nest_system(alloc, head, made, nest)?;
    let Own {
        mut system,
        seats,
        instance,
    } = own;
    eliminate_later(
        &mut system,
        &seats,
        instance.terms.as_slice(),
        level,
        all_terms,
    )?;
    let rows = rows_at(alloc, &seats, &system, level)?;
    let terms = terms_from(alloc, instance.terms.as_slice(), nest.terms.len())?;
    Ok(Projection { terms, rows })
}

/// The projection of a statement of a kernel.
pub fn project_level(
    alloc: Global,
    kernel: &Kernel,
    statement: usize,
    level: usize,
    all_terms: bool,
) -> Result<Projection, SetFault>
    requires shaped { IsShaped kernel.now }
    requires level { IfSome (slice_get kernel.now.nests statement) (λ n. (1 ≤ level) × (level ≤ length n.levels)) }
    requires statement { statement < length kernel.now.nests }
    ensures { IfOk result (λ p. IfSome (slice_get kernel.now.nests statement) (λ n. IsProjection (vars_of (length kernel.now.head.params) n) level p)) }
{
    let nest = &kernel.nests.as_slice()[statement];
    let made = kernel.made.as_slice();
    project_nest(alloc, &kernel.head, made, nest, level, all_terms)
}
