// From which rows the bounds of a loop are made, for each of its statements.
ghost use Rattle.std.specs.Prelude.{◌≡◌, ◌+◌, ◌<◌, ◌≤◌, ◌^◌, length, IsTrue, IfOk, IfSome};
ghost use Rattle.std.specs.List.{list_all};
ghost use Rattle.nest_core.specs.Shapes.{IsShaped, IsShapedNest};
ghost use Rattle.scan_forms.specs.Reads.{term_has_places};
ghost use Rattle.loop_scan.specs.Groups.{IsGroup};
ghost use Rattle.loop_scan.specs.Choices as spec;

use crate::group::Group;
use crate::nests::nest_at;
use crate::part::{Part, origin_of, push_order};
use crate::project::project;
use crate::safe::{Answers, Opening, safe_claims};
use chill_base::{List, NoMemory, Stop};
use nest_systems::{Projection, direct_rows};
use nest_tree::{Kernel, Nest};
use scan_forms::{Bounds, Claim, Origin, ScanFault, Table, make_bounds, place_row, push_claims};
use std::alloc::Global;

/// The most bounds of one side.
const MOST_BOUNDS: usize = 32;

/// What bounds a statement at a level.
#[derive(Drop)]
pub struct Sides {
    /// The rows from which its bounds are made.
    pub used: List<Claim>,
    /// The reads in the order in which they are printed.
    pub order: List<usize>,
    pub bounds: Bounds,
}

/// The direct rows of a statement at a level.
fn direct_claims(
    alloc: Global,
    kernel: &Kernel,
    table: &mut Table,
    nest: &Nest,
    level: usize,
) -> Result<List<Claim>, NoMemory>
    requires nest { IsShapedNest kernel.now.head nest.now }
    requires low { 1 ≤ level }
    requires high { level ≤ length nest.now.levels }
{
    let origin = origin_of(&kernel.head, nest);
    let places = direct_rows(alloc, &kernel.head, nest, level)?;
    let rows = nest.rows.as_slice();
    let mut claims = List::new(alloc);
    for place in places.as_slice() {
        claims.push(place_row(alloc, table, origin, &rows[*place].row)?)?;
    }
    Ok(claims)
}

/// The direct rows of each statement of a loop.
fn all_direct(
    alloc: Global,
    kernel: &Kernel,
    table: &mut Table,
    group: Group,
) -> Result<List<List<Claim>>, NoMemory>
    requires shaped { IsShaped kernel.now }
    requires group { IsGroup kernel.now.nests group }
    ensures { IfOk result (λ all. length all + group.from ≡ group.to) }
{
    let mut all = List::new(alloc);
    for statement in group.from..group.to {
        let nest = nest_at(kernel, statement);
        all.push(direct_claims(alloc, kernel, table, nest, group.level)?)?;
    }
    Ok(all)
}

/// Whether the lists have the same claims in order.
fn same_claims(a: &[Claim], b: &[Claim]) -> bool
    ensures { result ≡ spec.same_claims a.now b.now }
{
    match a {
        [] => b.is_empty(),
        [x, xs @ ..] => match b {
            [] => false,
            [y, ys @ ..] => x.is_same(y) && same_claims(xs, ys),
        },
    }
}

/// Whether all lists are the same.
fn are_alike(lists: &[List<Claim>]) -> bool
    ensures { result ≡ spec.are_alike lists.now }
{
    match lists {
        [] => true,
        [first, others @ ..] => {
            for other in others {
                if !same_claims(first.as_slice(), other.as_slice()) {
                    return false;
                }
            }
            true
        }
    }
}

/// Whether a claim bounds the level from below.
fn has_lower(level: usize, claims: &[Claim]) -> bool
    ensures { result ≡ spec.has_lower level claims.now }
{
    claims.iter().any(|claim| claim.form.level(level) > 0)
}

/// Whether a claim bounds the level from above.
fn has_upper(level: usize, claims: &[Claim]) -> bool
    ensures { result ≡ spec.has_upper level claims.now }
{
    claims.iter().any(|claim| claim.form.level(level) < 0)
}

/// The sides that rows give.
fn sides_of(
    alloc: Global,
    level: usize,
    used: List<Claim>,
    order: List<usize>,
) -> Result<Sides, NoMemory> {
    let bounds = make_bounds(alloc, level, used.as_slice())?;
    Ok(Sides {
        used,
        order,
        bounds,
    })
}

/// The rows of a projection as claims.
fn left_claims(
    alloc: Global,
    table: &mut Table,
    origin: Origin<'_>,
    left: &Projection,
) -> Result<List<Claim>, NoMemory>
    requires terms { IsTrue (list_all term_has_places origin.terms.now) }
    requires further { IsTrue (list_all term_has_places origin.further.now) }
{
    let mut claims = List::new(alloc);
    for row in left.rows.as_slice() {
        claims.push(place_row(alloc, table, origin, &row.row)?)?;
    }
    Ok(claims)
}

/// The sides by the rows that a projection leaves.
fn left_sides(
    alloc: Global,
    table: &mut Table,
    origin: Origin<'_>,
    part: &Part,
    level: usize,
    left: &Projection,
) -> Result<Sides, NoMemory>
    requires terms { IsTrue (list_all term_has_places origin.terms.now) }
    requires left { IsTrue (list_all term_has_places left.now.terms) }
{
    let all = Origin {
        params: origin.params,
        levels: origin.levels,
        terms: origin.terms,
        further: left.terms.as_slice(),
    };
    let used = left_claims(alloc, table, all, left)?;
    let mut order = List::from_slice(alloc, part.order.as_slice())?;
    push_order(alloc, table, all, left.terms.as_slice(), &mut order)?;
    sides_of(alloc, level, used, order)
}

/// The sides by the rows that are left where later levels, and terms that can't bound the level, are eliminated.
fn projected(
    opening: Opening<'_>,
    table: &mut Table,
    part: &Part,
    statement: usize,
    answers: &mut Answers,
) -> Result<Sides, Stop<ScanFault>>
    requires shaped { IsShaped opening.kernel.now }
    requires group { IsGroup opening.kernel.now.nests opening.group }
    requires low { opening.group.from ≤ statement }
    requires high { statement < opening.group.to }
{
    let left = project(opening, table, statement, answers)?;
    let origin = origin_of(&opening.kernel.head, nest_at(opening.kernel, statement));
    Ok(left_sides(
        opening.alloc,
        table,
        origin,
        part,
        opening.group.level,
        &left,
    )?)
}

/// The sides of a statement by its direct rows.
fn direct_sides(
    alloc: Global,
    part: &Part,
    level: usize,
    direct: &[Claim],
) -> Result<Sides, NoMemory> {
    let mut used = List::new(alloc);
    push_claims(alloc, &mut used, direct)?;
    let order = List::from_slice(alloc, part.order.as_slice())?;
    sides_of(alloc, level, used, order)
}

/// The sides of a statement by its direct rows, or else by projection.
fn make_sides(
    opening: Opening<'_>,
    table: &mut Table,
    part: &Part,
    statement: usize,
    direct: &[Claim],
    answers: &mut Answers,
) -> Result<Sides, Stop<ScanFault>>
    requires shaped { IsShaped opening.kernel.now }
    requires group { IsGroup opening.kernel.now.nests opening.group }
    requires low { opening.group.from ≤ statement }
    requires high { statement < opening.group.to }
{
    let level = opening.group.level;
    if has_lower(level, direct) && has_upper(level, direct) {
        Ok(direct_sides(opening.alloc, part, level, direct)?)
    } else {
        projected(opening, table, part, statement, answers)
    }
}

/// The sides of each statement of a loop whose direct rows are alike. The rows that the bounds say are settled.
fn alike_sides(
    opening: Opening<'_>,
    table: &mut Table,
    parts: &mut [Part],
    direct: &[List<Claim>],
    answers: &mut Answers,
) -> Result<List<Sides>, Stop<ScanFault>>
    requires shaped { IsShaped opening.kernel.now }
    requires group { IsGroup opening.kernel.now.nests opening.group }
    requires parts { length parts.old ≡ length opening.kernel.now.nests }
    requires direct { length direct.now + opening.group.from ≡ opening.group.to }
    ensures { IfOk result (λ all. length all ≡ length direct.now) }
{
    let mut all = List::new(opening.alloc);
    for i in 0..direct.len() {
        let statement = opening.group.from + i;
        let rows = direct[i].as_slice();
        let sides = make_sides(opening, table, &parts[statement], statement, rows, answers)?;
        parts[statement].settle(rows, sides.used.as_slice());
        all.push(sides)?;
    }
    Ok(all)
}

/// The sides of each statement of a loop whose direct rows aren't alike: of these rows only those that hold safe reads alone
/// are taken, so that no read is done that its own statement wouldn't do.
fn unlike_sides(
    opening: Opening<'_>,
    table: &mut Table,
    parts: &[Part],
    direct: &[List<Claim>],
    answers: &mut Answers,
) -> Result<List<Sides>, Stop<ScanFault>>
    requires shaped { IsShaped opening.kernel.now }
    requires group { IsGroup opening.kernel.now.nests opening.group }
    requires parts { length parts.now ≡ length opening.kernel.now.nests }
    requires direct { length direct.now + opening.group.from ≡ opening.group.to }
    ensures { IfOk result (λ all. length all ≡ length direct.now) }
{
    let mut all = List::new(opening.alloc);
    for i in 0..direct.len() {
        let statement = opening.group.from + i;
        let rows = safe_claims(opening, table, direct[i].as_slice(), answers)?;
        let part = &parts[statement];
        all.push(make_sides(opening, table, part, statement, rows.as_slice(), answers)?)?;
    }
    Ok(all)
}

/// The number of the first statement with too many bounds of one side.
fn first_wide(all: &[Sides]) -> Option<usize>
    ensures { IfSome result (λ i. i < length all.now) }
{
    for i in 0..all.len() {
        let bounds = &all[i].bounds;
        if bounds.lower.len() > MOST_BOUNDS || bounds.upper.len() > MOST_BOUNDS {
            return Some(i);
        }
    }
    None
}

/// The sides, unless a statement has too many bounds of one side.
fn judge_wide(group: Group, all: List<Sides>) -> Result<List<Sides>, Stop<ScanFault>>
    requires { group.from + length all < 2 ^ 64 }
    ensures { IfOk result (λ judged. judged ≡ all) }
{
    match first_wide(all.as_slice()) {
        Some(i) => Err(Stop::Refused(ScanFault::Wide {
            statement: group.from + i,
            level: group.level,
        })),
        None => Ok(all),
    }
}

/// The sides of each statement of a loop.
pub fn all_sides(
    opening: Opening<'_>,
    table: &mut Table,
    parts: &mut [Part],
) -> Result<List<Sides>, Stop<ScanFault>>
    requires shaped { IsShaped opening.kernel.now }
    requires group { IsGroup opening.kernel.now.nests opening.group }
    requires parts { length parts.old ≡ length opening.kernel.now.nests }
    ensures { IfOk result (λ all. length all + opening.entry.group.from ≡ opening.entry.group.to) }
{
    let mut answers = Answers::new(opening.alloc);
    let direct = all_direct(opening.alloc, opening.kernel, table, opening.group)?;
    let all = if are_alike(direct.as_slice()) {
        alike_sides(opening, table, parts, direct.as_slice(), &mut answers)?
    } else {
        unlike_sides(opening, table, parts, direct.as_slice(), &mut answers)?
    };
    judge_wide(opening.group, all)
}

/// Whether all statements have the same bounds.
pub fn have_same_bounds(all: &[Sides]) -> bool
    ensures { result ≡ spec.have_same_bounds all.now }
{
    match all {
        [] => true,
        [first, others @ ..] => {
            for other in others {
                if !other.bounds.are_same(&first.bounds) {
                    return false;
                }
            }
            true
        }
    }
}
