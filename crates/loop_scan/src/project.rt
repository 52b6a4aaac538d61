// What is left of a statement's rows at a level, where later levels and the terms that can't bound it are eliminated.
ghost use Rattle.std.specs.Prelude.{◌≡◌, ◌+◌, ◌-◌, ◌<◌, ◌≤◌, ◌^◌, length, map, Ok, IsTrue, IfOk, OnOk};
ghost use Rattle.std.specs.List.{list_all};
ghost use Rattle.nest_core.specs.Shapes.{IsShaped, is_term_over};
ghost use Rattle.scan_forms.specs.Reads.{term_has_places};
ghost use Rattle.loop_scan.specs.Groups.{IsGroup};
ghost use Rattle.loop_scan.specs.Safety as spec;

use crate::nests::nest_at;
use crate::safe::{Answers, Opening, ask_safe};
use chill_base::{List, NoMemory, Stop};
use int_sets::{SetFault, System};
use nest_systems::{Own, Projection, Seats, copy_term, is_ready, is_there, nest_system};
use nest_tree::{KernelRow, Term};
use scan_forms::{Origin, ScanFault, Table, overflow, place_read};
use std::alloc::Global;

/// A term of a statement's system: whether it is ready at a level, and the read that it is.
#[derive(Clone, Copy)]
pub struct Candidate {
    pub ready: bool,
    pub read: usize,
}

/// A term of a statement's system. In a loop of several statements it is asked whether it is safe.
fn make_candidate(
    opening: Opening<'_>,
    table: &mut Table,
    origin: Origin<'_>,
    term: &Term,
    several: bool,
    answers: &mut Answers,
) -> Result<Candidate, NoMemory>
    requires room { origin.params + origin.levels < 2 ^ 64 }
    requires level { (1 ≤ opening.group.level) × (opening.group.level ≤ origin.levels) }
    requires terms { IsTrue (list_all (is_term_over (origin.params + origin.levels + length origin.terms.now)) origin.terms.now) }
    requires term { IsTrue (is_term_over (origin.params + origin.levels + length origin.terms.now) term.now) }
    requires places { IsTrue (list_all term_has_places origin.terms.now) }
    requires further { IsTrue (list_all term_has_places origin.further.now) }
    requires place { IsTrue (term_has_places term.now) }
{
    let level = opening.group.level;
    let ready = is_ready(origin.params, origin.levels, origin.terms, level, term);
    let read = place_read(opening.alloc, table, origin, term)?;
    if several && ready {
        ask_safe(opening, table, read, answers)?;
    }
    Ok(Candidate { ready, read })
}

/// The terms of a statement's system.
fn make_candidates(
    opening: Opening<'_>,
    table: &mut Table,
    origin: Origin<'_>,
    several: bool,
    answers: &mut Answers,
) -> Result<List<Candidate>, NoMemory>
    requires room { origin.params + origin.levels < 2 ^ 64 }
    requires level { (1 ≤ opening.group.level) × (opening.group.level ≤ origin.levels) }
    requires terms { IsTrue (list_all (is_term_over (origin.params + origin.levels + length origin.terms.now)) origin.terms.now) }
    requires places { IsTrue (list_all term_has_places origin.terms.now) }
    requires further { IsTrue (list_all term_has_places origin.further.now) }
{
    let mut all = List::new(opening.alloc);
    for at in 0..origin.terms.len() {
        let term = &origin.terms[at];
        all.push(make_candidate(opening, table, origin, term, several, answers)?)?;
    }
    Ok(all)
}

/// Whether a term stays: in a loop of one statement where it is ready, and in one of several where it is also safe.
fn is_kept(several: bool, safe: &[usize], term: Candidate) -> bool
    ensures { result ≡ spec.is_kept several safe.now term }
{
    term.ready && (!several || safe.contains(&term.read))
}

/// Which terms stay.
fn kept_terms(
    alloc: Global,
    several: bool,
    safe: &[usize],
    terms: &[Candidate],
) -> Result<List<bool>, NoMemory>
    ensures { IfOk result (λ kept. kept ≡ map (spec.is_kept several safe.now) terms.now) }
{
    let mut kept = List::new(alloc);
    for term in terms {
        kept.push(is_kept(several, safe, *term))?;
    }
    Ok(kept)
}

/// Whether one of the terms that stay stands at a variable.
fn stays(places: &[Option<usize>], kept: &[bool], var: usize) -> bool
    ensures { result ≡ spec.stays places.now kept.now var }
{
    match places {
        [] => false,
        [place, others @ ..] => match kept {
            [] => false,
            [is_kept, more @ ..] => {
                (*is_kept && is_there(var, *place)) || stays(others, more, var)
            }
        },
    }
}

/// Eliminates a variable, unless it is that of a term that stays.
fn eliminate_one(
    system: &mut System,
    seats: &Seats,
    kept: &[bool],
    var: usize,
) -> Result<(), SetFault>
    requires { var < system.old.vars }
    ensures vars { system.new.vars ≡ system.old.vars }
    ensures made { OnOk result (spec.without_one (spec.stays_at seats.now kept.now) var system.old ≡ Ok system.new) }
{
    if seats.params + seats.levels <= var && stays(seats.terms.as_slice(), kept, var) {
        return Ok(());
    }
    system.eliminate(var)
}

/// Eliminates, from the last variable to the first, the terms that don't stay and the later levels.
fn eliminate_later(
    system: &mut System,
    seats: &Seats,
    kept: &[bool],
    level: usize,
) -> Result<(), SetFault>
    requires level { (1 ≤ level) × (level ≤ seats.now.levels) }
    requires vars { system.old.vars ≡ seats.now.vars }
    ensures vars { system.new.vars ≡ system.old.vars }
    ensures made { OnOk result (spec.without_later (spec.stays_at seats.now kept.now) (seats.now.params + level) (seats.now.vars - (seats.now.params + level)) system.old ≡ Ok system.new) }
{
    let mut left = system.vars();
    while left > seats.params + level {
        left -= 1;
        eliminate_one(system, seats, kept, left)?;
    }
    Ok(())
}

/// The rows of a system that hold a level, as rows of the statement.
fn rows_at(
    alloc: Global,
    seats: &Seats,
    system: &System,
    level: usize,
) -> Result<List<KernelRow>, NoMemory>
    requires vars { system.now.vars ≡ seats.now.vars }
    requires level { (1 ≤ level) × (level ≤ seats.now.levels) }
{
    let mut rows = List::new(alloc);
    let var = seats.params + (level - 1);
    for row in 0..system.rows() {
        if system.coef(row, var) != 0 {
            rows.push(KernelRow {
                row: seats.back(alloc, system, row)?,
                own: level,
            })?;
        }
    }
    Ok(rows)
}

/// The terms from a number on.
fn terms_from(alloc: Global, terms: &[Term], count: usize) -> Result<List<Term>, NoMemory>
    requires { IsTrue (list_all term_has_places terms.now) }
    ensures { IfOk result (λ ts. IsTrue (list_all term_has_places ts)) }
{
    let mut further = List::new(alloc);
    for at in count..terms.len() {
        further.push(copy_term(alloc, &terms[at])?)?;
    }
    Ok(further)
}

/// What is left of a statement's rows at the level of a loop.
#[tactic(auto, using(crate::proofs::Places::places_of))]
pub fn project(
    opening: Opening<'_>,
    table: &mut Table,
    statement: usize,
    answers: &mut Answers,
) -> Result<Projection, Stop<ScanFault>>
    requires shaped { IsShaped opening.kernel.now }
    requires group { IsGroup opening.kernel.now.nests opening.group }
    requires low { opening.group.from ≤ statement }
    requires high { statement < opening.group.to }
    ensures { IfOk result (λ left. IsTrue (list_all term_has_places left.terms)) }
{
    let head = &opening.kernel.head;
    let nest = nest_at(opening.kernel, statement);
    let made = opening.kernel.made.as_slice();
    let own = match nest_system(opening.alloc, head, made, nest) {
        Ok(own) => own,
        Err(stop) => return Err(overflow(stop)),
    };
    let origin = Origin {
        params: head.params.len(),
        levels: nest.levels.len(),
        terms: own.terms(),
        further: &[],
    };
    let several = opening.group.to - opening.group.from > 1;
    let all = make_candidates(opening, table, origin, several, answers)?;
    let safe = answers.safe.as_slice();
    let kept = kept_terms(opening.alloc, several, safe, all.as_slice())?;
    let terms = terms_from(opening.alloc, own.terms(), own.count())?;
    let Own {
        mut system,
        seats,
        instance: _instance,
    } = own;
    match eliminate_later(&mut system, &seats, kept.as_slice(), opening.group.level) {
        Ok(()) => {}
        Err(stop) => return Err(overflow(stop)),
    }
    let rows = rows_at(opening.alloc, &seats, &system, opening.group.level)?;
    Ok(Projection { terms, rows })
}
