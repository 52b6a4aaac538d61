// Forms of statements and of systems become forms over what a scan speaks of.
ghost use Rattle.std.specs.Prelude.{◌≡◌, ◌≤◌, ◌<◌, length, take, drop, IsTrue, IfOk};
ghost use Rattle.std.specs.List.{list_all};
ghost use Rattle.scan_forms.specs.Reads.{term_has_places};
ghost use Rattle.scan_forms.specs.Placed.{IsOutside};

use crate::affine::{Affine, add_at, number_at};
use crate::claim::Claim;
use crate::reads::Read;
use crate::table::Table;
use chill_base::{List, NoMemory};
use int_rows::{Aff, Row};
use nest_tree::Term;
use std::alloc::Global;

/// What the variables of forms are: so many parameters and levels, then terms, then further terms.
#[derive(Clone, Copy)]
pub struct Origin<'a> {
    pub params: usize,
    pub levels: usize,
    pub terms: &'a [Term],
    pub further: &'a [Term],
}

/// The numbers up to a place, and those behind it; where there are fewer, all of them and none.
fn halves(numbers: &[i128], at: usize) -> (&[i128], &[i128])
    ensures first { result.0.now ≡ take at numbers.now }
    ensures behind { result.1.now ≡ drop at numbers.now }
{
    numbers.split_at(at.min(numbers.len()))
}

impl Origin<'_> {
    /// How deep terms can stand in one another's arguments.
    fn depth(&self) -> usize {
        self.terms.len().saturating_add(self.further.len())
    }
}

/// The form, with terms that stand at most so deep in one another. Reads that aren't in the table enter it.
#[cycle(placing)]
fn place_to(
    alloc: Global,
    table: &mut Table,
    origin: Origin<'_>,
    form: &Aff,
    deep: usize,
) -> Result<Affine, NoMemory>
    requires terms { IsTrue (list_all term_has_places origin.terms.now) }
    requires further { IsTrue (list_all term_has_places origin.further.now) }
    ensures grown { length table.old.reads ≤ length table.new.reads }
    ensures outside { IfOk result (λ placed. IsOutside origin.entry.params origin.entry.levels form.now placed) }
{
    let (params, rest) = halves(form.coefs.as_slice(), origin.params);
    let (levels, numbers) = halves(rest, origin.levels);
    let placed = place_terms(alloc, table, origin, numbers, deep)?;
    Ok(Affine {
        params: List::from_slice(alloc, params)?,
        levels: List::from_slice(alloc, levels)?,
        reads: placed,
        constant: form.constant,
    })
}

/// The numbers of the terms, by the reads that these are.
#[cycle(placing)]
fn place_terms(
    alloc: Global,
    table: &mut Table,
    origin: Origin<'_>,
    numbers: &[i128],
    deep: usize,
) -> Result<List<i128>, NoMemory>
    requires terms { IsTrue (list_all term_has_places origin.terms.now) }
    requires further { IsTrue (list_all term_has_places origin.further.now) }
    ensures { length table.old.reads ≤ length table.new.reads }
{
    let mut placed = List::new(alloc);
    if deep == 0 {
        return Ok(placed);
    }
    let (own, others) = halves(numbers, origin.terms.len());
    place_each(alloc, table, origin, origin.terms, own, deep, &mut placed)?;
    place_each(
        alloc,
        table,
        origin,
        origin.further,
        others,
        deep,
        &mut placed,
    )?;
    Ok(placed)
}

/// Adds the numbers of terms to those of the reads that these are.
#[cycle(placing)]
fn place_each(
    alloc: Global,
    table: &mut Table,
    origin: Origin<'_>,
    terms: &[Term],
    numbers: &[i128],
    deep: usize,
    placed: &mut List<i128>,
) -> Result<(), NoMemory>
    requires deep { 0 < deep }
    requires each_term { IsTrue (list_all term_has_places terms.now) }
    requires terms { IsTrue (list_all term_has_places origin.terms.now) }
    requires further { IsTrue (list_all term_has_places origin.further.now) }
    ensures { length table.old.reads ≤ length table.new.reads }
{
    for i in 0..terms.len() {
        let number = number_at(numbers, i);
        if number != 0 {
            let read = place_term(alloc, table, origin, &terms[i], deep - 1)?;
            add_at(placed, read, number)?;
        }
    }
    Ok(())
}

/// The number in the table of the read that a term is.
#[cycle(placing)]
fn place_term(
    alloc: Global,
    table: &mut Table,
    origin: Origin<'_>,
    term: &Term,
    deep: usize,
) -> Result<usize, NoMemory>
    requires term { IsTrue (term_has_places term.now) }
    requires terms { IsTrue (list_all term_has_places origin.terms.now) }
    requires further { IsTrue (list_all term_has_places origin.further.now) }
    ensures grown { length table.old.reads ≤ length table.new.reads }
    ensures within { IfOk result (λ at. at < length table.new.reads) }
{
    let mut at = List::new(alloc);
    for form in term.at.as_slice() {
        at.push(place_to(alloc, table, origin, form, deep)?)?;
    }
    let array = term.array;
    table.enter(Read { array, at })
}

/// The form. Reads that aren't in the table enter it.
pub fn place(
    alloc: Global,
    table: &mut Table,
    origin: Origin<'_>,
    form: &Aff,
) -> Result<Affine, NoMemory>
    requires terms { IsTrue (list_all term_has_places origin.terms.now) }
    requires further { IsTrue (list_all term_has_places origin.further.now) }
    ensures grown { length table.old.reads ≤ length table.new.reads }
    ensures outside { IfOk result (λ placed. IsOutside origin.entry.params origin.entry.levels form.now placed) }
{
    place_to(alloc, table, origin, form, origin.depth())
}

/// The number in the table of the read that a term is.
pub fn place_read(
    alloc: Global,
    table: &mut Table,
    origin: Origin<'_>,
    term: &Term,
) -> Result<usize, NoMemory>
    requires term { IsTrue (term_has_places term.now) }
    requires terms { IsTrue (list_all term_has_places origin.terms.now) }
    requires further { IsTrue (list_all term_has_places origin.further.now) }
    ensures grown { length table.old.reads ≤ length table.new.reads }
    ensures within { IfOk result (λ at. at < length table.new.reads) }
{
    place_term(alloc, table, origin, term, origin.depth())
}

/// The row.
pub fn place_row(
    alloc: Global,
    table: &mut Table,
    origin: Origin<'_>,
    row: &Row,
) -> Result<Claim, NoMemory>
    requires terms { IsTrue (list_all term_has_places origin.terms.now) }
    requires further { IsTrue (list_all term_has_places origin.further.now) }
    ensures grown { length table.old.reads ≤ length table.new.reads }
    ensures kind { IfOk result (λ claim. claim.equal ≡ row.now.equal) }
    ensures outside { IfOk result (λ claim. IsOutside origin.entry.params origin.entry.levels row.now.form claim.form) }
{
    Ok(Claim {
        equal: row.equal,
        form: place(alloc, table, origin, &row.form)?,
    })
}
