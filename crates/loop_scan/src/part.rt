// Statements over what a scan speaks of.
ghost use Rattle.std.specs.Prelude.{◌≡◌, ◌+◌, ◌≤◌, length, vec_len, IsTrue, IfOk, OnOk};
ghost use Rattle.std.specs.List.{AllByRecursion, list_all};
ghost use Rattle.nest_core.specs.Shapes.{IsShapedNest, vars_of};
ghost use Rattle.scan_forms.specs.Reads.{are_in, term_has_places};

use c_tree::Program;
use chill_base::{List, NoMemory};
use int_rows::Aff;
use nest_systems::{accesses, subscripts};
use nest_tree::{Nest, Term};
use scan_forms::{
    Affine, Claim, Origin, Read, Table, has_claim, name_ordered, place, place_read, place_row,
    push_new,
};
use std::alloc::Global;

/// A row of a statement.
#[derive(Drop)]
pub struct OwnRow {
    pub claim: Claim,
    /// Whether it is a bound of a level.
    pub bound: bool,
    /// Whether the printed bounds of a loop say it.
    pub settled: bool,
}

/// A statement's rows, and its reads in order of first appearance.
#[derive(Drop)]
pub struct Part {
    pub order: List<usize>,
    pub rows: Vec<OwnRow>,
}

/// What the variables of a statement's forms are.
#[tactic(auto, using(crate::proofs::Places::places_of))]
pub fn origin_of<'a>(head: &Program, nest: &'a Nest) -> Origin<'a>
    requires { IsShapedNest head.now nest.now }
    ensures terms { IsTrue (list_all term_has_places result.terms.now) }
    ensures further { IsTrue (list_all term_has_places result.further.now) }
    ensures vars { result.params + result.levels + length result.terms.now ≡ vars_of (length head.now.params) nest.now }
{
    Origin {
        params: head.params.len(),
        levels: nest.levels.len(),
        terms: nest.terms.as_slice(),
        further: &[],
    }
}

/// Appends the reads that terms are, each once.
pub fn push_order(
    alloc: Global,
    table: &mut Table,
    origin: Origin<'_>,
    terms: &[Term],
    order: &mut List<usize>,
) -> Result<(), NoMemory>
    requires each_term { IsTrue (list_all term_has_places terms.now) }
    requires terms { IsTrue (list_all term_has_places origin.terms.now) }
    requires further { IsTrue (list_all term_has_places origin.further.now) }
    ensures { length table.old.reads ≤ length table.new.reads }
{
    for term in terms {
        let read = place_read(alloc, table, origin, term)?;
        push_new(order, read)?;
    }
    Ok(())
}

fn make_rows(
    alloc: Global,
    table: &mut Table,
    origin: Origin<'_>,
    nest: &Nest,
) -> Result<Vec<OwnRow>, NoMemory>
    requires terms { IsTrue (list_all term_has_places origin.terms.now) }
    requires further { IsTrue (list_all term_has_places origin.further.now) }
    ensures { length table.old.reads ≤ length table.new.reads }
{
    let mut rows = Vec::new(alloc);
    for row in nest.rows.as_slice() {
        rows.push(OwnRow {
            claim: place_row(alloc, table, origin, &row.row)?,
            bound: row.own != 0,
            settled: false,
        })?;
    }
    Ok(rows)
}

/// Appends the reads that rows name, by first appearance; in one row those of a list come in its order.
fn name_rows(
    reads: &[Read],
    list: &[usize],
    rows: &[OwnRow],
    named: &mut List<usize>,
) -> Result<(), NoMemory>
    requires { IsTrue (are_in (length reads.now) named.old) }
    ensures { OnOk result (IsTrue (are_in (length reads.now) named.new)) }
{
    for row in rows {
        name_ordered(reads, list, reads.len(), &row.claim.form, named)?;
    }
    Ok(())
}

/// The forms, placed.
pub fn place_forms(
    alloc: Global,
    table: &mut Table,
    origin: Origin<'_>,
    forms: &[Aff],
) -> Result<List<Affine>, NoMemory>
    requires terms { IsTrue (list_all term_has_places origin.terms.now) }
    requires further { IsTrue (list_all term_has_places origin.further.now) }
    ensures { IfOk result (λ placed. length placed ≡ length forms.now) }
{
    let mut placed = List::new(alloc);
    for form in forms {
        placed.push(place(alloc, table, origin, form)?)?;
    }
    Ok(placed)
}

/// The subscripts of a statement, in order.
fn place_cells(
    alloc: Global,
    table: &mut Table,
    origin: Origin<'_>,
    nest: &Nest,
) -> Result<List<Affine>, NoMemory>
    requires terms { IsTrue (list_all term_has_places origin.terms.now) }
    requires further { IsTrue (list_all term_has_places origin.further.now) }
{
    let cells = accesses(alloc, nest)?;
    let forms = subscripts(alloc, cells.as_slice())?;
    place_forms(alloc, table, origin, forms.as_slice())
}

/// The reads of a statement by first appearance: in its rows, and then in its cells.
fn make_order(
    alloc: Global,
    reads: &[Read],
    list: &[usize],
    rows: &[OwnRow],
    forms: &[Affine],
) -> Result<List<usize>, NoMemory> {
    let mut order = List::new(alloc);
    name_rows(reads, list, rows, &mut order)?;
    for form in forms {
        name_ordered(reads, list, reads.len(), form, &mut order)?;
    }
    Ok(order)
}

fn make_part(
    alloc: Global,
    head: &Program,
    table: &mut Table,
    nest: &Nest,
) -> Result<Part, NoMemory>
    requires { IsShapedNest head.now nest.now }
{
    let origin = origin_of(head, nest);
    let mut list = List::new(alloc);
    push_order(alloc, table, origin, origin.terms, &mut list)?;
    let rows = make_rows(alloc, table, origin, nest)?;
    let forms = place_cells(alloc, table, origin, nest)?;
    let order = make_order(
        alloc,
        table.as_slice(),
        list.as_slice(),
        &rows,
        forms.as_slice(),
    )?;
    Ok(Part { order, rows })
}

/// All statements, whose reads enter the table.
pub fn make_parts(
    alloc: Global,
    head: &Program,
    nests: &[Nest],
    table: &mut Table,
) -> Result<Vec<Part>, NoMemory>
    requires { AllByRecursion (IsShapedNest head.now) nests.now }
    ensures { IfOk result (λ parts. vec_len parts ≡ length nests.now) }
{
    let mut parts = Vec::new(alloc);
    for nest in nests {
        parts.push(make_part(alloc, head, table, nest)?)?;
    }
    Ok(parts)
}

impl OwnRow {
    fn settle(&mut self, direct: &[Claim], used: &[Claim]) {
        if self.bound && has_claim(direct, &self.claim) && has_claim(used, &self.claim) {
            self.settled = true;
        }
    }
}

impl Part {
    /// Marks the direct rows that are among those from which bounds were made.
    pub fn settle(&mut self, direct: &[Claim], used: &[Claim]) {
        for row in self.rows.iter_mut() {
            row.settle(direct, used);
        }
    }
}
