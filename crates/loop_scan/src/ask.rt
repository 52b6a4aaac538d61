// Which rows of the ranges of arguments have to be tested at a place.
ghost use Rattle.std.specs.Prelude.{◌≡◌, ◌+◌, ◌<◌, ◌≤◌, length, IsTrue, IfOk};
ghost use Rattle.std.specs.List.{list_all};
ghost use Rattle.nest_core.specs.Shapes.{is_term_over};
ghost use Rattle.scan_forms.specs.Reads.{are_in, has_places, term_has_places};
ghost use Rattle.loop_scan.specs.Asking.{extra_of};

use chill_base::{List, NoMemory, Stop};
use int_rows::{Aff, Excess, Row};
use nest_systems::{Arguments, Own, argument_rows, own_system};
use nest_tree::{Kernel, Term};
use scan_forms::{
    Affine, Claim, MOST_LEVELS, Origin, Read, Table, local_form, local_rows, local_terms,
    name_inner, name_reads, place_row,
};
use std::alloc::Global;
use std::slice;

/// The reads that a context and a form name, in order of first appearance.
fn reads_at_hand(
    alloc: Global,
    reads: &[Read],
    context: &[Claim],
    form: &Affine,
) -> Result<List<usize>, NoMemory>
    ensures { IfOk result (λ named. IsTrue (are_in (length reads.now) named)) }
{
    let mut named = List::new(alloc);
    for claim in context {
        name_reads(reads, reads.len(), &claim.form, &mut named)?;
    }
    name_reads(reads, reads.len(), form, &mut named)?;
    Ok(named)
}

/// The system of a context with chosen reads, and the form that is asked.
fn make_system(
    alloc: Global,
    kernel: &Kernel,
    terms: &[Term],
    rows: &[Row],
    asked: &Aff,
) -> Result<(Own, Aff), Stop<Excess>>
    requires { IsTrue (list_all (is_term_over (length kernel.now.head.params + 8 + length terms.now)) terms.now) }
    ensures { IfOk result (λ r. length r.1.coefs ≡ r.0.system.vars) }
{
    let made = kernel.made.as_slice();
    let forms = slice::from_ref(asked);
    let own = own_system(
        alloc,
        &kernel.head,
        made,
        MOST_LEVELS,
        terms,
        0,
        rows,
        forms,
    )?;
    let form = own.place(alloc, asked)?;
    Ok((own, form))
}

/// Whether a context with chosen reads implies that a form is at least 0.
fn judge_chosen(
    alloc: Global,
    kernel: &Kernel,
    reads: &[Read],
    chosen: &[usize],
    context: &[Claim],
    form: &Affine,
) -> Result<bool, Stop<Excess>>
    requires reads { IsTrue (list_all has_places reads.now) }
    requires chosen { IsTrue (are_in (length reads.now) chosen.now) }
{
    let params = kernel.head.params.len();
    let terms = local_terms(alloc, params, chosen, reads)?;
    let rows = local_rows(alloc, params, chosen, context)?;
    let asked = local_form(alloc, params, chosen, form)?;
    let (own, form) = make_system(alloc, kernel, terms.as_slice(), rows.as_slice(), &asked)?;
    let row = Row { equal: false, form };
    own.system().implied(alloc, &row)
}

/// Whether a context implies that a form is at least 0. Where no limit lets that be decided, it doesn't.
fn is_implied(
    alloc: Global,
    kernel: &Kernel,
    reads: &[Read],
    context: &[Claim],
    form: &Affine,
) -> Result<bool, NoMemory>
    requires { IsTrue (list_all has_places reads.now) }
{
    let named = reads_at_hand(alloc, reads, context, form)?;
    match judge_chosen(alloc, kernel, reads, named.as_slice(), context, form) {
        Ok(implied) => Ok(implied),
        Err(Stop::Refused(_)) => Ok(false),
        Err(Stop::NoMemory) => Err(NoMemory),
    }
}

/// The claims that a read's arguments are in their ranges.
fn argument_claims(
    alloc: Global,
    kernel: &Kernel,
    table: &mut Table,
    read: usize,
) -> Result<List<Claim>, NoMemory>
    requires { read < length table.old.reads }
    ensures { length table.old.reads ≤ length table.new.reads }
{
    let params = kernel.head.params.len();
    let mut named = name_inner(alloc, table.as_slice(), read)?;
    let at = named.len();
    named.push(read)?;
    let terms = local_terms(alloc, params, named.as_slice(), table.as_slice())?;
    let found = range_rows(alloc, kernel, terms.as_slice(), at)?;
    place_rows(alloc, params, table, terms.as_slice(), &found)
}

/// The rows that the arguments of one of the terms are in their ranges.
#[tactic(auto, using(crate::proofs::Places::extra_places))]
fn range_rows(
    alloc: Global,
    kernel: &Kernel,
    terms: &[Term],
    at: usize,
) -> Result<Arguments, NoMemory>
    requires { at < length terms.now }
    ensures { IfOk result (λ found. IsTrue (list_all term_has_places (extra_of found))) }
{
    let made = kernel.made.as_slice();
    argument_rows(alloc, &kernel.head, made, MOST_LEVELS, terms, at)
}

/// The further term of ranges, if there is one.
fn extra_of(found: &Arguments) -> &[Term]
    ensures { result.now ≡ extra_of found.now }
{
    match &found.extra {
        Some(extra) => slice::from_ref(extra),
        None => &[],
    }
}

/// The rows of ranges as claims.
fn place_rows(
    alloc: Global,
    params: usize,
    table: &mut Table,
    terms: &[Term],
    found: &Arguments,
) -> Result<List<Claim>, NoMemory>
    requires terms { IsTrue (list_all term_has_places terms.now) }
    requires further { IsTrue (list_all term_has_places (extra_of found.now)) }
    ensures { length table.old.reads ≤ length table.new.reads }
{
    let origin = Origin {
        params,
        levels: MOST_LEVELS,
        terms,
        further: extra_of(found),
    };
    let mut claims = List::new(alloc);
    for row in found.rows.as_slice() {
        claims.push(place_row(alloc, table, origin, row)?)?;
    }
    Ok(claims)
}

/// Appends to a context what has to be tested of a read's arguments.
fn ask_read(
    alloc: Global,
    kernel: &Kernel,
    table: &mut Table,
    context: &mut List<Claim>,
    read: usize,
) -> Result<(), NoMemory>
    requires { read < length table.old.reads }
    ensures grown { length table.old.reads ≤ length table.new.reads }
    ensures longer { length context.old ≤ length context.new }
{
    let claims = argument_claims(alloc, kernel, table, read)?;
    for claim in claims.as_slice() {
        if !is_implied(
            alloc,
            kernel,
            table.as_slice(),
            context.as_slice(),
            &claim.form,
        )? {
            context.push(claim.copy(alloc)?)?;
        }
    }
    Ok(())
}

/// Appends to a context what has to be tested of the arguments of reads.
pub fn ask_all(
    alloc: Global,
    kernel: &Kernel,
    table: &mut Table,
    context: &mut List<Claim>,
    named: &[usize],
) -> Result<(), NoMemory>
    requires { IsTrue (are_in (length table.old.reads) named.now) }
    ensures grown { length table.old.reads ≤ length table.new.reads }
    ensures longer { length context.old ≤ length context.new }
{
    for read in named {
        ask_read(alloc, kernel, table, context, *read)?;
    }
    Ok(())
}

/// Appends to a context what has to be tested before a form is read.
pub fn ask_form(
    alloc: Global,
    kernel: &Kernel,
    table: &mut Table,
    context: &mut List<Claim>,
    form: &Affine,
) -> Result<(), NoMemory>
    ensures grown { length table.old.reads ≤ length table.new.reads }
    ensures longer { length context.old ≤ length context.new }
{
    let mut named = List::new(alloc);
    name_reads(table.as_slice(), table.as_slice().len(), form, &mut named)?;
    ask_all(alloc, kernel, table, context, named.as_slice())
}
