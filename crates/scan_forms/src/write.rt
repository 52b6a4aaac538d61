// What is printed for forms, cells, bounds and tests.
ghost use Rattle.std.specs.Prelude.{◌≡◌, ◌≤◌, ◌<◌, ◌^◌, length};
ghost use Rattle.nest_core.specs.Making.{Gives};
ghost use Rattle.scan_forms.specs.Sums as spec;

use crate::affine::{Affine, MOST_LEVELS, number_at};
use crate::bounds::Bound;
use crate::claim::Claim;
use crate::fault::ScanFault;
use crate::size::{LARGEST, Sizes, size_of};
use crate::summand::{printed_size, with_constant, with_summand};
use crate::table::Table;
use c_tree::{Cell, Cmp, Index, Subscripts, Test};
use chill_base::{Boxed, Name, Stop};
use nest_tree::Made;
use std::alloc::Global;

/// What a form is printed by: the names of parameters, the reads and their order in a statement, and the sizes of levels.
#[derive(Clone, Copy)]
pub struct Writer<'a> {
    pub alloc: Global,
    pub params: &'a [Name],
    pub made: &'a [Made],
    pub table: &'a Table,
    pub order: &'a [usize],
    pub sizes: Sizes,
    pub statement: usize,
}

/// The name of the loop variable at a depth, which counts from 0.
pub fn level_name(depth: usize) -> Name
    requires { depth < MOST_LEVELS }
{
    Name::new(&[b't', b'1' + depth as u8]).unwrap()
}

/// A size that an index expression may have.
fn judge_size(statement: usize, size: u128) -> Result<(), Stop<ScanFault>>
    ensures { Gives result (spec.judged_size statement size) }
{
    if size > LARGEST {
        Err(Stop::Refused(ScanFault::Size { statement }))
    } else {
        Ok(())
    }
}

fn write_levels(w: Writer<'_>, form: &Affine) -> Result<Option<Index>, Stop<ScanFault>> {
    let mut sum = None;
    for depth in 0..MOST_LEVELS {
        let number = number_at(form.levels.as_slice(), depth);
        let level = Index::Var(level_name(depth));
        sum = with_summand(w.alloc, w.statement, sum, number, level)?;
    }
    Ok(sum)
}

fn write_params(
    w: Writer<'_>,
    form: &Affine,
    mut sum: Option<Index>,
) -> Result<Option<Index>, Stop<ScanFault>> {
    let names = w.params;
    for at in 0..names.len() {
        let number = number_at(form.params.as_slice(), at);
        sum = with_summand(w.alloc, w.statement, sum, number, Index::Var(names[at]))?;
    }
    Ok(sum)
}

/// The sum with the multiple of a read.
#[cycle(writing)]
fn write_multiple(
    w: Writer<'_>,
    form: &Affine,
    read: usize,
    sum: Option<Index>,
) -> Result<Option<Index>, Stop<ScanFault>>
    requires { read < length w.table.now.reads }
{
    let number = form.read(read);
    if number == 0 {
        return Ok(sum);
    }
    let cell = write_read(w, read)?;
    with_summand(w.alloc, w.statement, sum, number, Index::At(cell))
}

/// The sum with the multiples of the statement's reads, in their order.
#[cycle(writing)]
fn write_ordered(
    w: Writer<'_>,
    form: &Affine,
    below: usize,
    mut sum: Option<Index>,
) -> Result<Option<Index>, Stop<ScanFault>>
    requires { below ≤ length w.table.now.reads }
{
    for read in w.order {
        if *read < below {
            sum = write_multiple(w, form, *read, sum)?;
        }
    }
    Ok(sum)
}

/// The sum with the multiples of all other reads.
#[cycle(writing)]
fn write_others(
    w: Writer<'_>,
    form: &Affine,
    below: usize,
    mut sum: Option<Index>,
) -> Result<Option<Index>, Stop<ScanFault>>
    requires { below ≤ length w.table.now.reads }
{
    for read in 0..below {
        if !w.order.contains(&read) {
            sum = write_multiple(w, form, read, sum)?;
        }
    }
    Ok(sum)
}

/// The form as a tree, of the reads below a number: its levels, parameters, reads and constant.
#[cycle(writing)]
fn write_sum(w: Writer<'_>, form: &Affine, below: usize) -> Result<Index, Stop<ScanFault>>
    requires { below ≤ length w.table.now.reads }
{
    let levels = write_levels(w, form)?;
    let params = write_params(w, form, levels)?;
    let ordered = write_ordered(w, form, below, params)?;
    let others = write_others(w, form, below, ordered)?;
    with_constant(w.alloc, w.statement, others, form.constant)
}

/// The form as a tree, where its size is within the limit.
#[cycle(writing)]
fn write_below(w: Writer<'_>, form: &Affine, below: usize) -> Result<Index, Stop<ScanFault>>
    requires { below ≤ length w.table.now.reads }
{
    let tree = write_sum(w, form, below)?;
    judge_size(w.statement, w.size_of(form))?;
    Ok(tree)
}

/// The subscripts of a cell, whose reads are below a number.
#[cycle(writing)]
fn subscripts_below(
    w: Writer<'_>,
    forms: &[Affine],
    below: usize,
) -> Result<Subscripts, Stop<ScanFault>>
    requires below { below ≤ length w.table.now.reads }
    requires low { 1 ≤ length forms.now }
    requires high { length forms.now ≤ 3 }
{
    let first = Boxed::new(w.alloc, write_below(w, &forms[0], below)?)?;
    if forms.len() == 1 {
        return Ok(Subscripts::One(first));
    }
    let second = Boxed::new(w.alloc, write_below(w, &forms[1], below)?)?;
    if forms.len() == 2 {
        return Ok(Subscripts::Two(first, second));
    }
    let third = Boxed::new(w.alloc, write_below(w, &forms[2], below)?)?;
    Ok(Subscripts::Three(first, second, third))
}

/// The cell that a read names.
#[cycle(writing)]
fn write_read(w: Writer<'_>, read: usize) -> Result<Cell, Stop<ScanFault>>
    requires { read < length w.table.now.reads }
{
    let found = &w.table.as_slice()[read];
    Ok(Cell {
        array: found.array,
        at: subscripts_below(w, found.at.as_slice(), read)?,
    })
}

impl Writer<'_> {
    pub fn size_of(&self, form: &Affine) -> u128 {
        size_of(self.made, self.table.as_slice(), self.sizes, form)
    }
}

/// The form as a tree.
pub fn write_form(w: Writer<'_>, form: &Affine) -> Result<Index, Stop<ScanFault>> {
    write_below(w, form, w.table.as_slice().len())
}

/// The subscripts of a cell.
pub fn write_subscripts(w: Writer<'_>, forms: &[Affine]) -> Result<Subscripts, Stop<ScanFault>>
    requires low { 1 ≤ length forms.now }
    requires high { length forms.now ≤ 3 }
{
    subscripts_below(w, forms, w.table.as_slice().len())
}

/// A printed bound and its size.
#[derive(Drop)]
pub struct Written {
    pub tree: Index,
    pub size: u128,
}

pub fn write_lower(w: Writer<'_>, bound: &Bound) -> Result<Written, Stop<ScanFault>> {
    let size = w.size_of(&bound.form);
    let form = write_form(w, &bound.form)?;
    if bound.divisor == 1 {
        return Ok(Written { tree: form, size });
    }
    let divisor = printed_size(w.statement, bound.divisor)?;
    Ok(Written {
        tree: Index::Ceil(Boxed::new(w.alloc, form)?, divisor),
        size,
    })
}

pub fn write_upper(w: Writer<'_>, bound: &Bound) -> Result<Written, Stop<ScanFault>> {
    if bound.divisor == 1 {
        let above = bound.form.plus_one(w.alloc)?;
        return Ok(Written {
            tree: write_form(w, &above)?,
            size: w.size_of(&above),
        });
    }
    write_quotient(w, bound)
}

/// 1 more than the greatest integer that isn't above the quotient.
fn write_quotient(w: Writer<'_>, bound: &Bound) -> Result<Written, Stop<ScanFault>> {
    let size = w.size_of(&bound.form).saturating_add(1);
    judge_size(w.statement, size)?;
    let divisor = printed_size(w.statement, bound.divisor)?;
    let form = write_form(w, &bound.form)?;
    let quotient = Index::Floor(Boxed::new(w.alloc, form)?, divisor);
    let one = Boxed::new(w.alloc, Index::Const(1))?;
    Ok(Written {
        tree: Index::Plus(Boxed::new(w.alloc, quotient)?, one),
        size,
    })
}

/// The test that a claim is.
pub fn write_test(w: Writer<'_>, claim: &Claim) -> Result<Test, Stop<ScanFault>> {
    Ok(Test {
        left: write_form(w, &claim.form)?,
        cmp: if claim.equal { Cmp::Same } else { Cmp::AtLeast },
        right: Index::Const(0),
    })
}
