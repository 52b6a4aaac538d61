// Which reads are safe at a loop: nothing has to be tested before the bounds read them.
ghost use Rattle.std.specs.Prelude.{◌≡◌, ◌+◌, ◌≤◌, ◌<◌, ◌^◌, length, IfOk};
ghost use Rattle.loop_scan.specs.Safety as spec;

use crate::ask::ask_all;
use crate::group::Group;
use chill_base::{List, NoMemory};
use nest_tree::Kernel;
use scan_forms::{Affine, Claim, Table, name_inner, push_claims};
use std::alloc::Global;

/// A loop that is to be opened, and what is known around it.
#[derive(Clone, Copy)]
pub struct Opening<'a> {
    pub alloc: Global,
    pub kernel: &'a Kernel,
    pub group: Group,
    pub context: &'a [Claim],
}

/// The reads that were asked at a loop, and those of them that are safe there.
#[derive(Drop)]
pub struct Answers {
    pub asked: List<usize>,
    pub safe: List<usize>,
}

impl Answers {
    pub fn new(alloc: Global) -> Answers {
        Answers {
            asked: List::new(alloc),
            safe: List::new(alloc),
        }
    }
}

/// Whether a context implies all rows of the ranges of a read's arguments, and of those of the reads in them.
fn is_safe(opening: Opening<'_>, table: &mut Table, read: usize) -> Result<bool, NoMemory>
    requires { read < length table.old.reads }
    ensures { length table.old.reads ≤ length table.new.reads }
{
    let Opening {
        alloc,
        kernel,
        group: _,
        context: known,
    } = opening;
    let mut named = name_inner(alloc, table.as_slice(), read)?;
    named.push(read)?;
    let mut context = List::new(alloc);
    push_claims(alloc, &mut context, known)?;
    ask_all(alloc, kernel, table, &mut context, named.as_slice())?;
    Ok(context.len() == known.len())
}

/// Asks whether a read is safe, unless that was asked.
pub fn ask_safe(
    opening: Opening<'_>,
    table: &mut Table,
    read: usize,
    answers: &mut Answers,
) -> Result<(), NoMemory>
    requires { read < length table.old.reads }
    ensures { length table.old.reads ≤ length table.new.reads }
{
    if answers.asked.as_slice().contains(&read) {
        return Ok(());
    }
    if is_safe(opening, table, read)? {
        answers.safe.push(read)?;
    }
    answers.asked.push(read)?;
    Ok(())
}

/// Asks whether the reads that a form holds are safe.
fn ask_form_safe(
    opening: Opening<'_>,
    table: &mut Table,
    form: &Affine,
    answers: &mut Answers,
) -> Result<(), NoMemory>
    ensures { length table.old.reads ≤ length table.new.reads }
{
    for read in 0..table.as_slice().len() {
        if form.read(read) != 0 {
            ask_safe(opening, table, read, answers)?;
        }
    }
    Ok(())
}

/// Whether all reads from a number on that have a number other than 0 are safe.
fn are_safe(safe: &[usize], from: usize, numbers: &[i128]) -> bool
    requires { from + length numbers.now < 2 ^ 64 }
    ensures { result ≡ spec.are_safe safe.now from numbers.now }
{
    match numbers {
        [] => true,
        [first, others @ ..] => {
            (*first == 0 || safe.contains(&from)) && are_safe(safe, from + 1, others)
        }
    }
}

/// Whether a form holds only safe reads.
fn holds_safe(safe: &[usize], form: &Affine) -> bool
    ensures { result ≡ spec.holds_safe safe.now form.now }
{
    are_safe(safe, 0, form.reads.as_slice())
}

/// Copies of the claims that hold only safe reads.
fn with_safe(alloc: Global, safe: &[usize], claims: &[Claim]) -> Result<List<Claim>, NoMemory>
    ensures { IfOk result (λ kept. kept ≡ spec.with_safe safe.now claims.now) }
{
    let mut kept = List::new(alloc);
    for claim in claims {
        if holds_safe(safe, &claim.form) {
            kept.push(claim.copy(alloc)?)?;
        }
    }
    Ok(kept)
}

/// Copies of the claims that hold only safe reads, which are asked first.
pub fn safe_claims(
    opening: Opening<'_>,
    table: &mut Table,
    claims: &[Claim],
    answers: &mut Answers,
) -> Result<List<Claim>, NoMemory>
    ensures { IfOk result (λ kept. kept ≡ spec.with_safe answers.new.safe claims.now) }
{
    for claim in claims {
        ask_form_safe(opening, table, &claim.form, answers)?;
    }
    with_safe(opening.alloc, answers.safe.as_slice(), claims)
}
