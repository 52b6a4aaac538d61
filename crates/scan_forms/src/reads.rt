// Reads of index arrays, and those that a form names.
ghost use Rattle.std.specs.Prelude.{ℕ, ◌≤◌, ◌<◌, length, IsTrue, IfOk, IfSome, OnOk};
ghost use Rattle.scan_forms.specs.Reads.{are_in};

use crate::affine::Affine;
use chill_base::{List, Name, NoMemory};
use std::alloc::Global;

/// A read of an index array. Its arguments name only reads that stand before it in the table.
#[derive(Drop)]
pub struct Read {
    pub array: Name,
    pub at: List<Affine>,
}

fn same_forms(a: &[Affine], b: &[Affine]) -> bool {
    match a {
        [] => b.is_empty(),
        [x, xs @ ..] => match b {
            [] => false,
            [y, ys @ ..] => x.is_same(y) && same_forms(xs, ys),
        },
    }
}

/// The number of a read in a list.
pub fn find_read(reads: &[Read], read: &Read) -> Option<usize>
    ensures { IfSome result (λ at. at < length reads.now) }
{
    for i in 0..reads.len() {
        if reads[i].array == read.array && same_forms(reads[i].at.as_slice(), read.at.as_slice()) {
            return Some(i);
        }
    }
    None
}

/// Appends the reads that a form names, of those below a number, inner ones first, each once.
#[cycle(naming)]
pub fn name_reads(
    reads: &[Read],
    below: usize,
    form: &Affine,
    named: &mut List<usize>,
) -> Result<(), NoMemory>
    requires below { below ≤ length reads.now }
    requires named { IsTrue (are_in (length reads.now) named.old) }
    ensures { OnOk result (IsTrue (are_in (length reads.now) named.new)) }
{
    for read in 0..below {
        if form.read(read) != 0 {
            name_read(reads, read, named)?;
        }
    }
    Ok(())
}

/// Appends a read, behind those in its arguments, unless it is there.
#[cycle(naming)]
fn name_read(reads: &[Read], read: usize, named: &mut List<usize>) -> Result<(), NoMemory>
    requires read { read < length reads.now }
    requires named { IsTrue (are_in (length reads.now) named.old) }
    ensures { OnOk result (IsTrue (are_in (length reads.now) named.new)) }
{
    for form in reads[read].at.as_slice() {
        name_reads(reads, read, form, named)?;
    }
    push_new(named, read)
}

/// Appends the reads that a form names, of those below a number: first those of a list, in its order, and then all others.
pub fn name_ordered(
    reads: &[Read],
    list: &[usize],
    below: usize,
    form: &Affine,
    named: &mut List<usize>,
) -> Result<(), NoMemory>
    requires below { below ≤ length reads.now }
    requires named { IsTrue (are_in (length reads.now) named.old) }
    ensures { OnOk result (IsTrue (are_in (length reads.now) named.new)) }
{
    for read in list {
        if *read < below && form.read(*read) != 0 {
            name_read(reads, *read, named)?;
        }
    }
    name_reads(reads, below, form, named)
}

/// Appends a number, unless it is there.
pub fn push_new(named: &mut List<usize>, read: usize) -> Result<(), NoMemory>
    ensures { (n : ℕ) → IsTrue (are_in n named.old) → read < n → OnOk result (IsTrue (are_in n named.new)) }
{
    if named.as_slice().contains(&read) {
        return Ok(());
    }
    named.push(read)?;
    Ok(())
}

/// The reads in the arguments of a read, inner ones first, each once.
pub fn name_inner(alloc: Global, reads: &[Read], read: usize) -> Result<List<usize>, NoMemory>
    requires { read < length reads.now }
    ensures { IfOk result (λ named. IsTrue (are_in (length reads.now) named)) }
{
    let mut named = List::new(alloc);
    for form in reads[read].at.as_slice() {
        name_reads(reads, read, form, &mut named)?;
    }
    Ok(named)
}
