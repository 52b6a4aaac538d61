// The reads of an array in a right side.
ghost use Rattle.std.specs.Prelude.{◌≡◌, ◌++◌, reverse, IfOk, OnOk, bytes_eq};
ghost use Rattle.datacopy.specs.Reads as spec;

use chill_base::{List, Name, NoMemory};
use nest_tree::{Access, Body};
use one_statement::copy_access;
use std::alloc::Global;

/// Whether the name is this one.
pub fn is_name(name: Name, other: Name) -> bool
    ensures { result ≡ bytes_eq name other }
{
    name.bytes() == other.bytes()
}

/// Appends a copy of the cell, where it is one of the array.
fn push_read(
    alloc: Global,
    array: Name,
    reads: &mut Vec<Access>,
    access: &Access,
) -> Result<(), NoMemory>
    ensures { OnOk result (reads.new.items ≡ reads.old.items ++ spec.read_of array access.now) }
{
    if is_name(access.array, array) {
        reads.push(copy_access(alloc, access)?)?;
    }
    Ok(())
}

/// Appends copies of the reads of the array, the last one first.
fn push_reads_back(
    alloc: Global,
    array: Name,
    reads: &mut Vec<Access>,
    body: &Body,
) -> Result<(), NoMemory>
    ensures { OnOk result (reads.new.items ≡ reads.old.items ++ reverse (spec.reads_of array body.now)) }
{
    let mut rest = body;
    loop {
        match rest {
            Body::Const(_) => return Ok(()),
            Body::At(access) => {
                push_read(alloc, array, reads, access)?;
                return Ok(());
            }
            Body::Plus(left, right) => {
                push_reads_back(alloc, array, reads, right.get())?;
                rest = left.get();
            }
            Body::Minus(left, right) => {
                push_reads_back(alloc, array, reads, right.get())?;
                rest = left.get();
            }
            Body::Times(left, right) => {
                push_reads_back(alloc, array, reads, right.get())?;
                rest = left.get();
            }
        }
    }
}

/// The reads of the array, from the left.
pub fn reads_of(alloc: Global, array: Name, body: &Body) -> Result<List<Access>, NoMemory>
    ensures { IfOk result (λ reads. reads ≡ spec.reads_of array body.now) }
{
    let mut reads = Vec::new(alloc);
    push_reads_back(alloc, array, &mut reads, body)?;
    reads.reverse();
    Ok(List::from_vec(reads))
}
