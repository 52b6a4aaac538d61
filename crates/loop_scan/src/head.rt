// The bounds of a loop, and what has to be tested before they are read.
ghost use Rattle.std.specs.Prelude.{◌≡◌, ◌+◌, ◌<◌, ◌≤◌, ◌^◌, length, IsTrue, IfOk, OnOk};
ghost use Rattle.scan_forms.specs.Reads.{are_in};
ghost use Rattle.loop_scan.specs.Nested as spec;
ghost use Rattle.loop_scan.specs.Choices as choices;

use crate::ask::ask_all;
use crate::group::Group;
use crate::sides::{Sides, have_same_bounds};
use c_tree::Index;
use chill_base::{Boxed, List, NoMemory, Stop};
use nest_tree::Kernel;
use scan_forms::{
    Bound, Claim, Read, ScanFault, Sizes, Table, Writer, name_reads, write_lower, write_upper,
};
use std::alloc::Global;

/// The printed bounds of a loop, and the size of its level: the greatest size of a bound.
#[derive(Drop)]
pub struct Head {
    pub low: Index,
    pub high: Index,
    pub size: u128,
}

/// The printed bounds of one side, and the greatest of their sizes.
#[derive(Drop)]
struct Side {
    trees: List<Index>,
    size: u128,
}

/// The lesser or the greater of two expressions.
fn pair(alloc: Global, first: Index, second: Index, greatest: bool) -> Result<Index, NoMemory>
    ensures { IfOk result (λ e. e ≡ spec.pair greatest first second) }
{
    let first = Boxed::new(alloc, first)?;
    let second = Boxed::new(alloc, second)?;
    if greatest {
        Ok(Index::Max(first, second))
    } else {
        Ok(Index::Min(first, second))
    }
}

/// The least or the greatest of some expressions and a last one, nested to the right.
fn nested_before(
    alloc: Global,
    trees: List<Index>,
    last: Index,
    greatest: bool,
) -> Result<Index, NoMemory>
    ensures { IfOk result (λ e. e ≡ spec.nested_before greatest trees last) }
{
    let mut rest = trees;
    let mut all = last;
    while let Some(tree) = rest.pop() {
        all = pair(alloc, tree, all, greatest)?;
    }
    Ok(all)
}

/// The least or the greatest of some expressions, nested to the right. Of none it is 0, as an empty sum.
fn nested(alloc: Global, trees: List<Index>, greatest: bool) -> Result<Index, NoMemory>
    ensures { IfOk result (λ e. e ≡ spec.nested greatest trees) }
{
    let mut rest = trees;
    match rest.pop() {
        Some(last) => nested_before(alloc, rest, last, greatest),
        None => Ok(Index::Const(0)),
    }
}

fn write_lowers(w: Writer<'_>, bounds: &[Bound]) -> Result<Side, Stop<ScanFault>> {
    let mut trees = List::new(w.alloc);
    let mut size = 0;
    for bound in bounds {
        let written = write_lower(w, bound)?;
        size = written.size.max(size);
        trees.push(written.tree)?;
    }
    Ok(Side { trees, size })
}

fn write_uppers(w: Writer<'_>, bounds: &[Bound]) -> Result<Side, Stop<ScanFault>> {
    let mut trees = List::new(w.alloc);
    let mut size = 0;
    for bound in bounds {
        let written = write_upper(w, bound)?;
        size = written.size.max(size);
        trees.push(written.tree)?;
    }
    Ok(Side { trees, size })
}

/// A head of these bounds: the greatest of the lower ones and the least of the upper ones, or the other way round.
fn make_head(alloc: Global, low: Side, high: Side, inner: bool) -> Result<Head, NoMemory> {
    let Side {
        trees: lows,
        size: low_size,
    } = low;
    let Side {
        trees: highs,
        size: high_size,
    } = high;
    let low = nested(alloc, lows, inner)?;
    Ok(Head {
        low,
        high: nested(alloc, highs, !inner)?,
        size: low_size.max(high_size),
    })
}

/// The bounds of one statement: the greatest lower bound, and the least upper bound.
fn write_sides(w: Writer<'_>, sides: &Sides) -> Result<Head, Stop<ScanFault>> {
    let low = write_lowers(w, sides.bounds.lower.as_slice())?;
    let high = write_uppers(w, sides.bounds.upper.as_slice())?;
    Ok(make_head(w.alloc, low, high, true)?)
}

/// The statements whose bounds are printed: the first for all of them where these are the same.
pub fn printed_sides(all: &[Sides]) -> &[Sides]
    ensures sides { result.now ≡ choices.printed_sides all.now }
    ensures fewer { length result.now ≤ length all.now }
{
    match all {
        [_first, _second, ..] if have_same_bounds(all) => &all[..1],
        _ => all,
    }
}

/// The bounds of a loop: the least of the statements' lower bounds, and the greatest of their upper bounds.
pub fn write_head(
    alloc: Global,
    kernel: &Kernel,
    table: &Table,
    group: Group,
    printed: &[Sides],
    sizes: Sizes,
) -> Result<Head, Stop<ScanFault>>
    requires { group.from + length printed.now < 2 ^ 64 }
{
    let mut lows = List::new(alloc);
    let mut highs = List::new(alloc);
    let mut most = 0;
    for i in 0..printed.len() {
        let sides = &printed[i];
        let w = writer(
            alloc,
            kernel,
            table,
            sides.order.as_slice(),
            sizes,
            group.from + i,
        );
        let Head { low, high, size } = write_sides(w, sides)?;
        most = size.max(most);
        lows.push(low)?;
        highs.push(high)?;
    }
    let low = Side {
        trees: lows,
        size: most,
    };
    let high = Side {
        trees: highs,
        size: most,
    };
    Ok(make_head(alloc, low, high, false)?)
}

/// What a statement's forms are printed by.
pub fn writer<'a>(
    alloc: Global,
    kernel: &'a Kernel,
    table: &'a Table,
    order: &'a [usize],
    sizes: Sizes,
    statement: usize,
) -> Writer<'a> {
    Writer {
        alloc,
        params: kernel.head.params.as_slice(),
        made: kernel.made.as_slice(),
        table,
        order,
        sizes,
        statement,
    }
}

fn name_bounds(reads: &[Read], bounds: &[Bound], named: &mut List<usize>) -> Result<(), NoMemory>
    requires { IsTrue (are_in (length reads.now) named.old) }
    ensures { OnOk result (IsTrue (are_in (length reads.now) named.new)) }
{
    for bound in bounds {
        name_reads(reads, reads.len(), &bound.form, named)?;
    }
    Ok(())
}

/// The reads of printed bounds: those of all lower bounds, and then those of all upper ones.
fn bound_reads(alloc: Global, reads: &[Read], printed: &[Sides]) -> Result<List<usize>, NoMemory>
    ensures { IfOk result (λ named. IsTrue (are_in (length reads.now) named)) }
{
    let mut named = List::new(alloc);
    for sides in printed {
        name_bounds(reads, sides.bounds.lower.as_slice(), &mut named)?;
    }
    for sides in printed {
        name_bounds(reads, sides.bounds.upper.as_slice(), &mut named)?;
    }
    Ok(named)
}

/// Appends to a context what has to be tested before the bounds are read.
pub fn ask_bounds(
    alloc: Global,
    kernel: &Kernel,
    table: &mut Table,
    context: &mut List<Claim>,
    printed: &[Sides],
) -> Result<(), NoMemory>
    ensures { OnOk result (length context.old ≤ length context.new) }
{
    let named = bound_reads(alloc, table.as_slice(), printed)?;
    ask_all(alloc, kernel, table, context, named.as_slice())
}
