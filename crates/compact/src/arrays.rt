// The arrays and lines of a compacted level.
ghost use Rattle.std.specs.Prelude.{◌≡◌, ◌<◌, length, IfOk, slice_get, Some};
ghost use Rattle.inspectors.specs.Marks.{compact_lines};
ghost use Rattle.inspectors.specs.Numbers.{IsKept};
ghost use Rattle.compact.specs.Entered as spec;

use crate::matching::Target;
use c_tree::{Matrix, Program, Stmt};
use chill_base::{List, Name, NoMemory};
use inspectors::{Compacted, Group, MarkNames, compact_inspector};
use nest_systems::is_name;
use nest_tree::{Made, MadeWhat};
use std::alloc::Global;

fn group_rows(group: Group) -> i64
    ensures { result ≡ spec.group_rows group }
{
    match group {
        Group::All => 0,
        Group::Rows(rows) => rows,
    }
}

fn made(target: &Target, name: Name, what: MadeWhat) -> Made
    ensures { result ≡ spec.made target.now name what }
{
    Made {
        name,
        matrix: target.matrix,
        what,
    }
}

fn pointer(target: &Target, names: &MarkNames) -> MadeWhat
    ensures { result ≡ spec.pointer target.now names.now }
{
    MadeWhat::Pointer {
        rows: group_rows(target.group),
        count: names.num,
    }
}

fn kept(target: &Target, names: &MarkNames) -> MadeWhat
    ensures { result ≡ spec.kept target.now names.now }
{
    MadeWhat::Kept {
        c: target.form.c,
        s0: target.form.s0,
        divisor: target.form.divisor,
        count: names.num,
    }
}

/// Where the kept values of each group begin, the values, their number, and their marks.
pub fn made_arrays(
    alloc: Global,
    target: &Target,
    names: &MarkNames,
) -> Result<List<Made>, NoMemory>
    ensures { IfOk result (λ list. list ≡ spec.made_arrays target.now names.now) }
{
    let mut list = List::new(alloc);
    list.push(made(target, names.ptr, pointer(target, names)))?;
    list.push(made(target, names.val, kept(target, names)))?;
    list.push(made(target, names.num, MadeWhat::Count))?;
    list.push(made(target, names.mark, MadeWhat::Mark))?;
    Ok(list)
}

/// Whether the first parameter stands before the other.
fn comes_first(params: &[Name], first: Name, other: Name) -> bool
    ensures { result ≡ spec.comes_first params.now first other }
{
    for param in params {
        if is_name(*param, other) {
            return false;
        }
        if is_name(*param, first) {
            return true;
        }
    }
    false
}

fn level_of(head: &Program, target: &Target, matrix: &Matrix) -> Compacted
    ensures { result ≡ spec.level_of head.now target.now matrix.now }
{
    Compacted {
        matrix: *matrix,
        cols_first: comes_first(head.params.as_slice(), matrix.cols, matrix.rows),
        form: target.form,
        group: target.group,
    }
}

/// The lines of the inspector.
pub fn lines(
    alloc: Global,
    head: &Program,
    target: &Target,
    names: &MarkNames,
) -> Result<List<Stmt>, NoMemory>
    requires kept { IsKept target.now.form }
    requires matrix { target.now.matrix < length head.now.matrices }
    ensures { IfOk result (λ list. spec.AreLines head.now target.now names.now list) }
{
    let matrix = &head.matrices.as_slice()[target.matrix];
    let level = level_of(head, target, matrix);
    compact_inspector(alloc, &level, names)
}
