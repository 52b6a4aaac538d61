// The lines that find the kept values of a compacted level, with their layout.
ghost use Rattle.std.specs.Prelude.{◌≡◌, IfOk};
ghost use Rattle.inspectors.specs.Marks as spec;
ghost use Rattle.inspectors.specs.Numbers.{IsKept};

use crate::expressions::{group, next_group, offset, pointers, value, width};
use crate::layout::Layout;
use crate::level::{Compacted, Group};
use crate::names::MarkNames;
use crate::numbers::KeptForm;
use crate::store::{declaration, growth, store};
use crate::trees::{cell, entry_name, one, plus_one, read, read_first, row_name, then, with_all};
use c_tree::{Cmp, Index, Kind, Matrix, Stmt, Test};
use chill_base::{Boxed, List, Name, NoMemory};
use std::alloc::Global;

fn declare(alloc: Global, name: Name) -> Stmt
    ensures { result ≡ spec.declare name }
{
    Stmt::Declare {
        name,
        kind: Kind::Position,
        inner: List::new(alloc),
    }
}

fn declarations(alloc: Global, names: &MarkNames) -> Result<List<Stmt>, NoMemory>
    ensures { IfOk result (λ list. list ≡ spec.declarations names.now) }
{
    let first = one(alloc, declare(alloc, names.ptr))?;
    let second = then(first, declare(alloc, names.val))?;
    let third = then(second, declare(alloc, names.num))?;
    then(third, declare(alloc, names.mark))
}

/// The growth of the marks to one for each value that there may be.
fn grow_marks(alloc: Global, of: &Compacted, names: &MarkNames) -> Result<Stmt, NoMemory>
    requires { IsKept of.now.form }
    ensures { IfOk result (λ t. t ≡ spec.grow_marks of.now names.now) }
{
    let width = Boxed::new(alloc, width(alloc, of)?)?;
    let none = Boxed::new(alloc, Index::Const(0))?;
    Ok(Stmt::Grow {
        name: names.mark,
        by: Index::Max(none, width),
    })
}

fn growths(alloc: Global, of: &Compacted, names: &MarkNames) -> Result<List<Stmt>, NoMemory>
    requires { IsKept of.now.form }
    ensures { IfOk result (λ list. list ≡ spec.growths of.now names.now) }
{
    let pointers = Stmt::Grow {
        name: names.ptr,
        by: pointers(alloc, &of.matrix, of.group)?,
    };
    let first = one(alloc, pointers)?;
    let count = Stmt::Grow {
        name: names.num,
        by: Index::Const(1),
    };
    let second = then(first, count)?;
    then(second, grow_marks(alloc, of, names)?)
}

/// The test whether a value is new in its group.
fn new_test(alloc: Global, of: &Compacted, names: &MarkNames) -> Result<Test, NoMemory>
    requires { IsKept of.now.form }
    ensures { IfOk result (λ t. t ≡ spec.new_test of.now names.now) }
{
    let left = read(alloc, names.mark, offset(alloc, of)?)?;
    let right = read(alloc, names.ptr, group(alloc, of.group)?)?;
    Ok(Test {
        left,
        cmp: Cmp::AtMost,
        right,
    })
}

/// A value gets the next position.
fn put_value(alloc: Global, of: &Compacted, names: &MarkNames) -> Result<Stmt, NoMemory>
    requires { IsKept of.now.form }
    ensures { IfOk result (λ t. t ≡ spec.put_value of.now names.now) }
{
    let target = cell(alloc, names.val, read_first(alloc, names.num)?)?;
    Ok(Stmt::Put {
        target,
        value: value(alloc, of)?,
    })
}

/// There is one value more.
fn put_count(alloc: Global, names: &MarkNames) -> Result<Stmt, NoMemory>
    ensures { IfOk result (λ t. t ≡ spec.put_count names.now) }
{
    let target = cell(alloc, names.num, Index::Const(0))?;
    let before = read_first(alloc, names.num)?;
    Ok(Stmt::Put {
        target,
        value: plus_one(alloc, before)?,
    })
}

/// A value gets its mark.
fn put_mark(alloc: Global, of: &Compacted, names: &MarkNames) -> Result<Stmt, NoMemory>
    requires { IsKept of.now.form }
    ensures { IfOk result (λ t. t ≡ spec.put_mark of.now names.now) }
{
    let target = cell(alloc, names.mark, offset(alloc, of)?)?;
    Ok(Stmt::Put {
        target,
        value: read_first(alloc, names.num)?,
    })
}

fn noted(alloc: Global, of: &Compacted, names: &MarkNames) -> Result<List<Stmt>, NoMemory>
    requires { IsKept of.now.form }
    ensures { IfOk result (λ list. list ≡ spec.noted of.now names.now) }
{
    let first = one(alloc, put_value(alloc, of, names)?)?;
    let second = then(first, put_count(alloc, names)?)?;
    then(second, put_mark(alloc, of, names)?)
}

/// What is done at a value that is new in its group.
fn new_value(
    alloc: Global,
    of: &Compacted,
    names: &MarkNames,
    layout: &Layout,
) -> Result<List<Stmt>, NoMemory>
    requires { IsKept of.now.form }
    ensures { IfOk result (λ list. list ≡ spec.new_value of.now names.now layout.now) }
{
    let grow = Stmt::Grow {
        name: names.val,
        by: Index::Const(1),
    };
    let first = one(alloc, grow)?;
    let second = with_all(first, growth(alloc, layout)?)?;
    with_all(second, noted(alloc, of, names)?)
}

/// The guard of an entry.
fn guard(
    alloc: Global,
    of: &Compacted,
    names: &MarkNames,
    layout: &Layout,
) -> Result<Stmt, NoMemory>
    requires { IsKept of.now.form }
    ensures { IfOk result (λ t. t ≡ spec.guard of.now names.now layout.now) }
{
    let tests = one(alloc, new_test(alloc, of, names)?)?;
    Ok(Stmt::If {
        tests,
        body: new_value(alloc, of, names, layout)?,
    })
}

/// What is done at an entry.
fn entry_lines(
    alloc: Global,
    of: &Compacted,
    names: &MarkNames,
    layout: &Layout,
) -> Result<List<Stmt>, NoMemory>
    requires { IsKept of.now.form }
    ensures { IfOk result (λ list. list ≡ spec.entry_lines of.now names.now layout.now) }
{
    let first = one(alloc, guard(alloc, of, names, layout)?)?;
    with_all(first, store(alloc, of, names, layout)?)
}

/// A loop over the entries of a row.
pub fn over_entries(alloc: Global, index: Name, body: List<Stmt>) -> Result<Stmt, NoMemory>
    ensures { IfOk result (λ t. t ≡ spec.over_entries index body) }
{
    let low = read(alloc, index, Index::Var(row_name()))?;
    let next = plus_one(alloc, Index::Var(row_name()))?;
    let high = read(alloc, index, next)?;
    Ok(Stmt::For {
        var: entry_name(),
        low,
        high,
        body,
    })
}

/// A loop over the rows.
pub fn over_rows(rows: Name, body: List<Stmt>) -> Stmt
    ensures { result ≡ spec.over_rows rows body }
{
    Stmt::For {
        var: row_name(),
        low: Index::Const(0),
        high: Index::Var(rows),
        body,
    }
}

/// The values of a group end behind its last row.
fn put_pointer(alloc: Global, of: &Compacted, names: &MarkNames) -> Result<Stmt, NoMemory>
    requires { IsKept of.now.form }
    ensures { IfOk result (λ t. t ≡ spec.put_pointer of.now names.now) }
{
    let target = cell(alloc, names.ptr, next_group(alloc, of.group)?)?;
    Ok(Stmt::Put {
        target,
        value: read_first(alloc, names.num)?,
    })
}

/// What is done at a row.
fn row_lines(
    alloc: Global,
    of: &Compacted,
    names: &MarkNames,
    layout: &Layout,
) -> Result<List<Stmt>, NoMemory>
    requires { IsKept of.now.form }
    ensures { IfOk result (λ list. list ≡ spec.row_lines of.now names.now layout.now) }
{
    let body = entry_lines(alloc, of, names, layout)?;
    let first = one(alloc, over_entries(alloc, of.matrix.index, body)?)?;
    then(first, put_pointer(alloc, of, names)?)
}

/// The lines in front of the loops.
fn head_lines(
    alloc: Global,
    of: &Compacted,
    names: &MarkNames,
    layout: &Layout,
) -> Result<List<Stmt>, NoMemory>
    requires { IsKept of.now.form }
    ensures { IfOk result (λ list. list ≡ spec.head_lines of.now names.now layout.now) }
{
    let first = declarations(alloc, names)?;
    let second = with_all(first, declaration(alloc, &of.matrix, layout)?)?;
    with_all(second, growths(alloc, of, names)?)
}

/// All lines of a compacted level.
#[tactic(auto, unfolding(crate::specs::Marks::mark_lines))]
fn mark_lines(
    alloc: Global,
    of: &Compacted,
    names: &MarkNames,
    layout: &Layout,
) -> Result<List<Stmt>, NoMemory>
    requires { IsKept of.now.form }
    ensures { IfOk result (λ list. list ≡ spec.mark_lines of.now names.now layout.now) }
{
    let head = head_lines(alloc, of, names, layout)?;
    let body = row_lines(alloc, of, names, layout)?;
    then(head, over_rows(of.matrix.rows, body))
}

/// The lines of a compacted level without a layout.
pub fn compact_inspector(
    alloc: Global,
    of: &Compacted,
    names: &MarkNames,
) -> Result<List<Stmt>, NoMemory>
    requires { IsKept of.now.form }
    ensures { IfOk result (λ list. list ≡ spec.compact_lines of.now names.now) }
{
    mark_lines(alloc, of, names, &Layout::Plain)
}

/// The lines of blocks of so many rows and columns.
pub fn block_inspector(
    alloc: Global,
    matrix: &Matrix,
    cols_first: bool,
    rows: i64,
    cols: i64,
    names: &MarkNames,
    lay: Name,
) -> Result<List<Stmt>, NoMemory>
    ensures { IfOk result (λ list. list ≡ spec.block_lines matrix.now cols_first rows cols names.now lay) }
{
    let of = Compacted {
        matrix: *matrix,
        cols_first,
        form: KeptForm {
            c: 0,
            s0: 0,
            divisor: cols,
        },
        group: Group::Rows(rows),
    };
    mark_lines(alloc, &of, names, &Layout::Block { lay, rows, cols })
}

/// The lines of diagonals, whose numbers are the column less the row.
pub fn diag_inspector(
    alloc: Global,
    matrix: &Matrix,
    cols_first: bool,
    names: &MarkNames,
    lay: Name,
) -> Result<List<Stmt>, NoMemory>
    ensures { IfOk result (λ list. list ≡ spec.diag_lines matrix.now cols_first names.now lay) }
{
    let of = Compacted {
        matrix: *matrix,
        cols_first,
        form: KeptForm {
            c: -1,
            s0: 0,
            divisor: 1,
        },
        group: Group::All,
    };
    mark_lines(alloc, &of, names, &Layout::Diag { lay })
}
