// What a copy brings into a kernel: its lines in the inspector, and its place among the arrays.
ghost use Rattle.std.specs.Prelude.{◌≡◌, ◌++◌, ◌∷◌, [], ◌≤◌, length, IfOk, OnOk, OnErr};
ghost use Rattle.datacopy.specs.Copied.{constants, lines_of, entered};

use c_tree::{Index, Kind, Stmt};
use chill_base::{List, Name, NoMemory};
use nest_tree::{Kernel, Made, MadeWhat, Nest};
use std::alloc::Global;

/// These numbers as expressions.
fn constants(alloc: Global, numbers: &[i64]) -> Result<List<Index>, NoMemory>
    ensures { IfOk result (λ es. es ≡ constants numbers.now) }
{
    let mut constants = List::new(alloc);
    for number in numbers {
        constants.push(Index::Const(*number))?;
    }
    Ok(constants)
}

/// Appends both statements, or none.
fn push_both(inspector: &mut List<Stmt>, first: Stmt, second: Stmt) -> Result<(), NoMemory>
    ensures both { OnOk result (inspector.new ≡ inspector.old ++ (first ∷ second ∷ [])) }
    ensures none { OnErr result (inspector.new ≡ inspector.old) }
{
    inspector.push(first)?;
    if inspector.push(second).is_err() {
        let _first = inspector.pop();
        return Err(NoMemory);
    }
    Ok(())
}

/// Appends the lines of the copy: its declaration with the extents behind the first, and its growth to the first.
fn push_lines(
    alloc: Global,
    inspector: &mut List<Stmt>,
    copy: Name,
    extents: &[i64],
) -> Result<(), NoMemory>
    requires { 1 ≤ length extents.now }
    ensures lines { OnOk result (inspector.new ≡ inspector.old ++ lines_of copy extents.now) }
    ensures none { OnErr result (inspector.new ≡ inspector.old) }
{
    let declare = Stmt::Declare {
        name: copy,
        kind: Kind::Number,
        inner: constants(alloc, &extents[1..])?,
    };
    let grow = Stmt::Grow {
        name: copy,
        by: Index::Const(extents[0]),
    };
    push_both(inspector, declare, grow)
}

/// Puts the copy, its lines and the statements into the kernel.
pub fn enter(
    alloc: Global,
    kernel: &mut Kernel,
    copy: Name,
    extents: List<i64>,
    nests: List<Nest>,
) -> Result<(), NoMemory>
    requires { 1 ≤ length extents }
    ensures entered { OnOk result (kernel.new ≡ entered kernel.old copy extents nests) }
    ensures none { OnErr result (kernel.new ≡ kernel.old) }
{
    let sizes = List::from_slice(alloc, extents.as_slice())?;
    kernel.made.push(Made {
        name: copy,
        matrix: 0,
        what: MadeWhat::Copy { extents },
    })?;
    if push_lines(alloc, &mut kernel.head.inspector, copy, sizes.as_slice()).is_err() {
        let _made = kernel.made.pop();
        return Err(NoMemory);
    }
    kernel.nests = nests;
    Ok(())
}
