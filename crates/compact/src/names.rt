// The names that a compacted level makes.
ghost use Rattle.std.specs.Prelude.{◌≡◌, ◌≤◌, ◌+◌, length, IfOk, Some};
ghost use Rattle.compact.specs.Names as spec;
ghost use Rattle.compact.specs.Names.{AreFree};
ghost use Rattle.compact.specs.Shapes.{Judges};

use chill_base::Name;
use inspectors::MarkNames;
use nest_tree::{Kernel, ShapeWhy};
use one_statement::{has_room, is_free, made_name};

fn all_names(
    ptr: Option<Name>,
    val: Option<Name>,
    num: Option<Name>,
    mark: Option<Name>,
) -> Option<MarkNames>
    ensures { result ≡ spec.all_names ptr val num mark }
{
    let ptr = ptr?;
    let val = val?;
    let num = num?;
    let mark = mark?;
    Some(MarkNames {
        ptr,
        val,
        num,
        mark,
    })
}

/// The names with this prefix, where all are names.
pub fn mark_names(prefix: Name) -> Option<MarkNames>
    ensures { result ≡ spec.mark_names prefix }
{
    all_names(
        made_name(prefix, b"_ptr"),
        made_name(prefix, b"_val"),
        made_name(prefix, b"_num"),
        made_name(prefix, b"_mark"),
    )
}

/// Whether there is such a name, and no array of it can be made.
fn is_taken(kernel: &Kernel, name: &Option<Name>) -> bool
    ensures { result ≡ spec.is_taken kernel.now name.now }
{
    match *name {
        Some(name) => !is_free(kernel, name),
        None => false,
    }
}

/// Whether one of these names is taken.
fn any_taken(
    kernel: &Kernel,
    ptr: &Option<Name>,
    val: &Option<Name>,
    num: &Option<Name>,
    mark: &Option<Name>,
) -> bool
    ensures { result ≡ spec.any_taken kernel.now ptr.now val.now num.now mark.now }
{
    is_taken(kernel, ptr)
        || is_taken(kernel, val)
        || is_taken(kernel, num)
        || is_taken(kernel, mark)
}

/// These names, where they are free, none is too long, and there is room for their arrays.
fn judged_names(
    kernel: &Kernel,
    ptr: Option<Name>,
    val: Option<Name>,
    num: Option<Name>,
    mark: Option<Name>,
) -> Result<MarkNames, ShapeWhy>
    ensures shape { Judges (spec.shape_of kernel.now ptr val num mark) result }
    ensures names { IfOk result (λ b. spec.all_names ptr val num mark ≡ Some b) }
    ensures free { IfOk result (AreFree kernel.now) }
    ensures room { IfOk result (λ b. length kernel.now.made + 4 ≤ 384) }
{
    if any_taken(kernel, &ptr, &val, &num, &mark) {
        return Err(ShapeWhy::NameTaken);
    }
    let Some(names) = all_names(ptr, val, num, mark) else {
        return Err(ShapeWhy::Limit);
    };
    if !has_room(kernel, 4) {
        return Err(ShapeWhy::Limit);
    }
    Ok(names)
}

/// The names with this prefix, where they are free, none is too long, and there is room for their arrays.
pub fn free_names(kernel: &Kernel, prefix: Name) -> Result<MarkNames, ShapeWhy>
    ensures shape { Judges (spec.names_shape kernel.now prefix) result }
    ensures names { IfOk result (λ b. spec.mark_names prefix ≡ Some b) }
    ensures free { IfOk result (AreFree kernel.now) }
    ensures room { IfOk result (λ b. length kernel.now.made + 4 ≤ 384) }
{
    judged_names(
        kernel,
        made_name(prefix, b"_ptr"),
        made_name(prefix, b"_val"),
        made_name(prefix, b"_num"),
        made_name(prefix, b"_mark"),
    )
}
