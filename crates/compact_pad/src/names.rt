// The names of the arrays that a padding makes.
ghost use Rattle.std.specs.Prelude.{◌≡◌, IfOk, OnOk, Some};
ghost use Rattle.one_statement.specs.Made.{made_name};
ghost use Rattle.compact_pad.specs.Names as spec;
ghost use Rattle.compact_pad.specs.Answers.{Judges};
ghost use Rattle.compact_pad.specs.Names.{AreFree};

use chill_base::{Name, Stop};
use inspectors::{MarkNames, RowNames};
use nest_tree::{Kernel, ShapeWhy};
use one_statement::{has_room, is_free, made_name};

/// The names of kept values and of their layout.
#[derive(Clone, Copy)]
pub struct KeptNames {
    pub marks: MarkNames,
    pub layout: Name,
}

/// Whether the name with these bytes behind it can't be made, since something else has it.
fn is_taken(kernel: &Kernel, prefix: Name, suffix: &[u8]) -> bool
    ensures { result ≡ spec.is_taken kernel.now (made_name prefix suffix.now) }
{
    match made_name(prefix, suffix) {
        Some(name) => !is_free(kernel, name),
        None => false,
    }
}

fn is_mark_taken(kernel: &Kernel, prefix: Name) -> bool
    ensures { result ≡ spec.any_taken kernel.now (spec.mark_list prefix) }
{
    if is_taken(kernel, prefix, b"_ptr") {
        return true;
    }
    if is_taken(kernel, prefix, b"_val") {
        return true;
    }
    if is_taken(kernel, prefix, b"_num") {
        return true;
    }
    is_taken(kernel, prefix, b"_mark")
}

fn is_kept_taken(kernel: &Kernel, prefix: Name) -> bool
    ensures { result ≡ spec.any_taken kernel.now (spec.kept_list prefix) }
{
    if is_taken(kernel, prefix, b"_lay") {
        return true;
    }
    is_mark_taken(kernel, prefix)
}

fn is_row_taken(kernel: &Kernel, prefix: Name) -> bool
    ensures { result ≡ spec.any_taken kernel.now (spec.row_list prefix) }
{
    if is_taken(kernel, prefix, b"_wid") {
        return true;
    }
    if is_taken(kernel, prefix, b"_lay") {
        return true;
    }
    is_taken(kernel, prefix, b"_lcol")
}

fn mark_names(prefix: Name) -> Option<MarkNames>
    ensures { result ≡ spec.mark_names prefix }
{
    let ptr = made_name(prefix, b"_ptr")?;
    let val = made_name(prefix, b"_val")?;
    let num = made_name(prefix, b"_num")?;
    let mark = made_name(prefix, b"_mark")?;
    Some(MarkNames {
        ptr,
        val,
        num,
        mark,
    })
}

fn kept_names(prefix: Name) -> Option<KeptNames>
    ensures { result ≡ spec.kept_names prefix }
{
    let marks = mark_names(prefix)?;
    let layout = made_name(prefix, b"_lay")?;
    Some(KeptNames { marks, layout })
}

fn row_names(prefix: Name) -> Option<RowNames>
    ensures { result ≡ spec.row_names prefix }
{
    let wid = made_name(prefix, b"_wid")?;
    let lay = made_name(prefix, b"_lay")?;
    let lcol = made_name(prefix, b"_lcol")?;
    Some(RowNames { wid, lay, lcol })
}

/// The names of kept values and of their layout, where they can be made.
pub fn free_kept_names(kernel: &Kernel, prefix: Name) -> Result<KeptNames, Stop<ShapeWhy>>
    ensures names { IfOk result (λ b. spec.kept_names prefix ≡ Some b) }
    ensures free { OnOk result (AreFree kernel.now (spec.kept_list prefix)) }
    ensures shape { Judges (spec.shape_of kernel.now (spec.kept_list prefix)) result }
{
    if is_kept_taken(kernel, prefix) {
        return Err(Stop::Refused(ShapeWhy::NameTaken));
    }
    let Some(names) = kept_names(prefix) else {
        return Err(Stop::Refused(ShapeWhy::Limit));
    };
    if !has_room(kernel, 5) {
        return Err(Stop::Refused(ShapeWhy::Limit));
    }
    Ok(names)
}

/// The names of padded rows, where they can be made.
pub fn free_row_names(kernel: &Kernel, prefix: Name) -> Result<RowNames, Stop<ShapeWhy>>
    ensures names { IfOk result (λ b. spec.row_names prefix ≡ Some b) }
    ensures free { OnOk result (AreFree kernel.now (spec.row_list prefix)) }
    ensures shape { Judges (spec.shape_of kernel.now (spec.row_list prefix)) result }
{
    if is_row_taken(kernel, prefix) {
        return Err(Stop::Refused(ShapeWhy::NameTaken));
    }
    let Some(names) = row_names(prefix) else {
        return Err(Stop::Refused(ShapeWhy::Limit));
    };
    if !has_room(kernel, 3) {
        return Err(Stop::Refused(ShapeWhy::Limit));
    }
    Ok(names)
}
