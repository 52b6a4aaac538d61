// Which accesses conflict.
ghost use Rattle.std.specs.Prelude.{◌≡◌};
ghost use Rattle.depend_test.specs.Conflicts as spec;

use c_tree::How;
use nest_systems::is_name;
use nest_tree::Access;

/// Whether an assignment adds to its target or subtracts from it.
fn is_compound(how: How) -> bool
    ensures { result ≡ spec.is_compound how }
{
    match how {
        How::Write => false,
        How::Add => true,
        How::Subtract => true,
    }
}

/// Whether two accesses conflict: they name the same array, at least one is a target, which has the number 0, and not
/// both are targets of `+=` or `-=`.
pub fn conflict(
    first_how: How,
    first: &Access,
    first_number: usize,
    second_how: How,
    second: &Access,
    second_number: usize,
) -> bool
    ensures { result ≡ spec.conflict first_how first.now first_number second_how second.now second_number }
{
    if first_number != 0 && second_number != 0 {
        return false;
    }
    let both_add = is_compound(first_how) && is_compound(second_how);
    if first_number == 0 && second_number == 0 && both_add {
        return false;
    }
    is_name(first.array, second.array)
}
