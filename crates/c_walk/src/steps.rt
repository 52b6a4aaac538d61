// The statements without parts, at their places.
ghost use Rattle.std.specs.Prelude.{◌≡◌, ◌&&◌, ◌≤◌, ◌^◌, ◌∷◌, [], IsTrue, pos};
ghost use Rattle.c_meaning.specs.Scope.{fits, cell_fits, data_cell_fits};
ghost use Rattle.c_meaning.specs.Ground.{updated};
ghost use Rattle.c_meaning.specs.Run.{is_within, grown};
ghost use Rattle.c_walk.specs.State.{state_of};
ghost use Rattle.c_walk.specs.Ready.{data_fits, has_array};
ghost use Rattle.c_walk.specs.Does.{Does, Told, IsQuiet, told_of, assignment, index_assignment, growth};

use crate::data::eval_data;
use crate::{Halt, Listener, Memory};
use c_meaning::{EvalFault, eval_index, eval_subscripts};
use c_tree::{Cell, Expr, How, Index};
use chill_base::{Name, NoMemory, Place};

fn updated(how: How, old: u64, value: u64) -> u64
    ensures { result ≡ updated how old value }
{
    match how {
        How::Write => value,
        How::Add => old.wrapping_add(value),
        How::Subtract => old.wrapping_sub(value),
    }
}

/// An assignment to a data cell.
pub(crate) fn assign<M: Memory, L: Listener>(
    memory: &mut M,
    listener: &mut L,
    place: &Place,
    target: &Cell,
    how: How,
    value: &Expr,
) -> Result<(), Halt>
    requires { IsTrue (data_cell_fits target.now (M.scope memory.old) && data_fits value.now (M.scope memory.old)) }
    ensures does { Does (assignment target.now how value.now (M.sight memory.old).value place.now) (state_of (M.scope memory.old) (M.sight memory.old) (M.rest memory.old)) (state_of (M.scope memory.new) (M.sight memory.new) (M.rest memory.new)) result }
    ensures told { Told (told_of (L.line (M.scope memory.old).data_arrays) (assignment target.now how value.now (M.sight memory.old).value place.now) (state_of (M.scope memory.old) (M.sight memory.old) (M.rest memory.old))) (L.heard listener.old) (L.heard listener.new) result }
{
    let worth = match eval_data(value, memory) {
        Ok(worth) => worth,
        Err(fault) => return Err(Halt::Fault {
            place: *place,
            fault,
        }),
    };
    let at = match eval_subscripts(&target.at, memory) {
        Ok(at) => at,
        Err(fault) => return Err(Halt::Fault {
            place: *place,
            fault,
        }),
    };
    match memory.data_cell(&target.array, at) {
        Some(old) => match listener.hear(memory, place, target, how, value) {
            Ok(()) => {
                memory.set_data(&target.array, at, updated(how, old, worth));
                Ok(())
            }
            Err(_) => Err(Halt::WriteFault),
        },
        None => Err(Halt::Fault {
            place: *place,
            fault: EvalFault::Outside {
                array: target.array,
            },
        }),
    }
}

/// An assignment to a cell of an index array.
pub(crate) fn put<M: Memory>(
    memory: &mut M,
    place: &Place,
    target: &Cell,
    value: &Index,
) -> Result<(), Halt>
    requires { IsTrue (cell_fits target.now (M.scope memory.old) && fits value.now (M.scope memory.old)) }
    ensures does { Does (index_assignment target.now value.now (M.sight memory.old).value place.now) (state_of (M.scope memory.old) (M.sight memory.old) (M.rest memory.old)) (state_of (M.scope memory.new) (M.sight memory.new) (M.rest memory.new)) result }
    ensures quiet { IsQuiet result }
{
    let number = match eval_index(value, memory) {
        Ok(number) => number,
        Err(fault) => return Err(Halt::Fault {
            place: *place,
            fault,
        }),
    };
    let at = match eval_subscripts(&target.at, memory) {
        Ok(at) => at,
        Err(fault) => return Err(Halt::Fault {
            place: *place,
            fault,
        }),
    };
    match memory.cell(&target.array, at) {
        Some(_) => {
            memory.set_index(&target.array, at, number);
            Ok(())
        }
        None => Err(Halt::Fault {
            place: *place,
            fault: EvalFault::Outside {
                array: target.array,
            },
        }),
    }
}

/// The greatest first extent, and the greatest number of cells.
const GREATEST: u128 = 1 << 62;

// Whether so many rows of that size are within the limits.
fn has_room(first: u128, deep: u64, wide: u64) -> bool
    ensures { result ≡ is_within (pos first ∷ pos deep ∷ pos wide ∷ []) }
{
    if first > GREATEST {
        return false;
    }
    let inner = deep as u128 * wide as u128;
    match first.checked_mul(inner) {
        Some(cells) => cells <= GREATEST,
        None => false,
    }
}

/// A growth by zero cells.
pub(crate) fn grow<M: Memory>(
    memory: &mut M,
    place: &Place,
    name: &Name,
    by: &Index,
) -> Result<(), Halt>
    requires { IsTrue (has_array name.now (M.scope memory.old) && fits by.now (M.scope memory.old)) }
    ensures does { Does (growth name.now by.now (M.sight memory.old).value place.now) (state_of (M.scope memory.old) (M.sight memory.old) (M.rest memory.old)) (state_of (M.scope memory.new) (M.sight memory.new) (M.rest memory.new)) result }
    ensures quiet { IsQuiet result }
{
    let count = match eval_index(by, memory) {
        Ok(count) => count,
        Err(fault) => return Err(Halt::Fault {
            place: *place,
            fault,
        }),
    };
    if count < 0 {
        return Err(Halt::Fault {
            place: *place,
            fault: EvalFault::Range,
        });
    }
    let count = count as u64;
    let [first, deep, wide] = memory.extents(name);
    if !has_room(first as u128 + count as u128, deep, wide) {
        return Err(Halt::Fault {
            place: *place,
            fault: EvalFault::Range,
        });
    }
    match memory.grow(name, count) {
        Ok(()) => Ok(()),
        Err(NoMemory) => Err(Halt::NoMemory),
    }
}
