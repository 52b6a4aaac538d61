// Statements, run one after another.
ghost use Rattle.std.specs.Prelude.{◌≡◌, ◌-ℤ◌, ℕ, ◌+◌, ◌*◌, ◌^◌, ◌≤◌, ◌<◌, ◌++◌, ◌∷◌, [], map, length, nat_lt, IsTrue, pos};
ghost use Rattle.std.specs.List.{list_all};
ghost use Rattle.c_meaning.specs.Names.{child};
ghost use Rattle.c_meaning.specs.Scope.{fits, test_fits};
ghost use Rattle.c_meaning.specs.Value.{all_hold};
ghost use Rattle.c_meaning.specs.Memory.{bound};
ghost use Rattle.c_meaning.specs.Listing.{above_zero};
ghost use Rattle.c_meaning.specs.Run.{part, widths, sequence, turns, for_run};
ghost use Rattle.c_walk.specs.State.{state_of, with_number};
ghost use Rattle.c_walk.specs.Ready.{is_ready, are_ready, most_loops, most_children};
ghost use Rattle.c_walk.specs.Does.{Does, Told, told_of};

use crate::steps::{assign, grow, put};
use crate::{Halt, Listener, Memory};
use c_meaning::{EvalFault, View, eval_index, eval_test};
use c_tree::{Index, Stmt, Test};
use chill_base::{List, Name, Place};

// The place with one more child position.
fn child_of(at: &Place, position: u64) -> Place
    requires room { length at.now ≤ 16 }
    requires few { position ≤ 2 ^ 33 }
    ensures { result ≡ child at.now position }
{
    let mut place = *at;
    place.push(position as i64);
    place
}

// Whether all tests hold: from the left, up to the first false one.
fn eval_tests<V: View>(tests: &List<Test>, view: &V) -> Result<bool, EvalFault>
    requires { IsTrue (list_all (λ t. test_fits t (V.scope view.now)) tests.now) }
    ensures { result ≡ all_hold tests.now (V.sight view.now) }
{
    for test in tests.as_slice() {
        match eval_test(test, view) {
            Ok(true) => {}
            Ok(false) => return Ok(false),
            Err(fault) => return Err(fault),
        }
    }
    Ok(true)
}

/// The child position behind the statement, which stands at that one.
#[cycle(count)]
pub fn positions_after(statement: &Stmt, before: u64) -> u64
    requires { before + (part statement.now).width ≤ 2 ^ 33 }
    ensures { result ≡ before + (part statement.now).width }
{
    match statement {
        Stmt::If { tests: _, body } => positions_behind(body, before),
        Stmt::For { .. } => before + 1,
        Stmt::Assign { .. } => before + 1,
        Stmt::Put { .. } => before + 1,
        Stmt::Declare { .. } => before + 1,
        Stmt::Grow { .. } => before + 1,
    }
}

#[cycle(count)]
fn positions_behind(list: &List<Stmt>, before: u64) -> u64
    requires { before + widths (map part list.now) ≤ 2 ^ 33 }
    ensures { result ≡ before + widths (map part list.now) }
{
    let mut position = before;
    for statement in list.as_slice() {
        position = positions_after(statement, position);
    }
    position
}

/// The statements of a list at the place, from that child position on.
#[cycle(walk)]
pub fn run_statements<M: Memory, L: Listener>(
    memory: &mut M,
    listener: &mut L,
    list: &List<Stmt>,
    at: &Place,
    first: u64,
) -> Result<(), Halt>
    requires ready { IsTrue (are_ready list.now (M.scope memory.old) (length (M.rest memory.old).outer)) }
    requires loops { length (M.rest memory.old).outer ≤ most_loops }
    requires place { length at.now ≡ 2 * length (M.rest memory.old).outer }
    requires few { first + widths (map part list.now) ≤ 2 ^ 33 }
    ensures does { Does (sequence (map part list.now) (M.sight memory.old).value at.now first) (state_of (M.scope memory.old) (M.sight memory.old) (M.rest memory.old)) (state_of (M.scope memory.new) (M.sight memory.new) (M.rest memory.new)) result }
    ensures told { Told (told_of (L.line (M.scope memory.old).data_arrays) (sequence (map part list.now) (M.sight memory.old).value at.now first) (state_of (M.scope memory.old) (M.sight memory.old) (M.rest memory.old))) (L.heard listener.old) (L.heard listener.new) result }
{
    let mut position = first;
    for statement in list.as_slice() {
        if let Err(halt) = run_statement(memory, listener, statement, at, position) {
            return Err(halt);
        }
        position = positions_after(statement, position);
    }
    Ok(())
}

/// A statement of a list at the place, at that child position.
#[cycle(walk)]
pub fn run_statement<M: Memory, L: Listener>(
    memory: &mut M,
    listener: &mut L,
    statement: &Stmt,
    at: &Place,
    position: u64,
) -> Result<(), Halt>
    requires ready { IsTrue (is_ready statement.now (M.scope memory.old) (length (M.rest memory.old).outer)) }
    requires loops { length (M.rest memory.old).outer ≤ most_loops }
    requires place { length at.now ≡ 2 * length (M.rest memory.old).outer }
    requires few { position + (part statement.now).width ≤ 2 ^ 33 }
    ensures does { Does ((part statement.now).run (M.sight memory.old).value at.now position) (state_of (M.scope memory.old) (M.sight memory.old) (M.rest memory.old)) (state_of (M.scope memory.new) (M.sight memory.new) (M.rest memory.new)) result }
    ensures told { Told (told_of (L.line (M.scope memory.old).data_arrays) ((part statement.now).run (M.sight memory.old).value at.now position) (state_of (M.scope memory.old) (M.sight memory.old) (M.rest memory.old))) (L.heard listener.old) (L.heard listener.new) result }
{
    let here = child_of(at, position);
    match statement {
        Stmt::For {
            var,
            low,
            high,
            body,
        } => run_loop(memory, listener, body, var, low, high, &here),
        Stmt::If { tests, body } => match eval_tests(tests, memory) {
            Ok(true) => run_statements(memory, listener, body, at, position),
            Ok(false) => Ok(()),
            Err(fault) => Err(Halt::Fault { place: here, fault }),
        },
        Stmt::Assign { target, how, value } => assign(memory, listener, &here, target, *how, value),
        Stmt::Put { target, value } => put(memory, &here, target, value),
        Stmt::Declare {
            name: _,
            kind: _,
            inner: _,
        } => unreachable!(),
        Stmt::Grow { name, by } => grow(memory, &here, name, by),
    }
}

// A loop at its place: its two bounds once, and then its turns.
#[cycle(walk)]
fn run_loop<M: Memory, L: Listener>(
    memory: &mut M,
    listener: &mut L,
    body: &List<Stmt>,
    var: &Name,
    low: &Index,
    high: &Index,
    at: &Place,
) -> Result<(), Halt>
    requires low { IsTrue (fits low.now (M.scope memory.old)) }
    requires high { IsTrue (fits high.now (M.scope memory.old)) }
    requires ready { IsTrue (are_ready body.now (with_number var.now (M.scope memory.old)) (1 + length (M.rest memory.old).outer)) }
    requires loops { length (M.rest memory.old).outer < most_loops }
    requires place { length at.now ≡ 2 * length (M.rest memory.old).outer + 1 }
    requires few { widths (map part body.now) ≤ most_children }
    ensures does { Does (for_run var.now low.now high.now (map part body.now) (M.sight memory.old).value at.now) (state_of (M.scope memory.old) (M.sight memory.old) (M.rest memory.old)) (state_of (M.scope memory.new) (M.sight memory.new) (M.rest memory.new)) result }
    ensures told { Told (told_of (L.line (M.scope memory.old).data_arrays) (for_run var.now low.now high.now (map part body.now) (M.sight memory.old).value at.now) (state_of (M.scope memory.old) (M.sight memory.old) (M.rest memory.old))) (L.heard listener.old) (L.heard listener.new) result }
{
    let from = match eval_index(low, memory) {
        Ok(value) => value,
        Err(fault) => return Err(Halt::Fault { place: *at, fault }),
    };
    let to = match eval_index(high, memory) {
        Ok(value) => value,
        Err(fault) => return Err(Halt::Fault { place: *at, fault }),
    };
    run_turns(memory, listener, body, var, from, to, at)
}

#[cycle(walk)]
fn run_turns<M: Memory, L: Listener>(
    memory: &mut M,
    listener: &mut L,
    body: &List<Stmt>,
    var: &Name,
    from: i64,
    to: i64,
    at: &Place,
) -> Result<(), Halt>
    requires ready { IsTrue (are_ready body.now (with_number var.now (M.scope memory.old)) (1 + length (M.rest memory.old).outer)) }
    requires loops { length (M.rest memory.old).outer < most_loops }
    requires place { length at.now ≡ 2 * length (M.rest memory.old).outer + 1 }
    requires few { widths (map part body.now) ≤ most_children }
    ensures does { Does (turns (above_zero (to -ℤ from)) from (λ v. sequence (map part body.now) (bound var.now v (M.sight memory.old).value) (at.now ++ v ∷ []) 0)) (state_of (M.scope memory.old) (M.sight memory.old) (M.rest memory.old)) (state_of (M.scope memory.new) (M.sight memory.new) (M.rest memory.new)) result }
    ensures told { Told (told_of (L.line (M.scope memory.old).data_arrays) (turns (above_zero (to -ℤ from)) from (λ v. sequence (map part body.now) (bound var.now v (M.sight memory.old).value) (at.now ++ v ∷ []) 0)) (state_of (M.scope memory.old) (M.sight memory.old) (M.rest memory.old))) (L.heard listener.old) (L.heard listener.new) result }
{
    for value in from..to {
        if let Err(halt) = run_turn(memory, listener, body, var, value, at) {
            return Err(halt);
        }
    }
    Ok(())
}

#[cycle(walk)]
fn run_turn<M: Memory, L: Listener>(
    memory: &mut M,
    listener: &mut L,
    body: &List<Stmt>,
    var: &Name,
    value: i64,
    at: &Place,
) -> Result<(), Halt>
    requires ready { IsTrue (are_ready body.now (with_number var.now (M.scope memory.old)) (1 + length (M.rest memory.old).outer)) }
    requires loops { length (M.rest memory.old).outer < most_loops }
    requires place { length at.now ≡ 2 * length (M.rest memory.old).outer + 1 }
    requires few { widths (map part body.now) ≤ most_children }
    ensures does { Does (sequence (map part body.now) (bound var.now value (M.sight memory.old).value) (at.now ++ value ∷ []) 0) (state_of (M.scope memory.old) (M.sight memory.old) (M.rest memory.old)) (state_of (M.scope memory.new) (M.sight memory.new) (M.rest memory.new)) result }
    ensures told { Told (told_of (L.line (M.scope memory.old).data_arrays) (sequence (map part body.now) (bound var.now value (M.sight memory.old).value) (at.now ++ value ∷ []) 0) (state_of (M.scope memory.old) (M.sight memory.old) (M.rest memory.old))) (L.heard listener.old) (L.heard listener.new) result }
{
    memory.enter(*var, value);
    let mut here = *at;
    here.push(value);
    let ended = run_statements(memory, listener, body, &here, 0);
    memory.leave();
    ended
}
