// The run of an inspector, whose declarations stand in its outermost list alone.
ghost use Rattle.std.specs.Prelude.{◌≡◌, ◌≤◌, ◌+◌, ◌^◌, ℕ, [], length, map, IsTrue, MatchOption, None, Some};
ghost use Rattle.std.specs.List.{list_all};
ghost use Rattle.c_meaning.specs.Names.{child};
ghost use Rattle.c_meaning.specs.Scope.{fits};
ghost use Rattle.c_meaning.specs.Run.{part, widths, sequence};
ghost use Rattle.c_walk.specs.Does.{declaration, IsQuiet};
ghost use Rattle.c_run.specs.Store.{state_of_store, scope_of_store, sight_of_store, tables_of};
ghost use Rattle.c_run.specs.Arrays.{table_of};
ghost use Rattle.c_run.specs.Ready.{declaration_of, declaration_fits, declared_in, are_inspectable, scope_behind, with_array};
ghost use Rattle.c_run.specs.Inspects.{Inspects, extent_in, judged_extents, inner_extents};

use crate::store::Store;
use c_meaning::{EvalFault, eval_index};
use c_tree::{Index, Kind, Stmt};
use c_walk::{Halt, Silent, positions_after, run_statement};
use chill_base::{List, Name, Place};
use std::alloc::Global;

/// The greatest product of the extents behind the first.
const GREATEST: u128 = 1 << 62;

// A growable array.
#[derive(Clone, Copy)]
struct Declared<'a> {
    name: &'a Name,
    kind: Kind,
    inner: &'a List<Index>,
}

// What a statement declares.
fn declaration<'a>(statement: &'a Stmt) -> Option<Declared<'a>>
    ensures { MatchOption result (declaration_of statement.now ≡ None) (λ d. declaration_of statement.now ≡ Some (record { name = d.name.now; kind = d.kind; inner = d.inner.now })) }
{
    match statement {
        Stmt::Declare { name, kind, inner } => Some(Declared {
            name,
            kind: *kind,
            inner,
        }),
        Stmt::For { .. } => None,
        Stmt::If { .. } => None,
        Stmt::Assign { .. } => None,
        Stmt::Put { .. } => None,
        Stmt::Grow { .. } => None,
    }
}

// The value of the extent at that place, or 1 where it is missing.
fn extent_or_one(store: &Store, inner: &[Index], at: usize) -> Result<i64, EvalFault>
    requires { IsTrue (list_all (λ e. fits e (scope_of_store store.now)) inner.now) }
    ensures { result ≡ extent_in inner.now at (sight_of_store store.now) }
{
    if at < inner.len() {
        eval_index(&inner[at], store)
    } else {
        Ok(1)
    }
}

fn judge_extents(deep: i64, wide: i64) -> Result<[usize; 2], EvalFault>
    ensures { result ≡ judged_extents deep wide }
{
    if deep < 0 || wide < 0 || deep as u128 * wide as u128 > GREATEST {
        return Err(EvalFault::Range);
    }
    Ok([deep as usize, wide as usize])
}

// The two extents behind the first. Both are evaluated before one is judged.
fn inner_extents(store: &Store, inner: &[Index]) -> Result<[usize; 2], EvalFault>
    requires { IsTrue (list_all (λ e. fits e (scope_of_store store.now)) inner.now) }
    ensures { result ≡ inner_extents inner.now (sight_of_store store.now) }
{
    let deep = match extent_or_one(store, inner, 0) {
        Ok(deep) => deep,
        Err(fault) => return Err(fault),
    };
    match extent_or_one(store, inner, 1) {
        Ok(wide) => judge_extents(deep, wide),
        Err(fault) => Err(fault),
    }
}

fn declare(
    alloc: Global,
    store: &mut Store,
    place: Place,
    name: Name,
    kind: Kind,
    inner: &[Index],
) -> Result<(), Halt>
    requires new { table_of (tables_of store.old.arrays) name ≡ None }
    requires few { length inner.now ≤ 2 }
    requires fits { IsTrue (list_all (λ e. fits e (scope_of_store store.old)) inner.now) }
    ensures does { Inspects (declaration name kind inner.now (sight_of_store store.old).value place) (with_array name kind (length inner.now + 1) (scope_of_store store.old)) (state_of_store store.old) (state_of_store store.new) result }
    ensures quiet { IsQuiet result }
{
    let dimensions = inner.len() + 1;
    match inner_extents(store, inner) {
        Ok(extents) => match store.arrays.declare(alloc, name, kind, dimensions, extents) {
            Ok(()) => Ok(()),
            Err(_) => Err(Halt::NoMemory),
        },
        Err(fault) => Err(Halt::Fault { place, fault }),
    }
}

// The place of a statement of the outermost list.
fn place_of(position: u64) -> Place
    requires { position ≤ 2 ^ 33 }
    ensures { result ≡ child [] position }
{
    let mut place = Place::new();
    place.push(position as i64);
    place
}

fn inspect_statement(
    alloc: Global,
    store: &mut Store,
    statement: &Stmt,
    position: u64,
) -> Result<(), Halt>
    requires loops { length (state_of_store store.old).outer ≡ 0 }
    requires fits { IsTrue (declaration_fits (declaration_of statement.now) statement.now (scope_of_store store.old)) }
    requires few { position + (part statement.now).width ≤ 2 ^ 33 }
    ensures does { Inspects ((part statement.now).run (sight_of_store store.old).value [] position) (declared_in (declaration_of statement.now) (scope_of_store store.old)) (state_of_store store.old) (state_of_store store.new) result }
    ensures quiet { IsQuiet result }
{
    match declaration(statement) {
        Some(declared) => declare(
            alloc,
            store,
            place_of(position),
            *declared.name,
            declared.kind,
            declared.inner.as_slice(),
        ),
        None => {
            let at = Place::new();
            run_statement(store, &mut Silent, statement, &at, position)
        }
    }
}

/// The statements of an inspector, one after another.
pub(crate) fn inspect(alloc: Global, store: &mut Store, list: &List<Stmt>) -> Result<(), Halt>
    requires loops { length (state_of_store store.old).outer ≡ 0 }
    requires fits { IsTrue (are_inspectable list.now (scope_of_store store.old)) }
    requires few { widths (map part list.now) ≤ 2 ^ 33 }
    ensures does { Inspects (sequence (map part list.now) (sight_of_store store.old).value [] 0) (scope_behind list.now (scope_of_store store.old)) (state_of_store store.old) (state_of_store store.new) result }
    ensures quiet { IsQuiet result }
{
    let mut position = 0;
    for statement in list.as_slice() {
        if let Err(halt) = inspect_statement(alloc, store, statement, position) {
            return Err(halt);
        }
        position = positions_after(statement, position);
    }
    Ok(())
}
