// The names of a signature: its matrices, parameters and arrays.
ghost use Rattle.std.specs.Prelude.{◌≡◌, [], ◌+◌, ◌≤◌, ◌<◌, length, take, drop, IfOk};
ghost use Rattle.c_judge.specs.Names as names;
ghost use Rattle.c_judge.specs.Uses as uses;
ghost use Rattle.c_judge.specs.Signature as spec;

use crate::scope::{Meaning, Scope};
use crate::uses::{Rule, indexes_fault, is_same_kind, number_fault, refused};
use crate::{NameWhy, ProgramFault};
use c_tree::{Array, Index, Kind, Matrix, Program};
use chill_base::{Name, NoMemory};
use std::alloc::Global;

fn meaning_of(array: &Array) -> Meaning
    ensures { result ≡ spec.meaning_of array.now }
{
    Meaning::Array(array.kind, array.extents.len(), false)
}

// Of equal names the first counts.
fn enter_first(scope: &mut Scope, name: Name, meaning: Meaning) -> Result<(), NoMemory>
    ensures { IfOk result (λ u. scope.new ≡ spec.enter_first scope.old name meaning) }
{
    match scope.find(name) {
        Some(_) => Ok(()),
        None => scope.enter(name, meaning),
    }
}

fn enter_params(scope: &mut Scope, mut params: &[Name]) -> Result<(), NoMemory>
    ensures { IfOk result (λ u. scope.new ≡ spec.with_params scope.old params.entry.now) }
{
    'params: while let [name, rest @ ..] = params {
        enter_first(scope, *name, Meaning::Value)?;
        params = rest;
    }
    Ok(())
}

fn enter_arrays(scope: &mut Scope, mut arrays: &[Array]) -> Result<(), NoMemory>
    ensures { IfOk result (λ u. scope.new ≡ spec.with_arrays scope.old arrays.entry.now) }
{
    'arrays: while let [array, rest @ ..] = arrays {
        enter_first(scope, array.name, meaning_of(array))?;
        arrays = rest;
    }
    Ok(())
}

/// The names that stand everywhere.
#[tactic(auto, unfolding(crate::specs::Signature::signature))]
pub fn signature(alloc: Global, program: &Program) -> Result<Scope, NoMemory>
    ensures { IfOk result (λ scope. scope ≡ spec.signature program.now) }
{
    let mut scope = Scope::new(alloc);
    enter_params(&mut scope, program.params.as_slice())?;
    enter_arrays(&mut scope, program.arrays.as_slice())?;
    Ok(scope)
}

fn kind_fault(kind: Kind, name: Name, meaning: Option<Meaning>) -> Option<ProgramFault>
    ensures { result ≡ spec.kind_fault kind name meaning }
{
    match meaning {
        None => refused(name, NameWhy::Unknown),
        Some(Meaning::Value) => refused(name, NameWhy::Kind),
        Some(Meaning::Array(found, _, _)) => {
            if is_same_kind(found, kind) {
                None
            } else {
                refused(name, NameWhy::Kind)
            }
        }
    }
}

fn is_name(a: Name, b: Name) -> bool
    ensures { result ≡ spec.is_name a b }
{
    a == b
}

fn is_var(name: Name, e: &Index) -> bool
    ensures { result ≡ spec.is_var name e.now }
{
    match e {
        Index::Var(found) => is_name(*found, name),
        _ => false,
    }
}

fn is_one(e: &Index) -> bool
    ensures { result ≡ spec.is_one e.now }
{
    match e {
        Index::Const(n) => *n == 1,
        _ => false,
    }
}

// Is the expression `name + 1`.
fn is_next(name: Name, e: &Index) -> bool
    ensures { result ≡ spec.is_next name e.now }
{
    match e {
        Index::Plus(left, right) => is_one(right.get()) && is_var(name, left.get()),
        _ => false,
    }
}

// The extents of the first array of that name.
fn extents_of<'a>(mut arrays: &'a [Array], name: Name) -> &'a [Index]
    ensures { result.now ≡ spec.extents_of arrays.entry.now name }
{
    'arrays: while let [array, rest @ ..] = arrays {
        if is_name(array.name, name) {
            return array.extents.as_slice();
        }
        arrays = rest;
    }
    &[]
}

fn has_rows(name: Name, extents: &[Index]) -> bool
    ensures { result ≡ spec.has_rows name extents.now }
{
    match extents {
        [extent] => is_next(name, extent),
        _ => false,
    }
}

fn has_entries(name: Name, extents: &[Index]) -> bool
    ensures { result ≡ spec.has_entries name extents.now }
{
    match extents {
        [extent] => is_var(name, extent),
        _ => false,
    }
}

fn has_array(name: Name, matrix: &Matrix) -> bool
    ensures { result ≡ spec.has_array name matrix.now }
{
    is_name(matrix.index, name) || is_name(matrix.col, name) || is_name(matrix.value, name)
}

fn have_array(mut matrices: &[Matrix], name: Name) -> bool
    ensures { result ≡ spec.have_array matrices.entry.now name }
{
    'matrices: while let [matrix, rest @ ..] = matrices {
        if has_array(name, matrix) {
            return true;
        }
        matrices = rest;
    }
    false
}

// Does a matrix other than the one of that number have the array.
fn is_taken(matrices: &[Matrix], number: usize, name: Name) -> bool
    requires { number < length matrices.now }
    ensures { result ≡ spec.is_taken matrices.now number name }
{
    have_array(&matrices[..number], name) || have_array(&matrices[number + 1..], name)
}

fn matrix_refused(is_declared: bool, is_taken: bool, name: Name) -> Option<ProgramFault>
    ensures { result ≡ spec.matrix_refused is_declared is_taken name }
{
    if is_declared && !is_taken {
        None
    } else {
        refused(name, NameWhy::Matrix)
    }
}

// The arrays of one matrix, declared as it needs them and of no other matrix.
fn declared_fault(
    arrays: &[Array],
    matrices: &[Matrix],
    number: usize,
    matrix: &Matrix,
) -> Option<ProgramFault>
    requires { number < length matrices.now }
    ensures { result ≡ spec.declared_fault arrays.now matrices.now number matrix.now }
{
    let value = matrix_refused(
        has_entries(matrix.count, extents_of(arrays, matrix.value)),
        is_taken(matrices, number, matrix.value),
        matrix.value,
    );
    let col = matrix_refused(
        has_entries(matrix.count, extents_of(arrays, matrix.col)),
        is_taken(matrices, number, matrix.col),
        matrix.col,
    )
    .or(value);
    matrix_refused(
        has_rows(matrix.rows, extents_of(arrays, matrix.index)),
        is_taken(matrices, number, matrix.index),
        matrix.index,
    )
    .or(col)
}

// The three parameters of a matrix.
fn sides_fault(scope: &Scope, matrix: &Matrix) -> Option<ProgramFault>
    ensures { result ≡ spec.sides_fault scope.now matrix.now }
{
    let count = number_fault(matrix.count, scope.find(matrix.count));
    let cols = number_fault(matrix.cols, scope.find(matrix.cols)).or(count);
    number_fault(matrix.rows, scope.find(matrix.rows)).or(cols)
}

// The three arrays of a matrix.
fn kinds_fault(scope: &Scope, matrix: &Matrix) -> Option<ProgramFault>
    ensures { result ≡ spec.kinds_fault scope.now matrix.now }
{
    let value = kind_fault(Kind::Number, matrix.value, scope.find(matrix.value));
    let col = kind_fault(Kind::Position, matrix.col, scope.find(matrix.col)).or(value);
    kind_fault(Kind::Position, matrix.index, scope.find(matrix.index)).or(col)
}

fn matrix_fault(
    scope: &Scope,
    arrays: &[Array],
    matrices: &[Matrix],
    number: usize,
    matrix: &Matrix,
) -> Option<ProgramFault>
    requires { number < length matrices.now }
    ensures { result ≡ spec.matrix_fault scope.now arrays.now matrices.now number matrix.now }
{
    let declared = declared_fault(arrays, matrices, number, matrix);
    let sides = sides_fault(scope, matrix).or(declared);
    kinds_fault(scope, matrix).or(sides)
}

fn matrices_fault(scope: &Scope, arrays: &[Array], matrices: &[Matrix]) -> Option<ProgramFault>
    ensures { result ≡ spec.matrices_from scope.now arrays.now matrices.now 0 matrices.now }
{
    let mut rest = matrices;
    let mut number = 0;
    'matrices: while let [matrix, more @ ..] = rest {
        if let Some(fault) = matrix_fault(scope, arrays, matrices, number, matrix) {
            return Some(fault);
        }
        number += 1;
        rest = more;
    }
    None
}

fn all_digits(bytes: &[u8]) -> bool
    ensures { result ≡ spec.all_digits bytes.now }
{
    bytes.iter().all(|b| b.is_ascii_digit())
}

// Printed programs name their loop variables `t` and a number.
fn is_reserved(name: Name) -> bool
    ensures { result ≡ spec.is_reserved name }
{
    let bytes = name.bytes();
    bytes[0] == b't' && bytes.len() > 1 && all_digits(&bytes[1..])
}

fn is_among(name: Name, mut names: &[Name]) -> bool
    ensures { result ≡ spec.is_among name names.entry.now }
{
    'names: while let [found, rest @ ..] = names {
        if is_name(*found, name) {
            return true;
        }
        names = rest;
    }
    false
}

fn param_fault(before: &[Name], name: Name) -> Option<ProgramFault>
    ensures { result ≡ spec.param_fault before.now name }
{
    if is_among(name, before) {
        refused(name, NameWhy::Twice)
    } else if is_reserved(name) {
        refused(name, NameWhy::Reserved)
    } else {
        None
    }
}

fn params_fault(params: &[Name]) -> Option<ProgramFault>
    ensures { result ≡ spec.params_from [] params.now }
{
    for (i, name) in params.iter().enumerate() {
        if let Some(fault) = param_fault(&params[..i], *name) {
            return Some(fault);
        }
    }
    None
}

fn is_position_of_none(mut matrices: &[Matrix], name: Name) -> bool
    ensures { result ≡ spec.is_position_of_none matrices.entry.now name }
{
    'matrices: while let [matrix, rest @ ..] = matrices {
        if is_name(matrix.index, name) || is_name(matrix.col, name) {
            return false;
        }
        matrices = rest;
    }
    true
}

fn is_declared(mut arrays: &[Array], name: Name) -> bool
    ensures { result ≡ spec.is_declared arrays.entry.now name }
{
    'arrays: while let [array, rest @ ..] = arrays {
        if is_name(array.name, name) {
            return true;
        }
        arrays = rest;
    }
    false
}

// An array behind the others.
fn declaration_fault(
    params: &[Name],
    matrices: &[Matrix],
    before: &[Array],
    array: &Array,
) -> Option<ProgramFault>
    ensures { result ≡ spec.declaration_fault params.now matrices.now before.now array.now }
{
    let name = array.name;
    if is_among(name, params) || is_declared(before, name) {
        refused(name, NameWhy::Twice)
    } else if is_same_kind(array.kind, Kind::Position) && is_position_of_none(matrices, name) {
        refused(name, NameWhy::NoMatrix)
    } else if is_reserved(name) {
        refused(name, NameWhy::Reserved)
    } else {
        None
    }
}

fn array_fault(
    scope: &Scope,
    params: &[Name],
    matrices: &[Matrix],
    before: &[Array],
    array: &Array,
) -> Option<ProgramFault>
    ensures { result ≡ spec.array_fault scope.now params.now matrices.now before.now array.now }
{
    let extents = indexes_fault(Rule::Parameters, scope, array.extents.as_slice());
    declaration_fault(params, matrices, before, array).or(extents)
}

fn arrays_fault(
    scope: &Scope,
    params: &[Name],
    matrices: &[Matrix],
    arrays: &[Array],
) -> Option<ProgramFault>
    ensures { result ≡ spec.arrays_from scope.now params.now matrices.now [] arrays.now }
{
    for (i, array) in arrays.iter().enumerate() {
        if let Some(fault) = array_fault(scope, params, matrices, &arrays[..i], array) {
            return Some(fault);
        }
    }
    None
}

/// The first name of the signature that can't stand where it does.
#[tactic(auto, unfolding(crate::specs::Signature::signature_fault))]
pub fn signature_fault(scope: &Scope, program: &Program) -> Option<ProgramFault>
    ensures { result ≡ spec.signature_fault scope.now program.now }
{
    let params = program.params.as_slice();
    let matrices = program.matrices.as_slice();
    let arrays = program.arrays.as_slice();
    let of_arrays = arrays_fault(scope, params, matrices, arrays);
    let of_params = params_fault(params).or(of_arrays);
    matrices_fault(scope, arrays, matrices).or(of_params)
}
