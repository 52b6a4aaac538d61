// The first name of an expression, in reading order, at which it doesn't keep a rule.
ghost use Rattle.std.specs.Prelude.{◌≡◌};
ghost use Rattle.c_judge.specs.Uses as spec;
ghost use Rattle.c_judge.specs.Names.{Names, because};
ghost use Rattle.c_judge.specs.declared.uses.Rule.{Rule};

use crate::scope::{Meaning, Scope};
use crate::{NameWhy, ProgramFault};
use c_tree::{Cell, Expr, Index, Kind, Subscripts};
use chill_base::Name;

/// What is asked of the names of an expression.
#[derive(Clone, Copy, Debug, PartialEq, Eq)]
pub enum Rule {
    /// They are in scope, and each is of the kind that its place needs.
    InScope,
    /// They are parameters.
    Parameters,
    /// They are none of the names.
    Unchanged,
}

/// A name that can't stand where it does.
pub fn refused(name: Name, why: NameWhy) -> Option<ProgramFault>
    ensures { result ≡ because name why }
{
    Some(ProgramFault::Name { name, why })
}

pub fn is_same_kind(a: Kind, b: Kind) -> bool
    ensures { result ≡ spec.same_kind a b }
{
    match (a, b) {
        (Kind::Number, Kind::Number) | (Kind::Position, Kind::Position) => true,
        _ => false,
    }
}

/// A name that stands for a number.
pub fn number_fault(name: Name, meaning: Option<Meaning>) -> Option<ProgramFault>
    ensures { result ≡ spec.number_fault name meaning }
{
    match meaning {
        None => refused(name, NameWhy::Unknown),
        Some(Meaning::Value) => None,
        Some(Meaning::Array(_, _, _)) => refused(name, NameWhy::Kind),
    }
}

/// As many subscripts as the array has extents.
pub fn dims_fault(name: Name, extents: usize, subscripts: usize) -> Option<ProgramFault>
    ensures { result ≡ spec.dims_fault name extents subscripts }
{
    if extents == subscripts {
        None
    } else {
        refused(name, NameWhy::Dims)
    }
}

fn array_fault(
    kind: Kind,
    name: Name,
    subscripts: usize,
    meaning: Option<Meaning>,
) -> Option<ProgramFault>
    ensures { result ≡ spec.array_fault kind name subscripts meaning }
{
    match meaning {
        None => refused(name, NameWhy::Unknown),
        Some(Meaning::Value) => refused(name, NameWhy::Kind),
        Some(Meaning::Array(found, extents, _)) => {
            if is_same_kind(found, kind) {
                dims_fault(name, extents, subscripts)
            } else {
                refused(name, NameWhy::Kind)
            }
        }
    }
}

fn no_array_fault(name: Name, meaning: Option<Meaning>) -> Option<ProgramFault>
    ensures { result ≡ spec.no_array_fault name meaning }
{
    match meaning {
        None => refused(name, NameWhy::Unknown),
        Some(_) => refused(name, NameWhy::Kind),
    }
}

fn changed_fault(name: Name, meaning: Option<Meaning>) -> Option<ProgramFault>
    ensures { result ≡ spec.changed_fault name meaning }
{
    match meaning {
        None => None,
        Some(_) => Some(ProgramFault::Fixed { name }),
    }
}

fn value_fault(rule: Rule, scope: &Scope, name: Name) -> Option<ProgramFault>
    ensures { result ≡ spec.value_fault rule scope.now name }
{
    match rule {
        Rule::InScope | Rule::Parameters => number_fault(name, scope.find(name)),
        Rule::Unchanged => None,
    }
}

fn cell_fault(
    rule: Rule,
    scope: &Scope,
    kind: Kind,
    name: Name,
    subscripts: usize,
) -> Option<ProgramFault>
    ensures { result ≡ spec.cell_fault rule scope.now kind name subscripts }
{
    match rule {
        Rule::InScope => array_fault(kind, name, subscripts, scope.find(name)),
        Rule::Parameters => no_array_fault(name, scope.find(name)),
        Rule::Unchanged => changed_fault(name, scope.find(name)),
    }
}

/// How many subscripts there are.
pub fn subscript_count(at: &Subscripts) -> usize
    ensures { (r : Rule) (names : Names) → (spec.inside r names at.now).count ≡ result }
{
    match at {
        Subscripts::One(_) => 1,
        Subscripts::Two(_, _) => 2,
        Subscripts::Three(_, _, _) => 3,
    }
}

/// The first fault of an index expression. What is found further left comes before what was found.
#[cycle(uses)]
pub fn index_fault(rule: Rule, scope: &Scope, e: &Index) -> Option<ProgramFault>
    ensures { result ≡ spec.index_fault rule scope.now e.now }
{
    let mut found = None;
    let mut rest = e;
    loop {
        match rest {
            Index::Const(_) => return found,
            Index::Var(name) => return value_fault(rule, scope, *name).or(found),
            Index::At(cell) => return index_cell_fault(rule, scope, cell).or(found),
            Index::Neg(inner) => rest = inner.get(),
            Index::Plus(left, right) => {
                found = index_fault(rule, scope, right.get()).or(found);
                rest = left.get();
            }
            Index::Minus(left, right) => {
                found = index_fault(rule, scope, right.get()).or(found);
                rest = left.get();
            }
            Index::Times(_, inner) => rest = inner.get(),
            Index::Min(left, right) => {
                found = index_fault(rule, scope, right.get()).or(found);
                rest = left.get();
            }
            Index::Max(left, right) => {
                found = index_fault(rule, scope, right.get()).or(found);
                rest = left.get();
            }
            Index::Floor(inner, _) => rest = inner.get(),
            Index::Ceil(inner, _) => rest = inner.get(),
        }
    }
}

#[cycle(uses)]
fn index_cell_fault(rule: Rule, scope: &Scope, cell: &Cell) -> Option<ProgramFault>
    ensures { result ≡ spec.index_cell_fault rule scope.now cell.now }
{
    let own = cell_fault(
        rule,
        scope,
        Kind::Position,
        cell.array,
        subscript_count(&cell.at),
    );
    own.or(subscripts_fault(rule, scope, &cell.at))
}

/// The first fault of a cell's subscripts.
#[cycle(uses)]
pub fn subscripts_fault(rule: Rule, scope: &Scope, at: &Subscripts) -> Option<ProgramFault>
    ensures { result ≡ (spec.inside rule scope.now at.now).fault }
{
    match at {
        Subscripts::One(first) => index_fault(rule, scope, first.get()),
        Subscripts::Two(first, second) => {
            index_fault(rule, scope, first.get()).or(index_fault(rule, scope, second.get()))
        }
        Subscripts::Three(first, second, third) => {
            let behind = index_fault(rule, scope, second.get()).or(index_fault(
                rule,
                scope,
                third.get(),
            ));
            index_fault(rule, scope, first.get()).or(behind)
        }
    }
}

fn data_cell_fault(rule: Rule, scope: &Scope, cell: &Cell) -> Option<ProgramFault>
    ensures { result ≡ spec.data_cell_fault rule scope.now cell.now }
{
    let own = cell_fault(
        rule,
        scope,
        Kind::Number,
        cell.array,
        subscript_count(&cell.at),
    );
    own.or(subscripts_fault(rule, scope, &cell.at))
}

/// The first fault of a data expression.
pub fn expr_fault(rule: Rule, scope: &Scope, e: &Expr) -> Option<ProgramFault>
    ensures { result ≡ spec.expr_fault rule scope.now e.now }
{
    let mut found = None;
    let mut rest = e;
    loop {
        match rest {
            Expr::Const(_) => return found,
            Expr::At(cell) => return data_cell_fault(rule, scope, cell).or(found),
            Expr::Plus(left, right) => {
                found = expr_fault(rule, scope, right.get()).or(found);
                rest = left.get();
            }
            Expr::Minus(left, right) => {
                found = expr_fault(rule, scope, right.get()).or(found);
                rest = left.get();
            }
            Expr::Times(left, right) => {
                found = expr_fault(rule, scope, right.get()).or(found);
                rest = left.get();
            }
        }
    }
}

/// The first fault of index expressions.
pub fn indexes_fault(rule: Rule, scope: &Scope, mut all: &[Index]) -> Option<ProgramFault>
    ensures { result ≡ spec.indexes_fault rule scope.now all.entry.now }
{
    'all: while let [e, rest @ ..] = all {
        if let Some(fault) = index_fault(rule, scope, e) {
            return Some(fault);
        }
        all = rest;
    }
    None
}
