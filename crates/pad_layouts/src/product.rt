// Products that have the value of an entry as a factor.
ghost use Rattle.std.specs.Prelude.{◌≡◌, ◌≤◌, length, IsTrue};
ghost use Rattle.std.specs.List.{list_all, list_any};
ghost use Rattle.pad_layouts.specs.Products as spec;
ghost use Rattle.pad_layouts.specs.declared.product.Factors.{Factors};

use crate::column::{is_name, is_single};
use c_tree::How;
use chill_base::Name;
use int_rows::Aff;
use nest_tree::{Access, Body, Nest};

/// How often the value of an entry is a factor of a right side.
#[derive(Clone, Copy, Debug, PartialEq, Eq)]
pub enum Factors {
    /// It is none, and no cell keeps the right side from being a factor.
    Clean,
    /// It is one factor, and all others are clean.
    Once,
    Otherwise,
}

/// What a product of values is judged by.
#[derive(Clone, Copy)]
pub struct Entry {
    /// The array of the values.
    pub value: Name,
    /// The level that is an entry's place, as a variable.
    pub level: usize,
    /// The term that subscripts may hold.
    pub allowed: Option<usize>,
}

fn is_there(var: usize, there: Option<usize>) -> bool
    ensures { result ≡ spec.is_there var there }
{
    match there {
        Some(other) => other == var,
        None => false,
    }
}

/// Whether the form names no variable from `first` on but the allowed one.
pub fn is_plain(first: usize, allowed: Option<usize>, form: &Aff) -> bool
    ensures { result ≡ spec.is_plain first allowed form.now }
{
    let coefs = form.coefs.as_slice();
    for var in first..coefs.len() {
        if coefs[var] != 0 && !is_there(var, allowed) {
            return false;
        }
    }
    true
}

/// Whether all forms are such.
fn are_plain(first: usize, allowed: Option<usize>, forms: &[Aff]) -> bool
    ensures { result ≡ list_all (spec.is_plain first allowed) forms.now }
{
    for form in forms {
        if !is_plain(first, allowed, form) {
            return false;
        }
    }
    true
}

/// What a cell is as a factor.
fn cell_factors(entry: &Entry, access: &Access) -> Factors
    ensures { result ≡ spec.cell_factors entry.now.value entry.now.level entry.now.allowed access.now }
{
    let same = is_name(access.array, entry.value);
    let at = access.at.as_slice();
    if same && is_single(entry.level, at) {
        Factors::Once
    } else if !same && are_plain(entry.level, entry.allowed, at) {
        Factors::Clean
    } else {
        Factors::Otherwise
    }
}

/// What a sum is as a factor.
fn sum_factors(first: Factors, second: Factors) -> Factors
    ensures { result ≡ spec.sum_factors first second }
{
    match (first, second) {
        (Factors::Clean, Factors::Clean) => Factors::Clean,
        _ => Factors::Otherwise,
    }
}

/// What a product is as a factor.
fn product_factors(first: Factors, second: Factors) -> Factors
    ensures { result ≡ spec.product_factors first second }
{
    match (first, second) {
        (Factors::Clean, other) => other,
        (Factors::Once, Factors::Clean) => Factors::Once,
        _ => Factors::Otherwise,
    }
}

/// What a whole is as a factor, by what its left part is: where that is `Otherwise`, the whole is so too.
#[derive(Clone, Copy)]
struct Transfer {
    /// What the whole is where the left part is clean.
    clean: Factors,
    /// What it is where the left part has the value once.
    once: Factors,
}

/// What the whole is.
fn transferred(transfer: Transfer, left: Factors) -> Factors
    ensures { result ≡ spec.transferred transfer left }
{
    match left {
        Factors::Clean => transfer.clean,
        Factors::Once => transfer.once,
        Factors::Otherwise => Factors::Otherwise,
    }
}

/// What the whole is by the left part of a sum.
fn left_of_sum(transfer: Transfer, right: Factors) -> Transfer
    ensures { (left : Factors) → spec.transferred result left ≡ spec.transferred transfer (spec.sum_factors left right) }
{
    Transfer {
        clean: transferred(transfer, sum_factors(Factors::Clean, right)),
        once: transferred(transfer, sum_factors(Factors::Once, right)),
    }
}

/// What the whole is by the left part of a product.
fn left_of_product(transfer: Transfer, right: Factors) -> Transfer
    ensures { (left : Factors) → spec.transferred result left ≡ spec.transferred transfer (spec.product_factors left right) }
{
    Transfer {
        clean: transferred(transfer, product_factors(Factors::Clean, right)),
        once: transferred(transfer, product_factors(Factors::Once, right)),
    }
}

/// What a right side is as a factor.
pub fn factors_of(entry: &Entry, body: &Body) -> Factors
    ensures { result ≡ spec.factors_of entry.now.value entry.now.level entry.now.allowed body.now }
{
    let mut transfer = Transfer {
        clean: Factors::Clean,
        once: Factors::Once,
    };
    let mut rest = body;
    loop {
        match rest {
            Body::Const(_) => return transferred(transfer, Factors::Clean),
            Body::At(access) => return transferred(transfer, cell_factors(entry, access)),
            Body::Plus(left, right) => {
                transfer = left_of_sum(transfer, factors_of(entry, right.get()));
                rest = left.get();
            }
            Body::Minus(left, right) => {
                transfer = left_of_sum(transfer, factors_of(entry, right.get()));
                rest = left.get();
            }
            Body::Times(left, right) => {
                transfer = left_of_product(transfer, factors_of(entry, right.get()));
                rest = left.get();
            }
        }
    }
}

fn is_once(factors: Factors) -> bool
    ensures { result ≡ spec.is_once factors }
{
    match factors {
        Factors::Once => true,
        Factors::Clean => false,
        Factors::Otherwise => false,
    }
}

fn is_compound(how: How) -> bool
    ensures { result ≡ spec.is_compound how }
{
    match how {
        How::Write => false,
        How::Add => true,
        How::Subtract => true,
    }
}

/// Whether the statement adds or subtracts a product that has the entry's value once as a factor.
pub fn is_product(entry: &Entry, nest: &Nest) -> bool
    ensures { result ≡ spec.is_product entry.now.value entry.now.level entry.now.allowed nest.now }
{
    is_compound(nest.how)
        && are_plain(entry.level, entry.allowed, nest.target.at.as_slice())
        && is_once(factors_of(entry, &nest.value))
}

/// Whether some statement writes the array.
pub fn any_writes(array: Name, nests: &[Nest]) -> bool
    ensures { result ≡ list_any (spec.writes array) nests.now }
{
    for nest in nests {
        if is_name(nest.target.array, array) {
            return true;
        }
    }
    false
}
