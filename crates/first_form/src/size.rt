// Extents and upper bounds of the first form: a parameter, or a number.
ghost use Rattle.std.specs.Prelude.{◌≡◌, if◌then◌else◌, bytes_eq, Some, None};
ghost use Rattle.first_form.specs.Sizes as spec;

use c_tree::Index;
use chill_base::Name;

/// The greatest number that an extent or an upper bound of the first form may be.
const MOST: i64 = 1 << 31;

/// A parameter, or a number of 0 to 2^31.
#[derive(Clone, Copy)]
pub enum Size {
    Param(Name),
    Number(i64),
}

/// The size that an expression is under these parameters; none where it is something else.
pub fn size_of(params: &[Name], expression: &Index) -> Option<Size>
    ensures { result ≡ spec.size_of params.now expression.now }
{
    match expression {
        Index::Var(name) => param_size(params, *name),
        Index::Const(number) => number_size(*number),
        _ => None,
    }
}

fn param_size(params: &[Name], name: Name) -> Option<Size>
    ensures { result ≡ spec.param_size params.now name }
{
    if has_name(params, name) {
        Some(Size::Param(name))
    } else {
        None
    }
}

/// Is the name among the names?
pub fn has_name(mut names: &[Name], name: Name) -> bool
    ensures { result ≡ spec.has_name names.entry.now name }
{
    'names: while let [first, rest @ ..] = names {
        if is_name(*first, name) {
            return true;
        }
        names = rest;
    }
    false
}

fn number_size(number: i64) -> Option<Size>
    ensures { result ≡ spec.number_size number }
{
    if 0 <= number && number <= MOST {
        Some(Size::Number(number))
    } else {
        None
    }
}

/// The expression that a size is.
pub fn expression_of(size: Size) -> Index
    ensures { result ≡ spec.expression_of size }
{
    match size {
        Size::Param(name) => Index::Var(name),
        Size::Number(number) => Index::Const(number),
    }
}

/// The expression once more; none where it is no size.
pub fn copied_size(params: &[Name], expression: &Index) -> Option<Index>
    ensures { result ≡ (if spec.is_size params.now expression.now then Some expression.now else None) }
{
    match size_of(params, expression) {
        Some(size) => Some(expression_of(size)),
        None => None,
    }
}

/// Are the names the same?
pub fn is_name(a: Name, b: Name) -> bool
    ensures { result ≡ bytes_eq a b }
{
    a.bytes() == b.bytes()
}

/// Is the expression that size?
pub fn is_same(size: Size, expression: &Index) -> bool
    ensures { result ≡ spec.is_same size expression.now }
{
    match size {
        Size::Param(x) => match expression {
            Index::Var(y) => is_name(x, *y),
            _ => false,
        },
        Size::Number(m) => match expression {
            Index::Const(n) => m == *n,
            _ => false,
        },
    }
}

/// Is it the number 0?
pub fn is_zero(expression: &Index) -> bool
    ensures { result ≡ spec.is_zero expression.now }
{
    match expression {
        Index::Const(number) => *number == 0,
        _ => false,
    }
}
