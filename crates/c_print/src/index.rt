// Index expressions and cells.
ghost use Rattle.std.specs.Prelude.{◌≡◌, ◌++◌, codes, OnOk};
ghost use Rattle.c_print.specs.Index.{printed, subscripts_text, cell_text};
ghost use Rattle.std.specs.Fmt.{signed_decimal};
ghost use Rattle.c_print.specs.Printed.{as_part, as_factor, number_level, bracketed};

use crate::ahead::Ahead;
use crate::level::Level;
use c_tree::{Cell, Index, Subscripts};
use std::alloc::AllocError;

// A negative number begins with `-`, as a sum may.
fn level_of_number(n: i64) -> Level
    ensures { result ≡ number_level n Level.Atom }
{
    if n < 0 { Level::Sum } else { Level::Atom }
}

fn level_of_product(n: i64) -> Level
    ensures { result ≡ number_level n Level.Product }
{
    if n < 0 { Level::Sum } else { Level::Product }
}

#[tactic(auto, unfolding(crate::specs::Index::printed))]
fn level(e: &Index) -> Level
    ensures { result ≡ (printed e.now).level }
{
    match e {
        Index::Const(n) => level_of_number(*n),
        Index::Times(n, _) => level_of_product(*n),
        Index::Neg(_) | Index::Plus(_, _) | Index::Minus(_, _) => Level::Sum,
        _ => Level::Atom,
    }
}

/// Puts an index expression before the text.
#[cycle(index)]
#[tactic(auto, using(crate::proofs::Equations::text_const, crate::proofs::Equations::text_var, crate::proofs::Equations::text_at, crate::proofs::Equations::text_neg, crate::proofs::Equations::text_plus, crate::proofs::Equations::text_minus, crate::proofs::Equations::text_times, crate::proofs::Equations::text_min, crate::proofs::Equations::text_max, crate::proofs::Equations::text_floor, crate::proofs::Equations::text_ceil))]
pub fn print_index(out: &mut Ahead, e: &Index) -> Result<(), AllocError>
    ensures { OnOk result (out.new ≡ (printed e.now).text ++ out.old) }
{
    let mut rest = e;
    loop {
        match rest {
            Index::Plus(left, right) => {
                print_part(out, right.get())?;
                out.put(b"+")?;
                rest = left.get();
            }
            Index::Minus(left, right) => {
                print_part(out, right.get())?;
                out.put(b"-")?;
                rest = left.get();
            }
            Index::Const(n) => return out.put_number(*n),
            Index::Var(name) => return out.put(name.bytes()),
            Index::At(cell) => return print_cell(out, cell),
            Index::Neg(inner) => {
                print_part(out, inner.get())?;
                return out.put(b"-");
            }
            Index::Times(n, inner) => {
                print_factor(out, inner.get())?;
                out.put(b"*")?;
                return out.put_number(*n);
            }
            Index::Min(a, b) => {
                out.put(b")")?;
                print_index(out, b.get())?;
                out.put(b", ")?;
                print_index(out, a.get())?;
                return out.put(b"min(");
            }
            Index::Max(a, b) => {
                out.put(b")")?;
                print_index(out, b.get())?;
                out.put(b", ")?;
                print_index(out, a.get())?;
                return out.put(b"max(");
            }
            Index::Floor(a, divisor) => {
                print_dividend(out, a.get(), *divisor)?;
                return out.put(b"floord(");
            }
            Index::Ceil(a, divisor) => {
                print_dividend(out, a.get(), *divisor)?;
                return out.put(b"ceild(");
            }
        }
    }
}

// What stands behind the word of a division.
#[cycle(index)]
fn print_dividend(out: &mut Ahead, a: &Index, divisor: i64) -> Result<(), AllocError>
    ensures { OnOk result (out.new ≡ ((printed a.now).text ++ codes ", " ++ signed_decimal divisor ++ codes ")") ++ out.old) }
{
    out.put(b")")?;
    out.put_number(divisor)?;
    out.put(b", ")?;
    print_index(out, a)
}

// A part of a sum.
#[cycle(index)]
fn print_part(out: &mut Ahead, e: &Index) -> Result<(), AllocError>
    ensures { OnOk result (out.new ≡ (as_part (printed e.now)).text ++ out.old) }
{
    match level(e) {
        Level::Sum => {
            out.put(b")")?;
            print_index(out, e)?;
            out.put(b"(")
        }
        Level::Product | Level::Atom => print_index(out, e),
    }
}

// A factor of a product.
#[cycle(index)]
fn print_factor(out: &mut Ahead, e: &Index) -> Result<(), AllocError>
    ensures { OnOk result (out.new ≡ (as_factor (printed e.now)).text ++ out.old) }
{
    match level(e) {
        Level::Sum | Level::Product => {
            out.put(b")")?;
            print_index(out, e)?;
            out.put(b"(")
        }
        Level::Atom => print_index(out, e),
    }
}

#[cycle(index)]
fn print_subscript(out: &mut Ahead, e: &Index) -> Result<(), AllocError>
    ensures { OnOk result (out.new ≡ bracketed (printed e.now) ++ out.old) }
{
    out.put(b"]")?;
    print_index(out, e)?;
    out.put(b"[")
}

#[cycle(index)]
#[tactic(auto, using(crate::proofs::Equations::subscripts_one, crate::proofs::Equations::subscripts_two, crate::proofs::Equations::subscripts_three))]
fn print_subscripts(out: &mut Ahead, at: &Subscripts) -> Result<(), AllocError>
    ensures { OnOk result (out.new ≡ subscripts_text at.now ++ out.old) }
{
    match at {
        Subscripts::One(a) => print_subscript(out, a.get()),
        Subscripts::Two(a, b) => {
            print_subscript(out, b.get())?;
            print_subscript(out, a.get())
        }
        Subscripts::Three(a, b, c) => {
            print_subscript(out, c.get())?;
            print_subscript(out, b.get())?;
            print_subscript(out, a.get())
        }
    }
}

/// Puts a cell before the text.
#[cycle(index)]
#[tactic(auto, using(crate::proofs::Equations::cell_is))]
pub fn print_cell(out: &mut Ahead, cell: &Cell) -> Result<(), AllocError>
    ensures { OnOk result (out.new ≡ cell_text cell.now ++ out.old) }
{
    print_subscripts(out, &cell.at)?;
    out.put(cell.array.bytes())
}
