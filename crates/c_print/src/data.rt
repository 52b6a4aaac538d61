// Data expressions.
ghost use Rattle.std.specs.Prelude.{◌≡◌, ◌++◌, true, false, OnOk};
ghost use Rattle.c_print.specs.Index.{cell_text};
ghost use Rattle.c_print.specs.Data.{data_printed};
ghost use Rattle.c_print.specs.Printed.{as_part, as_factor, in_parentheses};

use crate::ahead::Ahead;
use crate::index::print_cell;
use crate::level::Level;
use c_tree::Expr;
use std::alloc::AllocError;

#[tactic(auto, unfolding(crate::specs::Data::data_printed))]
fn level(e: &Expr) -> Level
    ensures { result ≡ (data_printed cell_text e.now).level }
{
    match e {
        Expr::Const(_) | Expr::At(_) => Level::Atom,
        Expr::Plus(_, _) | Expr::Minus(_, _) => Level::Sum,
        Expr::Times(_, _) => Level::Product,
    }
}

// Whether the expression needs parentheses where a part of a sum or a left factor is wanted.
fn needs_parentheses(e: &Expr) -> bool
    ensures needs { result ≡ true → as_part (data_printed cell_text e.now) ≡ in_parentheses (data_printed cell_text e.now) }
    ensures needs_none { result ≡ false → as_part (data_printed cell_text e.now) ≡ data_printed cell_text e.now }
{
    match level(e) {
        Level::Sum => true,
        Level::Product | Level::Atom => false,
    }
}

/// Puts a data expression before the text.
#[cycle(data)]
#[tactic(auto, using(crate::proofs::DataEquations::data_const, crate::proofs::DataEquations::data_cell, crate::proofs::DataEquations::data_plus, crate::proofs::DataEquations::data_minus, crate::proofs::DataEquations::data_times))]
pub fn print_data(out: &mut Ahead, e: &Expr) -> Result<(), AllocError>
    ensures { OnOk result (out.new ≡ (data_printed cell_text e.now).text ++ out.old) }
{
    let mut rest = e;
    loop {
        match rest {
            Expr::Plus(left, right) => {
                print_part(out, right.get())?;
                out.put(b" + ")?;
                rest = left.get();
            }
            Expr::Minus(left, right) => {
                print_part(out, right.get())?;
                out.put(b" - ")?;
                rest = left.get();
            }
            Expr::Times(left, right) => {
                print_factor(out, right.get())?;
                out.put(b" * ")?;
                let left = left.get();
                if needs_parentheses(left) {
                    return print_in_parentheses(out, left);
                }
                rest = left;
            }
            Expr::Const(n) => return out.put_natural(*n),
            Expr::At(cell) => return print_cell(out, cell),
        }
    }
}

#[cycle(data)]
fn print_in_parentheses(out: &mut Ahead, e: &Expr) -> Result<(), AllocError>
    ensures { OnOk result (out.new ≡ (in_parentheses (data_printed cell_text e.now)).text ++ out.old) }
{
    out.put(b")")?;
    print_data(out, e)?;
    out.put(b"(")
}

// A part of a sum.
#[cycle(data)]
fn print_part(out: &mut Ahead, e: &Expr) -> Result<(), AllocError>
    ensures { OnOk result (out.new ≡ (as_part (data_printed cell_text e.now)).text ++ out.old) }
{
    if needs_parentheses(e) {
        print_in_parentheses(out, e)
    } else {
        print_data(out, e)
    }
}

// A factor of a product.
#[cycle(data)]
fn print_factor(out: &mut Ahead, e: &Expr) -> Result<(), AllocError>
    ensures { OnOk result (out.new ≡ (as_factor (data_printed cell_text e.now)).text ++ out.old) }
{
    match level(e) {
        Level::Sum | Level::Product => print_in_parentheses(out, e),
        Level::Atom => print_data(out, e),
    }
}
