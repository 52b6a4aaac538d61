// Data expressions, with each subscript as its value.
ghost use Rattle.std.specs.Prelude.{◌<◌, ◌≤◌, IsTrue, decimal};
ghost use Rattle.c_tree.specs.declared.data.Expr.{size-Expr};
ghost use Rattle.chill_base.specs.Outside.{WritesAll};
ghost use Rattle.c_print.specs.Printed.{as_part, as_factor, in_parentheses};
ghost use Rattle.c_print.specs.Data.{data_printed};
ghost use Rattle.c_trace.specs.Lines.{cell_line, has_cells};
ghost use Rattle.c_trace.specs.LeftSide.{level_of, left_part, closed_at, link, behind, opening};

use crate::cell::print_cell;
use crate::left_side::{Descent, MOST, down, level, walk};
use c_meaning::View;
use c_print::Level;
use c_tree::Expr;
use chill_base::{Failed, Sink, write_all};
use itoa::Buffer;

fn print_constant<S: Sink>(sink: &mut S, n: u64) -> Result<(), Failed>
    ensures { WritesAll (S.state sink.old) (decimal n) (S.state sink.new) result }
{
    let mut buffer = Buffer::new();
    write_all(sink, buffer.format(n).as_bytes())
}

// So many brackets that open.
fn print_opening<S: Sink>(sink: &mut S, brackets: usize) -> Result<(), Failed>
    ensures { WritesAll (S.state sink.old) (opening brackets) (S.state sink.new) result }
{
    let mut left = brackets;
    while left > 0 {
        if let Err(failed) = write_all(sink, b"(") {
            return Err(failed);
        }
        left -= 1;
    }
    Ok(())
}

// What closes behind a left factor.
#[tactic(auto, using(crate::proofs::Writes::all_written))]
fn print_closing<S: Sink>(sink: &mut S, e: &Expr) -> Result<(), Failed>
    ensures { WritesAll (S.state sink.old) (closed_at (level_of e.now)) (S.state sink.new) result }
{
    match level(e) {
        Level::Sum => write_all(sink, b")"),
        Level::Product | Level::Atom => Ok(()),
    }
}

/// Writes a data expression.
#[cycle(data)]
pub(crate) fn print_data<S: Sink, V: View>(sink: &mut S, view: &V, e: &Expr) -> Result<(), Failed>
    requires { IsTrue (has_cells e.now (V.scope view.now) (V.sight view.now)) }
    ensures { WritesAll (S.state sink.old) (data_printed (cell_line (V.sight view.now)) e.now).text (S.state sink.new) result }
{
    match e {
        Expr::Const(n) => print_constant(sink, *n),
        Expr::At(cell) => print_cell(sink, view, cell),
        Expr::Plus(_, _) | Expr::Minus(_, _) | Expr::Times(_, _) => print_operation(sink, view, e),
    }
}

// An operation, from what lies down its left side.
#[cycle(data)]
fn print_operation<S: Sink, V: View>(sink: &mut S, view: &V, e: &Expr) -> Result<(), Failed>
    requires cells { IsTrue (has_cells e.now (V.scope view.now) (V.sight view.now)) }
    requires smaller { size-Expr (left_part e.now) < size-Expr e.now }
    ensures { WritesAll (S.state sink.old) (data_printed (cell_line (V.sight view.now)) e.now).text (S.state sink.new) result }
{
    let Descent {
        steps,
        opened,
        rest,
    } = walk(e);
    print_opening(sink, opened)?;
    print_data(sink, view, rest)?;
    print_behind(sink, view, e, steps)
}

// What stands behind the part so many steps down the left side.
#[cycle(data)]
fn print_behind<S: Sink, V: View>(
    sink: &mut S,
    view: &V,
    e: &Expr,
    steps: usize,
) -> Result<(), Failed>
    requires cells { IsTrue (has_cells e.now (V.scope view.now) (V.sight view.now)) }
    requires most { steps ≤ MOST }
    ensures { WritesAll (S.state sink.old) (behind (cell_line (V.sight view.now)) e.now steps) (S.state sink.new) result }
{
    if steps == 0 {
        return Ok(());
    }
    if steps == 1 {
        return print_link(sink, view, e);
    }
    let half = steps / 2;
    print_behind(sink, view, down(e, half), steps - half)?;
    print_behind(sink, view, e, half)
}

// What stands behind the left part.
#[cycle(data)]
fn print_link<S: Sink, V: View>(sink: &mut S, view: &V, e: &Expr) -> Result<(), Failed>
    requires { IsTrue (has_cells e.now (V.scope view.now) (V.sight view.now)) }
    ensures { WritesAll (S.state sink.old) (link (cell_line (V.sight view.now)) e.now) (S.state sink.new) result }
{
    match e {
        Expr::Const(_) => Ok(()),
        Expr::At(_) => Ok(()),
        Expr::Plus(_, right) => {
            write_all(sink, b" + ")?;
            print_part(sink, view, right.get())
        }
        Expr::Minus(_, right) => {
            write_all(sink, b" - ")?;
            print_part(sink, view, right.get())
        }
        Expr::Times(left, right) => {
            print_closing(sink, left.get())?;
            write_all(sink, b" * ")?;
            print_factor(sink, view, right.get())
        }
    }
}

#[cycle(data)]
fn print_in_parentheses<S: Sink, V: View>(sink: &mut S, view: &V, e: &Expr) -> Result<(), Failed>
    requires { IsTrue (has_cells e.now (V.scope view.now) (V.sight view.now)) }
    ensures { WritesAll (S.state sink.old) (in_parentheses (data_printed (cell_line (V.sight view.now)) e.now)).text (S.state sink.new) result }
{
    write_all(sink, b"(")?;
    print_data(sink, view, e)?;
    write_all(sink, b")")
}

// A right part of a sum.
#[cycle(data)]
fn print_part<S: Sink, V: View>(sink: &mut S, view: &V, e: &Expr) -> Result<(), Failed>
    requires { IsTrue (has_cells e.now (V.scope view.now) (V.sight view.now)) }
    ensures { WritesAll (S.state sink.old) (as_part (data_printed (cell_line (V.sight view.now)) e.now)).text (S.state sink.new) result }
{
    match level(e) {
        Level::Sum => print_in_parentheses(sink, view, e),
        Level::Product | Level::Atom => print_data(sink, view, e),
    }
}

// A right factor.
#[cycle(data)]
fn print_factor<S: Sink, V: View>(sink: &mut S, view: &V, e: &Expr) -> Result<(), Failed>
    requires { IsTrue (has_cells e.now (V.scope view.now) (V.sight view.now)) }
    ensures { WritesAll (S.state sink.old) (as_factor (data_printed (cell_line (V.sight view.now)) e.now)).text (S.state sink.new) result }
{
    match level(e) {
        Level::Sum | Level::Product => print_in_parentheses(sink, view, e),
        Level::Atom => print_data(sink, view, e),
    }
}
