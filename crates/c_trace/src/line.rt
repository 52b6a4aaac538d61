// The line of an assignment.
ghost use Rattle.std.specs.Prelude.{◌≡◌, ◌++◌, IsTrue, codes};
ghost use Rattle.std.specs.Fmt.{signed_decimal};
ghost use Rattle.chill_base.specs.Outside.{WritesAll};
ghost use Rattle.c_print.specs.Statement.{how_text};
ghost use Rattle.c_trace.specs.Lines.{place_line, numbers_behind, cell_line, data_line, has_cell, has_cells, assignment_line};

use crate::cell::{print_cell, print_number};
use crate::data::print_data;
use c_meaning::View;
use c_tree::{Cell, Expr, How};
use chill_base::{Failed, Place, Sink, write_all};

// A number behind another, with a point before it.
fn print_next<S: Sink>(sink: &mut S, number: &i64) -> Result<(), Failed>
    ensures { WritesAll (S.state sink.old) (codes "." ++ signed_decimal number.now) (S.state sink.new) result }
{
    write_all(sink, b".")?;
    print_number(sink, number)
}

fn print_numbers<S: Sink>(sink: &mut S, numbers: &[i64]) -> Result<(), Failed>
    ensures { WritesAll (S.state sink.old) (numbers_behind numbers.now) (S.state sink.new) result }
{
    for number in numbers {
        if let Err(failed) = print_next(sink, number) {
            return Err(failed);
        }
    }
    Ok(())
}

// The numbers of a place, with a point between them.
fn print_place<S: Sink>(sink: &mut S, place: &Place) -> Result<(), Failed>
    ensures { WritesAll (S.state sink.old) (place_line place.now) (S.state sink.new) result }
{
    match place.numbers() {
        [] => Ok(()),
        [first, others @ ..] => {
            print_number(sink, first)?;
            print_numbers(sink, others)
        }
    }
}

// A place, and the blank behind it.
fn print_front<S: Sink>(sink: &mut S, place: &Place) -> Result<(), Failed>
    ensures { WritesAll (S.state sink.old) (place_line place.now ++ codes " ") (S.state sink.new) result }
{
    print_place(sink, place)?;
    write_all(sink, b" ")
}

fn sign_of(how: How) -> &'static [u8]
    ensures { result.now ≡ how_text how }
{
    match how {
        How::Write => b" = ",
        How::Add => b" += ",
        How::Subtract => b" -= ",
    }
}

fn print_value<S: Sink, V: View>(sink: &mut S, view: &V, value: &Expr) -> Result<(), Failed>
    requires { IsTrue (has_cells value.now (V.scope view.now) (V.sight view.now)) }
    ensures { WritesAll (S.state sink.old) (data_line (V.sight view.now) value.now ++ codes "\n") (S.state sink.new) result }
{
    print_data(sink, view, value)?;
    write_all(sink, b"\n")
}

// What stands behind the place.
fn print_statement<S: Sink, V: View>(
    sink: &mut S,
    view: &V,
    target: &Cell,
    how: How,
    value: &Expr,
) -> Result<(), Failed>
    requires target { IsTrue (has_cell target.now (V.scope view.now) (V.sight view.now)) }
    requires value { IsTrue (has_cells value.now (V.scope view.now) (V.sight view.now)) }
    ensures { WritesAll (S.state sink.old) (cell_line (V.sight view.now) target.now ++ how_text how ++ (data_line (V.sight view.now) value.now ++ codes "\n")) (S.state sink.new) result }
{
    print_cell(sink, view, target)?;
    write_all(sink, sign_of(how))?;
    print_value(sink, view, value)
}

/// Writes the line of an assignment: its place, and the assignment with each subscript as its value in the view.
pub fn print_assignment<S: Sink, V: View>(
    sink: &mut S,
    view: &V,
    place: &Place,
    target: &Cell,
    how: How,
    value: &Expr,
) -> Result<(), Failed>
    requires target { IsTrue (has_cell target.now (V.scope view.now) (V.sight view.now)) }
    requires value { IsTrue (has_cells value.now (V.scope view.now) (V.sight view.now)) }
    ensures { WritesAll (S.state sink.old) (assignment_line place.now target.now how value.now (V.sight view.now)) (S.state sink.new) result }
{
    print_front(sink, place)?;
    print_statement(sink, view, target, how, value)
}
