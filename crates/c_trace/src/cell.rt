// Cells, with each subscript as its value.
ghost use Rattle.std.specs.Prelude.{◌≡◌, ◌≤◌, ◌++◌, IsTrue, codes, length};
ghost use Rattle.std.specs.Fmt.{signed_decimal};
ghost use Rattle.chill_base.specs.Outside.{WritesAll};
ghost use Rattle.c_trace.specs.Lines.{count_of, brackets, cell_line, has_cell};

use c_meaning::{View, eval_subscripts};
use c_tree::{Cell, Subscripts};
use chill_base::{Failed, Sink, write_all};
use itoa::Buffer;

/// Writes a number.
pub(crate) fn print_number<S: Sink>(sink: &mut S, number: &i64) -> Result<(), Failed>
    ensures { WritesAll (S.state sink.old) (signed_decimal number.now) (S.state sink.new) result }
{
    let mut buffer = Buffer::new();
    write_all(sink, buffer.format(*number).as_bytes())
}

fn print_subscript<S: Sink>(sink: &mut S, index: &i64) -> Result<(), Failed>
    ensures { WritesAll (S.state sink.old) (codes "[" ++ signed_decimal index.now ++ codes "]") (S.state sink.new) result }
{
    write_all(sink, b"[")?;
    print_number(sink, index)?;
    write_all(sink, b"]")
}

// How many subscripts there are.
fn count(at: &Subscripts) -> usize
    ensures count { result ≡ count_of at.now }
    ensures most { result ≤ 3 }
{
    match at {
        Subscripts::One(_) => 1,
        Subscripts::Two(_, _) => 2,
        Subscripts::Three(_, _, _) => 3,
    }
}

/// Writes a cell.
pub(crate) fn print_cell<S: Sink, V: View>(
    sink: &mut S,
    view: &V,
    cell: &Cell,
) -> Result<(), Failed>
    requires { IsTrue (has_cell cell.now (V.scope view.now) (V.sight view.now)) }
    ensures { WritesAll (S.state sink.old) (cell_line (V.sight view.now) cell.now) (S.state sink.new) result }
{
    let at = match eval_subscripts(&cell.at, view) {
        Ok(at) => at,
        Err(_) => unreachable!(),
    };
    write_all(sink, cell.array.bytes())?;
    print_subscripts(sink, &at[..count(&cell.at)])
}

fn print_subscripts<S: Sink>(sink: &mut S, at: &[i64]) -> Result<(), Failed>
    ensures { WritesAll (S.state sink.old) (brackets at.now) (S.state sink.new) result }
{
    for index in at {
        if let Err(failed) = print_subscript(sink, index) {
            return Err(failed);
        }
    }
    Ok(())
}
