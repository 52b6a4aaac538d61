// The lines of commands and of statements that can't be written.
ghost use Rattle.std.specs.Prelude.{◌≡◌};
ghost use Rattle.chill_base.specs.Outside.{TookFront};
ghost use Rattle.outcomes.specs.Lines.{command_line, dependence_line, scan_line, shape_number};

use crate::words::Word::{Name as Named, Number, Text};
use crate::words::say_words;
use chill_base::Sink;
use nest_tree::{CommandFault, Dependence, ShapeWhy};
use scan_forms::ScanFault;

pub fn say_command<E: Sink>(err: &mut E, number: usize, fault: &CommandFault)
    ensures { TookFront (E.state err.old) (command_line number fault.now) (E.state err.new) }
{
    match fault {
        CommandFault::Shape(why) => say_words(
            err,
            &[
                Text("chill: command "),
                Number(number as u128),
                Text(": shape "),
                Number(shape_number(*why)),
                Text("\n"),
            ],
        ),
        CommandFault::Depends(found) => say_dependence(err, number, found),
        CommandFault::Overflow(_) => say_words(
            err,
            &[
                Text("chill: command "),
                Number(number as u128),
                Text(": overflow\n"),
            ],
        ),
    }
}

fn say_dependence<E: Sink>(err: &mut E, number: usize, found: &Dependence)
    ensures { TookFront (E.state err.old) (dependence_line number found.now) (E.state err.new) }
{
    say_words(
        err,
        &[
            Text("chill: command "),
            Number(number as u128),
            Text(": dependence from "),
            Number(found.from as u128),
            Text(" to "),
            Number(found.to as u128),
            Text(" on "),
            Named(&found.array),
            Text(", old level "),
            Number(found.old_level as u128),
            Text(", new level "),
            Number(found.new_level as u128),
            Text("\n"),
        ],
    );
}

fn shape_number(why: ShapeWhy) -> u128
    ensures { result ≡ shape_number why }
{
    match why {
        ShapeWhy::NoStatement => 1,
        ShapeWhy::NoLoop => 2,
        ShapeWhy::NotPermutation => 3,
        ShapeWhy::NotShared => 4,
        ShapeWhy::TermFirst => 5,
        ShapeWhy::LowerBounds => 6,
        ShapeWhy::InnerBound => 7,
        ShapeWhy::NotTraversal => 8,
        ShapeWhy::NotProduct => 9,
        ShapeWhy::NotAlone => 10,
        ShapeWhy::NotReadOnly => 11,
        ShapeWhy::NotConstant => 12,
        ShapeWhy::NameTaken => 13,
        ShapeWhy::Limit => 14,
    }
}

pub fn say_scan<E: Sink>(err: &mut E, fault: ScanFault)
    ensures { TookFront (E.state err.old) (scan_line fault) (E.state err.new) }
{
    match fault {
        ScanFault::Overflow(_) => say_words(err, &[Text("chill: scan: overflow\n")]),
        ScanFault::Size { statement } => say_words(
            err,
            &[
                Text("chill: scan: size in statement "),
                Number(statement as u128),
                Text("\n"),
            ],
        ),
        ScanFault::Wide { statement, level } => say_words(
            err,
            &[
                Text("chill: scan: bounds of statement "),
                Number(statement as u128),
                Text(" level "),
                Number(level as u128),
                Text("\n"),
            ],
        ),
    }
}
