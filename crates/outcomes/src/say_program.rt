// The lines of recipes, programs and sources that are refused.
ghost use Rattle.std.specs.Prelude.{◌≡◌};
ghost use Rattle.chill_base.specs.Outside.{TookFront};
ghost use Rattle.outcomes.specs.Lines.{recipe_line, program_line, limit_line, why_words};
ghost use Rattle.outcomes.specs.Lines.{source_line, source_words, side_words};

use crate::words::Word::{Name as Named, Number, Text};
use crate::words::say_words;
use c_judge::{LimitWhat, NameWhy, ProgramFault};
use chill_base::Sink;
use recipe_read::RecipeFault;
use source_limits::{Side, SourceFault, SourceWhat};

pub fn say_recipe<E: Sink>(err: &mut E, fault: RecipeFault)
    ensures { TookFront (E.state err.old) (recipe_line fault) (E.state err.new) }
{
    match fault {
        RecipeFault::Line { number } => {
            say_words(
                err,
                &[
                    Text("chill: recipe line "),
                    Number(number as u128),
                    Text("\n"),
                ],
            )
        }
        RecipeFault::Limit { count } => {
            say_words(
                err,
                &[
                    Text("chill: recipe: "),
                    Number(count as u128),
                    Text(" commands\n"),
                ],
            )
        }
    }
}

pub fn say_program<E: Sink>(err: &mut E, fault: &ProgramFault)
    ensures { TookFront (E.state err.old) (program_line fault.now) (E.state err.new) }
{
    match fault {
        ProgramFault::Syntax { token } => {
            say_words(
                err,
                &[
                    Text("chill: syntax at token "),
                    Number(*token as u128),
                    Text("\n"),
                ],
            )
        }
        ProgramFault::Limit { what, count } => say_limit(err, *what, *count),
        ProgramFault::Name { name, why } => {
            say_words(
                err,
                &[Text("chill: name "), Named(name), Text(words_of(*why))],
            )
        }
        ProgramFault::Fixed { name } => {
            say_words(err, &[Text("chill: name "), Named(name), Text(": fixed\n")])
        }
    }
}

fn say_limit<E: Sink>(err: &mut E, what: LimitWhat, count: u64)
    ensures { TookFront (E.state err.old) (limit_line what count) (E.state err.new) }
{
    let count = Number(u128::from(count));
    let limit = Text("chill: limit: ");
    match what {
        LimitWhat::Signature => say_words(err, &[limit, count, Text(" signature names\n")]),
        LimitWhat::Locals => say_words(err, &[limit, count, Text(" growable arrays\n")]),
        LimitWhat::Assignments => say_words(err, &[limit, count, Text(" assignments\n")]),
        LimitWhat::InspectorStatements => {
            say_words(err, &[limit, count, Text(" inspector statements\n")])
        }
        LimitWhat::Matrices => say_words(err, &[limit, count, Text(" matrices\n")]),
        LimitWhat::Extent => {
            say_words(err, &[limit, Text("extent of array "), count, Text("\n")])
        }
    }
}

fn words_of(why: NameWhy) -> &'static str
    ensures { result.now ≡ why_words why }
{
    match why {
        NameWhy::Unknown => ": unknown\n",
        NameWhy::Twice => ": twice\n",
        NameWhy::Kind => ": kind\n",
        NameWhy::Dims => ": dimensions\n",
        NameWhy::NoMatrix => ": no matrix\n",
        NameWhy::Matrix => ": matrix\n",
        NameWhy::Reserved => ": reserved\n",
    }
}

pub fn say_source<E: Sink>(err: &mut E, fault: &SourceFault)
    ensures { TookFront (E.state err.old) (source_line fault.now) (E.state err.new) }
{
    match fault {
        SourceFault::Limit { what, count } => say_words(
            err,
            &[
                Text("chill: source: limit: "),
                Number(u128::from(*count)),
                Text(source_words(*what)),
            ],
        ),
        SourceFault::NotAffine { statement, .. } => say_words(
            err,
            &[
                Text("chill: source: statement "),
                Number(*statement as u128),
                Text(" isn't affine\n"),
            ],
        ),
        SourceFault::Overflow { statement, .. } => say_words(
            err,
            &[
                Text("chill: source: overflow in statement "),
                Number(*statement as u128),
                Text("\n"),
            ],
        ),
        SourceFault::Outside {
            statement,
            array,
            side,
        } => say_words(
            err,
            &[
                Text("chill: source: statement "),
                Number(*statement as u128),
                Text(side_words(*side)),
                Named(array),
                Text("\n"),
            ],
        ),
    }
}

fn source_words(what: SourceWhat) -> &'static str
    ensures { result.now ≡ source_words what }
{
    match what {
        SourceWhat::Inspector => " inspector statements\n",
        SourceWhat::Coefficient => " coefficient\n",
        SourceWhat::Constant => " constant\n",
        SourceWhat::Nest => " nest\n",
        SourceWhat::Bounds => " bounds\n",
    }
}

fn side_words(side: Side) -> &'static str
    ensures { result.now ≡ side_words side }
{
    match side {
        Side::Below => " reaches below ",
        Side::Past => " reaches past ",
    }
}
