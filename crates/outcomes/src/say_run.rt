// The lines of data texts, runs and numbers of tokens that are refused.
ghost use Rattle.std.specs.Prelude.{◌≡◌};
ghost use Rattle.chill_base.specs.Outside.{TookFront};
ghost use Rattle.outcomes.specs.Lines.{values_line, csr_words, run_line, section_words, tokens_line};

use crate::words::Word::{Name as Named, Number, Place as Placed, Signed, Text, Wide};
use crate::words::say_words;
use c_run::{RunFault, Section};
use chill_base::Sink;
use csr_data::{CsrWhy, ValuesFault};
use token_places::TooFew;

pub fn say_values<E: Sink>(err: &mut E, fault: &ValuesFault)
    ensures { TookFront (E.state err.old) (values_line fault.now) (E.state err.new) }
{
    let text = Text("chill: data: ");
    match fault {
        ValuesFault::Line { number } => say_words(
            err,
            &[
                Text("chill: data: line "),
                Number(*number as u128),
                Text("\n"),
            ],
        ),
        ValuesFault::Missing { name } => {
            say_words(err, &[text, Named(name), Text(" is missing\n")])
        }
        ValuesFault::Limit { name, value } => say_words(
            err,
            &[text, Named(name), Text(" is "), Signed(*value), Text("\n")],
        ),
        ValuesFault::Count {
            name,
            wanted,
            found,
        } => say_words(
            err,
            &[
                text,
                Named(name),
                Text(" wants "),
                Wide(wanted),
                Text(" numbers, found "),
                Number(u128::from(*found)),
                Text("\n"),
            ],
        ),
        ValuesFault::NotCsr {
            matrix,
            why,
            row,
            place,
        } => say_words(
            err,
            &[
                Text("chill: data: matrix "),
                Number(*matrix as u128),
                Text(" row "),
                Number(u128::from(*row)),
                Text(" place "),
                Number(u128::from(*place)),
                Text(csr_words(*why)),
            ],
        ),
    }
}

fn csr_words(why: CsrWhy) -> &'static str
    ensures { result.now ≡ csr_words why }
{
    match why {
        CsrWhy::Start => ": start\n",
        CsrWhy::Falls => ": falls\n",
        CsrWhy::End => ": end\n",
        CsrWhy::Column => ": column\n",
    }
}

pub fn say_run<E: Sink>(err: &mut E, fault: &RunFault)
    ensures { TookFront (E.state err.old) (run_line fault.now) (E.state err.new) }
{
    match fault {
        RunFault::Outside {
            section,
            array,
            place,
        } => say_words(
            err,
            &[
                Text("chill: "),
                Text(section_words(*section)),
                Placed(place),
                Text(": outside "),
                Named(array),
                Text("\n"),
            ],
        ),
        RunFault::Range { section, place } => say_words(
            err,
            &[
                Text("chill: "),
                Text(section_words(*section)),
                Placed(place),
                Text(": range\n"),
            ],
        ),
    }
}

fn section_words(section: Section) -> &'static str
    ensures { result.now ≡ section_words section }
{
    match section {
        Section::Inspector => "inspector ",
        Section::Executor => "executor ",
    }
}

pub fn say_tokens<E: Sink>(err: &mut E, few: TooFew)
    ensures { TookFront (E.state err.old) (tokens_line few) (E.state err.new) }
{
    say_words(
        err,
        &[
            Text("chill: where: "),
            Number(few.tokens as u128),
            Text(" tokens\n"),
        ],
    );
}
