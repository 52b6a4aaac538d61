// Lines that are written in pieces, with no memory.
ghost use Rattle.std.specs.Fmt.{decimal, signed_decimal};
ghost use Rattle.std.specs.Prelude.{◌++◌};
ghost use Rattle.chill_base.specs.Outside.{WritesAll, TookFront};
ghost use Rattle.outcomes.specs.Words.{behind_dots, place_text, word_text, text_of};

use chill_base::{Failed, Name, Place, Sink, write_all};
use itoa::Buffer;

/// A piece of a line.
#[derive(Clone, Copy, Drop)]
pub enum Word<'a> {
    Text(&'a str),
    Number(u128),
    Wide(&'a u128),
    Signed(i64),
    Name(&'a Name),
    /// Its numbers, with `.` between them.
    Place(&'a Place),
}

fn write_signed<S: Sink>(sink: &mut S, number: &i64) -> Result<(), Failed>
    ensures { WritesAll (S.state sink.old) (signed_decimal number.now) (S.state sink.new) result }
{
    let mut buffer = Buffer::new();
    write_all(sink, buffer.format(*number).as_bytes())
}

fn write_number<S: Sink>(sink: &mut S, number: u128) -> Result<(), Failed>
    ensures { WritesAll (S.state sink.old) (decimal number) (S.state sink.new) result }
{
    let mut buffer = Buffer::new();
    write_all(sink, buffer.format(number).as_bytes())
}

// A number, and the others each behind a dot.
#[cycle(numbers)]
fn write_numbers<S: Sink>(sink: &mut S, first: &i64, rest: &[i64]) -> Result<(), Failed>
    ensures { WritesAll (S.state sink.old) (signed_decimal first.now ++ behind_dots rest.now) (S.state sink.new) result }
{
    match write_signed(sink, first) {
        Ok(()) => write_behind(sink, rest),
        Err(Failed) => Err(Failed),
    }
}

fn write_wide<S: Sink>(sink: &mut S, number: &u128) -> Result<(), Failed>
    ensures { WritesAll (S.state sink.old) (decimal number.now) (S.state sink.new) result }
{
    let mut buffer = Buffer::new();
    write_all(sink, buffer.format(*number).as_bytes())
}

// The numbers, each behind a dot.
#[cycle(numbers)]
fn write_behind<S: Sink>(sink: &mut S, numbers: &[i64]) -> Result<(), Failed>
    ensures { WritesAll (S.state sink.old) (behind_dots numbers.now) (S.state sink.new) result }
{
    match numbers {
        [] => Ok(()),
        [first, rest @ ..] => {
            let Ok(()) = write_all(sink, b".") else {
                return Err(Failed);
            };
            write_numbers(sink, first, rest)
        }
    }
}

fn write_place<S: Sink>(sink: &mut S, numbers: &[i64]) -> Result<(), Failed>
    ensures { WritesAll (S.state sink.old) (place_text numbers.now) (S.state sink.new) result }
{
    match numbers {
        [] => Ok(()),
        [first, rest @ ..] => write_numbers(sink, first, rest),
    }
}

fn write_word<S: Sink>(sink: &mut S, word: &Word<'_>) -> Result<(), Failed>
    ensures { WritesAll (S.state sink.old) (word_text word.now) (S.state sink.new) result }
{
    match word {
        Word::Text(text) => write_all(sink, text.as_bytes()),
        Word::Number(number) => write_number(sink, *number),
        Word::Wide(number) => write_wide(sink, number),
        Word::Signed(number) => write_signed(sink, number),
        Word::Name(name) => write_all(sink, name.bytes()),
        Word::Place(place) => write_place(sink, place.numbers()),
    }
}

/// Writes the pieces, one after another.
fn write_words<S: Sink>(sink: &mut S, words: &[Word<'_>]) -> Result<(), Failed>
    ensures { WritesAll (S.state sink.old) (text_of words.now) (S.state sink.new) result }
{
    match words {
        [] => Ok(()),
        [first, rest @ ..] => {
            match write_word(sink, first) {
                Ok(()) => write_words(sink, rest),
                Err(Failed) => Err(Failed),
            }
        }
    }
}

/// Writes the pieces, as far as the sink takes them.
#[tactic(auto, using(crate::proofs::Fronts::taken_or_cut))]
pub fn say_words<S: Sink>(sink: &mut S, words: &[Word<'_>])
    ensures { TookFront (S.state sink.old) (text_of words.now) (S.state sink.new) }
{
    let _ = write_words(sink, words);
}
