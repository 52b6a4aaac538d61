// What the words ask for.
ghost use Rattle.std.specs.Prelude.{◌≡◌, codes, true, false, None, Some, IfOk, IfSome, map, string_bytes};
ghost use Rattle.command_words.specs.Words.{are_words};
ghost use Rattle.command_words.specs.Commands.{request, named, command_of, IsFromOne};

use crate::number::number;
use crate::words::{Words, are_words, three_words};
use std::alloc::Global;

/// What a call is asked to do.
#[derive(Clone, Copy, Drop)]
pub enum Request<'a> {
    /// Write the text that the recipe makes of the source.
    Emit { recipe: &'a str, source: &'a str },
    /// Run the program on the data.
    Run { program: &'a str, data: &'a str },
    /// Run it, and write a line for each assignment of its executor.
    Trace { program: &'a str, data: &'a str },
    /// Make a test of so many rows, and run it.
    Work { seed: u32, size: u32 },
    /// Write where the token of that number, counted from 1, stands in the text, and how it is spelled.
    Where { text: &'a str, token: u32 },
}

/// Why words aren't read.
#[derive(Clone, Copy, Debug, PartialEq, Eq)]
pub enum WordsFault {
    /// They are those of no command.
    Usage,
    NoMemory,
}

/// The greatest seed of `work`.
const MOST_SEED: u32 = 2147483647;

/// The greatest size of `work`.
const MOST_SIZE: u32 = 65536;

/// The greatest number of a token that can be asked for.
const MOST_TOKEN: u32 = 4294967295;

fn work_of<'a>(seed: &'a str, size: &'a str) -> Option<Request<'a>>
    ensures { request result ≡ named (codes "work") seed.now size.now }
{
    match (
        number(seed.as_bytes(), MOST_SEED),
        number(size.as_bytes(), MOST_SIZE),
    ) {
        (Some(seed), Some(size)) if 1 <= size => Some(Request::Work { seed, size }),
        _ => None,
    }
}

fn where_of<'a>(text: &'a str, token: &'a str) -> Option<Request<'a>>
    ensures named { request result ≡ named (codes "where") text.now token.now }
    ensures counted { IfSome result IsFromOne }
{
    match number(token.as_bytes(), MOST_TOKEN) {
        Some(token) if 1 <= token => Some(Request::Where { text, token }),
        _ => None,
    }
}

fn named<'a>(words: &Words<'a>) -> Option<Request<'a>>
    ensures named { request result ≡ named words.now.verb.now words.now.first.now words.now.second.now }
    ensures counted { IfSome result IsFromOne }
{
    let Words {
        verb,
        first,
        second,
    } = *words;
    match verb {
        "emit" => Some(Request::Emit {
            recipe: first,
            source: second,
        }),
        "run" => Some(Request::Run {
            program: first,
            data: second,
        }),
        "trace" => Some(Request::Trace {
            program: first,
            data: second,
        }),
        "work" => work_of(first, second),
        "where" => where_of(first, second),
        _ => None,
    }
}

/// What the words ask for. A list of other than three words, or with one that is empty or begins with `-`, takes no memory.
pub fn request_of<'a>(alloc: Global, words: &'a [String]) -> Result<Request<'a>, WordsFault>
    ensures ok { IfOk result (λ r. request (Some r) ≡ command_of (map string_bytes words.now)) }
    ensures counted { IfOk result IsFromOne }
    ensures usage { result ≡ Err WordsFault.Usage → command_of (map string_bytes words.now) ≡ None }
    ensures bad { are_words (map string_bytes words.now) ≡ false → result ≡ Err WordsFault.Usage }
{
    if !are_words(words) {
        return Err(WordsFault::Usage);
    }
    let Ok(words) = three_words(alloc, words) else {
        return Err(WordsFault::NoMemory);
    };
    match named(&words) {
        Some(request) => Ok(request),
        None => Err(WordsFault::Usage),
    }
}
