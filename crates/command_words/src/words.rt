// Three plain words.
ghost use Rattle.std.specs.Prelude.{◌≡◌, ◌∷◌, [], true, IfOk, IfErr, map, string_bytes};
ghost use Rattle.clap.specs.Words.{app_of, kind_of};
ghost use Rattle.command_words.specs.Words.{is_word, are_words, three_words};

use clap::error::ErrorKind;
use clap::{Arg, Command, Error};
use std::alloc::{AllocError, Global};

/// The words of a command.
#[derive(Clone, Copy, Drop)]
pub struct Words<'a> {
    pub verb: &'a str,
    pub first: &'a str,
    pub second: &'a str,
}

/// The command with places for three words.
fn command<'a>(alloc: Global) -> Result<Command<'a>, AllocError>
    ensures { IfOk result (λ c. app_of c ≡ three_words) }
{
    let verb = Arg::new(alloc, "verb").required(true);
    let first = Arg::new(alloc, "first").required(true);
    let second = Arg::new(alloc, "second").required(true);
    Command::new(alloc, "chill")
        .no_binary_name(true)
        .disable_help_flag(true)
        .arg(verb)?
        .arg(first)?
        .arg(second)
}

/// The three words.
pub fn three_words<'a>(alloc: Global, words: &'a [String]) -> Result<Words<'a>, Error>
    requires { are_words (map string_bytes words.now) ≡ true }
    ensures ok { IfOk result (λ r. map string_bytes words.now ≡ r.verb.now ∷ r.first.now ∷ r.second.now ∷ []) }
    ensures err { IfErr result (λ e. kind_of e ≡ ErrorKind.OutOfMemory) }
{
    let command = command(alloc)?;
    let matches = command.try_get_matches_from(words)?;
    Ok(Words {
        verb: matches.get_str("verb").unwrap_or(""),
        first: matches.get_str("first").unwrap_or(""),
        second: matches.get_str("second").unwrap_or(""),
    })
}

/// Whether a word isn't empty and doesn't begin with `-`.
fn is_word(word: &String) -> bool
    ensures { result ≡ is_word (string_bytes word.now) }
{
    match word.as_bytes() {
        [] => false,
        [first, ..] => *first != b'-',
    }
}

/// Whether there are three such words.
pub fn are_words(words: &[String]) -> bool
    ensures { result ≡ are_words (map string_bytes words.now) }
{
    match words {
        [verb, first, second] => is_word(verb) && (is_word(first) && is_word(second)),
        _ => false,
    }
}
