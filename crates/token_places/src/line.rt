// The line that tells the place of a token and its spelling.
ghost use Rattle.std.specs.Prelude.{◌≡◌, ◌≤◌, ◌++◌, map, Some, OnOk, IfOk, IfErr};
ghost use Rattle.token_places.specs.Lines.{printable, shown, caret_text, line_of, IfTooFew, HasFewer};

use crate::caret::{Caret, caret_behind};
use crate::marks::{TooFew, nth_mark};
use c_tokens::Token;
use chill_base::{List, NoMemory, Stop, Text};
use itoa::Buffer;
use std::alloc::Global;

/// How many bytes of a bad place are shown.
const SHOWN: usize = 20;

fn printable(b: u8) -> u8
    ensures { result ≡ printable b }
{
    if (b' '..=b'~').contains(&b) { b } else { b'?' }
}

fn push_printable(text: &mut Vec<u8>, bytes: &[u8]) -> Result<(), NoMemory>
    ensures { OnOk result (text.new.items ≡ text.old.items ++ map printable bytes.now) }
{
    for b in bytes {
        text.push(printable(*b))?;
    }
    Ok(())
}

/// Appends the bytes of a token; of a bad place its first ones, each that can't be printed as `?`.
fn push_shown(text: &mut Vec<u8>, token: Token, bytes: &[u8]) -> Result<(), NoMemory>
    ensures { OnOk result (text.new.items ≡ text.old.items ++ shown token bytes.now) }
{
    match token {
        Token::Bad => push_printable(text, &bytes[..bytes.len().min(SHOWN)]),
        _ => Ok(text.extend_from_slice(bytes)?),
    }
}

fn push_caret(text: &mut Vec<u8>, caret: Caret) -> Result<(), NoMemory>
    ensures { OnOk result (text.new.items ≡ text.old.items ++ caret_text caret) }
{
    let mut buffer = Buffer::new();
    text.extend_from_slice(b"line ")?;
    text.extend_from_slice(buffer.format(caret.line as u64).as_bytes())?;
    text.extend_from_slice(b", column ")?;
    text.extend_from_slice(buffer.format(caret.column as u64).as_bytes())?;
    Ok(())
}

/// The line and the column of the token of that number, counted from 1, and its spelling.
pub fn place_line(alloc: Global, text: &[u8], number: usize) -> Result<Text, Stop<TooFew>>
    requires { 1 ≤ number }
    ensures ok { IfOk result (λ line. line_of text.now number ≡ Some line) }
    ensures past { IfErr result (IfTooFew (HasFewer text.now number)) }
{
    let mark = match nth_mark(text, number) {
        Ok(mark) => mark,
        Err(few) => return Err(Stop::Refused(few)),
    };
    let caret = caret_behind(&text[..mark.at]);
    let mut line = Vec::new(alloc);
    push_caret(&mut line, caret)?;
    line.extend_from_slice(b": ")?;
    push_shown(&mut line, mark.token, &text[mark.at..mark.at + mark.len])?;
    line.push(b'\n')?;
    Ok(List::from_vec(line))
}
