// Names and numbers.
ghost use Rattle.std.specs.Prelude.{◌≡◌, ◌≤◌, ◌^◌, IfOk};
ghost use Rattle.c_tokens.specs.Tokens.{first};
ghost use Rattle.c_grammar.specs.Reader as spec;
ghost use Rattle.c_loops.specs.Reads.{Reads};

use crate::halt::Halt;
use c_tokens::{Token, Tokens};
use chill_base::Name;

/// The greatest number of an index expression.
const LARGEST: u64 = 1 << 62;

#[tactic(auto, unfolding(c_grammar::specs::Reader::name))]
pub fn name(tokens: &mut Tokens<'_>) -> Result<Name, Halt>
    ensures { Reads (spec.name tokens.old) result tokens.new }
{
    let Some(token) = tokens.peek() else {
        return Err(Halt::Unexpected);
    };
    match token {
        Token::Name(name) => {
            tokens.skip();
            Ok(name)
        }
        _ => Err(Halt::Unexpected),
    }
}

// Whether this very name comes next.
fn sees_word(tokens: &Tokens<'_>, word: &[u8]) -> bool
    ensures { result ≡ spec.is_name word.now (first tokens.now) }
{
    let Some(token) = tokens.peek() else {
        return false;
    };
    match token {
        Token::Name(name) => name.bytes() == word,
        _ => false,
    }
}

/// This very name.
#[tactic(auto, unfolding(c_grammar::specs::Reader::word))]
pub fn word(tokens: &mut Tokens<'_>, word: &[u8]) -> Result<(), Halt>
    ensures { Reads (spec.word word.now tokens.old) result tokens.new }
{
    if !sees_word(tokens, word) {
        return Err(Halt::Unexpected);
    }
    tokens.skip();
    Ok(())
}

/// A number of an index expression.
#[tactic(auto, unfolding(c_grammar::specs::Reader::constant))]
pub fn constant(tokens: &mut Tokens<'_>) -> Result<i64, Halt>
    ensures { Reads (spec.constant tokens.old) result tokens.new }
{
    match tokens.peek() {
        Some(Token::Number(number)) if number <= LARGEST => {
            tokens.skip();
            Ok(number as i64)
        }
        _ => Err(Halt::Unexpected),
    }
}

/// A number that may divide.
#[tactic(auto, unfolding(c_grammar::specs::Reader::divisor))]
pub fn divisor(tokens: &mut Tokens<'_>) -> Result<i64, Halt>
    ensures { Reads (spec.divisor tokens.old) result tokens.new }
{
    match tokens.peek() {
        Some(Token::Number(number)) if number >= 1 && number <= LARGEST => {
            tokens.skip();
            Ok(number as i64)
        }
        _ => Err(Halt::Unexpected),
    }
}
