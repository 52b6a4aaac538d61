// A cursor over a text, which contracts see as the tokens that are left.
ghost use Rattle.std.specs.Prelude.{◌≡◌, [], length};
ghost use Rattle.c_tokens.specs.Tokens as spec;
ghost use Rattle.c_tokens.specs.Tokens.{Gives};
ghost use Rattle.c_tokens.specs.Pieces.{tokens_of, tokens_from, tokens_after, prepend};

use crate::pieces::{Margin, first_piece};
use crate::{Sign, Token};
use std::marker::Model;

/// The next token is another one than was expected.
#[derive(Clone, Copy, Debug, PartialEq, Eq)]
pub struct Unexpected;

/// The tokens that are left. Each is cut from the text as it is reached, and no memory is taken.
#[derive(Drop)]
pub struct Tokens<'a> {
    token: Option<Token>,
    /// The text behind that token.
    rest: &'a [u8],
}

impl<'a> Model for Tokens<'a> {
    ghost use Rattle.std.specs.Prelude.{List};
    ghost use Rattle.c_tokens.specs.declared.token.Token.{Token};
    ghost use Rattle.c_tokens.specs.Cursor.{tokens_left, IsAtToken};

    ghost Value = { List Token };

    ghost view = { tokens_left };

    ghost invariant = { IsAtToken };
}

// The first token of the text, and what stands behind it.
fn next(mut margin: Margin, mut text: &[u8]) -> (Option<Token>, &[u8])
    ensures same { prepend result.0 (tokens_after result.1.now) ≡ tokens_from 0 margin text.entry.now }
    ensures end { result.0 ≡ None → result.1.now ≡ [] }
{
    'pieces: while !text.is_empty() {
        let front = first_piece(margin, text);
        margin = front.margin;
        text = &text[front.len..];
        if front.token.is_some() {
            return (front.token, text);
        }
    }
    (None, text)
}

#[tactic(auto, unfolding(crate::specs::Tokens::same_sign))]
fn is_same(a: Sign, b: Sign) -> bool
    ensures { result ≡ spec.same_sign a b }
{
    a == b
}

impl<'a> Tokens<'a> {
    #[tactic(auto, unfolding(crate::specs::Pieces::tokens_of))]
    pub fn new(text: &'a [u8]) -> Tokens<'a>
        ensures { result ≡ tokens_of text.now }
    {
        let (token, rest) = next(Margin::Start, text);
        Tokens { token, rest }
    }

    /// The next token.
    #[tactic(auto, using(crate::proofs::Front::first_left))]
    pub fn peek(&self) -> Option<Token>
        ensures { result ≡ spec.first self.now }
    {
        self.token
    }

    /// Goes on behind the next token.
    pub fn skip(&mut self)
        ensures { self.new ≡ spec.rest self.old }
    {
        let (token, rest) = next(Margin::Past, self.rest);
        self.token = token;
        self.rest = rest;
    }

    /// Whether this sign comes next.
    pub fn sees(&self, sign: Sign) -> bool
        ensures { result ≡ spec.sees sign self.now }
    {
        match self.peek() {
            Some(Token::Sign(found)) => is_same(found, sign),
            _ => false,
        }
    }

    /// Goes on behind this sign where it comes next, and stays in front of any other token.
    #[tactic(auto, unfolding(crate::specs::Tokens::expect))]
    pub fn expect(&mut self, sign: Sign) -> Result<(), Unexpected>
        ensures { Gives (spec.expect sign self.old) result self.new }
    {
        if !self.sees(sign) {
            return Err(Unexpected);
        }
        self.skip();
        Ok(())
    }

    /// How many tokens are left, counted by reading on to the end of the text.
    pub fn left(&self) -> usize
        ensures { result ≡ length self.now }
    {
        let mut token = self.token;
        let mut rest = self.rest;
        let mut count = 0;
        'tokens: while token.is_some() {
            count += 1;
            (token, rest) = next(Margin::Past, rest);
        }
        count
    }
}
