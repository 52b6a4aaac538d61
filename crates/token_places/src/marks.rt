// The tokens of a text with their places.
ghost use Rattle.std.specs.Prelude.{◌≡◌, ◌≤◌, ◌<◌, ◌-◌, ◌+◌, length, slice_get, Some, IfOk, IfErr};
ghost use Rattle.token_places.specs.Marks.{marks_of};

use c_tokens::{Margin, Piece, Token, first_piece};

/// A token, how many bytes stand before it, and how many it has.
#[derive(Clone, Copy)]
pub struct Mark {
    pub token: Token,
    pub at: usize,
    pub len: usize,
}

/// There are only so many tokens.
#[derive(Clone, Copy, Debug, PartialEq, Eq, Drop)]
pub struct TooFew {
    pub tokens: usize,
}

/// The token of that number, counted from 1.
#[tactic(auto, unfolding(crate::specs::Marks::marks_of))]
pub fn nth_mark(text: &[u8], number: usize) -> Result<Mark, TooFew>
    requires { 1 ≤ number }
    ensures found { IfOk result (λ m. slice_get (marks_of text.now) (number - 1) ≡ Some m) }
    ensures within { IfOk result (λ m. m.at + m.len ≤ length text.now) }
    ensures past { IfErr result (λ few. (few.tokens ≡ length (marks_of text.now)) × (few.tokens < number)) }
{
    let mut margin = Margin::Start;
    let mut at = 0;
    let mut seen = 0;
    'pieces: while at < text.len() {
        let Piece {
            token,
            len,
            margin: next,
        } = first_piece(margin, &text[at..]);
        if let Some(token) = token {
            seen += 1;
            if seen == number {
                return Ok(Mark { token, at, len });
            }
        }
        at += len;
        margin = next;
    }
    Err(TooFew { tokens: seen })
}
