// A text that is written from its end: each piece is put before what stands there. Sums and products are deep on the
// left, so their right parts come first, and a loop goes down their left parts.
ghost use Rattle.std.specs.Prelude.{◌≡◌, [], ◌++◌, OnOk, IfOk, decimal, reverse};
ghost use Rattle.std.specs.Fmt.{signed_decimal};

use chill_base::{List, Text};
use itoa::Buffer;
use std::alloc::{AllocError, Global};
use std::marker::Model;

/// A text, from its front on.
#[derive(Drop)]
pub struct Ahead {
    // Last byte first.
    bytes: Vec<u8>,
}

impl Model for Ahead {
    ghost use Rattle.std.specs.Prelude.{ℕ, List, reverse};

    ghost Value = { List ℕ };

    ghost view = { λ a. reverse a.bytes.items };
}

// The bytes of the piece, last byte first.
fn push_reversed(bytes: &mut Vec<u8>, piece: &[u8]) -> Result<(), AllocError>
    ensures { OnOk result (bytes.new.items ≡ bytes.old.items ++ reverse piece.now) }
{
    bytes.extend(piece.iter().rev().copied())
}

impl Ahead {
    pub fn new(alloc: Global) -> Ahead
        ensures { result ≡ [] }
    {
        Ahead {
            bytes: Vec::new(alloc),
        }
    }

    /// Puts a piece before the text.
    pub fn put(&mut self, piece: &[u8]) -> Result<(), AllocError>
        ensures { OnOk result (self.new ≡ piece.now ++ self.old) }
    {
        push_reversed(&mut self.bytes, piece)
    }

    /// Puts a number before the text.
    pub fn put_number(&mut self, n: i64) -> Result<(), AllocError>
        ensures { OnOk result (self.new ≡ signed_decimal n ++ self.old) }
    {
        let mut buffer = Buffer::new();
        self.put(buffer.format(n).as_bytes())
    }

    /// Puts a number before the text.
    pub fn put_natural(&mut self, n: u64) -> Result<(), AllocError>
        ensures { OnOk result (self.new ≡ decimal n ++ self.old) }
    {
        let mut buffer = Buffer::new();
        self.put(buffer.format(n).as_bytes())
    }

    /// The whole text.
    pub fn into_text(self, alloc: Global) -> Result<Text, AllocError>
        ensures { IfOk result (λ text. text ≡ self) }
    {
        let mut text = Vec::new(alloc);
        push_reversed(&mut text, self.bytes.as_slice())?;
        Ok(List::from_vec(text))
    }
}
