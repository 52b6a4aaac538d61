// Lines and columns.
ghost use Rattle.std.specs.Prelude.{◌≡◌, ◌<◌, length, ◌^◌};
ghost use Rattle.token_places.specs.Carets.{caret_of};

/// A line and a column, both counted from 1; a column is a byte.
#[derive(Clone, Copy, Debug, PartialEq, Eq)]
pub struct Caret {
    pub line: usize,
    pub column: usize,
}

/// The place behind a text.
pub fn caret_behind(before: &[u8]) -> Caret
    ensures { result ≡ caret_of before.now }
{
    let mut caret = Caret { line: 1, column: 1 };
    for b in before {
        if *b == b'\n' {
            caret.line += 1;
            caret.column = 1;
        } else {
            caret.column += 1;
        }
    }
    caret
}
