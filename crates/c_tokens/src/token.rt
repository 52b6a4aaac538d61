// Tokens.
use chill_base::Name;

/// A sign or a word of the language.
#[derive(Clone, Copy, Debug, PartialEq, Eq)]
pub enum Sign {
    Pragma,
    Open,
    Close,
    OpenSquare,
    CloseSquare,
    OpenBrace,
    CloseBrace,
    Comma,
    Semicolon,
    Assign,
    AddAssign,
    SubtractAssign,
    Plus,
    Minus,
    Star,
    Less,
    AtMost,
    More,
    AtLeast,
    Same,
    And,
    Increment,
    Void,
    For,
    If,
    Int64,
    Uint64,
    Min,
    Max,
    Floord,
    Ceild,
    Grow,
    Index1,
    Index2,
    Data1,
    Data2,
    Data3,
    /// A keyword of C that no rule of the language has.
    Reserved,
}

/// What a text is made of.
#[derive(Clone, Copy, PartialEq, Eq)]
pub enum Token {
    /// A name: a letter or `_`, then letters, digits and `_`, at most 63 bytes, and no word of the language.
    Name(Name),
    /// A decimal number of at most 2^64-1, without leading zeros.
    Number(u64),
    Sign(Sign),
    /// A place at which no token can be taken.
    Bad,
}
