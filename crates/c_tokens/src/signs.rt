// Signs and words, by their spelling.
ghost use Rattle.std.specs.Prelude.{◌≡◌, ◌≤◌, IfSome, IfNone, length, map};
ghost use Rattle.c_tokens.specs.declared.token.Sign.{Sign};
ghost use Rattle.c_tokens.specs.Signs as spec;
ghost use Rattle.c_tokens.specs.Signs.{IsLongestSign, IsOneOf, Begins};

use crate::Sign;

/// The text of a sign or word. `Reserved` stands for many words, and gives no text.
pub fn spelling(sign: Sign) -> &'static [u8]
    ensures { result.now ≡ spec.spelling sign }
{
    match sign {
        Sign::Pragma => b"#pragma",
        Sign::Open => b"(",
        Sign::Close => b")",
        Sign::OpenSquare => b"[",
        Sign::CloseSquare => b"]",
        Sign::OpenBrace => b"{",
        Sign::CloseBrace => b"}",
        Sign::Comma => b",",
        Sign::Semicolon => b";",
        Sign::Assign => b"=",
        Sign::AddAssign => b"+=",
        Sign::SubtractAssign => b"-=",
        Sign::Plus => b"+",
        Sign::Minus => b"-",
        Sign::Star => b"*",
        Sign::Less => b"<",
        Sign::AtMost => b"<=",
        Sign::More => b">",
        Sign::AtLeast => b">=",
        Sign::Same => b"==",
        Sign::And => b"&&",
        Sign::Increment => b"++",
        Sign::Void => b"void",
        Sign::For => b"for",
        Sign::If => b"if",
        Sign::Int64 => b"int64_t",
        Sign::Uint64 => b"uint64_t",
        Sign::Min => b"min",
        Sign::Max => b"max",
        Sign::Floord => b"floord",
        Sign::Ceild => b"ceild",
        Sign::Grow => b"GROW",
        Sign::Index1 => b"INDEX1",
        Sign::Index2 => b"INDEX2",
        Sign::Data1 => b"DATA1",
        Sign::Data2 => b"DATA2",
        Sign::Data3 => b"DATA3",
        Sign::Reserved => b"",
    }
}

/// The signs, longer ones first.
const SIGNS: [Sign; 22] = [
    Sign::Pragma,
    Sign::AddAssign,
    Sign::SubtractAssign,
    Sign::Increment,
    Sign::AtMost,
    Sign::AtLeast,
    Sign::Same,
    Sign::And,
    Sign::Open,
    Sign::Close,
    Sign::OpenSquare,
    Sign::CloseSquare,
    Sign::OpenBrace,
    Sign::CloseBrace,
    Sign::Comma,
    Sign::Semicolon,
    Sign::Assign,
    Sign::Plus,
    Sign::Minus,
    Sign::Star,
    Sign::Less,
    Sign::More,
];

/// The words that the language's rules have.
const WORDS: [Sign; 15] = [
    Sign::Void,
    Sign::For,
    Sign::If,
    Sign::Int64,
    Sign::Uint64,
    Sign::Min,
    Sign::Max,
    Sign::Floord,
    Sign::Ceild,
    Sign::Grow,
    Sign::Index1,
    Sign::Index2,
    Sign::Data1,
    Sign::Data2,
    Sign::Data3,
];

/// The keywords of C that no rule of the language has.
const KEYWORDS: [&[u8]; 34] = [
    b"auto",
    b"break",
    b"case",
    b"char",
    b"const",
    b"continue",
    b"default",
    b"do",
    b"double",
    b"else",
    b"enum",
    b"extern",
    b"float",
    b"goto",
    b"inline",
    b"int",
    b"long",
    b"register",
    b"restrict",
    b"return",
    b"short",
    b"signed",
    b"sizeof",
    b"static",
    b"struct",
    b"switch",
    b"typedef",
    b"union",
    b"unsigned",
    b"volatile",
    b"while",
    b"_Bool",
    b"_Complex",
    b"_Imaginary",
];

/// The longest sign at the front.
#[tactic(auto, unfolding(crate::specs::Signs::sign_at))]
pub fn longest_sign(text: &[u8]) -> Option<Sign>
    ensures value { result ≡ spec.sign_at text.now }
    ensures found { IfSome result (λ s. IsLongestSign text.now s) }
    ensures none { IfNone result ((s : Sign) → IsOneOf spec.signs s → Begins text.now s → ⊥) }
    ensures within { IfSome result (λ s. (1 ≤ length (spec.spelling s)) × (length (spec.spelling s) ≤ length text.now)) }
{
    first_of(&SIGNS, text)
}

fn first_of(signs: &[Sign], text: &[u8]) -> Option<Sign>
    ensures { result ≡ spec.first_of signs.now text.now }
{
    for sign in signs {
        if text.starts_with(spelling(*sign)) {
            return Some(*sign);
        }
    }
    None
}

/// The word of the language that is spelled so.
#[tactic(auto, unfolding(crate::specs::Signs::word_of))]
pub fn word(text: &[u8]) -> Option<Sign>
    ensures { result ≡ spec.word_of text.now }
{
    spelled(&WORDS, text)
}

fn spelled(signs: &[Sign], text: &[u8]) -> Option<Sign>
    ensures { result ≡ spec.spelled signs.now text.now }
{
    for sign in signs {
        if text == spelling(*sign) {
            return Some(*sign);
        }
    }
    None
}

#[tactic(auto, unfolding(crate::specs::Signs::is_keyword))]
pub fn is_keyword(text: &[u8]) -> bool
    ensures { result ≡ spec.is_keyword text.now }
{
    is_among(&KEYWORDS, text)
}

pub fn is_among(mut lines: &[&[u8]], text: &[u8]) -> bool
    ensures { result ≡ spec.is_among (map (λ line. line.now) lines.entry.now) text.now }
{
    while let [line, rest @ ..] = lines {
        if text == *line {
            return true;
        }
        lines = rest;
    }
    false
}
