// The piece at the front of a text: a token, or a gap of white space, comments and skipped lines.
ghost use Rattle.std.specs.Prelude.{◌≡◌, ◌≢◌, ◌≤◌, ◌<◌, ◌+◌, ◌^◌, ℕ, true, length, slice_index, IfSome};
ghost use Rattle.c_tokens.specs.Pieces as spec;

use crate::prelude::PRELUDE;
use crate::signs::{is_among, is_keyword, longest_sign, spelling, word};
use crate::{Sign, Token};
use chill_base::Name;

/// Where a place stands in its line: at its start, behind blanks alone, or behind more.
#[derive(Clone, Copy, Debug, PartialEq, Eq)]
pub enum Margin {
    Start,
    Blank,
    Past,
}

/// What stands at the front of a text, how many bytes it has, and where its end stands in the line.
#[derive(Clone, Copy)]
pub struct Piece {
    pub token: Option<Token>,
    pub len: usize,
    pub margin: Margin,
}

fn is_blank(b: u8) -> bool
    ensures { result ≡ spec.is_blank b }
{
    b == b' ' || b == b'\t'
}

fn is_space(b: u8) -> bool
    ensures { result ≡ spec.is_space b }
{
    is_blank(b) || b == b'\r' || b == b'\n'
}

fn is_word_byte(b: u8) -> bool
    ensures { result ≡ spec.is_word_byte b }
{
    b.is_ascii_alphanumeric() || b == b'_'
}

fn byte(text: &[u8], at: usize) -> u8
    ensures value { result ≡ slice_index text.now at }
    ensures within { result ≢ 0 → at < length text.now }
{
    if at < text.len() { text[at] } else { 0 }
}

fn run_len(text: &[u8]) -> usize
    ensures value { result ≡ spec.run_len text.now }
    ensures within { result ≤ length text.now }
    ensures moves { spec.is_word_byte (slice_index text.now 0) ≡ true → 0 < length text.now → 1 ≤ result }
{
    let mut end = 0;
    while end < text.len() && is_word_byte(text[end]) {
        end += 1;
    }
    end
}

fn line_len(text: &[u8]) -> usize
    ensures value { result ≡ spec.line_len text.now }
    ensures within { result ≤ length text.now }
    ensures moves { slice_index text.now 0 ≢ 10 → 0 < length text.now → 1 ≤ result }
{
    let mut end = 0;
    while end < text.len() && text[end] != b'\n' {
        end += 1;
    }
    end
}

// The number that digits are, unless it is 2^64 or more.
#[tactic(auto, using(crate::proofs::Digits::value_at))]
fn value(digits: &[u8]) -> Option<u64>
    ensures fits { IfSome result (λ n. n ≡ spec.value digits.now) }
    ensures large { result ≡ None → 2 ^ 64 ≤ spec.value digits.now }
{
    let mut n = 0u64;
    for b in digits {
        n = n
            .checked_mul(10)?
            .checked_add(u64::from(b.saturating_sub(b'0')))?;
    }
    Some(n)
}

fn are_digits(run: &[u8]) -> bool
    ensures { result ≡ spec.are_digits run.now }
{
    run.iter().all(|b| b.is_ascii_digit())
}

fn number(run: &[u8]) -> Token
    ensures { result ≡ spec.number run.now }
{
    if !are_digits(run) || (byte(run, 0) == b'0' && run.len() > 1) {
        return Token::Bad;
    }
    match value(run) {
        Some(n) => Token::Number(n),
        None => Token::Bad,
    }
}

fn name(run: &[u8]) -> Token
    requires { 1 ≤ length run.now }
    ensures { result ≡ spec.name run.now }
{
    if is_keyword(run) {
        return Token::Sign(Sign::Reserved);
    }
    match Name::new(run) {
        Some(name) => Token::Name(name),
        None => Token::Bad,
    }
}

#[tactic(auto, unfolding(crate::specs::Pieces::token_of_run))]
fn token_of_run(run: &[u8]) -> Token
    requires { 1 ≤ length run.now }
    ensures { result ≡ spec.token_of_run run.now }
{
    if byte(run, 0).is_ascii_digit() {
        return number(run);
    }
    match word(run) {
        Some(sign) => Token::Sign(sign),
        None => name(run),
    }
}

fn gap(len: usize) -> Piece
    ensures { result ≡ spec.gap len }
{
    Piece {
        token: None,
        len,
        margin: Margin::Past,
    }
}

fn taken(token: Token, len: usize) -> Piece
    ensures { result ≡ spec.taken token len }
{
    Piece {
        token: Some(token),
        len,
        margin: Margin::Past,
    }
}

fn stuck(text: &[u8]) -> Piece
    ensures { result ≡ spec.stuck text.now }
{
    taken(Token::Bad, text.len())
}

fn space(margin: Margin, b: u8) -> Piece
    ensures { result ≡ spec.space margin b }
{
    let margin = match margin {
        _ if b == b'\n' => Margin::Start,
        Margin::Past => Margin::Past,
        Margin::Start | Margin::Blank => {
            if is_blank(b) {
                Margin::Blank
            } else {
                Margin::Past
            }
        }
    };
    Piece {
        token: None,
        len: 1,
        margin,
    }
}

// The place behind the first `*/`, for what stands behind `/*`.
fn closing(text: &[u8]) -> Option<usize>
    ensures value { result ≡ spec.closing 0 text.now }
    ensures within { IfSome result (λ end. end ≤ length text.now) }
{
    for (at, b) in text.iter().enumerate() {
        if *b == b'*' && byte(text, at + 1) == b'/' {
            return Some(at + 2);
        }
    }
    None
}

#[tactic(auto, unfolding(crate::specs::Pieces::comment))]
fn comment(text: &[u8]) -> Piece
    requires { slice_index text.now 0 ≡ 47 }
    ensures value { result ≡ spec.comment text.now }
    ensures within { (1 ≤ result.len) × (result.len ≤ length text.now) }
    ensures past { result.margin ≡ Margin.Past }
{
    match byte(text, 1) {
        b'/' => gap(line_len(text)),
        b'*' => match closing(&text[2..]) {
            Some(len) => gap(len + 2),
            None => stuck(text),
        },
        _ => stuck(text),
    }
}

#[tactic(auto, unfolding(crate::specs::Pieces::sign))]
fn sign(text: &[u8]) -> Piece
    requires { 1 ≤ length text.now }
    ensures value { result ≡ spec.sign text.now }
    ensures within { (1 ≤ result.len) × (result.len ≤ length text.now) }
    ensures past { result.margin ≡ Margin.Past }
{
    match longest_sign(text) {
        Some(sign) => taken(Token::Sign(sign), spelling(sign).len()),
        None => stuck(text),
    }
}

fn is_skipped(margin: Margin, text: &[u8]) -> bool
    ensures { result ≡ spec.is_skipped margin text.now }
{
    match margin {
        Margin::Start => {
            text.starts_with(b"#include") || is_among(&PRELUDE, &text[..line_len(text)])
        }
        Margin::Blank => text.starts_with(b"#include"),
        Margin::Past => false,
    }
}

#[tactic(auto, unfolding(crate::specs::Pieces::hash))]
fn hash(margin: Margin, text: &[u8]) -> Piece
    requires { slice_index text.now 0 ≡ 35 }
    ensures value { result ≡ spec.hash margin text.now }
    ensures within { (1 ≤ result.len) × (result.len ≤ length text.now) }
    ensures past { result.margin ≡ Margin.Past }
{
    if is_skipped(margin, text) {
        gap(line_len(text))
    } else {
        sign(text)
    }
}

/// The piece at the front of a text that isn't empty, where it stands so in its line.
#[tactic(auto, unfolding(crate::specs::Pieces::piece))]
pub fn first_piece(margin: Margin, text: &[u8]) -> Piece
    requires { 1 ≤ length text.now }
    ensures value { result ≡ spec.piece margin text.now }
    ensures within { (1 ≤ result.len) × (result.len ≤ length text.now) }
    ensures past { result.token ≢ None → result.margin ≡ Margin.Past }
{
    let b = byte(text, 0);
    if is_space(b) {
        space(margin, b)
    } else if b == b'/' {
        comment(text)
    } else if b == b'#' {
        hash(margin, text)
    } else if is_word_byte(b) {
        let len = run_len(text);
        taken(token_of_run(&text[..len]), len)
    } else {
        sign(text)
    }
}
