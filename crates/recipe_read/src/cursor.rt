// A cursor over the bytes of a line.
ghost use Rattle.std.specs.Prelude.{◌≡◌, ◌≤◌, ◌<◌, ◌↔◌, [], length, take, drop, IsTrue, IfOk, IfSome, false};
ghost use Rattle.std.specs.List.{prefix_len};
ghost use Rattle.recipe_read.specs.Cursor as spec;
ghost use Rattle.recipe_read.specs.Cursor.{Reads};

use crate::words::{Verb, name_of, padding_of, verb_of};
use chill_base::{Name, Padding, Stop};
use std::marker::Model;

/// The line is no line of a recipe.
#[derive(Clone, Copy, Debug, Drop)]
pub struct BadLine;

/// The greatest number of a recipe.
const MOST: u64 = 2147483647;

/// The classes of bytes.
#[derive(Clone, Copy, Debug)]
pub enum Class {
    Blank,
    Digit,
    Word,
    /// Any byte but a line feed.
    InLine,
}

fn is_in(class: Class, byte: u8) -> bool
    ensures { result ≡ spec.is_in class byte }
{
    match class {
        Class::Blank => byte == b' ',
        Class::Digit => byte.is_ascii_digit(),
        Class::Word => byte.is_ascii_alphanumeric() || byte == b'_',
        Class::InLine => byte != b'\n',
    }
}

/// How many bytes at the front are of the class.
pub fn run_len(bytes: &[u8], class: Class) -> usize
    ensures len { result ≡ prefix_len (spec.is_in class) bytes.now }
    ensures within { result ≤ length bytes.now }
{
    bytes.iter().take_while(|byte| is_in(class, **byte)).count()
}

// The number that the digits write, where it is no greater than those of a recipe.
#[tactic(auto, using(crate::proofs::Numbers::step_value, crate::proofs::Numbers::past_limit), unfolding(crate::specs::Cursor::value))]
fn small_value(digits: &[u8]) -> Option<u32>
    ensures value { result ≡ spec.small (spec.value digits.now) }
    ensures most { IfSome result (λ n. n ≤ MOST) }
{
    let mut value = 0u64;
    for digit in digits {
        value = 10 * value + u64::from(digit.saturating_sub(b'0'));
        if value > MOST {
            return None;
        }
    }
    Some(value as u32)
}

// The number that the digits write, where they are a number of a recipe.
#[tactic(auto, unfolding(crate::specs::Cursor::number_of))]
fn number_of(digits: &[u8]) -> Option<u32>
    ensures number { result ≡ spec.number_of digits.now }
    ensures most { IfSome result (λ n. n ≤ MOST) }
{
    if digits.is_empty() || (digits.len() > 1 && digits[0] == b'0') {
        return None;
    }
    small_value(digits)
}

// Whether the sign stands at the front.
fn begins(bytes: &[u8], sign: u8) -> bool
    ensures value { result ≡ spec.begins sign bytes.now }
    ensures some { IsTrue result → 0 < length bytes.now }
{
    !bytes.is_empty() && bytes[0] == sign
}

/// The bytes of a line that are not read yet.
#[derive(Drop)]
pub struct Cursor<'a> {
    rest: &'a [u8],
}

impl<'a> Model for Cursor<'a> {
    ghost use Rattle.std.specs.Prelude.{ℕ, List};
    ghost use Rattle.std.specs.Coded.{coded_ℕ, coded_list};

    ghost Value = { List ℕ };

    ghost coded = { coded_list coded_ℕ };

    ghost view = { λ cursor. cursor.rest.now };
}

impl<'a> Cursor<'a> {
    pub fn new(line: &'a [u8]) -> Cursor<'a>
        ensures { result ≡ line.now }
    {
        Cursor { rest: line }
    }

    pub fn is_at_end(&self) -> bool
        ensures { IsTrue result ↔ (self.now ≡ []) }
    {
        self.rest.is_empty()
    }

    // What comes behind the blanks.
    #[tactic(auto, unfolding(crate::specs::Cursor::trim))]
    fn ahead(&self) -> &'a [u8]
        ensures ahead { result.now ≡ spec.trim self.now }
        ensures shorter { length result.now ≤ length self.now }
    {
        &self.rest[run_len(self.rest, Class::Blank)..]
    }

    /// Takes the sign if it comes next.
    #[tactic(auto, unfolding(crate::specs::Cursor::sees, crate::specs::Cursor::after))]
    pub fn takes(&mut self, sign: u8) -> bool
        ensures sees { result ≡ spec.sees sign self.old }
        ensures after { self.new ≡ spec.after sign self.old }
        ensures shorter { IsTrue result → length self.new < length self.old }
        ensures stays { result ≡ false → self.new ≡ self.old }
        ensures no_longer { length self.new ≤ length self.old }
    {
        let ahead = self.ahead();
        let sees = begins(ahead, sign);
        if sees {
            self.rest = &ahead[1..];
        }
        sees
    }

    /// Takes the sign.
    #[tactic(auto, unfolding(crate::specs::Cursor::sign))]
    pub fn expect(&mut self, sign: u8) -> Result<(), Stop<BadLine>>
        ensures reads { Reads (spec.sign sign self.old) result self.new }
        ensures no_longer { length self.new ≤ length self.old }
    {
        if self.takes(sign) {
            Ok(())
        } else {
            Err(Stop::Refused(BadLine))
        }
    }

    // Takes the bytes of the class at the front.
    fn run(&mut self, class: Class) -> &'a [u8]
        ensures run { result.now ≡ spec.run class self.old }
        ensures rest { self.new ≡ spec.past class self.old }
        ensures no_longer { length self.new ≤ length self.old }
    {
        let (run, rest) = self.rest.split_at(run_len(self.rest, class));
        self.rest = rest;
        run
    }

    // Takes the number at the very front.
    #[tactic(auto, unfolding(crate::specs::Cursor::number_here))]
    fn number_here(&mut self) -> Result<u32, Stop<BadLine>>
        ensures reads { Reads (spec.number_here self.old) result self.new }
        ensures most { IfOk result (λ n. n ≤ MOST) }
        ensures no_longer { length self.new ≤ length self.old }
    {
        match number_of(self.run(Class::Digit)) {
            Some(number) => Ok(number),
            None => Err(Stop::Refused(BadLine)),
        }
    }

    /// Takes a number.
    #[tactic(auto, unfolding(crate::specs::Cursor::number))]
    pub fn number(&mut self) -> Result<u32, Stop<BadLine>>
        ensures reads { Reads (spec.number self.old) result self.new }
        ensures most { IfOk result (λ n. n ≤ MOST) }
        ensures no_longer { length self.new ≤ length self.old }
    {
        self.rest = self.ahead();
        self.number_here()
    }

    /// Takes a number with an optional `-`.
    #[tactic(auto, unfolding(crate::specs::Cursor::integer))]
    pub fn integer(&mut self) -> Result<i32, Stop<BadLine>>
        ensures reads { Reads (spec.integer self.old) result self.new }
        ensures no_longer { length self.new ≤ length self.old }
    {
        if self.takes(b'-') {
            let size = self.number_here()?;
            return Ok(-(size as i32));
        }
        let size = self.number()?;
        Ok(size as i32)
    }

    /// Takes the word at the very front, with which a command begins.
    #[tactic(auto, unfolding(crate::specs::Cursor::command_word))]
    pub fn command_word(&mut self) -> Result<Verb, Stop<BadLine>>
        ensures { Reads (spec.command_word self.old) result self.new }
    {
        verb_of(self.run(Class::Word)).ok_or(Stop::Refused(BadLine))
    }

    /// Takes a name.
    #[tactic(auto, unfolding(crate::specs::Cursor::name))]
    pub fn name(&mut self) -> Result<Name, Stop<BadLine>>
        ensures { Reads (spec.name self.old) result self.new }
    {
        self.rest = self.ahead();
        name_of(self.run(Class::Word)).ok_or(Stop::Refused(BadLine))
    }

    /// Takes the word of a layout.
    #[tactic(auto, unfolding(crate::specs::Cursor::layout))]
    pub fn layout(&mut self) -> Result<Padding, Stop<BadLine>>
        ensures { Reads (spec.layout self.old) result self.new }
    {
        self.rest = self.ahead();
        padding_of(self.run(Class::Word)).ok_or(Stop::Refused(BadLine))
    }
}
