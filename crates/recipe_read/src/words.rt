// The words of a recipe, and those of the language, which are no names.
ghost use Rattle.std.specs.Prelude.{◌≡◌, map};
ghost use Rattle.recipe_read.specs.Words as spec;

use chill_base::{Name, Padding};

/// What a command does.
#[derive(Clone, Copy, Debug)]
pub enum Verb {
    Permute,
    Tile,
    Skew,
    Shift,
    Fuse,
    Distribute,
    Unroll,
    Datacopy,
    MakeDense,
    Compact,
    CompactAndPad,
}

pub const VERBS: [(&[u8], Verb); 11] = [
    (b"permute", Verb::Permute),
    (b"tile", Verb::Tile),
    (b"skew", Verb::Skew),
    (b"shift", Verb::Shift),
    (b"fuse", Verb::Fuse),
    (b"distribute", Verb::Distribute),
    (b"unroll", Verb::Unroll),
    (b"datacopy", Verb::Datacopy),
    (b"make_dense", Verb::MakeDense),
    (b"compact", Verb::Compact),
    (b"compact_and_pad", Verb::CompactAndPad),
];

pub const PADDINGS: [(&[u8], Padding); 3] = [
    (b"block", Padding::Block),
    (b"diag", Padding::Diag),
    (b"rows", Padding::Rows),
];

/// The keywords of C99, and the words of the language.
pub const RESERVED: [&[u8]; 49] = [
    b"auto",
    b"break",
    b"case",
    b"char",
    b"const",
    b"continue",
    b"default",
    b"do",
    b"double",
    b"else",
    b"enum",
    b"extern",
    b"float",
    b"for",
    b"goto",
    b"if",
    b"inline",
    b"int",
    b"long",
    b"register",
    b"restrict",
    b"return",
    b"short",
    b"signed",
    b"sizeof",
    b"static",
    b"struct",
    b"switch",
    b"typedef",
    b"union",
    b"unsigned",
    b"void",
    b"volatile",
    b"while",
    b"_Bool",
    b"_Complex",
    b"_Imaginary",
    b"min",
    b"max",
    b"floord",
    b"ceild",
    b"GROW",
    b"INDEX1",
    b"INDEX2",
    b"DATA1",
    b"DATA2",
    b"DATA3",
    b"int64_t",
    b"uint64_t",
];

// The entry of the table that has the word.
fn find<T: Copy>(mut table: &[(&[u8], T)], word: &[u8]) -> Option<T>
    ensures { result ≡ spec.find (map (λ entry. (entry.0.now, entry.1)) table.entry.now) word.now }
{
    while let [entry, rest @ ..] = table {
        if entry.0 == word {
            return Some(entry.1);
        }
        table = rest;
    }
    None
}

#[tactic(auto, unfolding(crate::specs::Words::verb_of))]
pub fn verb_of(word: &[u8]) -> Option<Verb>
    ensures { result ≡ spec.verb_of word.now }
{
    find(&VERBS, word)
}

#[tactic(auto, unfolding(crate::specs::Words::padding_of))]
pub fn padding_of(word: &[u8]) -> Option<Padding>
    ensures { result ≡ spec.padding_of word.now }
{
    find(&PADDINGS, word)
}

// Whether the word is one of the table.
fn is_among(mut table: &[&[u8]], word: &[u8]) -> bool
    ensures { result ≡ spec.is_among (map (λ entry. entry.now) table.entry.now) word.now }
{
    while let [entry, rest @ ..] = table {
        if *entry == word {
            return true;
        }
        table = rest;
    }
    false
}

// Whether the word is one of the language.
#[tactic(auto, unfolding(crate::specs::Words::is_reserved))]
fn is_reserved(word: &[u8]) -> bool
    ensures { result ≡ spec.is_reserved word.now }
{
    is_among(&RESERVED, word)
}

fn is_letter(byte: u8) -> bool
    ensures { result ≡ spec.is_letter byte }
{
    byte.is_ascii_alphabetic() || byte == b'_'
}

/// The word as a name, where it is one.
#[tactic(auto, unfolding(crate::specs::Words::name_of))]
pub fn name_of(word: &[u8]) -> Option<Name>
    ensures { result ≡ spec.name_of word.now }
{
    if word.is_empty() || !is_letter(word[0]) || is_reserved(word) {
        return None;
    }
    Name::new(word)
}
