// Texts and their tokens, as the language's rules give them.
use c_tokens::{PRELUDE, Token, Tokens, spelling};
use std::alloc::Global;
use std::process::Abort;
use std::test::Fail;

/// A text, and its tokens by their spelling: a name stands in quotes, a word of C that the language hasn't is `reserved`, and
/// `?` is a place at which no token can be taken.
type Spelled = (&'static str, &'static str);

/// Of two signs the longer one is taken.
const SIGNS: [Spelled; 4] = [
    ("i++ +i", "'i' ++ + 'i'"),
    ("i=<i<=i", "'i' = < 'i' <= 'i'"),
    ("+++=", "++ +="),
    ("#pragma sparse", "#pragma 'sparse'"),
];

/// Words, names and numbers.
const RUNS: [Spelled; 7] = [
    ("forest for", "'forest' for"),
    ("while int64_t", "reserved int64_t"),
    ("0 10 007 0_", "0 10 ? ?"),
    ("18446744073709551615", "18446744073709551615"),
    ("18446744073709551616 x", "? 'x'"),
    (
        "aaaaaaaaaaaaaaaaaaaaaaaaaaaaaaaaaaaaaaaaaaaaaaaaaaaaaaaaaaaaaaa",
        "'aaaaaaaaaaaaaaaaaaaaaaaaaaaaaaaaaaaaaaaaaaaaaaaaaaaaaaaaaaaaaaa'",
    ),
    (
        "aaaaaaaaaaaaaaaaaaaaaaaaaaaaaaaaaaaaaaaaaaaaaaaaaaaaaaaaaaaaaaaa",
        "?",
    ),
];

/// What stands between tokens.
const GAPS: [Spelled; 6] = [
    ("", ""),
    (" \t\r\n// x\nx /* * / \n x */", "'x'"),
    ("x /* x", "'x' ?"),
    ("x /*/ x", "'x' ?"),
    ("x & x x", "'x' ?"),
    ("x / x x", "'x' ?"),
];

/// Lines that are passed over.
const LINES: [Spelled; 6] = [
    ("#include <x> /*\n \t#include x\nx", "'x'"),
    ("x #include <x>", "'x' ?"),
    ("/* */ #include <x>", "?"),
    ("/*\n#include x */\nx", "'x'"),
    (
        " #define DATA1(x) uint64_t *x = 0; int64_t x##_len = 0",
        "?",
    ),
    (
        "#define DATA1(x) uint64_t *x = 0; int64_t x##_len = 0 \nx",
        "?",
    ),
];

// Puts the spelling of a token behind the text.
fn push_token(alloc: Global, text: &mut Vec<u8>, token: &Option<Token>) -> Result<(), Fail> {
    match token {
        Some(Token::Name(name)) => {
            text.push(b'\'')?;
            text.extend_from_slice(name.bytes())?;
            text.push(b'\'')?;
        }
        Some(Token::Number(number)) => {
            let digits = format!(in alloc; "{number}")?;
            text.extend_from_slice(digits.as_bytes())?;
        }
        Some(Token::Sign(sign)) => match spelling(*sign) {
            b"" => text.extend_from_slice(b"reserved")?,
            spelled => text.extend_from_slice(spelled)?,
        },
        Some(Token::Bad) => text.push(b'?')?,
        None => {}
    }
    Ok(())
}

// The tokens of the text.
fn spelled(alloc: Global, text: &[u8]) -> Result<Vec<u8>, Fail> {
    let mut tokens = Tokens::new(text);
    let mut all = Vec::new(alloc);
    for _ in 0..tokens.left() {
        if !all.is_empty() {
            all.push(b' ')?;
        }
        push_token(alloc, &mut all, &tokens.peek())?;
        tokens.skip();
    }
    Ok(all)
}

// Each text has these tokens.
fn hold(rt: &impl Abort, alloc: Global, texts: &[Spelled]) -> Result<(), Fail> {
    for (text, wanted) in texts {
        let found = spelled(alloc, text.as_bytes())?;
        assert!(rt; found.as_slice() == wanted.as_bytes(), "{text}");
    }
    Ok(())
}

#[test]
fn tokens_of_texts(rt: HostRuntime) -> Result<(), Fail> {
    let alloc = rt.alloc();
    hold(&rt, alloc, &SIGNS)?;
    hold(&rt, alloc, &RUNS)?;
    hold(&rt, alloc, &GAPS)?;
    hold(&rt, alloc, &LINES)?;
    for line in &PRELUDE {
        assert_eq!(rt; Tokens::new(line).left(), 0);
    }
    Ok(())
}
