// Numbers that are words.
ghost use Rattle.std.specs.Prelude.{◌≡◌, ◌≤◌, ◌^◌, IfSome};
ghost use Rattle.command_words.specs.Numbers.{number_from, number};

/// The number that the digits write behind one that was read, where it is at most `most`.
fn number_from(before: u32, digits: &[u8], most: u32) -> Option<u32>
    requires { before ≤ most }
    ensures value { result ≡ number_from most before digits.now }
    ensures within { IfSome result (λ n. n ≤ most) }
{
    let mut read = before;
    for digit in digits {
        if !digit.is_ascii_digit() {
            return None;
        }
        let next = 10 * u64::from(read) + u64::from(*digit - b'0');
        if next > u64::from(most) {
            return None;
        }
        read = next as u32;
    }
    Some(read)
}

/// The number that a word is, decimal and without leading zeros, where it is at most `most`.
pub fn number(word: &[u8], most: u32) -> Option<u32>
    ensures value { result ≡ number most word.now }
    ensures within { IfSome result (λ n. n ≤ most) }
{
    match word {
        [] => None,
        [first, _, ..] if *first == b'0' => None,
        _ => number_from(0, word, most),
    }
}
