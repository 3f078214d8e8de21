//! Numbers and sets of words as a certificate writes them.
ghost use Rattle.std.specs.Prelude.{◌≡◌, ◌<◌, IfSome};
ghost use Rattle.certificate.specs.Numbers as spec;

use name_text::{is_digit, number_of_word};
use pools::WordSet;

/// The number from 1 that a word is.
pub fn count_of_word(word: &[u8]) -> Option<u64>
    ensures { result ≡ spec.count_of_word word.now }
{
    match number_of_word(word)? {
        0 => None,
        number => Some(number),
    }
}

/// The bits of the integer type that a word is.
pub fn bits_of_word(word: &[u8]) -> Option<u64>
    ensures { result ≡ spec.bits_of_word word.now }
{
    match word {
        [b'i', digits @ ..] => number_of_word(digits),
        _ => None,
    }
}

fn with_digit(number: Option<u32>, digit: u8) -> u32
    requires { IfSome number (λ n. n < 64) }
    ensures { result ≡ spec.with_digit number digit }
{
    let value = digit.saturating_sub(b'0') as u32;
    match number {
        None => value,
        Some(number) => 10 * number + value,
    }
}

/// The words of a cell that a word of the text lists with commas between.
pub fn words_of_word(word: &[u8]) -> Option<WordSet>
    ensures { result ≡ spec.words_of_word word.now }
{
    let mut set = WordSet::new();
    let mut open: Option<u32> = None;
    for byte in word {
        if is_digit(*byte) {
            let number = with_digit(open, *byte);
            if number >= 64 {
                return None;
            }
            open = Some(number);
        } else if *byte == b',' {
            set.add(open?);
            open = None;
        } else {
            return None;
        }
    }
    set.add(open?);
    Some(set)
}
