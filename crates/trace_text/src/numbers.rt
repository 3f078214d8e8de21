//! Counts and threads' numbers as a trace writes them.
ghost use Rattle.std.specs.Prelude.{◌≡◌};
ghost use Rattle.trace_text.specs.Numbers as spec;

use name_text::{decimal, is_number};

/// A number, where one past 2 to the 32 is as good as that.
fn capped(number: Option<u64>) -> u32
    ensures { result ≡ spec.capped_small number }
{
    match number {
        Some(number) => number.min(u32::MAX as u64) as u32,
        None => u32::MAX,
    }
}

/// The count or the thread's number that a word is.
pub fn count_of_word(word: &[u8]) -> Option<u32>
    ensures { result ≡ spec.count_of_word word.now }
{
    if is_number(word) {
        Some(capped(decimal(word)))
    } else {
        None
    }
}
