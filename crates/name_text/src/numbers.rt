//! Decimal numbers as words.
ghost use Rattle.std.specs.Prelude.{◌≡◌};
ghost use Rattle.std.specs.List.{list_all};
ghost use Rattle.name_text.specs.Numbers as spec;
ghost use Rattle.ir_tokens.specs.Bytes.{is_digit as digit};

/// Whether a byte is a decimal digit.
pub fn is_digit(byte: u8) -> bool
    ensures { result ≡ digit byte }
{
    byte >= b'0' && byte <= b'9'
}

fn are_digits(word: &[u8]) -> bool
    ensures { result ≡ list_all digit word.now }
{
    word.iter().all(|byte| is_digit(*byte))
}

/// Whether a word is decimal digits.
pub fn is_number(word: &[u8]) -> bool
    ensures { result ≡ spec.is_number word.now }
{
    !word.is_empty() && are_digits(word)
}

/// The number that decimal digits spell, if it is below 2 to the 64.
pub fn decimal(digits: &[u8]) -> Option<u64>
    ensures { result ≡ spec.small (spec.decimal digits.now) }
{
    let mut number: u64 = 0;
    for digit in digits {
        let value = digit.saturating_sub(b'0') as u64;
        if number > (u64::MAX - value) / 10 {
            return None;
        }
        number = 10 * number + value;
    }
    Some(number)
}

/// The number below 2 to the 64 that a word is.
pub fn number_of_word(word: &[u8]) -> Option<u64>
    ensures { result ≡ spec.number_of_word word.now }
{
    if is_number(word) { decimal(word) } else { None }
}
