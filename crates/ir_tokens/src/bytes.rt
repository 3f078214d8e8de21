//! Steps over bytes. Each returns what it read, and the bytes after it.
ghost use Rattle.std.specs.Prelude.{◌≡◌, ◌≤◌, ◌-◌, length, Some, None, IfSome};
ghost use Rattle.std.specs.List.{prefix_len};
ghost use Rattle.ir_tokens.specs.Bytes as spec;
ghost use Rattle.ir_tokens.specs.Form as form;

use crate::class::is_name;

/// How many bytes of a plain name come first.
pub fn name_len(bytes: &[u8]) -> usize
    ensures value { result ≡ prefix_len spec.is_name bytes.now }
    ensures within { result ≤ length bytes.now }
{
    bytes.iter().take_while(|byte| is_name(**byte)).count()
}

/// Whether the byte is one of `0` to `9`.
pub fn is_digit(byte: u8) -> bool
    ensures { result ≡ spec.is_digit byte }
{
    byte.is_ascii_digit()
}

/// How many digits come first.
pub fn digit_len(bytes: &[u8]) -> usize
    ensures value { result ≡ prefix_len spec.is_digit bytes.now }
    ensures within { result ≤ length bytes.now }
{
    bytes.iter().take_while(|byte| is_digit(**byte)).count()
}

/// The number of a hexadecimal digit.
#[tactic(auto, unfolding(crate::specs::Bytes::digit))]
pub fn digit(byte: u8) -> Option<u8>
    ensures value { result ≡ spec.digit byte }
    ensures small { IfSome result (λ n. n ≤ 15) }
{
    match byte {
        b'0'..=b'9' => Some(byte - b'0'),
        b'a'..=b'f' => Some(byte - b'a' + 10),
        b'A'..=b'F' => Some(byte - b'A' + 10),
        _ => None,
    }
}

/// The first byte of a quoted text, and the bytes after it; nothing at the quote that ends it and at a bad escape.
#[tactic(auto, unfolding(crate::specs::Bytes::next))]
pub fn next(bytes: &[u8]) -> Option<(u8, &[u8])>
    ensures { spec.shown (λ x. (x.0, x.1.now)) result ≡ spec.next bytes.now }
{
    match bytes {
        [] => None,
        [b'"', ..] => None,
        [b'\\', b'\\', rest @ ..] => Some((b'\\', rest)),
        [b'\\', high, low, rest @ ..] => {
            let high = digit(*high)?;
            let low = digit(*low)?;
            Some((16 * high + low, rest))
        }
        [b'\\', ..] => None,
        [byte, rest @ ..] => Some((*byte, rest)),
    }
}

fn close(bytes: &[u8]) -> Option<&[u8]>
    ensures { spec.shown (λ x. (tt, x.now)) result ≡ form.close_at bytes.now }
{
    match bytes {
        [b'"', rest @ ..] => Some(rest),
        _ => None,
    }
}

/// The bytes after a quoted text whose first quote is before these bytes.
pub fn past_quoted(bytes: &[u8]) -> Option<&[u8]>
    ensures { spec.shown (λ x. (tt, x.now)) result ≡ form.quoted.read bytes.now }
{
    let mut rest = bytes;
    for _turn in 0..bytes.len() {
        match next(rest) {
            Some((_, after)) => rest = after,
            None => return close(rest),
        }
    }
    close(rest)
}
