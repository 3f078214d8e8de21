//! The lines of a text.
ghost use Rattle.std.specs.Prelude.{◌≡◌};
ghost use Rattle.recheck.specs.Lines as spec;

use name_text::{ends_line, past_blanks};

/// Whether a line ends here, or the text.
pub fn line_ends(bytes: &[u8]) -> bool
    ensures { result ≡ spec.line_ends bytes.now }
{
    bytes.is_empty() || ends_line(bytes)
}

/// Whether `.` stands alone on the line that begins here.
pub fn is_dot(bytes: &[u8]) -> bool
    ensures { result ≡ spec.is_dot bytes.now }
{
    match past_blanks(bytes) {
        [b'.', rest @ ..] => line_ends(past_blanks(rest)),
        _ => false,
    }
}

/// What follows the line that begins here, or that ends here.
pub fn past_line(bytes: &[u8]) -> &[u8]
    ensures { result.now ≡ spec.past_line bytes.now }
{
    let mut rest = bytes;
    while let [byte, afterwards @ ..] = rest {
        rest = afterwards;
        if *byte == b'\n' {
            return rest;
        }
    }
    rest
}
