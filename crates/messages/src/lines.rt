//! The line of a place of a text.
ghost use Rattle.std.specs.Prelude.{◌≡◌, ◌≤◌, length, not};
ghost use Rattle.std.specs.List.{suffix_len, prefix_len};
ghost use Rattle.ir_tokens.specs.Position.{is_line_end};
ghost use Rattle.messages.specs.Lines as spec;

/// A line of a text, without its end.
#[derive(Clone, Copy)]
pub struct Line<'a> {
    /// How many bytes of the text come before it.
    pub start: usize,
    pub bytes: &'a [u8],
}

/// How many bytes come after the last line end.
fn after_last_end(before: &[u8]) -> usize
    ensures value { result ≡ suffix_len (λ b. not (is_line_end b)) before.now }
    ensures within { result ≤ length before.now }
{
    before
        .iter()
        .rev()
        .take_while(|byte| **byte != b'\n')
        .count()
}

/// How many bytes come before the first line end.
fn before_first_end(after: &[u8]) -> usize
    ensures value { result ≡ prefix_len (λ b. not (is_line_end b)) after.now }
    ensures within { result ≤ length after.now }
{
    after.iter().take_while(|byte| **byte != b'\n').count()
}

/// The line on which a place of a text is.
pub fn line_at(text: &[u8], place: usize) -> Line<'_>
    requires { place ≤ length text.now }
    ensures start { result.start ≡ spec.line_start text.now place }
    ensures bytes { result.bytes.now ≡ spec.line_at text.now place }
{
    let start = place - after_last_end(&text[..place]);
    let rest = &text[start..];
    Line {
        start,
        bytes: &rest[..before_first_end(rest)],
    }
}

/// The text after this number of line ends.
pub fn after_ends(text: &[u8], number: usize) -> &[u8]
    ensures { result.now ≡ spec.after_ends number text.now }
{
    let mut rest = text;
    let mut left = number;
    while let [byte, after @ ..] = rest {
        if left == 0 {
            return rest;
        }
        if *byte == b'\n' {
            left -= 1;
        }
        rest = after;
    }
    rest
}

/// The line with this number, from 0.
pub fn line_numbered(text: &[u8], number: usize) -> &[u8]
    ensures { result.now ≡ spec.line_numbered text.now number }
{
    let rest = after_ends(text, number);
    &rest[..before_first_end(rest)]
}
