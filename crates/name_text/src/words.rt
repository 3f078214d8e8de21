//! The words, blanks and line ends of a text.
ghost use Rattle.std.specs.Prelude.{◌≡◌, ◌≤◌, false, length};
ghost use Rattle.name_text.specs.Words as spec;

/// Whether a line ends here.
pub fn ends_line(bytes: &[u8]) -> bool
    ensures { result ≡ spec.ends_line bytes.now }
{
    match bytes {
        [b'\n', ..] => true,
        [b'\r', b'\n', ..] => true,
        _ => false,
    }
}

/// Whether a word ends here: at a blank, at a comment, or where a line or the text ends.
fn stops(bytes: &[u8]) -> bool
    ensures { result ≡ spec.stops bytes.now }
{
    match bytes {
        [] => true,
        [b' ' | b';', ..] => true,
        _ => ends_line(bytes),
    }
}

/// What follows the word at the front.
pub fn past_word(bytes: &[u8]) -> &[u8]
    ensures value { result.now ≡ spec.past_word false bytes.now }
    ensures within { length result.now ≤ length bytes.now }
{
    let mut quoted = false;
    for (i, byte) in bytes.iter().enumerate() {
        let rest = &bytes[i..];
        if !quoted && stops(rest) {
            return rest;
        }
        if *byte == b'"' {
            quoted = !quoted;
        }
    }
    &[]
}

/// The word at the front.
pub fn word(bytes: &[u8]) -> &[u8]
    ensures { result.now ≡ spec.word_at bytes.now }
{
    let rest = past_word(bytes);
    &bytes[..bytes.len() - rest.len()]
}

/// Where the line of a comment ends.
fn past_comment(bytes: &[u8]) -> &[u8]
    ensures { result.now ≡ spec.past_comment bytes.now }
{
    let mut rest = bytes;
    while let [_, afterwards @ ..] = rest {
        if ends_line(rest) {
            return rest;
        }
        rest = afterwards;
    }
    rest
}

/// What follows the blanks and the comment of a line.
pub fn past_blanks(bytes: &[u8]) -> &[u8]
    ensures { result.now ≡ spec.past_blanks bytes.now }
{
    for (i, byte) in bytes.iter().enumerate() {
        if *byte == b';' {
            return past_comment(&bytes[i + 1..]);
        }
        if *byte != b' ' {
            return &bytes[i..];
        }
    }
    &[]
}

/// The first word after blanks, comments and line ends.
pub fn past_lines(bytes: &[u8]) -> &[u8]
    ensures { result.now ≡ spec.past_lines false bytes.now }
{
    let mut comment = false;
    for (i, byte) in bytes.iter().enumerate() {
        let rest = &bytes[i..];
        if comment {
            comment = *byte != b'\n';
        } else {
            comment = *byte == b';';
            if !comment && *byte != b' ' && !ends_line(rest) {
                return rest;
            }
        }
    }
    &[]
}
