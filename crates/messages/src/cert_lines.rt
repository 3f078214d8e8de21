//! Where the lines of a certificate are in its text, by their words.
ghost use Rattle.std.specs.Prelude.{◌≡◌, true};
ghost use Rattle.messages.specs.CertLines as spec;

use crate::lines::after_ends;
use name_text::{past_blanks, past_word, word};

/// A line of the section of a function.
#[derive(Clone, Copy)]
pub enum CertLine {
    /// `function @f mark`
    Mark,
    /// `param %x ..`
    Parameter,
    /// `result ..`
    Result,
    /// `block %b`
    Block,
    /// The claim with this number, from 0, of a block.
    Claim(usize),
}

/// Which lines are counted.
#[derive(Clone, Copy)]
enum Sought {
    /// A line that begins with these two words.
    Opens,
    /// A line that begins with the first of them.
    Begins,
    /// A line that has a word.
    Item,
}

/// The first word of a line.
fn first_word(line: &[u8]) -> &[u8]
    ensures { result.now ≡ spec.first_word line.now }
{
    word(past_blanks(line))
}

/// The second word of a line.
fn second_word(line: &[u8]) -> &[u8]
    ensures { result.now ≡ spec.second_word line.now }
{
    word(past_blanks(past_word(past_blanks(line))))
}

/// Whether the line at the front of a text is sought.
fn is_sought(sought: Sought, first: &[u8], second: &[u8], text: &[u8]) -> bool
    ensures { result ≡ spec.is_sought sought first.now second.now text.now }
{
    match sought {
        Sought::Opens => first_word(text) == first && second_word(text) == second,
        Sought::Begins => first_word(text) == first,
        Sought::Item => !first_word(text).is_empty(),
    }
}

/// A text from the line on that is sought for the time of this number, from 0.
fn from_line<'t>(
    sought: Sought,
    first: &[u8],
    second: &[u8],
    number: usize,
    text: &'t [u8],
) -> &'t [u8]
    ensures { result.now ≡ spec.from_line sought first.now second.now number true text.now }
{
    let mut rest = text;
    let mut left = number;
    let mut begins = true;
    while let [byte, after @ ..] = rest {
        if begins && is_sought(sought, first, second, rest) {
            if left == 0 {
                return rest;
            }
            left -= 1;
        }
        begins = *byte == b'\n';
        rest = after;
    }
    rest
}

/// A text from the first line on that begins with these two words.
fn from_opening<'t>(first: &[u8], second: &[u8], text: &'t [u8]) -> &'t [u8]
    ensures { result.now ≡ spec.from_opening first.now second.now text.now }
{
    from_line(Sought::Opens, first, second, 0, text)
}

/// The text from a line of the section of a function on.
fn from_cert_line<'t>(text: &'t [u8], function: &[u8], name: &[u8], line: CertLine) -> &'t [u8]
    ensures { result.now ≡ spec.from_cert_line text.now function.now name.now line }
{
    let section = from_opening(b"function", function, text);
    match line {
        CertLine::Mark => section,
        CertLine::Parameter => from_opening(b"param", name, section),
        CertLine::Result => from_line(Sought::Begins, b"result", b"", 0, section),
        CertLine::Block => from_opening(b"block", name, section),
        CertLine::Claim(number) => {
            let block = from_opening(b"block", name, section);
            from_line(Sought::Item, b"", b"", number, after_ends(block, 1))
        }
    }
}

/// How many bytes of a certificate's text come before a line of the section of a function. It is found by its words and by counting, as
/// the clause says; no clause says that the reader takes it for this line. Names are as they are printed, with their sign: `name`
/// is that of the parameter or of the block.
pub fn cert_place(text: &[u8], function: &[u8], name: &[u8], line: CertLine) -> Option<usize>
    ensures { result ≡ spec.cert_place text.now function.now name.now line }
{
    let rest = from_cert_line(text, function, name, line);
    if rest.is_empty() {
        None
    } else {
        Some(text.len().saturating_sub(rest.len()))
    }
}
