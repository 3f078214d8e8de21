//! Texts that come by the standard input. One whose writer ends too early is the front of a text, and so it may be another text. So the
//! last line has to say that all was written.
ghost use Rattle.std.specs.Prelude.{◌≡◌};
ghost use Rattle.commands.specs.Inputs as spec;
ghost use Rattle.commands.specs.Inputs.{begins_line, ends_in_lines};

/// Whether a line may begin after this text.
fn begins_line(before: &[u8]) -> bool
    ensures { result ≡ begins_line before.now }
{
    before.is_empty() || before.ends_with(b"\n")
}

/// Whether these are the last lines of a text.
fn ends_in_lines(text: &[u8], lines: &[u8]) -> bool
    ensures { result ≡ ends_in_lines text.now lines.now }
{
    text.ends_with(lines) && begins_line(&text[..text.len() - lines.len()])
}

/// Whether the last line of a text is `; end`.
pub fn is_ended(text: &[u8]) -> bool
    ensures { result ≡ spec.is_ended text.now }
{
    ends_in_lines(text, b"; end\n")
        || ends_in_lines(text, b"; end")
        || ends_in_lines(text, b"; end\r\n")
}
