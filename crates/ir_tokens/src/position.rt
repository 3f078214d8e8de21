ghost use Rattle.std.specs.Prelude.{◌≡◌, ◌≤◌, length, count_by, not};
ghost use Rattle.std.specs.List.{suffix_len};
ghost use Rattle.ir_tokens.specs.Position.{is_line_end};

use crate::name::front;

/// A line and a column of a text, both from 1, the column in bytes.
#[derive(Clone, Copy, Debug, PartialEq, Eq)]
pub struct Position {
    pub line: usize,
    pub column: usize,
}

fn line_ends(bytes: &[u8]) -> usize
    ensures value { result ≡ count_by is_line_end bytes.now }
    ensures within { result ≤ length bytes.now }
{
    bytes.iter().filter(|byte| **byte == b'\n').count()
}

fn last_line_len(bytes: &[u8]) -> usize
    ensures value { result ≡ suffix_len (λ b. not (is_line_end b)) bytes.now }
    ensures within { result ≤ length bytes.now }
{
    bytes
        .iter()
        .rev()
        .take_while(|byte| **byte != b'\n')
        .count()
}

impl Position {
    ghost use Rattle.ir_tokens.specs.Position.{position_after, position_of};

    /// The line and the column of the byte that would come after this text.
    pub fn after(before: &[u8]) -> Position
        ensures { result ≡ position_after before.now }
    {
        Position {
            line: line_ends(before) + 1,
            column: last_line_len(before) + 1,
        }
    }

    /// The line and the column of the byte at this place, or of the end of a shorter text.
    pub fn of(bytes: &[u8], place: u32) -> Position
        ensures { result ≡ position_of bytes.now place }
    {
        Position::after(front(bytes, place as usize))
    }
}
