//! Lines and columns.
ghost use Rattle.std.specs.Prelude.{◌≡◌};
ghost use Rattle.name_text.specs.Places as spec;

use ir_tokens::Position;

/// The line and the column at which `rest` bytes of the text are left.
pub fn place(bytes: &[u8], rest: usize) -> Position
    ensures { result ≡ spec.place bytes.now rest }
{
    Position::after(&bytes[..bytes.len().saturating_sub(rest)])
}
