ghost use Rattle.std.specs.Prelude.{◌≡◌, ◌++◌, ◌+◌, take, drop, IfOk};

use messages::Change;
use std::alloc::{AllocError, Global};

/// The first bytes of a text.
fn front(text: &[u8], number: usize) -> &[u8]
    ensures { result.now ≡ take number text.now }
{
    match text.get(..number) {
        Some(front) => front,
        None => text,
    }
}

/// A text without its first bytes.
fn rest(text: &[u8], number: usize) -> &[u8]
    ensures { result.now ≡ drop number text.now }
{
    match text.get(number..) {
        Some(rest) => rest,
        None => &[],
    }
}

/// The text with this change.
pub fn changed_text(alloc: Global, text: &[u8], change: &Change) -> Result<Vec<u8>, AllocError>
    ensures { IfOk result (λ changed. changed.items ≡ take change.now.start text.now ++ change.now.new.items ++ drop change.now.length (drop change.now.start text.now)) }
{
    let mut changed = Vec::new(alloc);
    changed.extend_from_slice(front(text, change.start))?;
    changed.extend_from_slice(change.new.as_slice())?;
    changed.extend_from_slice(rest(rest(text, change.start), change.length))?;
    Ok(changed)
}
