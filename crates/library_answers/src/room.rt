//! How a text comes into the room of a caller.
ghost use Rattle.std.specs.Prelude.{◌≡◌, length};
ghost use Rattle.library_answers.specs.Told.{IsCopied};

/// Copies as much of a text as fits into a room. Returns how long the text is.
pub fn copy_into(room: &mut [u8], text: &[u8]) -> usize
    ensures copied { IsCopied text.now room.old room.new }
    ensures length { result ≡ length text.now }
{
    let count = text.len();
    if count <= room.len() {
        room[..count].copy_from_slice(text);
    } else {
        let fits = room.len();
        room.copy_from_slice(&text[..fits]);
    }
    count
}
