//! The answer to a call, and the text that goes with it.
ghost use Rattle.std.specs.Prelude.{◌≡◌, ◌⊎◌, ◌++◌, [], IfErr, IfOk};
ghost use Rattle.library_answers.specs.Told.{IsGiven, IsGivenOrNone, IsNoMemory, IsNoInstruction};

use crate::place::Place;
use crate::room::copy_into;
use reports::{Outputs, STATUS_MEMORY};
use std::alloc::{AllocError, Global};
use std::io;

/// What is told of a call besides its text, in C's layout.
#[repr(C)]
#[derive(Clone, Copy)]
pub struct Answer {
    /// The status with which the program ends that is asked the same.
    pub status: u32,
    /// 0. It keeps the other fields at even places.
    pub unused: u32,
    /// The code, and where it is.
    pub place: Place,
    /// How many functions the last edit of a session concerns, as `dgc recheck` prints it.
    pub rechecked: u64,
    /// How long the text is, of which as much as fits was copied.
    pub length: usize,
}

/// An answer with this status, after the text was copied into the room.
pub(crate) fn given(
    status: u8,
    place: Place,
    rechecked: u64,
    text: &[u8],
    room: &mut [u8],
) -> Answer
    ensures given { IsGiven status text.now room.old room.new result }
    ensures place { result.place ≡ place }
    ensures rechecked { result.rechecked ≡ rechecked }
{
    let length = copy_into(room, text);
    Answer {
        status: status as u32,
        unused: 0,
        place,
        rechecked,
        length,
    }
}

/// The answer where memory is refused: `error memory`.
pub(crate) fn no_memory(room: &mut [u8]) -> Answer
    ensures memory { IsNoMemory room.old room.new result }
    ensures place { IsNoInstruction result.place }
{
    given(STATUS_MEMORY, Place::nowhere(), 0, b"error memory\n", room)
}

/// Nothing is printed yet.
pub(crate) fn nothing(alloc: Global) -> Outputs
    ensures out { result.out.items ≡ [] }
    ensures err { result.err.items ≡ [] }
{
    Outputs {
        out: Vec::new(alloc),
        err: Vec::new(alloc),
    }
}

/// What was printed, the standard output first.
fn joined(outputs: Outputs) -> Result<Vec<u8>, AllocError>
    ensures { IfOk result (λ text. text.items ≡ outputs.out.items ++ outputs.err.items) }
{
    let Outputs { mut out, err } = outputs;
    out.extend_from_slice(err.as_slice())?;
    Ok(out)
}

/// The answer after a command printed this, and ended with this status.
fn told(outputs: Outputs, status: u8, place: Place, room: &mut [u8]) -> Answer
    ensures given { IsGivenOrNone status (outputs.out.items ++ outputs.err.items) room.old room.new result }
    ensures place { (result.place ≡ place) ⊎ IsNoInstruction result.place }
{
    match joined(outputs) {
        Ok(text) => given(status, place, 0, text.as_slice(), room),
        Err(_) => no_memory(room),
    }
}

/// The answer after a command printed this. A write into memory fails only where memory is refused.
pub(crate) fn answer_of(
    outputs: Outputs,
    printed: io::Result<u8>,
    place: Place,
    room: &mut [u8],
) -> Answer
    ensures printed { IfOk printed (λ status. IsGivenOrNone status (outputs.out.items ++ outputs.err.items) room.old room.new result) }
    ensures failed { IfErr printed (λ _. IsNoMemory room.old room.new result) }
    ensures place { (result.place ≡ place) ⊎ IsNoInstruction result.place }
{
    match printed {
        Ok(status) => told(outputs, status, place, room),
        Err(_) => {
            drop(outputs);
            no_memory(room)
        }
    }
}
