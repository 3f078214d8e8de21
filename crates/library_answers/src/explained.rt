//! Explanations of what is not accepted.
ghost use Rattle.library_answers.specs.Told.{IsCopied};
ghost use Rattle.std.specs.Prelude.{ℕ, List, length, ◌≡◌};

use crate::room::copy_into;
use crate::texts::{texts_of_check, texts_of_make};
use explained_checks::{Look, Question, explain};
use reports::Files;
use std::alloc::Global;

/// Answers a question about the files into a room. Returns how long the text is. Nothing is told where they are accepted.
fn explain_into(alloc: Global, question: Question, files: &Files<'_>, room: &mut [u8]) -> usize
    ensures { (text : List ℕ) × IsCopied text room.old room.new × (result ≡ length text) }
{
    let mut text = Vec::new(alloc);
    match explain(alloc, Look::Plain, question, files, &mut text) {
        Ok(()) => copy_into(room, text.as_slice()),
        Err(_) => copy_into(room, b"no memory to explain it\n"),
    }
}

/// Why a module is not accepted with a certificate, as `dgc check --explain always` tells it.
pub fn explain_check(
    alloc: Global,
    wide: bool,
    of_module: &[u8],
    cert: &[u8],
    room: &mut [u8],
) -> usize
    ensures { (text : List ℕ) × IsCopied text room.old room.new × (result ≡ length text) }
{
    let files = texts_of_check(wide, of_module, cert);
    explain_into(alloc, Question::Check, &files, room)
}

/// Why no certificates of a module are made, as `dgc make --explain always` tells it.
pub fn explain_make(
    alloc: Global,
    wide: bool,
    of_module: &[u8],
    shapes: &[u8],
    room: &mut [u8],
) -> usize
    ensures { (text : List ℕ) × IsCopied text room.old room.new × (result ≡ length text) }
{
    let files = texts_of_make(wide, of_module, shapes);
    explain_into(alloc, Question::Make, &files, room)
}
