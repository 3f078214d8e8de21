//! The static library for C (include/dgc.h): checks, certificates, explanations and sessions, over texts in memory. It starts no thread and
//! reads no file.
#![tactic(auto)]

mod held;
mod kept;
mod parts;
mod version;

ghost use Rattle.std.specs.Prelude.{◌≡◌, ◌⊎◌, ℕ, List, length};
ghost use Rattle.library_answers.specs.Checked.{AreAcceptedTexts, IsCheckOf, IsMakeOf};
ghost use Rattle.library_answers.specs.Sessions.{IsAcceptedNow, IsAppliedTo, IsOfSession, IsOpened};
ghost use Rattle.recheck.specs.Session.{State};
ghost use Rattle.library_answers.specs.Told.{IsAnswered, IsCopied, IsNoVerdict};
ghost use Rattle.dgc_c.specs.declared.version.TheConstants.{VERSION};

use held::Held;
use kept::Kept;
use library_answers::{
    Answer, apply_edits, begin_session, check_texts, explain_check, explain_make, first_answer,
    make_texts, no_session,
};
use recheck::Session;
use std::alloc::Global;
use version::{INTERFACE, put_version};

/// The number of the interface.
#[unsafe(no_mangle)]
pub extern "C" fn dgc_interface() -> u32
    ensures { result ≡ 1 }
{
    INTERFACE
}

/// The version of the program, which says so where the library was not proved.
#[unsafe(no_mangle)]
pub extern "C" fn dgc_version(room: &mut [u8]) -> usize
    ensures copied { IsCopied VERSION.now room.old room.new }
    ensures length { result ≡ length VERSION.now }
{
    put_version(room)
}

/// Checks a module against a certificate: the answer of `dgc check`. Status 0 is only of an accepted module.
#[unsafe(no_mangle)]
pub extern "C" fn dgc_check(
    alloc: Global,
    wide: bool,
    of_module: &[u8],
    cert: &[u8],
    room: &mut [u8],
    answer: &mut Answer,
) -> u32
    ensures said { IsCheckOf wide of_module.now cert.now room.old room.new answer.new }
    ensures status { result ≡ answer.new.status }
    ensures accepted { result ≡ 0 → AreAcceptedTexts wide of_module.now cert.now }
{
    *answer = check_texts(alloc, wide, of_module, cert, room);
    answer.status
}

/// Makes certificates of a module, with shapes if they are not empty: the answer of `dgc make`.
#[unsafe(no_mangle)]
pub extern "C" fn dgc_make(
    alloc: Global,
    wide: bool,
    of_module: &[u8],
    shapes: &[u8],
    room: &mut [u8],
    answer: &mut Answer,
) -> u32
    ensures said { IsMakeOf wide of_module.now shapes.now room.old room.new answer.new }
    ensures status { result ≡ answer.new.status }
{
    *answer = make_texts(alloc, wide, of_module, shapes, room);
    answer.status
}

/// Tells why a module is not accepted with a certificate. Returns how long the text is, 0 where it is accepted.
#[unsafe(no_mangle)]
pub extern "C" fn dgc_explain(
    alloc: Global,
    wide: bool,
    of_module: &[u8],
    cert: &[u8],
    room: &mut [u8],
) -> usize
    ensures { (text : List ℕ) × IsCopied text room.old room.new × (result ≡ length text) }
{
    explain_check(alloc, wide, of_module, cert, room)
}

/// Tells why no certificates of a module are made. Returns how long the text is, 0 where some are.
#[unsafe(no_mangle)]
pub extern "C" fn dgc_explain_make(
    alloc: Global,
    wide: bool,
    of_module: &[u8],
    shapes: &[u8],
    room: &mut [u8],
) -> usize
    ensures { (text : List ℕ) × IsCopied text room.old room.new × (result ≡ length text) }
{
    explain_make(alloc, wide, of_module, shapes, room)
}

/// Tells the first answer of a session, and writes its address into `session`. Where there is no memory for the answer, the session ends.
fn hand_out(
    alloc: Global,
    kept: Box<Kept>,
    of_module: &[u8],
    room: &mut [u8],
    session: &mut *mut u8,
) -> Answer
    ensures said { IsAnswered (IsOfSession kept.value.session) room.old room.new result }
    ensures accepted { result.status ≡ 0 → IsAcceptedNow kept.value.session }
{
    let answer = first_answer(alloc, &kept.session, of_module, room);
    if answer.status <= 1 {
        *session = Box::into_raw(kept) as *mut u8;
    } else {
        drop(kept);
    }
    answer
}

/// Hands out a session, where there is memory for it.
fn keep(
    alloc: Global,
    begun: Session,
    of_module: &[u8],
    room: &mut [u8],
    session: &mut *mut u8,
) -> Answer
    ensures said { IsAnswered (IsOfSession begun) room.old room.new result ⊎ IsNoVerdict result }
    ensures accepted { result.status ≡ 0 → IsAcceptedNow begun }
{
    match Box::new(alloc, Kept { session: begun }) {
        Ok(kept) => hand_out(alloc, kept, of_module, room, session),
        Err(_) => no_session(room),
    }
}

/// Begins a session, and hands it out.
fn opened(
    alloc: Global,
    wide: bool,
    of_module: &[u8],
    cert: &[u8],
    room: &mut [u8],
    session: &mut *mut u8,
) -> Answer
    ensures said { IsOpened wide of_module.now cert.now room.old room.new result }
    ensures accepted { result.status ≡ 0 → AreAcceptedTexts wide of_module.now cert.now }
{
    match begin_session(alloc, wide, of_module, cert, room) {
        Ok(begun) => keep(alloc, begun, of_module, room, session),
        Err(told) => told,
    }
}

/// Begins a session of a module with a certificate, and writes its address into `session`. One begins where the answer is yes or no. Else
/// nothing is written there. Status 0 is only of an accepted module.
#[unsafe(no_mangle)]
pub extern "C" fn dgc_open(
    alloc: Global,
    wide: bool,
    of_module: &[u8],
    cert: &[u8],
    room: &mut [u8],
    answer: &mut Answer,
    session: &mut *mut u8,
) -> u32
    ensures said { IsOpened wide of_module.now cert.now room.old room.new answer.new }
    ensures status { result ≡ answer.new.status }
    ensures accepted { result ≡ 0 → AreAcceptedTexts wide of_module.now cert.now }
{
    *answer = opened(alloc, wide, of_module, cert, room, session);
    answer.status
}

/// A session after the edits of a text, and what is told of them.
fn applied(alloc: Global, held: Held, edits: &[u8], room: &mut [u8]) -> (Box<Kept>, Answer)
    ensures said { IsAppliedTo edits.now held.kept.session result.0.value.session room.old room.new result.1 }
    ensures accepted { result.1.status ≡ 0 → IsAcceptedNow result.0.value.session }
{
    let mut kept = held.into_parts().into_box();
    let answer = apply_edits(alloc, &mut kept.session, edits, room);
    (kept, answer)
}

/// Applies the edits of a text to a session, and writes where it is then into `moved`: the lines of `dgc recheck`, and the last verdict.
/// Status 0 is only of a session whose module is accepted then.
#[unsafe(no_mangle)]
pub extern "C" fn dgc_apply(
    alloc: Global,
    session: Held,
    edits: &[u8],
    room: &mut [u8],
    answer: &mut Answer,
    moved: &mut *mut u8,
) -> u32
    ensures said { (next : State) × IsAppliedTo edits.now session.kept.session next room.old room.new answer.new × (answer.new.status ≡ 0 → IsAcceptedNow next) }
    ensures status { result ≡ answer.new.status }
{
    let (kept, told) = applied(alloc, session, edits, room);
    *moved = Box::into_raw(kept) as *mut u8;
    *answer = told;
    answer.status
}

/// Ends a session.
#[unsafe(no_mangle)]
pub extern "C" fn dgc_close(session: Held) {
    let kept = session.into_parts().into_box();
    drop(kept);
}
