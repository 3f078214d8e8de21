ghost use Rattle.std.specs.Prelude.{◌≡◌, ◌≢◌, ◌≤◌, ◌-◌, ◌++◌, ◌↔◌, List, None, length, map, take, IfSome, IsTrue, OnOk};
ghost use Rattle.machine.specs.Machine.{action, after_answer};
ghost use Rattle.machine.specs.declared.answer.Answer.{Answer as AnAnswer};
ghost use Rattle.moves.specs.RootsAfter.{IsToldOfRoots};
ghost use Rattle.runs.specs.Machine.{WordValue as AWordValue};
ghost use Rattle.program_safety.specs.Threads.{reference_in};
ghost use Rattle.program_runner.specs.Newest.{names_of, AreKept};

use crate::answers::reference_in;
use machine::{Action, FrameRoots, Thread};
use moves::{RootsAfter, WordValue};
use std::alloc::AllocError;

/// A step after which a thread goes on changes at most this number of its frames, the newest.
pub(crate) const CHANGED: usize = 2;

/// How many of the oldest frames of a thread that asks for this stay as they are, whatever the answer: none where it may end.
pub(crate) fn kept(thread: &Thread<'_>, asked: &Action) -> usize
    requires { asked.now ≡ action thread.now.program thread.now.state }
    ensures { (given : AnAnswer) → AreKept result thread.now.state.frames (after_answer thread.now.program thread.now.state given).frames }
{
    match *asked {
        Action::End | Action::Wrong => 0,
        _ => thread.frames().saturating_sub(CHANGED),
    }
}

/// What the roots of the newest frames refer to, this number of them, the oldest of these frames first; after others.
pub(crate) fn add_newest(
    thread: &Thread<'_>,
    count: usize,
    names: &mut Vec<WordValue>,
) -> Result<(), AllocError>
    requires { count ≤ length thread.now.state.frames }
    ensures { OnOk result (names.new.items ≡ names.old.items ++ names_of thread.now.program.of_module (take count thread.now.state.frames)) }
{
    for frame in (0..count).rev() {
        add_names(&thread.frame_roots(frame), names)?;
    }
    Ok(())
}

/// What the roots of the frames above this number of the oldest ones are to these. It takes no memory.
pub(crate) fn compared(thread: &Thread<'_>, kept: usize, before: &[WordValue]) -> RootsAfter
    requires { kept ≤ length thread.now.state.frames }
    ensures { IsToldOfRoots result before.now (names_of thread.now.program.of_module (take (length thread.now.state.frames - kept) thread.now.state.frames)) }
{
    if has_newest(thread, thread.frames() - kept, before) {
        return RootsAfter::Same;
    }
    RootsAfter::Others
}

/// Whether the roots of the newest frames, this number of them, refer to these.
fn has_newest(thread: &Thread<'_>, count: usize, roots: &[WordValue]) -> bool
    requires { count ≤ length thread.now.state.frames }
    ensures { IsTrue result ↔ (names_of thread.now.program.of_module (take count thread.now.state.frames) ≡ roots.now) }
{
    let mut rest = roots;
    for frame in 0..count {
        match before_names(&thread.frame_roots(frame), rest) {
            Some(before) => rest = before,
            None => return false,
        }
    }
    rest.is_empty()
}

/// What the roots of a frame refer to, after others.
fn add_names(own: &FrameRoots<'_>, names: &mut Vec<WordValue>) -> Result<(), AllocError>
    ensures { OnOk result (names.new.items ≡ names.old.items ++ map reference_in own.now) }
{
    for place in 0..own.len() {
        names.push(reference_in(own.value(place)))?;
    }
    Ok(())
}

/// What comes before the roots of a frame, if these end with what they refer to.
fn before_names<'a>(own: &FrameRoots<'_>, roots: &'a [WordValue]) -> Option<&'a [WordValue]>
    ensures before { IfSome result (λ before. roots.now ≡ before.now ++ map reference_in own.now) }
    ensures none { result ≡ None → (before : List AWordValue) → roots.now ≢ before ++ map reference_in own.now }
{
    let count = own.len();
    if roots.len() < count {
        return None;
    }
    let (before, last) = roots.split_at(roots.len() - count);
    for (place, root) in last.iter().enumerate() {
        if reference_in(own.value(place)) != *root {
            return None;
        }
    }
    Some(before)
}
