ghost use Rattle.std.specs.Prelude.{◌≡◌, IfOk};
ghost use Rattle.stepping.specs.Roots as roots;

use moves::{CallPhase, Move, Runner, ThreadState, WordValue};
use std::alloc::{AllocError, Global};

/// The roots of the threads under way, one thread after the other.
pub(crate) fn roots_under_way<M: Runner>(
    alloc: Global,
    threads: &[ThreadState<M>],
) -> Result<Vec<WordValue>, AllocError>
    ensures { IfOk result (λ found. found.items ≡ roots.roots_of M.roots threads.now) }
{
    let mut found = Vec::new(alloc);
    for thread_state in threads {
        found.extend_from_slice(own_roots(alloc, thread_state)?.as_slice())?;
    }
    Ok(found)
}

/// The roots of a thread; none where it has ended or not begun.
fn own_roots<M: Runner>(
    alloc: Global,
    thread_state: &ThreadState<M>,
) -> Result<Vec<WordValue>, AllocError>
    ensures { IfOk result (λ found. found.items ≡ roots.own_roots M.roots thread_state.now) }
{
    match thread_state.call_phase {
        CallPhase::Ended
        | CallPhase::Absent
        | CallPhase::Arriving { .. }
        | CallPhase::Entering
        | CallPhase::Leaving => Ok(Vec::new(alloc)),
        _ => thread_state.state.root_references(),
    }
}

/// Roots of a thread after this move, among which is each that was none before it.
pub(crate) fn new_roots<M: Runner>(
    alloc: Global,
    thread_state: &ThreadState<M>,
    made: &Move,
) -> Result<Vec<WordValue>, AllocError>
    ensures { IfOk result (λ found. found.items ≡ roots.new_roots M.roots M.newest thread_state.now made.now) }
{
    match made {
        Move::ReadsPostedAgain(_) => own_roots(alloc, thread_state),
        _ => thread_state.state.newest_roots(),
    }
}
