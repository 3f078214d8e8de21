ghost use Rattle.moves.specs.Causes.{Breaks, IsTouch};

use crate::moves::Move;
use crate::shared::Shared;
use crate::word_value::WordValue;

/// How a move itself breaks a run.
#[derive(Clone, Copy)]
pub enum Cause {
    /// The thread is at an instruction that has no meaning.
    Wrong,
    /// The move uses this cell, which is free.
    TouchBlue(u64),
    /// The move uses this cell, which was claimed again since the reference was made.
    TouchBirth(u64),
}

/// The cause by which a move itself breaks a run, by the words and births as they are before it.
pub fn broken_by(shared: &Shared, made: &Move) -> Option<Cause>
    ensures { Breaks shared.now made.now result }
{
    match made {
        Move::GoesWrong => Some(Cause::Wrong),
        Move::ReadsWord { base, .. }
        | Move::ReadsOldValue { base, .. }
        | Move::StoresAfterBarrier { base, .. }
        | Move::StoresPlain { base, .. } => touched(shared, *base),
        Move::Marks(marked) => touched(shared, *marked),
        _ => None,
    }
}

/// The cause by which the reference that a step uses is gone.
fn touched(shared: &Shared, used: WordValue) -> Option<Cause>
    ensures { IsTouch shared.now used result }
{
    if shared.colour(used.cell) == 0 {
        return Some(Cause::TouchBlue(used.cell));
    }
    if shared.birth(used.cell) != used.birth {
        return Some(Cause::TouchBirth(used.cell));
    }
    None
}
