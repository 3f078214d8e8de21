ghost use Rattle.std.specs.Prelude.{ℕ, ◌≡◌, false, Some, List};
ghost use Rattle.pools.specs.Heap.{Setup};
ghost use Rattle.colours.specs.Mutator as order;
ghost use Rattle.runs.specs.Machine.{WordValue as AWordValue};
ghost use Rattle.runs.specs.Moves.{step_of, phase_afterwards, cells_of};
ghost use Rattle.runs.specs.Moves as moves;
ghost use Rattle.moves.specs.Calls.{action_of, answer_in, move_in};
ghost use Rattle.colours.specs.Steps as steps;
ghost use Rattle.moves.specs.Moving.{MayMake, TriesNext, MarksNext, CountsTry, CountsMark, HasRoom, phase_left};
ghost use Rattle.moves.specs.Stands.{cells_to_try, phase_at};

use crate::call::{Answer, Call};
use crate::moves::Move;
use crate::thread_state::CallPhase;
use crate::word_value::NULL;
use colours::DONE;
use pools::Pools;

/// Where a thread is after a move of its call.
pub(crate) fn call_phase_after(
    pools: &Pools,
    call: &Call,
    stage: u64,
    call_phase: CallPhase,
    made: &Move,
) -> CallPhase
    requires { HasRoom call_phase made.now }
    ensures { (s : Setup) (hints : List ℕ) (roots : List AWordValue) → s.pools ≡ pools.now → MayMake s hints roots call.now call_phase made.now
        → (let cells = cells_to_try s hints (action_of call.now) in phase_at cells roots result ≡ phase_afterwards s stage (phase_at cells roots call_phase) (step_of (move_in roots made.now))) }
{
    match made {
        Move::Works => call_phase,
        Move::GoesWrong => call_phase,
        Move::ReadsOldValue { base, word, value } if value.cell == 0 => CallPhase::MarkingNew {
            cell: base.cell,
            word: *word,
            old: value.cell,
        },
        Move::ReadsOldValue { base, word, value } => CallPhase::MarkingOld {
            cell: base.cell,
            word: *word,
            old: value.cell,
        },
        Move::Marks(marked) => afterwards_mark(call_phase, marked.cell),
        Move::Claims { won, .. } if !*won => afterwards_loss(pools, call, call_phase),
        Move::ReadsPosted(posted) if *posted != stage => CallPhase::Answering {
            stage: *posted,
            marked: 0,
        },
        Move::Ends => after_stage(call_phase, DONE),
        Move::Answers(answered) => after_stage(call_phase, *answered),
        Move::ReadsPostedFirst(posted) => CallPhase::Arriving { stage: *posted },
        Move::EntersStage(_) => CallPhase::Entering,
        Move::ReadsPostedAgain(posted) if *posted != stage => CallPhase::Leaving,
        _ => CallPhase::Ready,
    }
}

/// After a store of this stage. A late thread that leaves has not begun.
fn after_stage(call_phase: CallPhase, stored: u64) -> CallPhase
    ensures { (s : Setup) (stage : ℕ) (cells : List ℕ) (roots named : List AWordValue) → phase_at cells roots result ≡ phase_afterwards s stage (phase_at cells roots call_phase) (Some (steps.StoreStage stored (cells_of named))) }
{
    match call_phase {
        CallPhase::Leaving => CallPhase::Absent,
        _ if stored == DONE => CallPhase::Ended,
        _ => CallPhase::Ready,
    }
}

/// After a mark.
fn afterwards_mark(call_phase: CallPhase, cell: u64) -> CallPhase
    requires { CountsMark call_phase }
    ensures { (s : Setup) (stage : ℕ) (cells : List ℕ) (roots : List AWordValue) → MarksNext roots call_phase cell
        → phase_at cells roots result ≡ phase_afterwards s stage (phase_at cells roots call_phase) (Some (steps.Mark cell)) }
{
    match call_phase {
        CallPhase::MarkingOld { cell, word, old } => CallPhase::MarkingNew { cell, word, old },
        CallPhase::MarkingNew {
            cell: written,
            word,
            old,
        } => CallPhase::Writing {
            cell: written,
            word,
            old,
            new: cell,
        },
        CallPhase::Answering { stage, marked } => CallPhase::Answering {
            stage,
            marked: marked + 1,
        },
        _ => CallPhase::Ready,
    }
}

/// After the try of a cell that was not free: the next one, if one is left.
fn afterwards_loss(pools: &Pools, call: &Call, call_phase: CallPhase) -> CallPhase
    requires { CountsTry call_phase }
    ensures { (s : Setup) (stage : ℕ) (hints : List ℕ) (roots : List AWordValue) (cell : ℕ) → s.pools ≡ pools.now → TriesNext s hints call.now call_phase cell
        → (let cells = cells_to_try s hints (action_of call.now) in phase_at cells roots result ≡ phase_afterwards s stage (phase_at cells roots call_phase) (Some (steps.Claim cell false))) }
{
    match call_phase {
        CallPhase::Trying { tried } => tries_left(pools, call, tried + 1),
        _ => tries_left(pools, call, 1),
    }
}

/// The next try after this number of tries, if a cell is left.
fn tries_left(pools: &Pools, call: &Call, tried: u64) -> CallPhase
    ensures { (cells : List ℕ) (roots : List AWordValue) → phase_at cells roots result ≡ phase_left pools.now (action_of call.now) cells tried }
{
    match call {
        Call::Alloc(layout) if tried < u64::from(pools.count(*layout)) => CallPhase::Trying {
            tried,
        },
        _ => CallPhase::Ready,
    }
}

/// Whether a call is over with this move, after which the thread is here. That a late thread begins is no call.
pub(crate) fn ends_call(made: &Move, call_phase: CallPhase) -> bool
    ensures { (cells : List ℕ) (roots : List AWordValue) → result ≡ moves.ends_call (move_in roots made.now) (phase_at cells roots call_phase) }
{
    !matches!(made, Move::ReadsPostedAgain(_)) && is_between(call_phase)
}

/// Whether no call is under way.
fn is_between(call_phase: CallPhase) -> bool
    ensures { (cells : List ℕ) (roots : List AWordValue) → result ≡ order.is_between (phase_at cells roots call_phase) }
{
    matches!(call_phase, CallPhase::Ready | CallPhase::Ended)
}

/// What the last move of a call returns.
pub(crate) fn answer_of(call: &Call, made: &Move) -> Answer
    ensures { (roots : List AWordValue) → answer_in result ≡ moves.answer_of (action_of call.now) (move_in roots made.now) }
{
    match made {
        Move::ReadsWord { value, .. } => Answer::Got(*value),
        Move::Claims { claimed, won } if *won => Answer::Got(*claimed),
        Move::Claims { .. } => Answer::Got(NULL),
        Move::Works if matches!(call, Call::Alloc(_)) => Answer::Got(NULL),
        Move::ReadsPosted(_) => Answer::Answered(None),
        Move::Answers(stage) => Answer::Answered(Some(*stage)),
        Move::Ends => Answer::Answered(Some(DONE)),
        _ => Answer::Done,
    }
}
