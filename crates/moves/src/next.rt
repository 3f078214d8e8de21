ghost use Rattle.std.specs.Prelude.{ℕ, ◌≡◌, ◌<◌, ◌^◌, ◌==◌, not, List, Some, filter, length, slice_get, slice_index, IfOk, OnSome};
ghost use Rattle.pools.specs.Heap.{Setup};
ghost use Rattle.colours.specs.Mutator as order;
ghost use Rattle.runs.specs.Machine.{WordValue as AWordValue, machine_of};
ghost use Rattle.runs.specs.Moves.{null};
ghost use Rattle.runs.specs.Machine.{Alloc, Safepoint};
ghost use Rattle.runs.specs.NextMoves.{Sight, next_move, mark_or_answer, try_of};
ghost use Rattle.runs.specs.Ends.{next_move_of};
ghost use Rattle.moves.specs.Calls.{action_of, move_in, made_by};
ghost use Rattle.moves.specs.declared.thread_state.CallPhase.{CallPhase as ACallPhase};
ghost use Rattle.moves.specs.declared.thread_state.CallPhase.TheVariants.{Trying, Answering};
ghost use Rattle.moves.specs.Moving.{CountsMark, HasRoom, HasRoomForNext};
ghost use Rattle.moves.specs.Stands.{MayTryMore, HasTryLeft, marked_of, phase_at, standing, sight_in};

use crate::call::Call;
use crate::hints::next_cell;
use crate::moves::Move;
use crate::runner::Runner;
use crate::shared::Shared;
use crate::thread_state::{CallPhase, ThreadState};
use crate::word_value::WordValue;
use colours::is_async;
use items::Items;
use pools::{LayoutId, Pools};
use std::alloc::AllocError;

/// The next move of a thread; None where it has ended.
pub fn next_move<M: Runner>(
    shared: &Shared,
    pools: &Pools,
    thread_state: &ThreadState<M>,
) -> Result<Option<Move>, AllocError>
    requires births { (cell : ℕ) → slice_index shared.now.births cell < 2 ^ 62 }
    requires room { HasTryLeft pools.now (M.action thread_state.now.state) thread_state.now.call_phase }
    ensures next { (s : Setup) → s.pools ≡ pools.now → IfOk result (λ made.
        next_move_of s (machine_of M.action M.after_answer M.roots) (sight_in s shared.now thread_state.now.hints) (standing s (machine_of M.action M.after_answer M.roots) thread_state.now) ≡ made_by (M.roots thread_state.now.state) made) }
    // The count that the move raises stays in range: it is at most the roots of a list, or the cells of a pool.
    ensures room { IfOk result (HasRoomForNext thread_state.now.call_phase) }
{
    let call = thread_state.state.call();
    match thread_state.call_phase {
        CallPhase::Ready => Ok(Some(first_move(shared, pools, &thread_state.hints, &call))),
        CallPhase::Answering { stage, marked } => match &call {
            Call::Safepoint => Ok(Some(answering_move(&thread_state.state, stage, marked)?)),
            _ => Ok(None),
        },
        CallPhase::MarkingOld { .. } => Ok(mark_of_old(&call, thread_state.replaced)),
        CallPhase::MarkingNew { .. } => Ok(mark_or_store(&call, thread_state.stage)),
        CallPhase::Writing { .. } => Ok(store_of_new(&call)),
        CallPhase::Trying { tried } => Ok(next_try(
            shared,
            pools,
            &thread_state.hints,
            &call,
            tried,
        )),
        CallPhase::Ended => Ok(None),
        CallPhase::Absent => Ok(Some(Move::ReadsPostedFirst(shared.posted))),
        CallPhase::Arriving { stage } => Ok(Some(Move::EntersStage(stage))),
        CallPhase::Entering => Ok(Some(Move::ReadsPostedAgain(shared.posted))),
        CallPhase::Leaving => Ok(Some(Move::Ends)),
    }
}

/// The move of a thread that answers a stage, after this number of marks of roots.
fn answering_move<M: Runner>(state: &M, stage: u64, marked: usize) -> Result<Move, AllocError>
    ensures next { (s : Setup) (h : Sight) (own : ℕ) (old : AWordValue) → let roots = M.roots state.now in IfOk result (λ made.
        next_move s h own roots old Safepoint (order.Answering stage (marked_of roots marked)) ≡ Some (move_in roots made)) }
    ensures room { IfOk result (HasRoom (Answering stage marked)) }
{
    if !is_async(stage) {
        return Ok(Move::Answers(stage));
    }
    let roots = state.root_references()?;
    Ok(mark_or_answer(stage, root_after(roots.as_slice(), marked)))
}

/// The first move of a call.
fn first_move(shared: &Shared, pools: &Pools, hints: &Items<u32>, call: &Call) -> Move
    requires { (cell : ℕ) → slice_index shared.now.births cell < 2 ^ 62 }
    ensures { (s : Setup) (stage : ℕ) (roots : List AWordValue) (old : AWordValue) → s.pools ≡ pools.now
        → next_move s (sight_in s shared.now hints.now) stage roots old (action_of call.now) order.Ready ≡ Some (move_in roots result) }
{
    match call {
        Call::Local => Move::Works,
        Call::Wrong => Move::GoesWrong,
        Call::Read { base, word } => Move::ReadsWord {
            base: *base,
            word: *word,
            value: shared.words.word(base.cell, *word),
        },
        Call::StorePlain { base, word, value } => Move::StoresPlain {
            base: *base,
            word: *word,
            value: *value,
        },
        Call::Write { base, word, .. } => Move::ReadsOldValue {
            base: *base,
            word: *word,
            value: shared.words.word(base.cell, *word),
        },
        Call::Alloc(layout) => alloc_move(shared, pools, hints, *layout),
        Call::Safepoint => Move::ReadsPosted(shared.posted),
        Call::End => Move::Ends,
    }
}

/// The first move of an alloc: a local one where the layout has no cell.
fn alloc_move(shared: &Shared, pools: &Pools, hints: &Items<u32>, layout: LayoutId) -> Move
    requires { (cell : ℕ) → slice_index shared.now.births cell < 2 ^ 62 }
    ensures { (s : Setup) (stage : ℕ) (roots : List AWordValue) (old : AWordValue) → s.pools ≡ pools.now
        → next_move s (sight_in s shared.now hints.now) stage roots old (Alloc layout) order.Ready ≡ Some (move_in roots result) }
{
    if pools.count(layout) == 0 {
        return Move::Works;
    }
    claim_of(shared, pools, hints, layout, 0)
}

/// The mark of the value that a barriered store replaces.
fn mark_of_old(call: &Call, old: WordValue) -> Option<Move>
    ensures { (s : Setup) (h : Sight) (stage : ℕ) (roots : List AWordValue) (cell word replaced : ℕ)
        → next_move s h stage roots old (action_of call.now) (order.MarkingOld cell word replaced) ≡ made_by roots result }
{
    match call {
        Call::Write { .. } => Some(Move::Marks(old)),
        _ => None,
    }
}

/// The mark of the value that a barriered store stores, at a sync stage; else the store.
fn mark_or_store(call: &Call, stage: u64) -> Option<Move>
    ensures { (s : Setup) (h : Sight) (roots : List AWordValue) (old : AWordValue) (cell word replaced : ℕ)
        → next_move s h stage roots old (action_of call.now) (order.MarkingNew cell word replaced) ≡ made_by roots result }
{
    match call {
        Call::Write { value, .. } if !is_async(stage) && value.cell != 0 => Some(Move::Marks(
            *value,
        )),
        Call::Write { base, word, value } => Some(Move::StoresAfterBarrier {
            base: *base,
            word: *word,
            value: *value,
        }),
        _ => None,
    }
}

/// The store after the barrier.
fn store_of_new(call: &Call) -> Option<Move>
    ensures { (s : Setup) (h : Sight) (stage : ℕ) (roots : List AWordValue) (old : AWordValue) (cell word replaced new : ℕ)
        → next_move s h stage roots old (action_of call.now) (order.Writing cell word replaced new) ≡ made_by roots result }
{
    match call {
        Call::Write { base, word, value } => Some(Move::StoresAfterBarrier {
            base: *base,
            word: *word,
            value: *value,
        }),
        _ => None,
    }
}

/// The next try of an alloc, after this number of tries.
fn next_try(
    shared: &Shared,
    pools: &Pools,
    hints: &Items<u32>,
    call: &Call,
    tried: u64,
) -> Option<Move>
    requires births { (cell : ℕ) → slice_index shared.now.births cell < 2 ^ 62 }
    requires room { MayTryMore pools.now (action_of call.now) tried }
    ensures next { (s : Setup) (stage : ℕ) (roots : List AWordValue) (old : AWordValue) (before : List ℕ) → s.pools ≡ pools.now → length before ≡ tried
        → next_move s (sight_in s shared.now hints.now) stage roots old (action_of call.now) (order.Trying before) ≡ made_by roots result }
    ensures room { HasRoomForNext (Trying tried) result }
{
    match call {
        Call::Alloc(layout) => Some(claim_of(shared, pools, hints, *layout, tried)),
        _ => None,
    }
}

/// The try of the cell of a layout that comes next by the hint, after this number of its pool's cells.
fn claim_of(
    shared: &Shared,
    pools: &Pools,
    hints: &Items<u32>,
    layout: LayoutId,
    tried: u64,
) -> Move
    requires births { (cell : ℕ) → slice_index shared.now.births cell < 2 ^ 62 }
    requires is_layout { layout < length pools.now }
    requires left { tried < slice_index pools.now layout }
    ensures { (s : Setup) (roots : List AWordValue) (before : List ℕ) → s.pools ≡ pools.now → length before ≡ tried
        → try_of (sight_in s shared.now hints.now) ((sight_in s shared.now hints.now).claim layout before) ≡ move_in roots result }
{
    let cell = next_cell(pools, hints, layout, tried);
    Move::Claims {
        claimed: WordValue {
            cell,
            birth: shared.birth(cell) + 1,
        },
        won: shared.colour(cell) == 0,
    }
}

/// The mark of the next root, or the answer where none is left.
fn mark_or_answer(stage: u64, root: Option<WordValue>) -> Move
    ensures next { (roots : List AWordValue) → move_in roots result ≡ mark_or_answer stage roots root }
    ensures room { (call_phase : ACallPhase) → OnSome root (CountsMark call_phase) → HasRoom call_phase result }
{
    match root {
        Some(root) => Move::Marks(root),
        None => Move::Answers(stage),
    }
}

/// The root at this place among those that are not null.
fn root_after(roots: &[WordValue], marked: usize) -> Option<WordValue>
    ensures root { result ≡ slice_get (filter (λ r. not (r.cell == 0)) roots.now) marked }
    ensures few { OnSome result (marked < 2 ^ 63) }
{
    let mut left = marked;
    for root in roots {
        if root.cell != 0 {
            if left == 0 {
                return Some(*root);
            }
            left -= 1;
        }
    }
    None
}
