ghost use Rattle.std.specs.Prelude.{◌≡◌, List, IfOk, OnOk, OnErr};
ghost use Rattle.pools.specs.Heap.{Setup};
ghost use Rattle.runs.specs.Machine.{WordValue as AWordValue, machine_of};
ghost use Rattle.runs.specs.Moves.{answer_of};
ghost use Rattle.runs.specs.Ends.{moved, stage_afterwards, old_by};
ghost use Rattle.moves.specs.Calls.{action_of, move_in};
ghost use Rattle.moves.specs.declared.call.Call.{Call as ACall};
ghost use Rattle.moves.specs.Kinds.{MayAnswer};
ghost use Rattle.moves.specs.Moving.{HasHint, HasRoom, MayMake};
ghost use Rattle.moves.specs.Stands.{standing};
ghost use Rattle.moves.specs.RootsAfter.{IsToldOfRoots};

use crate::hints::record_win;
use crate::moves::Move;
use crate::moving::{answer_of, call_phase_after, ends_call};
use crate::roots_after::RootsAfter;
use crate::runner::Runner;
use crate::thread_state::ThreadState;
use crate::word_value::{NULL, WordValue};
use colours::DONE;
use pools::Pools;
use std::alloc::AllocError;

/// The thread after its move. Returns what its roots are to those before. Without memory it stays as it was.
pub fn go_on<M: Runner>(
    pools: &Pools,
    thread_state: &mut ThreadState<M>,
    made: &Move,
) -> Result<RootsAfter, AllocError>
    requires room { HasRoom thread_state.old.call_phase made.now }
    requires hint { HasHint pools.now thread_state.old.hints made.now (M.action thread_state.old.state) }
    requires answer { (s : Setup) × MayAnswer s (M.fits s) M.action thread_state.old.state (answer_of (M.action thread_state.old.state) (move_in (M.roots thread_state.old.state) made.now)) }
    ensures ok { (s : Setup) (call : ACall) → s.pools ≡ pools.now → action_of call ≡ M.action thread_state.old.state → MayMake s thread_state.old.hints (M.roots thread_state.old.state) call thread_state.old.call_phase made.now
        → (let m = machine_of M.action M.after_answer M.roots in OnOk result (standing s m thread_state.new ≡ moved s m (standing s m thread_state.old) (move_in (M.roots thread_state.old.state) made.now))) }
    ensures roots { IfOk result (λ after. IsToldOfRoots after (M.roots thread_state.old.state) (M.roots thread_state.new.state)) }
    ensures err { OnErr result (thread_state.new ≡ thread_state.old) }
{
    let call = thread_state.state.call();
    let call_phase = call_phase_after(
        pools,
        &call,
        thread_state.stage,
        thread_state.call_phase,
        made,
    );
    let roots_after = if ends_call(made, call_phase) {
        thread_state.state.answer(answer_of(&call, made))?
    } else {
        RootsAfter::Same
    };
    thread_state.stage = stage_afterwards(thread_state.stage, made);
    thread_state.call_phase = call_phase;
    thread_state.replaced = old_by(made);
    record_win(pools, &call, &mut thread_state.hints, made);
    Ok(roots_after)
}

/// The stage after a move.
fn stage_afterwards(stage: u64, made: &Move) -> u64
    ensures { (roots : List AWordValue) → result ≡ stage_afterwards stage (move_in roots made.now) }
{
    match made {
        Move::Answers(next) | Move::EntersStage(next) => *next,
        Move::Ends => DONE,
        _ => stage,
    }
}

/// What a write under way has read, if this was its move.
fn old_by(made: &Move) -> WordValue
    ensures { (roots : List AWordValue) → result ≡ old_by (move_in roots made.now) }
{
    match made {
        Move::ReadsOldValue { value, .. } => *value,
        _ => NULL,
    }
}
