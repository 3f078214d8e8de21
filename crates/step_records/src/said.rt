ghost use Rattle.std.specs.Prelude.{◌≡◌, ◌<◌, ◌^◌, List, IfSome, IfNone};
ghost use Rattle.runs.specs.Machine.{WordValue as AWordValue};
ghost use Rattle.runs.specs.Moves.{step_of};
ghost use Rattle.moves.specs.Calls.{move_in};
ghost use Rattle.step_records.specs.Named.{roots_by, cell_of, IsSaidBy};

use colours::DONE;
use moves::{Move, WordValue};
use record_text::ThreadStep;

/// What an entry says of a move.
#[derive(Clone, Copy)]
pub(crate) enum SaidMove {
    /// The move is no step on the heap.
    NoStep,
    Step(ThreadStep),
}

/// The number of a cell as an entry has it, if it fits.
pub(crate) fn cell_of(reference: WordValue) -> Option<u32>
    ensures some { IfSome result (λ cell. cell ≡ reference.cell) }
    ensures none { IfNone result (¬ (reference.cell < 2 ^ 32)) }
{
    match u32::try_from(reference.cell) {
        Ok(cell) => Some(cell),
        Err(_) => None,
    }
}

/// What an entry says of a move, if the number of its cell fits.
pub(crate) fn said_of(made: &Move) -> Option<SaidMove>
    ensures some { (roots : List AWordValue) → IfSome result (λ said. IsSaidBy (step_of (move_in roots made.now)) (roots_by made.now roots) said) }
    ensures none { IfNone result (¬ (cell_of made.now < 2 ^ 32)) }
{
    let step = match made {
        Move::Works | Move::GoesWrong => return Some(SaidMove::NoStep),
        Move::ReadsWord { base, word, value } => {
            ThreadStep::ReadWord(cell_of(*base)?, *word, value.cell)
        }
        Move::ReadsOldValue { base, word, value } => {
            ThreadStep::ReadOldValue(cell_of(*base)?, *word, value.cell)
        }
        Move::Marks(marked) => ThreadStep::Mark(cell_of(*marked)?),
        Move::StoresAfterBarrier { base, word, value } => {
            ThreadStep::StoreAfterBarrier(cell_of(*base)?, *word, value.cell)
        }
        Move::StoresPlain { base, word, value } => {
            ThreadStep::StorePlain(cell_of(*base)?, *word, value.cell)
        }
        Move::Claims { claimed, won } => ThreadStep::Claim(cell_of(*claimed)?, *won),
        Move::ReadsPosted(stage) => ThreadStep::ReadPosted(*stage),
        Move::Answers(stage) => ThreadStep::StoreStage(*stage),
        Move::Ends => ThreadStep::StoreStage(DONE),
        Move::ReadsPostedFirst(stage) => ThreadStep::ReadPostedFirst(*stage),
        Move::EntersStage(stage) => ThreadStep::EnterStage(*stage),
        Move::ReadsPostedAgain(stage) => ThreadStep::ReadPostedAgain(*stage),
    };
    Some(SaidMove::Step(step))
}
