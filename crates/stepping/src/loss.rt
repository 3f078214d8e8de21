ghost use Rattle.std.specs.Prelude.{◌≡◌, List, true, false};
ghost use Rattle.runs.specs.Machine.{WordValue as AWordValue};
ghost use Rattle.moves.specs.Calls.{move_in};
ghost use Rattle.moves.specs.RootsAfter.{IsToldOfRoots};
ghost use Rattle.stepping.specs.Loss.{IsTold};
ghost use Rattle.stepping.specs.Reach.{AddsNothing, FreesNothing};

use colours::Turn;
use moves::{Move, RootsAfter};

/// Whether a step may lose something: leave a reference that is gone reachable, where none was before.
#[derive(Clone, Copy)]
pub enum Loss {
    /// It may not: it frees no cell, stores no reference, begins no thread, and leaves the roots of its thread unchanged.
    Nothing,
    /// It does one of these.
    Possible,
}

/// Whether a step of the collector may lose something: only where it frees a cell.
pub(crate) fn loss_of_turn(turn: Turn) -> Loss
    ensures { IsTold result (FreesNothing turn) }
{
    match turn {
        Turn::Free(_) => Loss::Possible,
        _ => Loss::Nothing,
    }
}

/// Whether a move may lose something, after which this is known of its thread's roots.
pub(crate) fn loss_of_move(made: &Move, roots_after: RootsAfter) -> Loss
    ensures { (before after : List AWordValue) → IsToldOfRoots roots_after before after → IsTold result (AddsNothing (move_in before made.now) × (after ≡ before)) }
{
    if adds(made) {
        return Loss::Possible;
    }
    match roots_after {
        RootsAfter::Same => Loss::Nothing,
        RootsAfter::Others => Loss::Possible,
    }
}

/// Whether a move puts a reference, or a number other than 0, into a word, or may be the one after which a late thread has begun.
fn adds(made: &Move) -> bool
    ensures adds { (roots : List AWordValue) → result ≡ true → AddsNothing (move_in roots made.now) → ⊥ }
    ensures adds_nothing { (roots : List AWordValue) → result ≡ false → AddsNothing (move_in roots made.now) }
{
    match made {
        Move::StoresAfterBarrier { value, .. } | Move::StoresPlain { value, .. } => value.cell != 0,
        Move::ReadsPostedAgain(_) => true,
        _ => false,
    }
}
