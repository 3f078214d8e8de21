//! What is seen of a step: whether its actor has more to do, and whether it is at a place around which a schedule may switch more often.
use crate::places::Place;
use colours::{DONE, Turn};
use moves::Move;
use stepping::{Happening, MadeStep};

/// What is seen of a step.
#[derive(Clone, Copy)]
pub(crate) enum Seen {
    /// The actor had no step left.
    Over,
    /// A thread ends.
    End,
    /// The collector waits for this thread.
    Waits(usize),
    /// The collector posts a stage.
    Posts,
    At(Place),
    Elsewhere,
}

/// What is seen of a step of a thread.
fn seen_of_move(made: &Move) -> Seen {
    match made {
        Move::Works | Move::GoesWrong | Move::ReadsPosted(_) => Seen::Elsewhere,
        Move::ReadsWord { .. } => Seen::At(Place::Load),
        Move::ReadsOldValue { .. } | Move::Marks(_) => Seen::At(Place::Mark),
        Move::StoresAfterBarrier { .. } | Move::StoresPlain { .. } => Seen::At(Place::Store),
        Move::Claims { won: true, .. } => Seen::At(Place::Cell),
        Move::Claims { .. } => Seen::Elsewhere,
        Move::Answers(_)
        | Move::ReadsPostedFirst(_)
        | Move::EntersStage(_)
        | Move::ReadsPostedAgain(_) => Seen::At(Place::Handshake),
        Move::Ends => Seen::End,
    }
}

/// What is seen of a step of the collector, which has posted this stage.
fn seen_of_turn(turn: Turn, posted: u64) -> Seen {
    match turn {
        Turn::ReadStage(thread, stage) if stage != posted && stage != DONE => Seen::Waits(thread),
        Turn::PostStage(_) => Seen::Posts,
        Turn::ReadStage(..) => Seen::At(Place::Handshake),
        Turn::MarkFound(..) | Turn::ScanWord(..) | Turn::Blacken(_) => Seen::At(Place::Mark),
        Turn::Free(_) => Seen::At(Place::Cell),
        Turn::ReadColour(..) | Turn::ClearWord(..) => Seen::Elsewhere,
    }
}

/// What is seen of a step that was made where this stage is posted.
pub(crate) fn look_at(made: &Option<MadeStep>, posted: u64) -> Seen {
    match made {
        None => Seen::Over,
        Some(step) => match &step.happening {
            Happening::Thread(_, thread_move) => seen_of_move(thread_move),
            Happening::Collector(turn) => seen_of_turn(*turn, posted),
        },
    }
}

/// Whether a step frees a cell, or breaks the run by itself. Before one of these no run is broken.
pub(crate) fn may_break(made: &Option<MadeStep>) -> bool {
    match made {
        None => false,
        Some(step) => step.broke.is_some() || is_free(&step.happening),
    }
}

/// Whether a step breaks the run by itself.
pub(crate) fn breaks(made: &Option<MadeStep>) -> bool {
    match made {
        None => false,
        Some(step) => step.broke.is_some(),
    }
}

/// Whether the collector posts a stage.
pub(crate) fn posts(made: &Option<MadeStep>) -> bool {
    match made {
        None => false,
        Some(step) => matches!(step.happening, Happening::Collector(Turn::PostStage(_))),
    }
}

/// Whether a cell is freed.
fn is_free(happening: &Happening) -> bool {
    matches!(happening, Happening::Collector(Turn::Free(_)))
}
