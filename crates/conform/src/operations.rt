ghost use Rattle.std.specs.Prelude.{ℕ, ◌≡◌, ◌<◌, ◌^◌, ◌↔◌, List, IsTrue};
ghost use Rattle.colours.specs.Steps as steps;
ghost use Rattle.record_text.specs.Records.{step_with};
ghost use Rattle.conform.specs.Operations.{is_colouring};

use colours::{Ask, Place, Turn, claim_at, mark_at, mark_value};
use record_text::ThreadStep;

/// The operation of a thread's step at the thread's stage.
pub fn ask_of(thread: usize, stage: u64, step: ThreadStep) -> Ask
    requires { IsTrue (is_colouring step) → stage < 2 ^ 62 }
    ensures { (roots : List ℕ) → result ≡ steps.ask_of thread stage (step_with roots step) }
{
    match step {
        ThreadStep::ReadWord(cell, word, _) | ThreadStep::ReadOldValue(cell, word, _) => Ask::Load(
            Place::Word(cell, word),
        ),
        ThreadStep::Mark(cell) => Ask::FetchMax(Place::Colour(cell), mark_at(stage)),
        ThreadStep::StoreAfterBarrier(cell, word, value)
        | ThreadStep::StorePlain(cell, word, value) => Ask::Store(Place::Word(cell, word), value),
        ThreadStep::Claim(cell, _) => Ask::CompareExchange(Place::Colour(cell), 0, claim_at(stage)),
        ThreadStep::ReadPosted(_)
        | ThreadStep::ReadPostedFirst(_)
        | ThreadStep::ReadPostedAgain(_) => Ask::Load(Place::Posted),
        ThreadStep::StoreStage(next) | ThreadStep::EnterStage(next) => Ask::Store(
            Place::Stage(thread),
            next,
        ),
    }
}

/// The operation of a step of the collector in this cycle.
pub fn turn_of(cycle: u64, turn: Turn) -> Ask
    requires { cycle < 2 ^ 62 }
    ensures { result ≡ steps.turn_of cycle turn }
{
    match turn {
        Turn::PostStage(stage) => Ask::Store(Place::Posted, stage),
        Turn::ReadStage(thread, _) => Ask::Load(Place::Stage(thread)),
        Turn::MarkFound(cell, _) => Ask::FetchMax(Place::Colour(cell), mark_value(cycle)),
        Turn::ReadColour(cell, _) => Ask::Load(Place::Colour(cell)),
        Turn::ScanWord(cell, word, _) => Ask::Load(Place::Word(cell, word)),
        Turn::Blacken(cell) => Ask::Store(Place::Colour(cell), 2 * cycle + 1),
        Turn::ClearWord(cell, word) => Ask::Store(Place::Word(cell, word), 0),
        Turn::Free(cell) => Ask::Store(Place::Colour(cell), 0),
    }
}

/// The word of an operation.
pub fn place_of(ask: Ask) -> Place
    ensures { result ≡ steps.place_of ask }
{
    match ask {
        Ask::Load(place)
        | Ask::Store(place, _)
        | Ask::FetchMax(place, _)
        | Ask::CompareExchange(place, _, _) => place,
    }
}

/// Whether the entry of a thread's step is true of what its word held.
pub fn is_found(step: ThreadStep, held: u64) -> bool
    ensures { (roots : List ℕ) → IsTrue result ↔ steps.Found (step_with roots step) held }
{
    match step {
        ThreadStep::ReadWord(_, _, value) | ThreadStep::ReadOldValue(_, _, value) => held == value,
        ThreadStep::Claim(_, won) => won == (held == 0),
        ThreadStep::ReadPosted(stage)
        | ThreadStep::ReadPostedFirst(stage)
        | ThreadStep::ReadPostedAgain(stage) => held == stage,
        _ => true,
    }
}

/// Whether the entry of a step of the collector is.
pub fn is_found_by(turn: Turn, held: u64) -> bool
    ensures { IsTrue result ↔ steps.FoundBy turn held }
{
    match turn {
        Turn::ReadStage(_, stage) => held == stage,
        Turn::MarkFound(_, colour) | Turn::ReadColour(_, colour) => held == colour,
        Turn::ScanWord(_, _, value) => held == value,
        _ => true,
    }
}
