//! Steps taken apart into words and numbers, which can be compared.
use colours::{Ask, Place, Turn};

/// A word, and the numbers beside it.
type Parts<const N: usize> = (&'static str, [u64; N]);

/// The parts of a step of the collector.
fn turn_parts(turn: Turn) -> Parts<3> {
    match turn {
        Turn::PostStage(stage) => ("post stage", [stage, 0, 0]),
        Turn::ReadStage(thread, stage) => ("read stage", [thread as u64, stage, 0]),
        Turn::MarkFound(cell, found) => ("mark found", [u64::from(cell), found, 0]),
        Turn::ReadColour(cell, found) => ("read colour", [u64::from(cell), found, 0]),
        Turn::ScanWord(cell, word, found) => {
            ("scan word", [u64::from(cell), u64::from(word), found])
        }
        Turn::Blacken(cell) => ("blacken", [u64::from(cell), 0, 0]),
        Turn::ClearWord(cell, word) => ("clear word", [u64::from(cell), u64::from(word), 0]),
        Turn::Free(cell) => ("free", [u64::from(cell), 0, 0]),
    }
}

/// The parts of the name of a word.
fn place_parts(place: Place) -> Parts<2> {
    match place {
        Place::Posted => ("posted", [0, 0]),
        Place::Stage(thread) => ("stage", [thread as u64, 0]),
        Place::Colour(cell) => ("colour", [u64::from(cell), 0]),
        Place::Word(cell, word) => ("word", [u64::from(cell), u64::from(word)]),
    }
}

/// The parts of an operation: what is done, on which word, and with which numbers.
fn ask_parts(ask: Ask) -> (&'static str, Parts<2>, [u64; 2]) {
    match ask {
        Ask::Load(place) => ("load", place_parts(place), [0, 0]),
        Ask::Store(place, value) => ("store", place_parts(place), [value, 0]),
        Ask::FetchMax(place, value) => ("fetch max", place_parts(place), [value, 0]),
        Ask::CompareExchange(place, old, new) => {
            ("compare exchange", place_parts(place), [old, new])
        }
    }
}

/// Whether a step was made, and is this one.
pub fn is_turn(made: Option<Turn>, turn: Turn) -> bool {
    match made {
        Some(made) => turn_parts(made) == turn_parts(turn),
        None => false,
    }
}

/// Whether an operation is asked for, and is this one.
pub fn is_ask(asked: Option<Ask>, ask: Ask) -> bool {
    match asked {
        Some(asked) => ask_parts(asked) == ask_parts(ask),
        None => false,
    }
}
