//! The calls of a thread on the heap: each step that they ask for.
ghost use Rattle.std.specs.Prelude.{◌≤◌};

use crate::parts::is_ask;
use colours::{Ask, Colour, DONE, Op, Place, claim_at, colour, mark_at};
use handshake::{Safepoint, answer_safepoint};

/// The colours that a mark and a claim write at a stage.
fn values_at(stage: u8) -> (u64, u64) {
    (mark_at(u64::from(stage)), claim_at(u64::from(stage)))
}

#[test]
fn marks_and_claims_of_the_first_stages(rt: HostRuntime) {
    assert_eq!(rt;
        [0, 1, 2, 3, 4, 6].map(values_at),
        [(0, 1), (2, 1), (2, 1), (2, 3), (4, 3), (4, 5)]
    );
}

/// The name of a word's colour in the second cycle.
fn name_of(word: u64) -> &'static str
    requires { word ≤ 5 }
{
    match colour(word, 2) {
        Colour::Blue => "blue",
        Colour::White => "white",
        Colour::Grey => "grey",
        Colour::Black => "black",
    }
}

#[test]
fn colours_of_the_second_cycle(rt: HostRuntime) {
    assert_eq!(rt;
        [name_of(0), name_of(3), name_of(4), name_of(5)],
        ["blue", "white", "grey", "black"]
    );
}

/// Whether a call asks for these operations, one after the other, and for none after them, where each finds the number beside it.
#[tactic(auto, using(crate::proofs::HeapTokens::small_fits))]
fn asks_for(op: &mut Op, operations: &[(Ask, u32)]) -> bool {
    for (ask, found) in operations {
        if !is_ask(op.ask(), *ask) {
            return false;
        }
        op.took(u64::from(*found));
    }
    op.ask().is_none()
}

/// A store marks both values at the first stage.
const STORE: [(Ask, u32); 4] = [
    (Ask::Load(Place::Word(0, 3)), 5),
    (Ask::FetchMax(Place::Colour(5), 2), 1),
    (Ask::FetchMax(Place::Colour(2), 2), 1),
    (Ask::Store(Place::Word(0, 3), 2), 5),
];

/// An allocation begins at its hint, here the third of three cells.
const ALLOCATION: [(Ask, u32); 3] = [
    (Ask::CompareExchange(Place::Colour(6), 0, 3), 1),
    (Ask::CompareExchange(Place::Colour(4), 0, 3), 1),
    (Ask::CompareExchange(Place::Colour(5), 0, 3), 1),
];

/// A late thread looks twice, and leaves where another stage was posted meanwhile.
const BEGINNING: [(Ask, u32); 4] = [
    (Ask::Load(Place::Posted), 4),
    (Ask::Store(Place::Stage(2), 4), u32::MAX),
    (Ask::Load(Place::Posted), 5),
    (Ask::Store(Place::Stage(2), DONE), 4),
];

/// Whether calls of three kinds ask for these operations.
fn ask_for_them() -> [bool; 3] {
    [
        asks_for(&mut Op::write(1, 0, 3, 2), STORE.as_slice()),
        asks_for(&mut Op::alloc(3, 4, 3, 2), ALLOCATION.as_slice()),
        asks_for(&mut Op::begin(2), BEGINNING.as_slice()),
    ]
}

#[test]
fn calls_ask_for_their_operations(rt: HostRuntime) {
    assert_eq!(rt; ask_for_them(), [true, true, true]);
}

/// Whether a safepoint asks for these operations, and for none after them.
fn safepoint_asks_for(point: &mut Safepoint<'_>, operations: &[(Ask, u32)]) -> bool {
    for (ask, found) in operations {
        if !is_ask(point.ask(), *ask) {
            return false;
        }
        point.took(u64::from(*found));
    }
    point.ask().is_none()
}

#[test]
fn a_safepoint_marks_the_roots_at_the_third_stage(rt: HostRuntime) {
    assert!(rt;
        safepoint_asks_for(
            &mut answer_safepoint(1, 2, &[0, 4, 0, 6]),
            &[
                (Ask::Load(Place::Posted), 3),
                (Ask::FetchMax(Place::Colour(4), 2), 1),
                (Ask::FetchMax(Place::Colour(6), 2), 1),
                (Ask::Store(Place::Stage(1), 3), 2),
            ]
        )
    );
}
