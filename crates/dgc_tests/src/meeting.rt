//! A gate at which pieces of work meet.
use gate::Gate;
use std::sync::atomic::{AtomicU32, Ordering};

/// How often a piece looks whether all others have come.
const TURNS: u32 = 100_000_000;

/// What is counted of a piece that began and then left.
const LEFT: u32 = 2;

/// What is counted of a call after no beginning, or after another one.
const OUT_OF_TURN: u32 = 10;

/// Holds up each piece until all have come. Pieces that are done one after the other never meet.
#[derive(Drop)]
pub struct Meeting {
    pieces: u32,
    have_come: AtomicU32,
    have_met: AtomicU32,
    /// What each piece called, for at most three.
    calls: [AtomicU32; 3],
}

impl Meeting {
    /// A gate for this number of pieces.
    pub fn of(pieces: u32) -> Meeting {
        Meeting {
            pieces,
            have_come: AtomicU32::new(0),
            have_met: AtomicU32::new(0),
            calls: [AtomicU32::new(0), AtomicU32::new(0), AtomicU32::new(0)],
        }
    }

    /// Whether each piece has met all others, and then left once.
    pub fn is_over(&self) -> bool {
        self.have_met.load(Ordering::SeqCst) == self.pieces && self.have_left() == self.pieces
    }

    /// How many pieces began, and then left once.
    fn have_left(&self) -> u32 {
        let mut left = 0u32;
        for calls in &self.calls {
            if calls.load(Ordering::SeqCst) == LEFT {
                left = left.saturating_add(1);
            }
        }
        left
    }
}

impl Gate for Meeting {
    fn before(&self, piece: usize) {
        if let Some(calls) = self.calls.get(piece) {
            calls.fetch_add(1, Ordering::SeqCst);
        }
        self.have_come.fetch_add(1, Ordering::SeqCst);
        for _turn in 0..TURNS {
            if self.have_come.load(Ordering::SeqCst) == self.pieces {
                self.have_met.fetch_add(1, Ordering::SeqCst);
                return;
            }
        }
    }

    fn after(&self, piece: usize) {
        if let Some(calls) = self.calls.get(piece) {
            let more = if calls.load(Ordering::SeqCst) == 1 {
                1
            } else {
                OUT_OF_TURN
            };
            calls.fetch_add(more, Ordering::SeqCst);
        }
    }
}
