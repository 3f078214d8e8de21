//! Colours and stages.

/// The colour of a cell in the collector's cycle.
#[derive(Clone, Copy)]
pub enum Shade {
    Free,
    White,
    Grey,
    Black,
}

impl Shade {
    /// What a colour word means in a cycle.
    pub fn of(word: u64, cycle: u64) -> Shade {
        let grey = cycle.saturating_mul(2);
        if word == 0 {
            Shade::Free
        } else if word < grey {
            Shade::White
        } else if word == grey {
            Shade::Grey
        } else {
            Shade::Black
        }
    }

    pub fn name(self) -> &'static str {
        match self {
            Shade::Free => "free",
            Shade::White => "white",
            Shade::Grey => "grey",
            Shade::Black => "black",
        }
    }
}

/// The cycle of a stage.
pub fn cycle_at(stage: u64) -> u64 {
    stage.saturating_add(2) / 3
}

/// What a thread's mark raises a colour word to at its stage.
pub fn marked_at(stage: u64) -> u64 {
    cycle_at(stage).saturating_mul(2)
}

/// What a thread's claim stores in a colour word at its stage.
pub fn claimed_at(stage: u64) -> u64 {
    let grey = marked_at(stage);
    if stage % 3 == 0 {
        grey.saturating_add(1)
    } else {
        grey.saturating_sub(1)
    }
}

/// The name of a stage, without its cycle.
pub fn stage_name(stage: u64) -> &'static str {
    match stage % 3 {
        0 => "Async",
        1 => "Sync1",
        _ => "Sync2",
    }
}
