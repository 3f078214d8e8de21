use crate::shade::Shade;

/// What a step does. Cells and threads are named by their numbers; cell 0 is that of the globals.
#[derive(Clone, Copy)]
pub enum Event {
    /// The actor has no next step.
    Nothing,
    /// A local step.
    Local,
    /// A local step that takes this number from outside of the module.
    FromOutside(u64),
    /// The instruction has no meaning here.
    Wrong,
    Read {
        cell: u64,
        word: u32,
        value: u64,
    },
    /// The barrier reads what it will replace.
    ReadOld {
        cell: u64,
        word: u32,
        value: u64,
    },
    /// A store without the barrier.
    Store {
        cell: u64,
        word: u32,
        value: u64,
        before: u64,
    },
    /// The store of the barrier.
    StoreLast {
        cell: u64,
        word: u32,
        value: u64,
        before: u64,
    },
    /// The barrier marks a cell.
    Mark {
        cell: u64,
        before: Shade,
    },
    /// A thread that answers marks what a root slot refers to.
    MarkRoot {
        cell: u64,
        before: Shade,
    },
    Claim {
        cell: u64,
        after: Shade,
    },
    /// The cell that was tried is not free.
    Taken {
        cell: u64,
    },
    /// The posted stage is the thread's own.
    Poll,
    /// It is another.
    SeePosted(u64),
    Answer(u64),
    End,
    /// A late thread reads the posted stage, stores it, and reads it again.
    Arrive(u64),
    Enter(u64),
    LookAgain(u64),
    Post(u64),
    /// The collector waits for a thread: it has answered, is not under way, or has not answered.
    Answered(usize),
    Ended(usize),
    Wait(usize),
    MarkGlobals,
    /// The collector marks a cell to which it found a reference.
    MarkFound {
        cell: u64,
        before: Shade,
    },
    Look {
        cell: u64,
        shade: Shade,
    },
    Scan {
        cell: u64,
        word: u32,
        value: u64,
    },
    Blacken {
        cell: u64,
    },
    Sweep {
        cell: u64,
        shade: Shade,
    },
    Clear {
        cell: u64,
        word: u32,
    },
    Free {
        cell: u64,
    },
}

/// Which steps are told in one line with those like them before.
#[derive(Clone, Copy, PartialEq, Eq)]
pub enum Fold {
    Never,
    Local,
    Wait,
    Nothing,
}

impl Event {
    /// The word by which a program knows it.
    pub fn name(&self) -> &'static str {
        match self {
            Event::Nothing => "nothing",
            Event::Local => "local",
            Event::FromOutside(_) => "from_outside",
            Event::Wrong => "wrong",
            Event::Read { .. } => "read",
            Event::ReadOld { .. } => "read_old",
            Event::Store { .. } => "store",
            Event::StoreLast { .. } => "store_with_barrier",
            Event::Mark { .. } => "mark",
            Event::MarkRoot { .. } => "mark_root",
            Event::Claim { .. } => "claim",
            Event::Taken { .. } => "taken",
            Event::Poll => "poll",
            Event::SeePosted(_) => "see_posted",
            Event::Answer(_) => "answer",
            Event::End => "end",
            Event::Arrive(_) => "arrive",
            Event::Enter(_) => "enter",
            Event::LookAgain(_) => "look_again",
            Event::Post(_) => "post",
            Event::Answered(_) => "answered",
            Event::Ended(_) => "ended",
            Event::Wait(_) => "wait",
            Event::MarkGlobals => "mark_globals",
            Event::MarkFound { .. } => "mark_found",
            Event::Look { .. } => "look",
            Event::Scan { .. } => "scan",
            Event::Blacken { .. } => "blacken",
            Event::Sweep { .. } => "sweep",
            Event::Clear { .. } => "clear",
            Event::Free { .. } => "free",
        }
    }

    /// The cell that it is about.
    pub fn cell(&self) -> Option<u64> {
        match self {
            Event::Read { cell, .. }
            | Event::ReadOld { cell, .. }
            | Event::Store { cell, .. }
            | Event::StoreLast { cell, .. }
            | Event::Mark { cell, .. }
            | Event::MarkRoot { cell, .. }
            | Event::Claim { cell, .. }
            | Event::Taken { cell }
            | Event::MarkFound { cell, .. }
            | Event::Look { cell, .. }
            | Event::Scan { cell, .. }
            | Event::Blacken { cell }
            | Event::Sweep { cell, .. }
            | Event::Clear { cell, .. }
            | Event::Free { cell } => Some(*cell),
            Event::MarkGlobals => Some(0),
            _ => None,
        }
    }

    /// The word of the cell.
    pub fn word(&self) -> Option<u32> {
        match self {
            Event::Read { word, .. }
            | Event::ReadOld { word, .. }
            | Event::Store { word, .. }
            | Event::StoreLast { word, .. }
            | Event::Scan { word, .. }
            | Event::Clear { word, .. } => Some(*word),
            _ => None,
        }
    }

    /// What was read, stored, or taken from outside.
    pub fn value(&self) -> Option<u64> {
        match self {
            Event::FromOutside(value)
            | Event::Read { value, .. }
            | Event::ReadOld { value, .. }
            | Event::Store { value, .. }
            | Event::StoreLast { value, .. }
            | Event::Scan { value, .. } => Some(*value),
            _ => None,
        }
    }

    /// The stage that it is about.
    pub fn stage(&self) -> Option<u64> {
        match self {
            Event::SeePosted(stage)
            | Event::Answer(stage)
            | Event::Arrive(stage)
            | Event::Enter(stage)
            | Event::LookAgain(stage)
            | Event::Post(stage) => Some(*stage),
            _ => None,
        }
    }

    /// With which steps it is folded.
    pub fn fold(&self) -> Fold {
        match self {
            Event::Local => Fold::Local,
            Event::Wait(_) => Fold::Wait,
            Event::Nothing => Fold::Nothing,
            _ => Fold::Never,
        }
    }
}
