/// A pass over all cells, between two of them.
#[derive(Clone, Copy)]
pub struct Pass {
    /// How many passes of this trace are over.
    pub rounds: u32,
    /// The next cell in turn.
    pub next: u32,
    pub met_grey: bool,
}

/// A place of the collector, without the cells that it may look at out of turn: those are told by how often each was looked at
/// and made grey.
#[derive(Clone, Copy)]
pub enum Spot {
    /// The next stage is posted.
    Posting,
    /// This thread is looked at next.
    Waiting(usize),
    ShadingGlobals,
    /// A cell is looked at next.
    Passing(Pass),
    /// This word of a grey cell is next, or a later one.
    Scanning(u32, u32, Pass),
    /// The value in hand is marked next; the scan of the cell goes on at this word.
    Shading(u64, u32, u32, Pass),
    /// This cell is looked at next by the sweep.
    Sweeping(u32),
    /// This word of a white cell is next.
    Clearing(u32, u32),
}
