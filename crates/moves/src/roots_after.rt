/// What a thread's roots are after its move.
#[derive(Clone, Copy)]
pub enum RootsAfter {
    /// They are those before it.
    Same,
    /// They are others.
    Others,
}
