/// How a blank is printed between quotes.
#[derive(Clone, Copy)]
pub enum Blank {
    /// As it is.
    Kept,
    /// As `\20`, where words are separated by blanks.
    Escaped,
}
