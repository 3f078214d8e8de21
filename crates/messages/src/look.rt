//! How words stand out: by colours on a terminal, and not at all in plain text.
use std::alloc::Global;

/// Whether the text goes to a terminal that shows colours.
#[derive(Clone, Copy)]
pub enum Look {
    Plain,
    Coloured,
}

/// What a word of a message is.
#[derive(Clone, Copy)]
pub enum Ink {
    /// Where something is.
    Place,
    /// What is wrong.
    Fault,
    /// What it has to do with.
    Note,
    /// What mends it.
    Mend,
    /// A number beside a line.
    Gutter,
}

/// What messages are written with.
#[derive(Clone, Copy)]
pub struct Pen {
    pub alloc: Global,
    pub look: Look,
}

/// What a terminal takes before words of this kind.
pub(crate) fn colour_of(ink: Ink) -> &'static str {
    match ink {
        Ink::Place => "\x1b[1m",
        Ink::Fault => "\x1b[1;31m",
        Ink::Note => "\x1b[1;36m",
        Ink::Mend => "\x1b[1;32m",
        Ink::Gutter => "\x1b[34m",
    }
}
