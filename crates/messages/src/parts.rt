//! The parts of a message, what is known of each, and the changes of files that a message offers.
use ir_tokens::Position;
use std::alloc::{AllocError, Global};

/// A part of a line of a file, under which a caret stands.
#[derive(Clone, Copy)]
pub struct Marked {
    pub position: Position,
    /// How many bytes it has.
    pub length: usize,
}

/// What a part of a message is. A part goes up to the next one.
#[derive(Clone, Copy)]
pub enum Part {
    /// What stands between parts: margins, and the words before a part.
    Between,
    /// The path of a file, with a position in it if there is one.
    Place(Option<Position>),
    /// The code of a refusal or a fault.
    Code,
    /// What is refused.
    Sentence,
    /// What is said of another place, which comes before it.
    Note,
    /// A line of a file, and a caret under a part of it.
    Excerpt(Marked),
    /// What is said beside a caret.
    Label,
    /// What is known.
    Known,
    /// The words of a layout.
    Words,
    /// What stands at the place of a fault.
    Here,
    /// The form that was expected.
    Form,
    /// What mends it.
    Mend,
}

/// Which file of a command is changed.
#[derive(Clone, Copy)]
pub enum ChangedFile {
    Module,
    Certificate,
}

/// A text in the place of some bytes of a file.
#[derive(Drop)]
pub struct Change {
    pub file: ChangedFile,
    /// How many bytes come before those that are replaced.
    pub start: usize,
    /// How many bytes are replaced.
    pub length: usize,
    pub new: Vec<u8>,
}

/// Changes that are made together, in the order of the files' texts, and mend what is refused.
#[derive(Drop)]
pub struct Fix {
    /// Whether the program does what it did before, with what the rules ask for beside. Other changes are only offered.
    pub is_safe: bool,
    pub changes: Vec<Change>,
}

/// Where a part of a message begins.
#[derive(Clone, Copy)]
struct Begin {
    part: Part,
    /// How many bytes come before it.
    start: usize,
}

/// What is kept of a message besides its text: where its parts begin, and the changes that it offers.
#[derive(Drop)]
pub(crate) struct Kept {
    begins: Vec<Begin>,
    fixes: Vec<Fix>,
}

impl Kept {
    pub(crate) fn new(alloc: Global) -> Kept {
        Kept {
            begins: Vec::new(alloc),
            fixes: Vec::new(alloc),
        }
    }

    pub(crate) fn clear(&mut self) {
        self.begins.clear();
        self.fixes.clear();
    }

    /// A part begins after this many bytes.
    pub(crate) fn begin(&mut self, part: Part, start: usize) -> Result<(), AllocError> {
        self.begins.push(Begin { part, start })?;
        Ok(())
    }

    /// A further fix.
    pub(crate) fn add(&mut self, fix: Fix) -> Result<(), AllocError> {
        self.fixes.push(fix)?;
        Ok(())
    }

    /// The parts of this text, and the changes.
    pub(crate) fn of_text(self, text: Vec<u8>) -> Parts {
        let Kept { begins, fixes } = self;
        Parts {
            text,
            begins,
            fixes,
        }
    }
}

/// The parts of a message, and the changes that it offers.
#[derive(Drop)]
pub struct Parts {
    text: Vec<u8>,
    begins: Vec<Begin>,
    pub fixes: Vec<Fix>,
}

impl Parts {
    /// The part with this number, from 0, and its text.
    pub fn part(&self, number: usize) -> Option<(Part, &[u8])> {
        let begin = self.begins.get(number)?;
        let end = match self.begins.get(number.saturating_add(1)) {
            Some(next) => next.start,
            None => self.text.len(),
        };
        let text = self.text.as_slice().get(begin.start..end).unwrap_or(&[]);
        Some((begin.part, text))
    }

    /// How many parts there are.
    pub fn count(&self) -> usize {
        self.begins.len()
    }
}
