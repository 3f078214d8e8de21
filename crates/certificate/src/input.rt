//! What a certificate is read from.
use crate::mistake::Mistake;
use crate::progress::Progress;
use name_text::Reader;

/// A certificate's text, and what is read of it so far.
pub type Input<'a> = Reader<'a, Progress>;

/// A fault of a certificate's text.
pub type WordFault = name_text::WordFault<Mistake>;
