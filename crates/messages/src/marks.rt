//! The words that stand before parts of a message.
use crate::look::{Ink, Look};
use crate::message::Message;
use crate::parts::Part;

/// Which words stand before a part, and how they stand out.
fn mark_of(part: Part) -> (Ink, &'static str) {
    match part {
        Part::Known => (Ink::Note, "  known: "),
        Part::Words => (Ink::Note, "  words: "),
        Part::Here => (Ink::Note, "  here:  "),
        Part::Form => (Ink::Mend, "  form:  "),
        _ => (Ink::Mend, "  mend:  "),
    }
}

/// Begins a part of a message with the words that stand before it.
pub fn put_mark(out: &mut Message, look: Look, part: Part) {
    let (ink, words) = mark_of(part);
    out.begin_part(Part::Between);
    out.put_inked(look, ink, words);
    out.begin_part(part)
}
