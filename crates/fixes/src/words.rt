//! A change in words.
use crate::places::{after, between};
use crate::sections::name_after;
use messages::{Change, ChangedFile, Message};

/// A text without the ends of lines in front of it.
fn past_line_ends(text: &[u8]) -> &[u8] {
    let ends = text.iter().take_while(|byte| **byte == b'\n').count();
    after(text, ends)
}

/// What a change of a module is: the barrier in place of a store, or a line that declares a function.
fn put_of_module(out: &mut Message, change: &Change) {
    if change.length > 0 {
        return out.put("llvm.gcwrite in place of the store");
    }
    out.put(str::from_utf8(change.new.as_slice()).unwrap_or("").trim())
}

/// What a change of a certificate is: a section that goes, or comes from a certificate that was made, or the whole of one.
fn put_of_certificate(out: &mut Message, text: &[u8], change: &Change) {
    if change.new.is_empty() {
        let old = between(
            text,
            change.start,
            change.start.saturating_add(change.length),
        );
        out.put("the section of ");
        out.put_bytes(name_after(old, b""));
        return out.put(" goes: the module defines no such function");
    }
    let name = name_after(past_line_ends(change.new.as_slice()), b"");
    if name.is_empty() {
        return out.put("the whole of it, as dgc make writes it");
    }
    out.put("the section of ");
    out.put_bytes(name);
    out.put(", as dgc make writes it")
}

/// What a change of this text is, as this crate makes changes.
pub fn put_words(out: &mut Message, text: &[u8], change: &Change) {
    match change.file {
        ChangedFile::Module => put_of_module(out, change),
        ChangedFile::Certificate => put_of_certificate(out, text, change),
    }
}
