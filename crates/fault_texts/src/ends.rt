//! A block that goes on past its last instruction: it lacks br, switch, ret or unreachable.
use crate::site::{Site, put_word};
use ir_text::{ReadFault, read_in};
use ir_tokens::Kind;
use messages::{Message, Part, Pen, put_mark};
use std::alloc::{AllocError, Global};

/// What ends a block and its function.
const END: &[u8] = b"\nunreachable\n}\n";

/// Whether a block may have ended before a token of this kind.
fn begins_after_block(kind: Kind) -> bool {
    matches!(kind, Kind::LabelName | Kind::LabelNumber | Kind::CloseBrace)
}

/// Whether a text is one of items, but for names that are not defined in it.
fn are_items(alloc: Global, text: &[u8], wide: bool) -> Result<bool, AllocError> {
    match read_in(alloc, text, wide) {
        Ok(of_module) => {
            drop(of_module);
            Ok(true)
        }
        Err(ReadFault::NotDefined(_)) => Ok(true),
        Err(ReadFault::Memory) => Err(AllocError),
        Err(fault) => {
            drop(fault);
            Ok(false)
        }
    }
}

/// Whether the text up to a token lacks no more than the end of its block and of its function.
fn is_read_with_an_end(alloc: Global, site: Site, wide: bool) -> Result<bool, AllocError> {
    let Some(token) = site.tokens.get(site.at) else {
        return Ok(false);
    };
    let before = site.text.get(..token.start as usize).unwrap_or(&[]);
    let mut text = Vec::from_slice(alloc, before)?;
    text.extend_from_slice(END)?;
    let is_read = are_items(alloc, text.as_slice(), wide);
    drop(text);
    is_read
}

/// Whether a block goes on past its last instruction at a token, in a text in which the wide forms may stand or not.
pub(crate) fn lacks_an_end(alloc: Global, site: Site, wide: bool) -> Result<bool, AllocError> {
    if begins_after_block(site.kind()) && !matches!(site.kind_before(), Kind::OpenBrace) {
        is_read_with_an_end(alloc, site, wide)
    } else {
        Ok(false)
    }
}

/// The name of a label, without its colon.
fn bare(label: &[u8]) -> &[u8] {
    match label {
        [rest @ .., b':'] => rest,
        _ => label,
    }
}

/// The label of the block in which a token stands, if it has one.
fn label_before<'a>(site: Site<'a>) -> Option<&'a [u8]> {
    let define = site.define()?;
    for at in (define..site.at).rev() {
        if matches!(site.kind_of(at), Kind::LabelName | Kind::LabelNumber) {
            return Some(bare(site.spelled_of(at)));
        }
    }
    None
}

/// That the block before a token has no end.
pub(crate) fn put_no_end(out: &mut Message, site: Site) {
    match label_before(site) {
        Some(label) => {
            out.put("%");
            put_word(out, label)
        }
        None => out.put("the first block"),
    }
    out.put(" ends without br, switch, ret or unreachable")
}

/// What ends it.
pub(crate) fn put_ended(pen: Pen, out: &mut Message, site: Site) {
    put_mark(out, pen.look, Part::Mend);
    if matches!(site.kind(), Kind::CloseBrace) {
        return out.put("write one of these before this line\n");
    }
    out.put("write one of these before this line, as `br label %");
    put_word(out, bare(site.spelled()));
    out.put("` where the block goes on here\n")
}
