//! What is found at a place of a certificate's text, in one sentence.
use crate::cert_site::CertSite;
use crate::sentences::MARK;
use crate::site::{put_quoted, put_word};
use certificate::CertFault;
use ir_ast::{Function, Module, SymbolId, ValueId};
use messages::{Message, Pointers};
use name_text::Blank;
use pools::LayoutId;

/// What may come where a text goes on with no form.
pub(crate) fn put_unexpected(out: &mut Message, word: &[u8], is_at_end: bool) {
    if !word.is_empty() {
        put_quoted(out, word);
        return out.put(" is not expected here");
    }
    out.put(if is_at_end {
        "the text ends too early"
    } else {
        "the line ends too early"
    })
}

/// C1: a word with which no form goes on, or none.
pub(crate) fn put_misplaced(out: &mut Message, site: CertSite) {
    if site.text.starts_with(MARK) && site.position.line == 1 && site.position.column == 1 {
        return out.put("the text begins with a byte order mark");
    }
    put_unexpected(out, site.word(), site.is_at_end())
}

/// C2: the version that is written, and the one that goes with the module.
pub(crate) fn put_version(out: &mut Message, site: CertSite, of_module: &Module) {
    put_quoted_pair(out, site.first(), site.word());
    match (site.first(), site.word(), Pointers::of_module(of_module)) {
        (b"cert", b"1", Pointers::Opaque) => {
            out.put(" goes with typed pointers, and this module has `ptr`")
        }
        (b"cert", b"2", Pointers::Typed) => {
            out.put(" goes with `ptr`, and this module has typed pointers")
        }
        _ => out.put(" is no version that is read"),
    }
}

/// Two words between signs of quotation.
fn put_quoted_pair(out: &mut Message, first: &[u8], second: &[u8]) {
    out.put("`");
    put_word(out, first);
    out.put(" ");
    put_word(out, second);
    out.put("`")
}

/// What has no such name, up to the name.
fn owner_text(before: &[u8]) -> Option<&'static str> {
    match before {
        b"function" | b"root" => Some("the module defines no "),
        b"ref" | b"layout" | b"number" => Some("the module has no struct "),
        b"global" => Some("the module has no global "),
        _ => None,
    }
}

/// What a function of a certificate does not have, up to the name.
fn sort_text(before: &[u8]) -> &'static str {
    match before {
        b"block" => " has no block ",
        b"param" => " has no parameter ",
        _ => " has no value ",
    }
}

/// Whether a word comes before a name that the block has to list.
fn asks_to_list(before: &[u8]) -> bool {
    matches!(before, b"same" | b"holds" | b"addr")
}

/// The name of a function, or a word for it where none is known.
fn put_function(out: &mut Message, name: &[u8]) {
    if name.is_empty() {
        out.put("the function")
    } else {
        put_word(out, name)
    }
}

/// C3: a name of a function's own, or one that a line of slots gives.
fn put_unknown_local(out: &mut Message, site: CertSite) {
    match site.first() {
        b"root" | b"slot" => {
            put_word(out, site.word());
            out.put(" is no root slot of ");
            put_function(out, site.function())
        }
        _ => {
            put_function(out, site.section());
            out.put(sort_text(site.before()));
            put_word(out, site.word())
        }
    }
}

/// C3: a name that is not there.
pub(crate) fn put_unknown(out: &mut Message, site: CertSite) {
    let before = site.before();
    match (owner_text(before), site.word()) {
        (Some(text), name) => {
            out.put(text);
            put_word(out, name)
        }
        (None, [b'@', ..]) if asks_to_list(before) => {
            out.put("the module has no global ");
            put_word(out, site.word())
        }
        (None, name) if asks_to_list(before) => {
            put_word(out, name);
            out.put(" is not listed at this block")
        }
        (None, name) if before == b"foreign".as_slice() => {
            put_word(out, name);
            out.put(" is no function outside of the module")
        }
        _ => put_unknown_local(out, site),
    }
}

/// Whether the position is at the number of a layout.
fn is_layout_number(site: CertSite) -> bool {
    site.first() == b"number".as_slice() && site.before() != b"number".as_slice()
}

/// C4: what is listed twice. Of the shape of a word the position is at the name of the struct.
pub(crate) fn put_twice(out: &mut Message, site: CertSite) {
    if site.before() == b"layout".as_slice() {
        out.put("word ");
        put_word(out, site.after());
        out.put(" of ")
    }
    if is_layout_number(site) {
        out.put("the number ")
    }
    put_word(out, site.word());
    out.put(" is listed twice")
}

/// The name of a function.
fn put_defined(out: &mut Message, of_module: &Module, function: &Function) {
    out.put_global(of_module, function.symbol, Blank::Kept)
}

/// The name of a block of a function.
pub(crate) fn put_label(out: &mut Message, function: &Function, block: usize) {
    if let Some(block) = function.blocks.get(block) {
        out.put_local(&function.locals, block.label, Blank::Kept);
    }
}

/// C5: a function or a block without a section.
pub(crate) fn put_unlisted(
    out: &mut Message,
    of_module: &Module,
    function: usize,
    block: Option<usize>,
) {
    let Some(function) = of_module.functions.get(function) else {
        return;
    };
    if let Some(block) = block {
        put_label(out, function, block);
        out.put(" of ");
        put_defined(out, of_module, function);
        return out.put(" is not listed");
    }
    put_defined(out, of_module, function);
    out.put(" has no section")
}

/// The name of a struct by its number.
pub(crate) fn put_struct(out: &mut Message, of_module: &Module, number: usize) {
    if let Ok(number) = u32::try_from(number) {
        out.put_layout(of_module, LayoutId::new(number), Blank::Kept);
    }
}

/// A slot of a function, by its numbers.
fn put_slot(out: &mut Message, of_module: &Module, function: usize, local: usize) {
    if let (Some(function), Ok(local)) = (of_module.functions.get(function), u32::try_from(local)) {
        out.put_local(&function.locals, ValueId::new(local), Blank::Kept);
        out.put(" of ");
        put_defined(out, of_module, function)
    }
}

/// C6: what has no shape.
pub(crate) fn put_shapeless(out: &mut Message, of_module: &Module, fault: CertFault) {
    match fault {
        CertFault::MissingWord(layout, place) => {
            out.put("word ");
            out.put_number(place as u64);
            out.put(" of ");
            put_struct(out, of_module, layout)
        }
        CertFault::MissingRoot(function, local) => {
            out.put("the root slot ");
            put_slot(out, of_module, function, local)
        }
        CertFault::MissingGlobal(symbol) => {
            out.put("the global ");
            if let Ok(symbol) = u32::try_from(symbol) {
                out.put_global(of_module, SymbolId::new(symbol), Blank::Kept);
            }
        }
        _ => out.put("it"),
    }
    out.put(" has no shape")
}
