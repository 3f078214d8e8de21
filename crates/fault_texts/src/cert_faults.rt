//! What is told of faults of certificates, of shapes and of edits: the file, what is found there, the line with a caret, what was expected,
//! and how to go on.
use crate::cert_sentences::{
    put_label, put_misplaced, put_shapeless, put_struct, put_twice, put_unknown, put_unlisted,
    put_version,
};
use crate::cert_site::CertSite;
use crate::faults::{
    advice_on_mark, begin_fault_at, begin_whole_fault, end_fault_at, name_at, put_meant,
    put_near_word, put_told,
};
use crate::forms::cert_form_of;
use crate::layout_faults::put_struct_note;
use crate::misfits::{is_of_no_words, put_if_unfit, struct_fault_of};
use crate::offers::offer_block;
use crate::site::put_word;
use crate::unrooted::put_unrooted;
use certificate::CertFault;
use explain::Code;
use fault_codes::{cert_code, cert_place};
use ir_ast::{Function, Module, SymbolId, ValueId};
use ir_tokens::Position;
use layout::LayoutFault;
use messages::{CODE_MARGIN, Message, NamedText, Part, Pen, put_mark};
use name_text::Blank;
use std::alloc::AllocError;

/// How many blocks a section that is to be written names at most.
const NAMED: usize = 8;

/// Words of edits.
const EDIT_WORDS: [&'static str; 4] = ["edit", "code", "cert", "both"];

/// Words of a certificate.
const WORDS: [&'static str; 22] = [
    "cert", "shapes", "number", "foreign", "layout", "global", "root", "function", "may", "none",
    "param", "result", "block", "slot", "end", "ref", "nonnull", "below", "stale", "fresh",
    "holds", "addr",
];

/// What is told of a text that is no text of edits.
pub fn put_edits_fault(pen: Pen, out: &mut Message, named: NamedText, fault: &CertFault) {
    match fault {
        CertFault::Syntax(position) => put_no_edit(pen, out, named, *position),
        CertFault::Memory => out.refuse(),
        _ => {}
    }
}

/// A line with which no edit begins.
fn put_no_edit(pen: Pen, out: &mut Message, named: NamedText, position: Position) {
    begin_fault_at(pen, out, named.path, position, Code::C1);
    put_misplaced(out, CertSite::of(named, position));
    end_fault_at(pen, out, named, position);
    put_told(
        out,
        pen,
        Part::Form,
        "an edit begins with `edit code @f`, `edit cert @f` or `edit both @f`; each of its texts ends with a line `.`",
    );
    put_told(out, pen, Part::Mend, advice_on_mark(named.text));
    put_near_word(
        pen,
        out,
        EDIT_WORDS.as_slice(),
        CertSite::of(named, position).word(),
    )
}

/// The form of a certificate.
const CERT_FORM: &str =
    "a certificate begins with `cert 2` (or `cert 1` without `ptr`), and then has its shapes and a section for each function, which ends with `end`";

/// The form of the line at which a certificate has a fault.
fn put_cert_form(pen: Pen, out: &mut Message, site: CertSite) {
    let form = cert_form_of(site.first());
    put_told(
        out,
        pen,
        Part::Form,
        if form.is_empty() { CERT_FORM } else { form },
    )
}

/// What is said of a name on a line of slots that is none of a slot, on one of functions outside, and on one of numbers of layouts.
fn advice_on_line(site: CertSite) -> &'static str {
    match site.first() {
        b"root" | b"slot" => "a root slot is an alloca of the function that llvm.gcroot names",
        b"foreign" =>
            "a function outside is one that the module only declares, none of the runtime and no intrinsic",
        b"number" => "LLVM leaves out a struct that no instruction names; take its line out",
        _ => "",
    }
}

/// The files of a check.
#[derive(Clone, Copy)]
pub struct CheckedTexts<'a> {
    pub of_module: NamedText<'a>,
    pub of_certs: NamedText<'a>,
}

/// A fault at a place of a certificate.
#[derive(Clone, Copy)]
struct PlacedFault<'a> {
    texts: CheckedTexts<'a>,
    of_module: &'a Module,
    position: Position,
    code: Code,
}

impl<'a> PlacedFault<'a> {
    fn site(&self) -> CertSite<'a> {
        CertSite::of(self.texts.of_certs, self.position)
    }
}

/// How to go on where a certificate names what is not there.
fn put_unknown_name(pen: Pen, out: &mut Message, fault: PlacedFault) {
    let named = fault.texts.of_certs;
    let name = name_at(named.text, fault.position);
    match put_unrooted(pen, out, fault.of_module, fault.site(), name) {
        Ok(true) => {}
        Ok(false) => {
            let advice = advice_on_line(fault.site());
            put_meant(pen, out, fault.texts.of_module, name, advice)
        }
        Err(_) => out.refuse(),
    }
}

/// How a text begins that stands where another one is wanted.
fn other_text(site: CertSite) -> &'static str {
    if site.position.line != 1 || !site.before().is_empty() {
        return advice_on_mark(site.text);
    }
    match site.first() {
        b"shapes" => "these are shapes alone: a certificate is wanted, as `dgc make` prints one",
        _ => advice_on_mark(site.text),
    }
}

/// C1: the form of the line, and what else was perhaps meant.
fn put_form(pen: Pen, out: &mut Message, fault: PlacedFault) {
    let site = fault.site();
    let other = other_text(site);
    if !other.is_empty() {
        return put_told(out, pen, Part::Mend, other);
    }
    put_cert_form(pen, out, site);
    put_near_word(pen, out, WORDS.as_slice(), site.word())
}

/// What is found at the place of a fault that is none of C1.
fn put_found(out: &mut Message, fault: PlacedFault) {
    match fault.code {
        Code::C2 => put_version(out, fault.site(), fault.of_module),
        Code::C3 => put_unknown(out, fault.site()),
        Code::C4 => put_twice(out, fault.site()),
        _ => put_misplaced(out, fault.site()),
    }
}

/// What is found at the place of a fault of the form.
fn put_unfit(pen: Pen, out: &mut Message, fault: PlacedFault) -> Result<(), AllocError> {
    if !put_if_unfit(pen.alloc, out, fault.of_module, fault.site())? {
        put_found(out, fault);
    }
    end_fault_at(pen, out, fault.texts.of_certs, fault.position);
    put_form(pen, out, fault);
    Ok(())
}

/// A shape of a struct that has no words, since it is at fault.
fn put_wordless(pen: Pen, out: &mut Message, fault: PlacedFault, cause: LayoutFault) {
    put_struct_name(out, fault);
    out.put(" has no words that a shape could name");
    end_fault_at(pen, out, fault.texts.of_certs, fault.position);
    put_struct_note(pen, out, fault.texts.of_module, fault.of_module, cause)
}

fn put_struct_name(out: &mut Message, fault: PlacedFault) {
    put_word(out, fault.site().second())
}

/// The fault Y1 or Y2 of the struct whose shape is at this place, if that is the cause.
fn cause_of(pen: Pen, fault: PlacedFault) -> Result<Option<LayoutFault>, AllocError> {
    if is_of_no_words(pen.alloc, fault.of_module, fault.site())? {
        struct_fault_of(pen.alloc, fault.texts.of_module.text, fault.of_module.wide)
    } else {
        Ok(None)
    }
}

/// C1.
fn put_syntax(pen: Pen, out: &mut Message, fault: PlacedFault) -> Result<(), AllocError> {
    match cause_of(pen, fault)? {
        Some(cause) => {
            put_wordless(pen, out, fault, cause);
            Ok(())
        }
        None => put_unfit(pen, out, fault),
    }
}

/// How to go on at a fault that is none of C1.
fn put_advice(pen: Pen, out: &mut Message, fault: PlacedFault) {
    match fault.code {
        Code::C3 => put_unknown_name(pen, out, fault),
        Code::C4 => put_told(out, pen, Part::Mend, "take one of the two lines out"),
        _ => put_cert_form(pen, out, fault.site()),
    }
}

/// A fault at a place of a certificate.
fn put_placed(pen: Pen, out: &mut Message, fault: PlacedFault) {
    let named = fault.texts.of_certs;
    begin_fault_at(pen, out, named.path, fault.position, fault.code);
    if matches!(fault.code, Code::C1) {
        if put_syntax(pen, out, fault).is_err() {
            out.refuse()
        }
        return;
    }
    put_found(out, fault);
    end_fault_at(pen, out, named, fault.position);
    put_advice(pen, out, fault)
}

/// A line of a section that is to be written.
fn begin_line(out: &mut Message, word: &str) {
    out.put(CODE_MARGIN);
    out.put(word)
}

/// The lines of the blocks of a section that is to be written, but that of the first one.
fn put_block_lines(out: &mut Message, function: &Function) {
    for block in 1..function.blocks.len() {
        if block <= NAMED {
            begin_line(out, "block ");
            put_label(out, function, block);
            out.put("\n")
        }
    }
    if function.blocks.len() > NAMED.saturating_add(1) {
        begin_line(out, "..\n")
    }
}

/// The section to add for a function without one.
fn put_section(pen: Pen, out: &mut Message, of_module: &Module, function: &Function) {
    put_mark(out, pen.look, Part::Mend);
    out.put("add this section, with `none` where the function reaches no safepoint:\n");
    begin_line(out, "function ");
    out.put_global(of_module, function.symbol, Blank::Kept);
    out.put(" may\n");
    put_block_lines(out, function);
    begin_line(out, "end\n")
}

/// The line to add for a block that is not listed.
fn put_block(pen: Pen, out: &mut Message, of_module: &Module, function: &Function, block: usize) {
    put_mark(out, pen.look, Part::Mend);
    out.put("add `block ");
    put_label(out, function, block);
    out.put("` to the section of ");
    out.put_global(of_module, function.symbol, Blank::Kept);
    out.put("\n")
}

/// A function or a block without a section.
fn put_missing(
    pen: Pen,
    out: &mut Message,
    named: NamedText,
    of_module: &Module,
    number: usize,
    block: Option<usize>,
) {
    begin_whole_fault(pen, out, named.path, Code::C5);
    put_unlisted(out, of_module, number, block);
    out.put("\n");
    match (of_module.functions.get(number), block) {
        (Some(function), None) => put_section(pen, out, of_module, function),
        (Some(function), Some(block)) => {
            put_block(pen, out, of_module, function, block);
            offer_block(pen, out, named, of_module, number, block)
        }
        (None, _) => {}
    }
}

/// The name of a word without a shape: `layout Node 1`.
fn put_word_name(out: &mut Message, of_module: &Module, layout: usize, place: usize) {
    out.put("layout ");
    put_struct(out, of_module, layout);
    out.put(" ");
    out.put_number(place as u64)
}

/// The name of a root slot without a shape: `root @f %s`.
fn put_root_name(out: &mut Message, of_module: &Module, function: usize, local: usize) {
    let Some(function) = of_module.functions.get(function) else {
        return;
    };
    out.put("root ");
    out.put_global(of_module, function.symbol, Blank::Kept);
    out.put(" ");
    if let Ok(local) = u32::try_from(local) {
        out.put_local(&function.locals, ValueId::new(local), Blank::Kept)
    }
}

/// The name of a global without a shape: `global @g`.
fn put_global_name(out: &mut Message, of_module: &Module, symbol: usize) {
    out.put("global ");
    if let Ok(symbol) = u32::try_from(symbol) {
        out.put_global(of_module, SymbolId::new(symbol), Blank::Kept)
    }
}

/// How the shape begins of what has none.
pub(crate) fn put_shape_of(out: &mut Message, of_module: &Module, fault: CertFault) {
    match fault {
        CertFault::MissingWord(layout, place) => put_word_name(out, of_module, layout, place),
        CertFault::MissingRoot(function, local) => {
            put_root_name(out, of_module, function, local)
        }
        CertFault::MissingGlobal(symbol) => put_global_name(out, of_module, symbol),
        _ => {}
    }
}

/// What has no shape, and the shape to add.
fn put_no_shape(
    pen: Pen,
    out: &mut Message,
    named: NamedText,
    of_module: &Module,
    fault: CertFault,
) {
    begin_whole_fault(pen, out, named.path, Code::C6);
    put_shapeless(out, of_module, fault);
    out.put("\n");
    put_mark(out, pen.look, Part::Mend);
    out.put("add `");
    put_shape_of(out, of_module, fault);
    out.put(" ref L` in front of the sections, where L is the layout to which it refers\n")
}

/// What is told of what a certificate lacks.
fn put_lacking(
    pen: Pen,
    out: &mut Message,
    named: NamedText,
    of_module: &Module,
    fault: CertFault,
) {
    match fault {
        CertFault::Missing(function) => put_missing(pen, out, named, of_module, function, None),
        CertFault::MissingBlock(function, block) => {
            put_missing(pen, out, named, of_module, function, Some(block))
        }
        CertFault::MissingWord(..) | CertFault::MissingGlobal(_) | CertFault::MissingRoot(..) => {
            put_no_shape(pen, out, named, of_module, fault)
        }
        CertFault::Memory => out.refuse(),
        _ => {}
    }
}

/// What is told of a text that is no certificate of its module.
pub fn put_cert_fault<'a>(
    pen: Pen,
    out: &mut Message,
    texts: CheckedTexts<'a>,
    of_module: &'a Module,
    fault: CertFault,
) {
    match (cert_place(&fault), cert_code(&fault)) {
        (Some(position), Some(code)) => put_placed(
            pen,
            out,
            PlacedFault {
                texts,
                of_module,
                position,
                code,
            },
        ),
        _ => put_lacking(pen, out, texts.of_certs, of_module, fault),
    }
}
