//! What is told of faults of a module's text: the file, what is found there, the line with a caret, what was expected, and how to go on.
use crate::ends::{lacks_an_end, put_ended, put_no_end};
use crate::forms::{form_before, lexed_of};
use crate::left_out::advice_on;
use crate::near::{near, near_word, put_like};
use crate::offers::offer_declare;
use crate::sentences::{MARK, put_at_token, put_bad_byte, put_limit, put_unfinished};
use crate::site::{Site, put_quoted};
use explain::Code;
use fault_codes::{read_code, read_place};
use ir_ast::Runtime;
use ir_text::ReadFault;
use ir_tokens::{Kind, Position, Token};
use messages::{
    Ink, Message, NamedText, Part, Pen, Pointers, line_numbered, put_declare_of, put_mark,
    put_path_at, put_position_line,
};
use name_text::{past_blanks, word};
use std::alloc::{AllocError, Global};

/// The rule on a page: its first lines, without the code and the blanks after it.
fn rule_on(page: &'static str) -> &'static str {
    let head = match page.split_once("\n\n") {
        Some((head, _)) => head,
        None => page,
    };
    match head.split_once("  ") {
        Some((_, rule)) => rule,
        None => head,
    }
}

/// Lines as one line.
fn put_joined(out: &mut Message, lines: &str) {
    for (number, line) in lines.split('\n').enumerate() {
        out.put(if number == 0 { "" } else { " " });
        out.put(line.trim_start());
    }
}

/// A code between its place and the sentence, which is to come.
fn put_code(out: &mut Message, pen: Pen, code: Code) {
    out.begin_part(Part::Between);
    out.put(": ");
    out.begin_part(Part::Code);
    out.put_inked(pen.look, Ink::Fault, code.name());
    out.begin_part(Part::Between);
    out.put(": ");
    out.begin_part(Part::Sentence)
}

/// What a code says in one sentence, and the end of the line.
fn put_rule(out: &mut Message, code: Code) {
    put_joined(out, rule_on(code.text()));
    out.put("\n")
}

/// The place of a fault and its code. What is found there is to come.
pub(crate) fn begin_fault_at(
    pen: Pen,
    out: &mut Message,
    path: &str,
    position: Position,
    code: Code,
) {
    out.begin_ink(pen.look, Ink::Place);
    put_path_at(out, path, position);
    out.end_ink(pen.look);
    put_code(out, pen, code)
}

/// The path of a file at fault as a whole, and the code. What is found there is to come.
pub(crate) fn begin_whole_fault(pen: Pen, out: &mut Message, path: &str, code: Code) {
    out.begin_part(Part::Place(None));
    out.put_inked(pen.look, Ink::Place, path);
    put_code(out, pen, code)
}

/// The end of what is found, and the line of the place.
pub(crate) fn end_fault_at(pen: Pen, out: &mut Message, named: NamedText, position: Position) {
    out.put("\n");
    put_position_line(out, pen, Ink::Fault, named.text, position);
    out.put("\n")
}

/// A part of one line, where there are words.
pub(crate) fn put_told(out: &mut Message, pen: Pen, part: Part, text: &str) {
    if text.is_empty() {
        return;
    }
    put_mark(out, pen.look, part);
    out.put(text);
    out.put("\n")
}

/// How many bytes come before a position.
fn offset_of(text: &[u8], position: Position) -> usize {
    let mut line: usize = 1;
    for (place, byte) in text.iter().enumerate() {
        if line >= position.line {
            return place.saturating_add(position.column).saturating_sub(1);
        }
        if *byte == b'\n' {
            line = line.saturating_add(1);
        }
    }
    text.len()
}

/// What a byte stands for that begins no token.
fn advice_on_byte(text: &[u8], place: usize) -> &'static str {
    match text.get(place..) {
        Some([b'#' | b'/', ..]) => "a comment begins with `;`",
        Some([b'"', ..] | [b'@' | b'%', b'"', ..]) => {
            "a text in quotes ends on its line, with another quote"
        }
        _ => "",
    }
}

/// How a text is saved that begins with a byte order mark; nothing for another one.
pub(crate) fn advice_on_mark(text: &[u8]) -> &'static str {
    if text.starts_with(MARK) {
        "the text begins with a byte order mark: save it without one"
    } else {
        ""
    }
}

/// What another file begins with, where a module is expected.
fn other_text(text: &[u8]) -> &'static str {
    match word(past_blanks(text)) {
        b"cert" => "this file is a certificate: the module comes before it on the command line",
        b"shapes" => "this file has shapes: the module comes first on the command line",
        b"trace" => "this file is a trace: the module comes first on the command line",
        [0xef, 0xbb, 0xbf, ..] => advice_on_mark(text),
        [0xff, 0xfe, ..] | [0xfe, 0xff, ..] => "the text is UTF-16: save it as UTF-8",
        [b'B', b'C', 0xc0, 0xde, ..] => "this is bitcode: llvm-dis writes its text",
        _ => "",
    }
}

/// A form that is left out.
fn put_left_out(
    pen: Pen,
    out: &mut Message,
    named: NamedText,
    wide: bool,
    position: Position,
    word: &[u8],
) {
    begin_fault_at(pen, out, named.path, position, Code::L7);
    put_rule(out, Code::L7);
    put_position_line(out, pen, Ink::Fault, named.text, position);
    out.put("\n");
    put_mark(out, pen.look, Part::Here);
    put_quoted(out, word);
    out.put(" begins a form that is not read; docs/TEXT.md lists these\n");
    put_told(out, pen, Part::Mend, advice_on(word, wide))
}

/// What is said besides, by the code, of a text in which the wide forms may stand or not.
fn advice_of(code: Code, wide: bool) -> &'static str {
    match code {
        Code::L6 if wide =>
            "a number of iN is from -2^(N-1) to 2^N - 1; one of float is one that 32 bits hold, and 0x and 16 digits are the bits of it as a double",
        Code::L10 =>
            "write all pointers as `ptr`, or none; `dgc migrate` turns typed pointers into `ptr`",
        Code::L9 =>
            "names without a letter are numbered from 0: parameters, blocks and values in the order of the text",
        Code::L4 => "write another name here, and where it is used",
        Code::L8 => "docs/TEXT.md, 'Limits', has the limits",
        Code::L6 => "a number of iN is from -2^(N-1) to 2^N - 1",
        Code::L2 =>
            "something is not closed: a function ends with `}`, a block with br, switch, ret or unreachable",
        _ => "",
    }
}

/// The name that was perhaps meant by another one, if there is one. Returns whether there is one.
fn put_question(pen: Pen, out: &mut Message, name: &[u8], meant: Option<&[u8]>) -> bool {
    let Some(meant) = meant else {
        return false;
    };
    put_mark(out, pen.look, Part::Mend);
    out.put("is ");
    put_like(out, name, meant);
    out.put(" meant?\n");
    true
}

/// The one of these words of a form that was perhaps meant by another word, if there is one.
pub(crate) fn put_near_word(pen: Pen, out: &mut Message, words: &[&'static str], written: &[u8]) {
    if let Some(meant) = near_word(words, written) {
        put_mark(out, pen.look, Part::Mend);
        out.put("is `");
        out.put(meant);
        out.put("` meant?\n");
    }
}

/// The name of the module that was perhaps meant by this one. Returns whether there is one.
pub(crate) fn put_near(
    pen: Pen,
    out: &mut Message,
    module: NamedText,
    name: &[u8],
) -> Result<bool, AllocError> {
    let Some(lexed) = lexed_of(pen.alloc, module)? else {
        return Ok(false);
    };
    let meant = near(module.text, lexed.tokens.as_slice(), name);
    let put = put_question(pen, out, name, meant);
    drop(lexed);
    Ok(put)
}

/// The name of the module that was perhaps meant by one that is not defined; if there is none, how to go on.
pub(crate) fn put_meant(
    pen: Pen,
    out: &mut Message,
    module: NamedText,
    name: &[u8],
    otherwise: &str,
) {
    match put_near(pen, out, module, name) {
        Ok(true) => {}
        Ok(false) => put_told(out, pen, Part::Mend, otherwise),
        Err(_) => out.refuse(),
    }
}

/// Whether a byte ends a name that is not in quotes.
fn ends_name(byte: u8) -> bool {
    matches!(
        byte,
        b' ' | b',' | b')' | b'(' | b']' | b'\t' | b'\r' | b'\n' | b';'
    )
}

/// The name at a position of a text.
pub(crate) fn name_at(text: &[u8], position: Position) -> &[u8] {
    let line = line_numbered(text, position.line.saturating_sub(1));
    let rest = line.get(position.column.saturating_sub(1)..).unwrap_or(&[]);
    let length = rest.iter().take_while(|byte| !ends_name(**byte)).count();
    rest.get(..length).unwrap_or(rest)
}

/// The function of the runtime that has a name with its sign.
fn runtime_named(name: &[u8]) -> Option<Runtime> {
    match name {
        [b'@', name @ ..] => Runtime::of(name),
        _ => None,
    }
}

/// A fault of a module's text, in which the wide forms may stand or not.
#[derive(Clone, Copy)]
struct TextFault<'a> {
    named: NamedText<'a>,
    wide: bool,
    position: Position,
    code: Code,
}

/// The line that declares a function of the runtime.
fn put_undeclared(
    pen: Pen,
    out: &mut Message,
    named: NamedText,
    tokens: &[Token],
    runtime: &Runtime,
) {
    let pointers = Pointers::of_tokens(tokens);
    put_mark(out, pen.look, Part::Mend);
    out.put("add this line outside the functions: ");
    put_declare_of(out, runtime, pointers);
    out.put("\n");
    offer_declare(pen, out, named, runtime, pointers)
}

/// How to go on where a name is not defined.
fn put_not_defined(pen: Pen, out: &mut Message, named: NamedText, tokens: &[Token], name: &[u8]) {
    match runtime_named(name) {
        Some(runtime) => put_undeclared(pen, out, named, tokens, &runtime),
        None => {
            put_question(pen, out, name, near(named.text, tokens, name));
        }
    }
}

/// Words with which items and instructions begin.
const WORDS: [&'static str; 31] = [
    "define",
    "declare",
    "type",
    "global",
    "constant",
    "label",
    "alloca",
    "load",
    "store",
    "getelementptr",
    "bitcast",
    "add",
    "sub",
    "mul",
    "and",
    "or",
    "xor",
    "zext",
    "sext",
    "trunc",
    "icmp",
    "select",
    "phi",
    "call",
    "br",
    "switch",
    "ret",
    "unreachable",
    "null",
    "void",
    "ptr",
];

/// The form that the line begins, and the word of one that was perhaps meant.
fn put_form(pen: Pen, out: &mut Message, fault: TextFault, place: usize, site: Option<Site>) {
    let Ok(form) = form_before(pen.alloc, fault.named, fault.wide, place) else {
        return out.refuse();
    };
    put_told(out, pen, Part::Form, form);
    if let Some(site) = site {
        if matches!(site.kind(), Kind::LowercaseWord | Kind::Word) {
            put_near_word(pen, out, WORDS.as_slice(), site.spelled())
        }
    }
}

/// How to go on at a number or a name that is given twice, or at another fault.
fn advice_at(fault: TextFault, site: Option<Site>) -> &'static str {
    match (fault.code, site) {
        (Code::L4, Some(site)) if !is_named(site.kind()) => "take one of the two cases out",
        (Code::L6, Some(site)) if matches!(site.kind(), Kind::IntegerType) => "",
        (code, _) => advice_of(code, fault.wide),
    }
}

/// Whether a token of this kind is a name.
fn is_named(kind: Kind) -> bool {
    matches!(
        kind,
        Kind::LocalName | Kind::LocalNumber | Kind::GlobalName | Kind::LabelName | Kind::LabelNumber
    )
}

/// What was expected, or how to go on.
fn put_expected(
    pen: Pen,
    out: &mut Message,
    fault: TextFault,
    tokens: &[Token],
    place: usize,
    site: Option<Site>,
) {
    let named = fault.named;
    match fault.code {
        Code::L1 | Code::L3 if !other_text(named.text).is_empty() => {
            put_told(out, pen, Part::Mend, other_text(named.text))
        }
        Code::L1 => put_told(out, pen, Part::Mend, advice_on_byte(named.text, place)),
        Code::L3 => put_form(pen, out, fault, place, site),
        Code::L5 => put_not_defined(pen, out, named, tokens, name_at(named.text, fault.position)),
        _ => put_told(out, pen, Part::Mend, advice_at(fault, site)),
    }
}

/// What is found at the place of a fault.
fn put_found(
    out: &mut Message,
    fault: TextFault,
    tokens: &[Token],
    place: usize,
    site: Option<Site>,
) {
    let text = fault.named.text;
    match (fault.code, site) {
        (Code::L1, _) => put_bad_byte(out, text, place),
        (Code::L2, _) => put_unfinished(
            out,
            Site {
                text,
                tokens,
                at: tokens.len(),
            },
        ),
        (Code::L8, site) => put_limit(out, text, site),
        (code, Some(site)) => put_at_token(out, site, code),
        (code, None) => put_joined(out, rule_on(code.text())),
    }
}

/// A fault among these tokens.
fn put_among(pen: Pen, out: &mut Message, fault: TextFault, tokens: &[Token]) {
    let place = offset_of(fault.named.text, fault.position);
    let site = Site::of(fault.named.text, tokens, place);
    put_found(out, fault, tokens, place, site);
    end_fault_at(pen, out, fault.named, fault.position);
    put_expected(pen, out, fault, tokens, place, site)
}

/// The token of a fault by which a block goes on past its last instruction, if it is one.
fn unended<'a>(
    alloc: Global,
    fault: TextFault<'a>,
    tokens: &'a [Token],
) -> Result<Option<Site<'a>>, AllocError> {
    let text = fault.named.text;
    if !matches!(fault.code, Code::L3) {
        return Ok(None);
    }
    let Some(site) = Site::of(text, tokens, offset_of(text, fault.position)) else {
        return Ok(None);
    };
    if lacks_an_end(alloc, site, fault.wide)? {
        Ok(Some(site))
    } else {
        Ok(None)
    }
}

/// A fault in a text of these tokens.
fn put_text_fault(pen: Pen, out: &mut Message, fault: TextFault, tokens: &[Token]) {
    match unended(pen.alloc, fault, tokens) {
        Ok(Some(site)) => {
            put_no_end(out, site);
            end_fault_at(pen, out, fault.named, fault.position);
            put_ended(pen, out, site)
        }
        Ok(None) => put_among(pen, out, fault, tokens),
        Err(_) => out.refuse(),
    }
}

/// What is told of a fault at a place of a module's text.
fn put_placed(pen: Pen, out: &mut Message, fault: TextFault) {
    let named = fault.named;
    begin_fault_at(pen, out, named.path, fault.position, fault.code);
    match lexed_of(pen.alloc, named) {
        Ok(Some(lexed)) => {
            put_text_fault(pen, out, fault, lexed.tokens.as_slice());
            drop(lexed)
        }
        Ok(None) => put_among(pen, out, fault, &[]),
        Err(_) => out.refuse(),
    }
}

/// What is told of a text that is no module, in which the wide forms may stand or not.
pub fn put_read_fault(
    pen: Pen,
    out: &mut Message,
    named: NamedText,
    wide: bool,
    fault: &ReadFault,
) {
    if let ReadFault::LeftOut { place, word } = fault {
        return put_left_out(pen, out, named, wide, *place, word.as_slice());
    }
    match (read_place(fault), read_code(fault)) {
        (Some(position), Some(code)) => put_placed(
            pen,
            out,
            TextFault {
                named,
                wide,
                position,
                code,
            },
        ),
        _ => out.refuse(),
    }
}

/// A fault of a file as a whole: its path, and the rule.
pub fn put_whole_fault(out: &mut Message, pen: Pen, path: &str, code: Code) {
    begin_whole_fault(pen, out, path, code);
    put_rule(out, code)
}

/// A fault of a text as a whole: what is found, and how to go on, if something is said of that.
pub fn put_fault_of(pen: Pen, out: &mut Message, path: &str, code: Code, found: &str, mend: &str) {
    begin_whole_fault(pen, out, path, code);
    out.put(found);
    out.put("\n");
    put_told(out, pen, Part::Mend, mend)
}
