//! What is told of faults of traces: what is found, the line, its form, and the name of the module that was perhaps meant.
use crate::cert_sentences::put_unexpected;
use crate::cert_site::CertSite;
use crate::faults::{
    advice_on_mark, begin_fault_at, begin_whole_fault, end_fault_at, put_near, put_near_word,
    put_told,
};
use crate::forms::trace_form_of;
use crate::site::put_word;
use explain::Code;
use ir_tokens::Position;
use messages::{Message, NamedText, Part, Pen};
use name_text::{number_of_word, past_blanks, past_word, word};
use trace_text::TraceFault;

/// Words of a trace.
const WORDS: [&'static str; 7] = ["trace", "pool", "start", "late", "values", "steps", "end"];

/// The texts of a run: a trace and its module.
#[derive(Clone, Copy)]
pub struct TracedTexts<'a> {
    pub of_module: NamedText<'a>,
    pub of_trace: NamedText<'a>,
}

/// What the module does not have of the name at a position, if that names something.
fn unknown_text(site: CertSite) -> Option<&'static str> {
    match (site.before(), site.word()) {
        (b"start" | b"late", [b'@', ..]) => Some("the module defines no "),
        (b"pool", [_, ..]) => Some("the module has no struct "),
        _ => None,
    }
}

/// Whether a line before that of a position is of a pool of the same layout.
fn is_pooled(site: CertSite) -> bool {
    let mut rest = site.text;
    for _line in 1..site.position.line {
        let first = past_blanks(rest);
        if word(first) == b"pool".as_slice() && word(past_blanks(past_word(first))) == site.word() {
            return true;
        }
        let end = rest.iter().take_while(|byte| **byte != b'\n').count();
        rest = rest.get(end.saturating_add(1)..).unwrap_or(&[]);
    }
    false
}

/// What is found where a trace goes on with no form.
fn put_found(out: &mut Message, site: CertSite) {
    match unknown_text(site) {
        Some(_) if site.before() == b"pool".as_slice() && is_pooled(site) => {
            put_word(out, site.word());
            out.put(" has two lines `pool`")
        }
        Some(text) => {
            out.put(text);
            put_word(out, site.word())
        }
        None if !advice_on_mark(site.text).is_empty() && site.position.line == 1 => {
            out.put("the text begins with a byte order mark")
        }
        None => put_unexpected(out, site.word(), site.is_at_end()),
    }
}

/// The form of the line at which a trace has a fault, and the word that was perhaps meant.
fn put_trace_form(pen: Pen, out: &mut Message, site: CertSite) {
    let mark = advice_on_mark(site.text);
    if !mark.is_empty() && site.position.line == 1 {
        return put_told(out, pen, Part::Mend, mark);
    }
    put_told(out, pen, Part::Form, trace_form_of(site.first()));
    if site.before().is_empty() {
        put_near_word(pen, out, WORDS.as_slice(), site.word())
    }
}

/// A word with which no form goes on: perhaps a name of the module was meant.
fn put_syntax(pen: Pen, out: &mut Message, texts: TracedTexts, position: Position) {
    let named = texts.of_trace;
    let site = CertSite::of(named, position);
    begin_fault_at(pen, out, named.path, position, Code::P1);
    put_found(out, site);
    end_fault_at(pen, out, named, position);
    if site.before().is_empty() {
        return put_trace_form(pen, out, site);
    }
    match put_near(pen, out, texts.of_module, site.word()) {
        Ok(true) => {}
        Ok(false) => put_trace_form(pen, out, site),
        Err(_) => out.refuse(),
    }
}

/// How many cells the line at the front of a text takes, as a pool.
fn cells_of(line: &[u8]) -> u64 {
    let first = past_blanks(line);
    if word(first) != b"pool".as_slice() {
        return 0;
    }
    let count = past_blanks(past_word(past_blanks(past_word(first))));
    number_of_word(word(count)).unwrap_or(0)
}

/// How many cells the pools of a trace have.
fn cells_in(text: &[u8]) -> u64 {
    let mut cells: u64 = 0;
    let mut begins = true;
    for (place, byte) in text.iter().enumerate() {
        if begins {
            cells = cells.saturating_add(cells_of(text.get(place..).unwrap_or(&[])));
        }
        begins = *byte == b'\n';
    }
    cells
}

/// Y4.
fn put_too_many_cells(pen: Pen, out: &mut Message, named: NamedText) {
    begin_whole_fault(pen, out, named.path, Code::Y4);
    out.put("the pools have ");
    out.put_number(cells_in(named.text));
    out.put(" cells\n");
    put_told(
        out,
        pen,
        Part::Mend,
        "write smaller pools: with the cell of the globals they are at most 1048576 cells",
    )
}

/// P2.
fn put_no_thread(pen: Pen, out: &mut Message, named: NamedText, position: Position) {
    begin_fault_at(pen, out, named.path, position, Code::P2);
    out.put("there is no thread ");
    put_word(out, CertSite::of(named, position).word());
    end_fault_at(pen, out, named, position);
    put_told(
        out,
        pen,
        Part::Mend,
        "each line `start` and each line `late` is a thread; the first one has the number 0",
    )
}

/// P3.
fn put_too_many_steps(pen: Pen, out: &mut Message, named: NamedText, position: Position) {
    begin_fault_at(pen, out, named.path, position, Code::P3);
    out.put("there are more than 10000000 steps up to here");
    end_fault_at(pen, out, named, position);
    put_told(
        out,
        pen,
        Part::Mend,
        "write a smaller count; all lines together make at most 10000000 steps",
    )
}

/// What is told of a text that is no trace of its module.
pub fn put_trace_fault(pen: Pen, out: &mut Message, texts: TracedTexts, fault: &TraceFault) {
    let named = texts.of_trace;
    match fault {
        TraceFault::Syntax(position) => put_syntax(pen, out, texts, *position),
        TraceFault::NoThread(position) => put_no_thread(pen, out, named, *position),
        TraceFault::TooManySteps(position) => put_too_many_steps(pen, out, named, *position),
        TraceFault::TooManyCells => put_too_many_cells(pen, out, named),
        TraceFault::Memory => out.refuse(),
    }
}
