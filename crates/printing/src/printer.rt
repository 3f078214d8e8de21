//! Prints diagnoses of the refusals of a program.
use crate::cases::text_of;
use crate::cert_lines::cert_position;
use crate::claims::{put_claim_at, put_known};
use crate::mends::put_mends;
use crate::offers::{changes_in, offer_changes};
use crate::places::FunctionPlaces;
use crate::seen::text_of_note;
use crate::spans::token_within;
use crate::texts::{ReadText, Source, Texts};
use crate::told::{Told, put_block, put_text};
use block_rules::Refusal;
use certs::Certs;
use diagnosis::{At, Case, Diagnosis, Note, Sought, Spot, UnderDiagnosis};
use ir_ast::{FuncId, Operand};
use layout::Program;
use messages::{
    Change, Ink, Message, NamedText, Part, Pen, put_line_of_token, put_mark, put_path_at,
    put_position_line,
};
use name_text::Blank;
use pools::{LayoutId, WordKind};
use std::alloc::AllocError;

/// Where an instruction is: `plain.ll:23:7`; without a place in the text, its block and its number.
fn put_spot(out: &mut Message, told: &Told, spot: &Spot) {
    let source = told.texts.source;
    match told
        .token_number(spot)
        .and_then(|number| source.tokens.get(number))
    {
        Some(token) => put_path_at(out, source.path, source.lines.position(token.start)),
        None => {
            out.begin_part(Part::Between);
            put_block(out, told.function, spot.block);
            out.put(" ");
            out.put_number(spot.place as u64)
        }
    }
}

/// The line of an instruction, a caret under an operand of it, and words after that.
fn put_line(
    out: &mut Message,
    told: &Told,
    ink: Ink,
    spot: &Spot,
    operand: Option<Operand>,
    label: &str,
) {
    match token_within(told, spot, operand) {
        Ok(Some(token)) => {
            let source = told.texts.source;
            let position = source.lines.position(token.start);
            put_line_of_token(out, told.texts.pen, ink, source.text, token, position);
            out.put(if label.is_empty() { "" } else { " " });
            put_text(out, told, label);
            out.put("\n")
        }
        Ok(None) => {}
        Err(_) => out.refuse(),
    }
}

/// What is said of a place, after its name.
fn put_said(out: &mut Message, told: &Told, text: &str) {
    let look = told.texts.pen.look;
    out.end_ink(look);
    out.put_inked(look, Ink::Note, ": note: ");
    out.begin_part(Part::Note);
    put_text(out, told, text);
    out.put("\n")
}

/// What is said of a line of the certificate of a function, if it is there.
fn put_cert_note(out: &mut Message, told: &Told, func: FuncId, line: &Sought, text: &str) {
    let Some(function) = told.texts.function(func) else {
        return;
    };
    let NamedText {
        path,
        text: certificate,
    } = told.texts.certificate;
    match cert_position(&told.texts, function, line) {
        Ok(Some(position)) => {
            out.begin_ink(told.texts.pen.look, Ink::Place);
            put_path_at(out, path, position);
            put_said(out, told, text);
            put_position_line(out, told.texts.pen, Ink::Note, certificate, position);
            out.put("\n")
        }
        Ok(None) => {}
        Err(_) => out.refuse(),
    }
}

/// What is seen at another place.
fn put_note(out: &mut Message, told: &Told, note: &Note) {
    let text = text_of_note(&note.seen);
    match &note.at {
        At::Instruction(spot, operand) => {
            out.begin_ink(told.texts.pen.look, Ink::Place);
            put_spot(out, told, spot);
            put_said(out, told, text);
            put_line(out, told, Ink::Note, spot, *operand, "")
        }
        At::Certificate(func, line) => put_cert_note(out, told, *func, line, text),
    }
}

/// The place and the code: `plain.ll:23:7: K6: `.
fn put_head(out: &mut Message, told: &Told, diagnosis: &Diagnosis) {
    let look = told.texts.pen.look;
    out.begin_ink(look, Ink::Place);
    put_spot(out, told, &diagnosis.spot());
    out.end_ink(look);
    out.put(": ");
    out.begin_part(Part::Code);
    out.put_inked(look, Ink::Fault, diagnosis.refusal.rule.name());
    out.begin_part(Part::Between);
    out.put(": ");
    out.begin_part(Part::Sentence)
}

fn put_layout(out: &mut Message, told: &Told, layout: LayoutId) {
    out.put_layout(told.module(), layout, Blank::Kept)
}

/// How the sentence of a case ends.
fn put_ending(out: &mut Message, told: &Told, case: &Case) {
    match case {
        Case::Argument(_) => put_text(out, told, " of this parameter of {callee}"),
        Case::Result(_) => out.put(" of the result"),
        Case::OtherStruct { found, written } => {
            put_layout(out, told, *found);
            out.put(", and ");
            put_layout(out, told, *written);
            out.put(" is written here")
        }
        Case::Edge(_, detail) => {
            out.put("`");
            put_claim_at(out, told, told.texts.certs, detail.target, detail.claim);
            out.put("`")
        }
        _ => {}
    }
    out.put("\n")
}

fn put_kind(out: &mut Message, told: &Told, kind: WordKind) {
    match kind {
        WordKind::Integer(bits) => {
            out.put(" i");
            out.put_number(bits as u64)
        }
        WordKind::Reference(layout) => {
            out.put(" ref ");
            put_layout(out, told, layout)
        }
    }
}

/// The words of a layout: `of Node: 0 i64, 1 ref Node`.
fn put_words(out: &mut Message, told: &Told, layout: LayoutId) {
    put_mark(out, told.texts.pen.look, Part::Words);
    out.put("of ");
    put_layout(out, told, layout);
    let words = told.texts.program.layouts().words(layout);
    for (number, kind) in words.iter().enumerate() {
        out.put(if number == 0 { ": " } else { ", " });
        out.put_number(number as u64);
        put_kind(out, told, *kind);
    }
    out.put("\n")
}

/// A diagnosis: what is wrong, the line, what is seen elsewhere, what is known, the words of a layout, and what mends it.
fn put_diagnosis(out: &mut Message, told: &Told, diagnosis: &Diagnosis) {
    let page = text_of(&diagnosis.case);
    put_head(out, told, diagnosis);
    put_text(out, told, page.sentence);
    put_ending(out, told, &diagnosis.case);
    let spot = diagnosis.spot();
    put_line(out, told, Ink::Fault, &spot, diagnosis.caret, page.label);
    for note in &diagnosis.notes {
        if let Some(told) = Told::of(&told.texts, note.holes) {
            put_note(out, &told, note)
        }
    }
    put_known(out, told, diagnosis);
    if let Some(layout) = diagnosis.words {
        put_words(out, told, layout);
    }
    put_mends(out, told, diagnosis);
    offer_changes(out, told, diagnosis)
}

/// Prints the diagnoses of refusals of a program, and keeps of a function what serves for all of its refusals.
#[derive(Drop)]
pub struct Printer<'a> {
    pen: Pen,
    source: Source<'a>,
    certificate: NamedText<'a>,
    program: &'a Program,
    certs: &'a Certs,
    under: Option<UnderDiagnosis<'a>>,
    places: FunctionPlaces,
    others: FunctionPlaces,
}

impl<'a> Printer<'a> {
    /// Nothing is printed yet. The texts are those of the program's module and of its certificate.
    pub fn new(
        pen: Pen,
        of_module: &'a ReadText<'a>,
        certificate: NamedText<'a>,
        program: &'a Program,
        certs: &'a Certs,
    ) -> Printer<'a> {
        Printer {
            pen,
            source: of_module.source(),
            certificate,
            program,
            certs,
            under: None,
            places: FunctionPlaces::none(),
            others: FunctionPlaces::none(),
        }
    }

    fn texts(&self) -> Texts<'_> {
        Texts {
            pen: self.pen,
            source: self.source,
            certificate: self.certificate,
            program: self.program,
            certs: self.certs,
            places: &self.places,
            others: &self.others,
        }
    }

    /// Whether this function is the one of which something is kept.
    fn keeps(&self, func: FuncId) -> bool {
        match &self.under {
            Some(under) => under.is_of(func),
            None => false,
        }
    }

    /// The diagnosis of a refusal, if its function is there. What serves to print it is found too.
    fn diagnosed(&mut self, refusal: Refusal) -> Result<Option<Diagnosis>, AllocError> {
        let alloc = self.pen.alloc;
        let of_module = self.program.module();
        self.places
            .renew(alloc, &self.source, of_module, refusal.func)?;
        if !self.keeps(refusal.func) {
            self.under = UnderDiagnosis::new(alloc, self.program, self.certs, refusal.func)?;
        }
        let Some(under) = &mut self.under else {
            return Ok(None);
        };
        let diagnosis = under.diagnose(refusal)?;
        if let Some(other) = diagnosis.other_function() {
            self.others.renew(alloc, &self.source, of_module, other)?;
        }
        Ok(Some(diagnosis))
    }

    /// Prints what is wrong with a refused instruction, what is known there, and what mends it.
    pub fn put_refusal(&mut self, out: &mut Message, refusal: Refusal) {
        match self.diagnosed(refusal) {
            Ok(Some(diagnosis)) => {
                if let Some(told) = Told::of(&self.texts(), diagnosis.holes) {
                    put_diagnosis(out, &told, &diagnosis);
                }
                drop(diagnosis)
            }
            Ok(None) => {}
            Err(_) => out.refuse(),
        }
    }

    /// What mends a refusal, as changes of the two texts that are made together: none, where it is not to be mended so.
    pub fn changes_of(&mut self, refusal: Refusal) -> Result<Vec<Change>, AllocError> {
        let Some(diagnosis) = self.diagnosed(refusal)? else {
            return Ok(Vec::new(self.pen.alloc));
        };
        let changes = match Told::of(&self.texts(), diagnosis.holes) {
            Some(told) => changes_in(&told, &diagnosis),
            None => Ok(Vec::new(self.pen.alloc)),
        };
        drop(diagnosis);
        changes
    }
}
