//! Who sees why files are not accepted, writes what is told of it, and collects it for the object of the answer.
ghost use Rattle.std.specs.Prelude.{OnOk};
ghost use Rattle.reports.specs.Said.{GivesText};

use crate::collector::{Collected, Collector};
use crate::edited::{put_last, put_refused_edit};
use crate::explained::{named, put_each, put_unread};
use crate::made::put_tried;
use block_rules::Refusal;
use certs::Certs;
use fault_texts::{CheckedTexts, put_edits_fault, put_layout_fault};
use ir_ast::Module;
use layout::{LayoutFault, Program};
use messages::{Look, Message, Pen};
use module_check::Witness;
use recheck::{Edit, EditFault, Session};
use reports::{Files, Findings, Unread, file_of, is_wide};
use std::alloc::{AllocError, Global};
use std::io;
use std::io::Write;

/// What is explained.
#[derive(Clone, Copy)]
pub enum Topic {
    Nothing,
    /// Why the module is not accepted with the certificate.
    Check,
    /// Why no certificates of the module are made with the shapes.
    Make,
    /// Why the module is not accepted with the certificate, before or after the edits, and why edits are refused.
    Recheck,
}

/// Sees why files are not accepted, and keeps what is told of it.
#[derive(Drop)]
pub struct Explainer<'a> {
    pub(crate) pen: Pen,
    topic: Topic,
    files: Files<'a>,
    /// Whether the first verdict on a session was a refusal. Then the last one is not told.
    begins_refused: bool,
    pub(crate) out: Message,
    /// Who collects what the object of the answer has, if there is to be one.
    collector: Option<Collector<'a>>,
}

/// The texts of a module and of what is given beside it: of shapes where certificates are made, and of certificates otherwise.
pub(crate) fn texts_of<'a>(topic: Topic, files: Files<'a>) -> CheckedTexts<'a> {
    CheckedTexts {
        of_module: named(file_of(files.of_module)),
        of_certs: match topic {
            Topic::Make => named(files.shapes),
            _ => named(files.certificate),
        },
    }
}

impl<'a> Explainer<'a> {
    /// Nothing is seen yet. What is told has this look.
    pub fn new(alloc: Global, look: Look, topic: Topic, files: &Files<'a>) -> Explainer<'a> {
        Explainer {
            pen: Pen { alloc, look },
            topic,
            files: *files,
            begins_refused: false,
            out: Message::new(alloc),
            collector: None,
        }
    }

    /// The same, and what is seen of the topic is collected for the object of the answer.
    pub fn collecting(self, topic: Topic) -> Explainer<'a> {
        let collector = Collector::new(self.pen.alloc, topic, &self.files);
        let Explainer {
            pen,
            topic,
            files,
            begins_refused,
            out,
            collector: none,
        } = self;
        drop(none);
        Explainer {
            pen,
            topic,
            files,
            begins_refused,
            out,
            collector: Some(collector),
        }
    }

    /// What was collected, if something was to be, and memory was not refused.
    pub(crate) fn collected(&mut self) -> Result<Option<Collected>, AllocError> {
        match self.collector.take() {
            Some(collector) => Ok(Some(collector.finish()?)),
            None => Ok(None),
        }
    }

    /// The files that it sees.
    pub(crate) fn files(&self) -> Files<'a> {
        self.files
    }

    /// What it writes with.
    pub fn pen(&self) -> Pen {
        self.pen
    }

    /// Writes what was told, or that there was no memory for it.
    pub fn write(self, err: &mut Vec<u8>) -> io::Result<()>
        ensures { OnOk result (GivesText err.old.items err.new.items) }
    {
        let Explainer { out, collector, .. } = self;
        drop(collector);
        write_text(out, err)
    }
}

/// Writes a text, or that there was no memory for it.
fn write_text(out: Message, err: &mut Vec<u8>) -> io::Result<()>
    ensures { OnOk result (GivesText err.old.items err.new.items) }
{
    match out.finish() {
        Ok(text) => err.write_all(text.as_slice()),
        Err(_) => writeln!(err, "no memory to explain it"),
    }
}

impl<'a> Witness for Explainer<'a> {
    fn refused(&mut self, program: &Program, certs: &Certs, refusals: &[Refusal]) {
        if let Some(collector) = &mut self.collector {
            collector.refused(program, certs, refusals);
        }
        let texts = texts_of(self.topic, self.files);
        match self.topic {
            Topic::Nothing => {}
            Topic::Make => put_tried(
                self.pen,
                &mut self.out,
                texts.of_module,
                program,
                certs,
                refusals,
            ),
            _ => put_each(self.pen, &mut self.out, texts, program, certs, refusals),
        }
    }
}

impl<'a> Findings for Explainer<'a> {
    fn not_read(&mut self, unread: &Unread<'_>) {
        if let Some(collector) = &mut self.collector {
            collector.not_read(unread);
        }
        let texts = texts_of(self.topic, self.files);
        match (self.topic, unread) {
            (Topic::Nothing, _) => {}
            (_, Unread::NoEdits(fault)) => {
                put_edits_fault(self.pen, &mut self.out, named(self.files.edits), fault)
            }
            (_, unread) => put_unread(
                self.pen,
                &mut self.out,
                texts,
                is_wide(self.files.of_module),
                unread,
            ),
        }
    }

    fn no_layouts(&mut self, fault: LayoutFault) {
        if let Some(collector) = &mut self.collector {
            collector.no_layouts(fault);
        }
        let texts = texts_of(self.topic, self.files);
        match self.topic {
            Topic::Nothing => {}
            _ => put_layout_fault(
                self.pen,
                &mut self.out,
                texts.of_module,
                is_wide(self.files.of_module),
                fault,
            ),
        }
    }

    fn accepted(&mut self, of_module: &Module) {
        if let Some(collector) = &mut self.collector {
            collector.accepted(of_module);
        }
    }

    fn edit_made(&mut self, session: &Session, number: usize) {
        if let Some(collector) = &mut self.collector {
            collector.edit_made(session, number);
        }
    }

    fn begun(&mut self, session: &Session) {
        if let Some(collector) = &mut self.collector {
            collector.begun(session);
        }
        let texts = texts_of(self.topic, self.files);
        if let (Topic::Recheck, Some(refusal)) = (self.topic, session.verdict()) {
            self.begins_refused = true;
            put_each(
                self.pen,
                &mut self.out,
                texts,
                session.program(),
                session.certs(),
                [refusal].as_slice(),
            )
        }
    }

    fn edit_refused(&mut self, session: &Session, number: usize, edit: &Edit, fault: &EditFault) {
        if let Some(collector) = &mut self.collector {
            collector.edit_refused(session, number, edit, fault);
        }
        if let Topic::Recheck = self.topic {
            put_refused_edit(self.pen, &mut self.out, session, number, edit, fault)
        }
    }

    fn edited(&mut self, session: &Session) {
        if let Some(collector) = &mut self.collector {
            collector.edited(session);
        }
        if let (Topic::Recheck, false) = (self.topic, self.begins_refused) {
            put_last(self.pen, &mut self.out, session)
        }
    }
}
