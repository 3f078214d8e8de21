//! Who collects what the object of an answer has, while files are checked.
use crate::edited::{EDITED_CERTS, EDITED_MODULE, put_refused_edit};
use crate::explained::named;
use crate::explainer::{Topic, texts_of};
use crate::made::TRIED;
use crate::refusals::{NO_FILE, fault_of, refusals_in, told_in, untold};
use answer_objects::{FileTexts, Finding, Step};
use block_rules::Refusal;
use certificate::print_cert;
use certs::Certs;
use fault_texts::{CheckedTexts, put_edits_fault, put_layout_fault};
use ir_ast::Module;
use ir_print::print;
use layout::{LayoutFault, Program};
use messages::{Look, Message, NamedText, Pen};
use module_check::to_trust;
use name_text::Blank;
use recheck::{Edit, EditFault, Session};
use reports::{Files, Unread, is_wide};
use std::alloc::{AllocError, Global};

/// What was collected.
#[derive(Drop)]
pub(crate) struct Collected {
    pub(crate) functions: Option<usize>,
    pub(crate) trusts: Vec<String>,
    pub(crate) refusals: Vec<Finding>,
    pub(crate) fault: Option<Finding>,
    pub(crate) steps: Vec<Step>,
}

/// Collects what the object of an answer has.
#[derive(Drop)]
pub(crate) struct Collector<'a> {
    alloc: Global,
    topic: Topic,
    files: Files<'a>,
    found: Collected,
    /// Memory was refused for what would be collected.
    state: Result<(), AllocError>,
}

/// The steps of a session that is accepted or not.
fn verdict_of(refusal: &Option<Refusal>) -> &'static str {
    if refusal.is_some() { "no" } else { "yes" }
}

/// How many functions a session defines whose module is accepted.
fn functions_of(session: &Session, refusal: &Option<Refusal>) -> Option<usize> {
    if refusal.is_some() {
        None
    } else {
        Some(session.program().module().functions.len())
    }
}

/// The step of a session after this many edits, without what is told of its refusal.
fn step_of(
    alloc: Global,
    session: &Session,
    number: usize,
    rechecked: Option<u64>,
) -> Result<Step, AllocError> {
    let refusal = session.verdict();
    let mut refusals = Vec::new(alloc);
    if let Some(refusal) = &refusal {
        refusals.push(untold(alloc, session.program().module(), session.certs(), refusal)?)?;
    }
    Ok(Step {
        edit: number,
        fault: None,
        functions: functions_of(session, &refusal),
        rechecked,
        refusals,
        verdict: verdict_of(&refusal),
    })
}

impl<'a> Collector<'a> {
    pub(crate) fn new(alloc: Global, topic: Topic, files: &Files<'a>) -> Collector<'a> {
        Collector {
            alloc,
            topic,
            files: *files,
            found: Collected {
                functions: None,
                trusts: Vec::new(alloc),
                refusals: Vec::new(alloc),
                fault: None,
                steps: Vec::new(alloc),
            },
            state: Ok(()),
        }
    }

    /// What was collected, if memory was not refused.
    pub(crate) fn finish(self) -> Result<Collected, AllocError> {
        let Collector { found, state, .. } = self;
        match state {
            Ok(()) => Ok(found),
            Err(refused) => {
                drop(found);
                Err(refused)
            }
        }
    }

    fn texts(&self) -> CheckedTexts<'a> {
        texts_of(self.topic, self.files)
    }

    /// The files that a fix may change. Of a text of shapes, which is not a certificate, none is known.
    fn changed(&self) -> FileTexts<'a> {
        FileTexts {
            of_module: Some(self.texts().of_module),
            certificate: match self.files.certificate {
                Some(file) => Some(named(Some(file))),
                None => None,
            },
        }
    }

    fn keep_refusals(&mut self, found: Result<Vec<Finding>, AllocError>) {
        match found {
            Ok(found) => self.found.refusals = found,
            Err(refused) => self.state = Err(refused),
        }
    }

    fn pen(&self) -> Pen {
        Pen {
            alloc: self.alloc,
            look: Look::Plain,
        }
    }

    /// Keeps that memory was refused.
    fn keep(&mut self, done: Result<(), AllocError>) {
        if done.is_err() {
            self.state = done;
        }
    }

    fn keep_fault(&mut self, fault: Result<Finding, AllocError>) {
        match fault {
            Ok(fault) => self.found.fault = Some(fault),
            Err(refused) => self.state = Err(refused),
        }
    }

    fn add_step(&mut self, step: Result<Step, AllocError>) -> Result<(), AllocError> {
        self.found.steps.push(step?)?;
        Ok(())
    }

    fn keep_step(&mut self, step: Result<Step, AllocError>) {
        let done = self.add_step(step);
        self.keep(done)
    }

    /// The refusals with the boldest of the certificates that were tried, whose text is made for that.
    fn tried(
        &self,
        program: &Program,
        certs: &Certs,
        refusals: &[Refusal],
    ) -> Result<Vec<Finding>, AllocError> {
        let text = print_cert(self.alloc, certs, program.module())?;
        let texts = CheckedTexts {
            of_module: self.texts().of_module,
            of_certs: NamedText {
                path: TRIED,
                text: text.as_slice(),
            },
        };
        let found = refusals_in(self.alloc, texts, self.changed(), program, certs, refusals);
        drop(text);
        found
    }

    pub(crate) fn refused(&mut self, program: &Program, certs: &Certs, refusals: &[Refusal]) {
        let found = match self.topic {
            Topic::Make => self.tried(program, certs, refusals),
            _ => refusals_in(
                self.alloc,
                self.texts(),
                self.changed(),
                program,
                certs,
                refusals,
            ),
        };
        self.keep_refusals(found)
    }

    pub(crate) fn not_read(&mut self, unread: &Unread<'_>) {
        let fault = match unread {
            Unread::NoEdits(fault) => {
                let mut message = Message::in_parts(self.alloc);
                put_edits_fault(self.pen(), &mut message, named(self.files.edits), fault);
                told_in(self.alloc, NO_FILE, message, FileTexts::NONE)
            }
            unread => {
                let wide = is_wide(self.files.of_module);
                fault_of(self.alloc, self.texts(), self.changed(), wide, unread)
            }
        };
        self.keep_fault(fault)
    }

    pub(crate) fn no_layouts(&mut self, fault: LayoutFault) {
        let texts = self.texts();
        let mut message = Message::in_parts(self.alloc);
        let wide = is_wide(self.files.of_module);
        put_layout_fault(self.pen(), &mut message, texts.of_module, wide, fault);
        let fault = told_in(self.alloc, NO_FILE, message, self.changed());
        self.keep_fault(fault)
    }

    /// Appends the names of the functions outside that are trusted.
    fn add_trusts(&mut self, of_module: &Module) -> Result<(), AllocError> {
        let trusts = to_trust(self.alloc, of_module)?;
        for symbol in trusts.as_slice() {
            let mut name = Message::new(self.alloc);
            name.put_global(of_module, *symbol, Blank::Kept);
            let bytes = name.finish()?;
            let name = String::from_utf8_lossy(self.alloc, bytes.as_slice())?;
            self.found.trusts.push(name)?;
        }
        drop(trusts);
        Ok(())
    }

    pub(crate) fn accepted(&mut self, of_module: &Module) {
        self.found.functions = Some(of_module.functions.len());
        let done = self.add_trusts(of_module);
        self.keep(done)
    }

    /// What is told of the verdict on a session of these texts becomes that of the last step.
    fn tell_last(
        &mut self,
        session: &Session,
        texts: CheckedTexts,
        files: FileTexts,
    ) -> Result<(), AllocError> {
        let Some(refusal) = session.verdict() else {
            return Ok(());
        };
        let found = refusals_in(
            self.alloc,
            texts,
            files,
            session.program(),
            session.certs(),
            [refusal].as_slice(),
        )?;
        self.replace_last(found);
        Ok(())
    }

    /// These are the refusals of the last step that has some.
    fn replace_last(&mut self, found: Vec<Finding>) {
        for step in self.found.steps.iter_mut().rev() {
            if !step.refusals.is_empty() {
                step.refusals = found;
                return;
            }
        }
        drop(found)
    }

    pub(crate) fn begun(&mut self, session: &Session) {
        let step = step_of(self.alloc, session, 0, None);
        self.keep_step(step);
        let done = self.tell_last(session, self.texts(), self.changed());
        self.keep(done)
    }

    pub(crate) fn edit_made(&mut self, session: &Session, number: usize) {
        let step = step_of(self.alloc, session, number, Some(session.rechecked()));
        self.keep_step(step)
    }

    pub(crate) fn edit_refused(
        &mut self,
        session: &Session,
        number: usize,
        edit: &Edit,
        fault: &EditFault,
    ) {
        let mut message = Message::in_parts(self.alloc);
        put_refused_edit(self.pen(), &mut message, session, number, edit, fault);
        let fault = told_in(self.alloc, NO_FILE, message, FileTexts::NONE);
        let step = refused_step(self.alloc, number, fault);
        self.keep_step(step)
    }

    /// Whether an edit was made.
    fn is_edited(&self) -> bool {
        self.found.steps.iter().any(|step| step.rechecked.is_some())
    }

    /// What is told of the last verdict, by the texts that are printed of the module and its certificate.
    fn tell_edited(&mut self, session: &Session) -> Result<(), AllocError> {
        if session.verdict().is_none() || !self.is_edited() {
            return Ok(());
        }
        let module_text = print(self.alloc, session.program().module())?;
        let cert_text = print_cert(self.alloc, session.certs(), session.program().module())?;
        let texts = CheckedTexts {
            of_module: NamedText {
                path: EDITED_MODULE,
                text: module_text.as_slice(),
            },
            of_certs: NamedText {
                path: EDITED_CERTS,
                text: cert_text.as_slice(),
            },
        };
        self.tell_last(session, texts, FileTexts::NONE)
    }

    pub(crate) fn edited(&mut self, session: &Session) {
        let done = self.tell_edited(session);
        self.keep(done)
    }
}

/// The step of an edit that is refused for this fault.
fn refused_step(
    alloc: Global,
    number: usize,
    fault: Result<Finding, AllocError>,
) -> Result<Step, AllocError> {
    Ok(Step {
        edit: number,
        fault: Some(fault?),
        functions: None,
        rechecked: None,
        refusals: Vec::new(alloc),
        verdict: "refused",
    })
}
