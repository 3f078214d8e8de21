//! What is told of files that no explainer saw while they were checked.
ghost use Rattle.std.specs.Prelude.{OnOk};
ghost use Rattle.reports.specs.Said.{GivesText};

use crate::checked::{see_check, see_make};
use crate::explainer::{Explainer, Topic};
use crate::traced::{put_traced, traced_texts};
use messages::Look;
use reports::Files;
use std::alloc::Global;
use std::io;

/// What is explained.
#[derive(Clone, Copy)]
pub enum Question {
    /// Why the module is not accepted with the certificate.
    Check,
    /// Why no certificates of the module are made with the shapes.
    Make,
    /// Why the module is not accepted with the certificate, or why the trace is none of it.
    Run,
    /// Why the texts are not read: a module, a trace of it, and its shapes.
    Trace,
}

/// What is seen of the files for a question.
fn topic_of(question: Question) -> Topic {
    match question {
        Question::Make => Topic::Make,
        _ => Topic::Check,
    }
}

/// The files are read, and the module is checked or certificates are made, as the question wants.
fn see(seen: &mut Explainer<'_>, question: Question, files: &Files<'_>) {
    match question {
        Question::Check => see_check(seen, None, files),
        Question::Make => see_make(seen, files),
        Question::Run => see_check(seen, Some(traced_texts(files)), files),
        Question::Trace => put_traced(seen.pen, &mut seen.out, files),
    }
}

/// Answers a question about the files, which are read and checked for that. Nothing is told where they are accepted.
pub fn explain(
    alloc: Global,
    look: Look,
    question: Question,
    files: &Files<'_>,
    err: &mut Vec<u8>,
) -> io::Result<()>
    ensures { OnOk result (GivesText err.old.items err.new.items) }
{
    let mut seen = Explainer::new(alloc, look, topic_of(question), files);
    see(&mut seen, question, files);
    seen.write(err)
}
