//! The object of the answer of a check, of a making of certificates, or of a recheck.
use crate::command::topic_of;
use command_line::{Command, What, Written};
use explained_checks::{AnswerForm, Ended, Explainer, Look, Topic, answer_text};
use reports::{Files, Outputs, STATUS_MEMORY, STATUS_NO, STATUS_YES};
use std::alloc::Global;
use std::io;

/// What can be seen of a command while it is done.
pub(crate) fn seen_of(what: What<'_>) -> Topic {
    match what {
        What::Check(_) => Topic::Check,
        What::Make(_) => Topic::Make,
        What::Recheck => Topic::Recheck,
        _ => Topic::Nothing,
    }
}

/// Who sees why a command does not accept its files: for explanations, and for the object of the answer, if the line asks for one.
pub(crate) fn watched_by<'a>(
    alloc: Global,
    look: Look,
    command: &Command<'_>,
    files: &Files<'a>,
) -> Explainer<'a> {
    let seen = Explainer::new(alloc, look, topic_of(command), files);
    match (command.written, seen_of(command.what)) {
        (Written::NotAtAll, _) | (_, Topic::Nothing) => seen,
        (_, topic) => seen.collecting(topic),
    }
}

/// How the object is written, if the line asks for one. There is none where memory was refused.
fn form_of(written: Written, status: u8) -> Option<AnswerForm> {
    match (written, status) {
        (Written::NotAtAll, _) | (_, STATUS_MEMORY) => None,
        (Written::AsJson, _) => Some(AnswerForm::Json),
        (Written::AsSarif, _) => Some(AnswerForm::Sarif),
    }
}

/// The lines of an answer with this status, and none of a certificate.
fn printed_of<'a>(what: What<'_>, status: u8, outputs: &'a Outputs) -> &'a [u8] {
    match (what, status) {
        (What::Make(_), STATUS_YES) => &[],
        (_, STATUS_YES | STATUS_NO) => outputs.out.as_slice(),
        _ => outputs.err.as_slice(),
    }
}

/// Writes the object of what a command answered with this status, if its line asks for one. Nothing else was printed so far.
pub(crate) fn put_answer(
    alloc: Global,
    seen: &mut Explainer<'_>,
    command: &Command<'_>,
    status: u8,
    outputs: &Outputs,
    text: &mut Vec<u8>,
) -> io::Result<()> {
    let Some(form) = form_of(command.written, status) else {
        return Ok(());
    };
    let ended = Ended {
        command: command.what.timed_name().unwrap_or(""),
        status,
        printed: printed_of(command.what, status, outputs),
    };
    *text = answer_text(alloc, seen, form, ended)?;
    Ok(())
}
