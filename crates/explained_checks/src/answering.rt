//! The object of an answer, as JSON or as a log of SARIF.
use crate::collector::Collected;
use crate::explained::named;
use crate::explainer::Explainer;
use answer_objects::{Answer, FileTexts, json_of, sarif_of};
use reports::{File, Files, STATUS_NO, STATUS_UNREADABLE, STATUS_YES, file_of, path_of};
use std::alloc::{AllocError, Global};

/// How an answer is written.
#[derive(Clone, Copy)]
pub enum AnswerForm {
    Json,
    Sarif,
}

/// How the object is to be read.
const FORMAT: u32 = 1;

const VERSION: &str = "0.1.0";

/// What a command printed, and the status with which it ended.
#[derive(Clone, Copy)]
pub struct Ended<'a> {
    /// The name of the command.
    pub command: &'static str,
    pub status: u8,
    /// The lines of its answer.
    pub printed: &'a [u8],
}

fn verdict_of(status: u8) -> &'static str {
    match status {
        STATUS_YES => "yes",
        STATUS_NO => "no",
        STATUS_UNREADABLE => "unreadable",
        _ => "fault",
    }
}

/// The path of a file, if it is given.
fn path_in(alloc: Global, file: Option<File<'_>>) -> Result<Option<String>, AllocError> {
    if file.is_none() {
        return Ok(None);
    }
    let mut path = String::new(alloc);
    path.push_str(path_of(file))?;
    Ok(Some(path))
}

/// The lines of a text.
fn lines_of(alloc: Global, text: &[u8]) -> Result<Vec<String>, AllocError> {
    let text = String::from_utf8_lossy(alloc, text)?;
    let mut lines = Vec::new(alloc);
    for line in text.lines() {
        let mut owned = String::new(alloc);
        owned.push_str(line)?;
        lines.push(owned)?;
    }
    drop(text);
    Ok(lines)
}

/// The answer of a command on these files, of which this was collected.
fn answer_of(
    alloc: Global,
    files: &Files<'_>,
    collected: Collected,
    ended: Ended<'_>,
) -> Result<Answer, AllocError> {
    let Collected {
        functions,
        trusts,
        refusals,
        fault,
        steps,
    } = collected;
    Ok(Answer {
        certificate: path_in(alloc, files.certificate)?,
        command: ended.command,
        edits: path_in(alloc, files.edits)?,
        fault,
        format: FORMAT,
        functions,
        module: path_in(alloc, file_of(files.of_module))?,
        printed: lines_of(alloc, ended.printed)?,
        refusals,
        shapes: path_in(alloc, files.shapes)?,
        status: ended.status,
        steps,
        tool: "dgc",
        trusts,
        verdict: verdict_of(ended.status),
        version: VERSION,
    })
}

/// The texts of the files.
fn texts_in<'a>(files: &Files<'a>) -> FileTexts<'a> {
    FileTexts {
        of_module: Some(named(file_of(files.of_module))),
        certificate: Some(named(files.certificate)),
    }
}

/// The object of the answer of a command that ended so; empty where none is to be written.
pub fn answer_text(
    alloc: Global,
    seen: &mut Explainer<'_>,
    form: AnswerForm,
    ended: Ended<'_>,
) -> Result<Vec<u8>, AllocError> {
    let Some(collected) = seen.collected()? else {
        return Ok(Vec::new(alloc));
    };
    let files = seen.files();
    let answer = answer_of(alloc, &files, collected, ended)?;
    let text = match form {
        AnswerForm::Json => json_of(alloc, &answer),
        AnswerForm::Sarif => sarif_of(alloc, texts_in(&files), &answer),
    };
    drop(answer);
    text
}
