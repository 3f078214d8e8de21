//! An answer as a log of SARIF 2.1.0: a result for each refusal and each fault.
use crate::answer::Answer;
use crate::finding::{Finding, NoteObject};
use crate::fixes::{ChangeObject, FileTexts, FixObject};
use crate::sarif_log::{
    Artifact, ArtifactChange, Driver, Found, Invocation, Location, Log, Logical, Mending, Physical,
    Related, Replacement, Rule, Run, Told, Tool, Words,
};
use crate::sarif_places::{change_region, location_of, region_of};
use explain::Code;
use serde_json::to_vec;
use std::alloc::{AllocError, Global};

const SCHEMA: &str = "https://json.schemastore.org/sarif-2.1.0.json";

/// The rule on the page of a code, in one line: its first lines, without the code.
fn short_of(alloc: Global, page: &str) -> Result<String, AllocError> {
    let head = match page.split_once("\n\n") {
        Some((head, _)) => head,
        None => page,
    };
    let mut short = String::new(alloc);
    for word in head.split_whitespace().skip(1) {
        let gap = if short.is_empty() { "" } else { " " };
        short.push_str(gap)?;
        short.push_str(word)?;
    }
    Ok(short)
}

/// The page of a code. What is no fault of a text has none.
fn page_of(code: &str) -> &'static str {
    match Code::named(code) {
        Some(code) => code.text(),
        None => "",
    }
}

fn rule_of<'a>(alloc: Global, code: &'a str) -> Result<Rule<'a>, AllocError> {
    let page = page_of(code);
    Ok(Rule {
        help: Words { text: page },
        id: code,
        short_description: Told {
            text: short_of(alloc, page)?,
        },
    })
}

/// The number of the rule of a code, which is a new one if no rule is of it.
fn rule_number<'a>(
    alloc: Global,
    rules: &mut Vec<Rule<'a>>,
    code: &'a str,
) -> Result<usize, AllocError> {
    for (number, rule) in rules.iter().enumerate() {
        if rule.id == code {
            return Ok(number);
        }
    }
    let number = rules.len();
    rules.push(rule_of(alloc, code)?)?;
    Ok(number)
}

fn add_line(text: &mut String, mark: &str, line: &str) -> Result<(), AllocError> {
    let gap = if text.is_empty() { "" } else { "\n" };
    text.push_str(gap)?;
    text.push_str(mark)?;
    text.push_str(line)
}

fn add_lines(text: &mut String, mark: &str, lines: &[String]) -> Result<(), AllocError> {
    for line in lines {
        add_line(text, mark, line.as_str())?;
    }
    Ok(())
}

/// What is said of a finding: all but its place, in lines.
fn said_of(alloc: Global, finding: &Finding) -> Result<String, AllocError> {
    let mut text = String::new(alloc);
    match &finding.text {
        Some(sentence) => add_line(&mut text, "", sentence.as_str())?,
        None => add_line(&mut text, "", finding.code.as_str())?,
    }
    if let Some(label) = &finding.label {
        add_line(&mut text, "", label.as_str())?;
    }
    add_lines(&mut text, "here: ", finding.here.as_slice())?;
    add_lines(&mut text, "known: ", finding.known.as_slice())?;
    add_lines(&mut text, "words: ", finding.words.as_slice())?;
    add_lines(&mut text, "form: ", finding.form.as_slice())?;
    add_lines(&mut text, "mend: ", finding.mend.as_slice())?;
    Ok(text)
}

/// The refused instruction by its names: `@f %b 3`.
fn logical_of(alloc: Global, finding: &Finding) -> Result<Vec<Logical>, AllocError> {
    let mut found = Vec::new(alloc);
    if let (Some(function), Some(block), Some(place)) = (
        &finding.function,
        &finding.block,
        finding.instruction,
    ) {
        let digits = place.to_string(alloc)?;
        let mut name = String::new(alloc);
        name.push_str(function.as_str())?;
        name.push_str(" ")?;
        name.push_str(block.as_str())?;
        name.push_str(" ")?;
        name.push_str(digits.as_str())?;
        found.push(Logical {
            fully_qualified_name: name,
        })?;
    }
    Ok(found)
}

/// Where a finding is: the marked part of the text, or the place of the instruction.
fn place_of(
    alloc: Global,
    texts: FileTexts,
    finding: &Finding,
) -> Result<Option<Physical>, AllocError> {
    let Some(path) = &finding.path else {
        return Ok(None);
    };
    let region = region_of(
        texts,
        path.as_str(),
        finding.line,
        finding.column,
        finding.mark,
    );
    Ok(Some(Physical {
        artifact_location: location_of(alloc, path.as_str())?,
        region,
    }))
}

fn note_place(
    alloc: Global,
    texts: FileTexts,
    note: &NoteObject,
) -> Result<Option<Physical>, AllocError> {
    let Some(path) = &note.path else {
        return Ok(None);
    };
    let region = region_of(texts, path.as_str(), note.line, note.column, note.mark);
    Ok(Some(Physical {
        artifact_location: location_of(alloc, path.as_str())?,
        region,
    }))
}

fn related_of<'a>(
    alloc: Global,
    texts: FileTexts,
    notes: &'a [NoteObject],
) -> Result<Vec<Related<'a>>, AllocError> {
    let mut related = Vec::new(alloc);
    for (id, note) in notes.iter().enumerate() {
        related.push(Related {
            id,
            message: Words {
                text: note.text.as_str(),
            },
            physical_location: note_place(alloc, texts, note)?,
        })?;
    }
    Ok(related)
}

fn change_in<'a>(
    alloc: Global,
    texts: FileTexts,
    change: &'a ChangeObject,
) -> Result<ArtifactChange<'a>, AllocError> {
    let mut replacements = Vec::new(alloc);
    replacements.push(Replacement {
        deleted_region: change_region(texts, change),
        inserted_content: Words {
            text: change.new.as_str(),
        },
    })?;
    Ok(ArtifactChange {
        artifact_location: location_of(alloc, change.path.as_str())?,
        replacements,
    })
}

fn mending_of<'a>(
    alloc: Global,
    texts: FileTexts,
    fix: &'a FixObject,
) -> Result<Mending<'a>, AllocError> {
    let mut artifact_changes = Vec::new(alloc);
    for change in fix.changes.as_slice() {
        artifact_changes.push(change_in(alloc, texts, change)?)?;
    }
    Ok(Mending {
        artifact_changes,
        description: Words {
            text: if fix.safe { "safe" } else { "offered" },
        },
    })
}

fn mendings_of<'a>(
    alloc: Global,
    texts: FileTexts,
    fixes: &'a [FixObject],
) -> Result<Vec<Mending<'a>>, AllocError> {
    let mut mendings = Vec::new(alloc);
    for fix in fixes {
        mendings.push(mending_of(alloc, texts, fix)?)?;
    }
    Ok(mendings)
}

/// The result of a finding, whose rule has this number.
fn found_of<'a>(
    alloc: Global,
    texts: FileTexts,
    finding: &'a Finding,
    rule_index: usize,
) -> Result<Found<'a>, AllocError> {
    let mut locations = Vec::new(alloc);
    locations.push(Location {
        logical_locations: logical_of(alloc, finding)?,
        physical_location: place_of(alloc, texts, finding)?,
    })?;
    Ok(Found {
        fixes: mendings_of(alloc, texts, finding.fixes.as_slice())?,
        level: "error",
        locations,
        message: Told {
            text: said_of(alloc, finding)?,
        },
        related_locations: related_of(alloc, texts, finding.notes.as_slice())?,
        rule_id: finding.code.as_str(),
        rule_index,
    })
}

/// The results, and the rules of their codes.
#[derive(Drop)]
struct Results<'a> {
    rules: Vec<Rule<'a>>,
    found: Vec<Found<'a>>,
}

impl<'a> Results<'a> {
    fn add(
        &mut self,
        alloc: Global,
        texts: FileTexts,
        finding: &'a Finding,
    ) -> Result<(), AllocError> {
        let number = rule_number(alloc, &mut self.rules, finding.code.as_str())?;
        self.found.push(found_of(alloc, texts, finding, number)?)?;
        Ok(())
    }

    /// Those of some refusals, and of a fault.
    fn add_all(
        &mut self,
        alloc: Global,
        texts: FileTexts,
        refusals: &'a [Finding],
        fault: &'a Option<Finding>,
    ) -> Result<(), AllocError> {
        for refusal in refusals {
            self.add(alloc, texts, refusal)?;
        }
        match fault {
            Some(fault) => self.add(alloc, texts, fault),
            None => Ok(()),
        }
    }

    /// Those of an answer and of its steps.
    fn add_answer(
        &mut self,
        alloc: Global,
        texts: FileTexts,
        answer: &'a Answer,
    ) -> Result<(), AllocError> {
        self.add_all(alloc, texts, answer.refusals.as_slice(), &answer.fault)?;
        for step in answer.steps.as_slice() {
            self.add_all(alloc, texts, step.refusals.as_slice(), &step.fault)?;
        }
        Ok(())
    }

    fn new(alloc: Global) -> Results<'a> {
        Results {
            rules: Vec::new(alloc),
            found: Vec::new(alloc),
        }
    }

    /// These and those of an answer.
    fn with_answer(
        self,
        alloc: Global,
        texts: FileTexts,
        answer: &'a Answer,
    ) -> Result<Results<'a>, AllocError> {
        let mut results = self;
        results.add_answer(alloc, texts, answer)?;
        Ok(results)
    }
}

/// The results of an answer.
fn results_of<'a>(
    alloc: Global,
    texts: FileTexts,
    answer: &'a Answer,
) -> Result<Results<'a>, AllocError> {
    Results::new(alloc).with_answer(alloc, texts, answer)
}

fn add_artifact(
    alloc: Global,
    artifacts: &mut Vec<Artifact>,
    path: &Option<String>,
) -> Result<(), AllocError> {
    if let Some(path) = path {
        artifacts.push(Artifact {
            location: location_of(alloc, path.as_str())?,
        })?;
    }
    Ok(())
}

/// The files of a command.
fn artifacts_of(alloc: Global, answer: &Answer) -> Result<Vec<Artifact>, AllocError> {
    let mut artifacts = Vec::new(alloc);
    add_artifact(alloc, &mut artifacts, &answer.module)?;
    add_artifact(alloc, &mut artifacts, &answer.certificate)?;
    add_artifact(alloc, &mut artifacts, &answer.shapes)?;
    add_artifact(alloc, &mut artifacts, &answer.edits)?;
    Ok(artifacts)
}

fn run_of<'a>(
    alloc: Global,
    answer: &'a Answer,
    results: Results<'a>,
) -> Result<Run<'a>, AllocError> {
    let mut invocations = Vec::new(alloc);
    invocations.push(Invocation {
        execution_successful: answer.status < 2,
        exit_code: answer.status,
    })?;
    let Results { rules, found } = results;
    Ok(Run {
        artifacts: artifacts_of(alloc, answer)?,
        column_kind: "unicodeCodePoints",
        invocations,
        results: found,
        tool: Tool {
            driver: Driver {
                name: answer.tool,
                rules,
                version: answer.version,
            },
        },
    })
}

/// The list of one run.
fn one_run<'a>(alloc: Global, run: Run<'a>) -> Result<Vec<Run<'a>>, AllocError> {
    let mut runs = Vec::new(alloc);
    runs.push(run)?;
    Ok(runs)
}

/// The log of an answer, of one run.
fn log_of<'a>(alloc: Global, texts: FileTexts, answer: &'a Answer) -> Result<Log<'a>, AllocError> {
    let results = results_of(alloc, texts, answer)?;
    let run = run_of(alloc, answer, results)?;
    Ok(Log {
        schema: SCHEMA,
        runs: one_run(alloc, run)?,
        version: "2.1.0",
    })
}

/// The answer as a log of one run, on a line of its own.
pub fn sarif_of(alloc: Global, texts: FileTexts, answer: &Answer) -> Result<Vec<u8>, AllocError> {
    let log = log_of(alloc, texts, answer)?;
    let written = to_vec(alloc, &log);
    drop(log);
    match written {
        Ok(text) => {
            let mut text = text;
            text.push(b'\n')?;
            Ok(text)
        }
        // Nothing but want of memory keeps a log from being written.
        Err(_refused) => Err(AllocError),
    }
}
