//! The command `conform`: a recorded run against the collector's profile.
ghost use Rattle.std.specs.Prelude.{ℕ, ◌≡◌, List, IfOk, IfSome, IfNone};
ghost use Rattle.commands.specs.Conforming as spec;
ghost use Rattle.commands.specs.Conforming.{HasRecord, OfRecord};
ghost use Rattle.explain.specs.Codes.{name_of};
ghost use Rattle.reports.specs.Report.{IsTold};
ghost use Rattle.reports.specs.Said.{Says};
ghost use Rattle.reports.specs.TraceRuns.{OfRun};
ghost use Rattle.trace_text.specs.Traces.{IsTraceOf};

use conform::{Rule, Verdict};
use explain::Code;
use record_text::{COLLECTOR, RECORD_LIMIT};
use recorded_runs::judge;
use reports::{
    File, Files, Outputs, STATUS_NO, STATUS_YES, Traced, Unread, bytes_of, no_threads, path_of,
    read_traced, unread,
};
use std::alloc::Global;
use std::io;
use std::io::Write;

/// The code of a rule.
pub(crate) fn code_of(rule: Rule) -> Code
    ensures { name_of result ≡ spec.code_of rule }
{
    match rule {
        Rule::NoStep => Code::H1,
        Rule::Order => Code::H2,
        Rule::Value => Code::H3,
        Rule::UnmarkedStore => Code::H4,
        Rule::UnmarkedRoots => Code::H5,
        Rule::Stage => Code::H6,
        Rule::NotHeld => Code::H7,
        Rule::Word => Code::H8,
        Rule::StoredValue => Code::H9,
        Rule::NotFresh => Code::H10,
        Rule::RootNotHeld => Code::H11,
        Rule::Try => Code::H12,
        Rule::Look => Code::H13,
        Rule::Sweep => Code::H14,
        Rule::Post => Code::H15,
        Rule::Turn => Code::H16,
    }
}

/// Says which step of an actor does not conform, by the code of the rule that it breaks: `no 41 t 1 H4`, of the collector `no 41 c H13`.
fn broken<W: Write>(out: &mut W, step: u32, actor: u8, code: &str) -> io::Result<u8>
    ensures { IfOk result (λ status. IsTold (W.contents out.old) (W.contents out.new) status (spec.of_broken step actor code.now)) }
{
    if actor == COLLECTOR {
        writeln!(out, "no {step} c {code}")?;
    } else {
        writeln!(out, "no {step} t {actor} {code}")?;
    }
    Ok(STATUS_NO)
}

/// The line of a record: `conforms 5317`, or the first step that does not conform.
fn judged<W: Write>(out: &mut W, verdict: Verdict) -> io::Result<u8>
    ensures { IfOk result (λ status. IsTold (W.contents out.old) (W.contents out.new) status (spec.of_verdict verdict)) }
{
    match verdict {
        Verdict::Conforms(steps) => {
            writeln!(out, "conforms {steps}")?;
            Ok(STATUS_YES)
        }
        Verdict::Broken(step, actor, rule) => broken(out, step, actor, code_of(rule).name()),
    }
}

/// The bytes of a record, if the file can be read and is not too long.
pub(crate) fn record_in<'a>(file: Option<File<'a>>) -> Option<&'a [u8]>
    ensures some { IfSome result (λ bytes. HasRecord file.entry bytes.now) }
    ensures none { IfNone result ((bytes : List ℕ) → ¬ HasRecord file.entry bytes) }
{
    let bytes = bytes_of(file)?;
    if bytes.len() <= RECORD_LIMIT {
        Some(bytes)
    } else {
        None
    }
}

/// Judges the record of a run of a program from the beginning of a trace.
fn conform_traced(
    alloc: Global,
    traced: &Traced,
    file: Option<File<'_>>,
    outputs: &mut Outputs,
) -> io::Result<u8>
    requires { IsTraceOf traced.now.program traced.now.trace }
    ensures { IfOk result (Says (OfRecord file.entry traced.now.program traced.now.trace) outputs.old outputs.new) }
{
    let Some(record) = record_in(file) else {
        return unread(&mut outputs.err, Unread::NoFile(path_of(file)));
    };
    match judge(alloc, &traced.program, &traced.trace.setup, record) {
        Ok(verdict) => judged(&mut outputs.out, verdict),
        Err(fault) => no_threads(&mut outputs.err, fault),
    }
}

/// Judges a record by the module, which has the shapes where it writes `ptr`, and by the pools and the threads of the trace. After the
/// faults of these files counts that the record cannot be read or has more than 2^30 bytes, and then the first thread that does not begin.
pub fn conform_files(alloc: Global, files: &Files<'_>, outputs: &mut Outputs) -> io::Result<u8>
    ensures { IfOk result (Says (OfRun (OfRecord files.now.of_record) files.now.of_module files.now.trace files.now.shapes) outputs.old outputs.new) }
{
    match read_traced(alloc, files) {
        Ok(traced) => {
            let status = conform_traced(alloc, &traced, files.of_record, outputs);
            drop(traced);
            status
        }
        Err(fault) => unread(&mut outputs.err, fault),
    }
}
