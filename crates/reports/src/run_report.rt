//! How a run on real threads is printed, which goes to the standard output.
ghost use Rattle.std.specs.Prelude.{IfOk, OnOk};
ghost use Rattle.std.specs.Io.KnownBytes.{Appends};
ghost use Rattle.std.specs.List.{enumerate_from, flat_map};
ghost use Rattle.reports.specs.Report.{IsTold};
ghost use Rattle.reports.specs.RunReport as spec;

use crate::outcomes::write_given_back;
use crate::status::STATUS_YES;
use mutators::{RunReport, ThreadEnd};
use std::io;
use std::io::Write;

/// How a thread came to its end.
fn write_thread_end<W: Write>(out: &mut W, end: &ThreadEnd) -> io::Result<()>
    ensures { OnOk result (Appends (W.contents out.old) (W.contents out.new) (spec.end_text end.now)) }
{
    match *end {
        ThreadEnd::Returned(value) => write_given_back(out, value),
        ThreadEnd::Ended => write!(out, " ended"),
        ThreadEnd::Stopped => write!(out, " stopped"),
        ThreadEnd::Memory => write!(out, " memory"),
        ThreadEnd::Absent => write!(out, " absent"),
    }
}

/// The line of a thread: `t 0 returned 7`, `t 0 ended`, `t 0 stopped`, `t 0 memory`, `t 0 absent`.
fn write_thread<W: Write>(out: &mut W, thread: usize, end: &ThreadEnd) -> io::Result<()>
    ensures { OnOk result (Appends (W.contents out.old) (W.contents out.new) (spec.thread_text (thread, end.now))) }
{
    write!(out, "t {thread}")?;
    write_thread_end(out, end)?;
    writeln!(out, "")
}

/// A line for each thread.
fn write_threads<W: Write>(out: &mut W, threads: &[ThreadEnd]) -> io::Result<()>
    ensures { OnOk result (Appends (W.contents out.old) (W.contents out.new) (flat_map spec.thread_text (enumerate_from 0 threads.now))) }
{
    for (thread, end) in threads.iter().enumerate() {
        write_thread(out, thread, end)?;
    }
    Ok(())
}

/// What the collector did: `collector turns 16 cycles 1`.
fn write_collector<W: Write>(out: &mut W, report: &RunReport) -> io::Result<()>
    ensures { OnOk result (Appends (W.contents out.old) (W.contents out.new) (spec.collector_text report.now)) }
{
    let RunReport { turns, cycles, .. } = *report;
    writeln!(out, "collector turns {turns} cycles {cycles}")
}

/// A run: a line for each thread, and one for the collector.
pub fn ran<W: Write>(out: &mut W, report: &RunReport) -> io::Result<u8>
    ensures { IfOk result (λ status. IsTold (W.contents out.old) (W.contents out.new) status (spec.of_report report.now)) }
{
    write_threads(out, report.threads.as_slice())?;
    write_collector(out, report)?;
    Ok(STATUS_YES)
}
