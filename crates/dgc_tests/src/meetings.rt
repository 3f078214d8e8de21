//! Workers that check at the same time, and then threads that run at the same time as the collector.
use crate::meeting::Meeting;
use crate::texts::{PUBLISHER_AND_CLEARER, module_of};
use certificate::read_cert;
use ir_text::read;
use module_check::Accepted;
use mutators::{Limits, RunReport, ThreadEnd, run};
use parallel_check::check_with;
use std::alloc::Global;
use std::io;
use std::io::Write;
use std::thread::Threads;
use trace_text::read_trace;

const CERTIFICATES: &[u8] = b"cert 1\nfunction @zero may\nend\nfunction @one may\nend\n";

const TRACE: &[u8] = b"trace 1\npool Node 1\nstart @zero\nstart @one\nsteps\nend\n";

/// A million steps of each thread, and as many of the collector.
const A_MILLION: Limits = Limits {
    turns: 1_000_000,
    steps: 1_000_000,
};

/// The module of this text, if two workers that pass this gate accept it.
fn accepted_in(
    rt: &(impl Threads + Sync),
    alloc: Global,
    gate: &Meeting,
    text: &[u8],
) -> Option<Accepted> {
    let of_module = read(alloc, text).ok()?;
    let Ok(certs) = read_cert(alloc, CERTIFICATES, &of_module) else {
        drop(of_module);
        return None;
    };
    check_with(rt, alloc, 2, gate, of_module, certs).ok()
}

/// The module with two functions, if two workers that pass this gate accept it.
fn accepted(rt: &(impl Threads + Sync), alloc: Global, gate: &Meeting) -> Option<Accepted> {
    let text = module_of(alloc, PUBLISHER_AND_CLEARER).ok()?;
    let accepted = accepted_in(rt, alloc, gate, text.as_slice());
    drop(text);
    accepted
}

/// Whether two threads returned.
fn are_returned(report: &RunReport) -> bool {
    matches!(
        report.threads.as_slice(),
        [ThreadEnd::Returned(None), ThreadEnd::Returned(None)]
    )
}

/// Whether both threads return that pass this gate, and the collector beside them.
fn are_run(rt: &(impl Threads + Sync), alloc: Global, gate: &Meeting, accepted: &Accepted) -> bool {
    let Ok(trace) = read_trace(alloc, TRACE, accepted.program()) else {
        return false;
    };
    let report = run(rt, alloc, accepted, &trace.setup, A_MILLION, gate);
    drop(trace);
    match report {
        Ok(report) => {
            let are_returned = are_returned(&report);
            drop(report);
            are_returned
        }
        Err(_) => false,
    }
}

/// Whether two workers that pass the first gate accept two functions, and whether their threads return that pass the second one.
fn checked_and_run(
    rt: &(impl Threads + Sync),
    alloc: Global,
    of_workers: &Meeting,
    of_threads: &Meeting,
) -> (bool, bool) {
    match accepted(rt, alloc, of_workers) {
        Some(accepted) => {
            let are_run = are_run(rt, alloc, of_threads, &accepted);
            drop(accepted);
            (true, are_run)
        }
        None => (false, false),
    }
}

/// Writes whether the workers accept the module and all have met, and whether the threads return, and have met with the collector.
pub fn write_meetings(
    rt: &(impl Threads + Sync),
    alloc: Global,
    lines: &mut Vec<u8>,
) -> io::Result<()> {
    let (of_workers, of_threads) = (Meeting::of(2), Meeting::of(3));
    let (are_accepted, are_run) = checked_and_run(rt, alloc, &of_workers, &of_threads);
    writeln!(
        lines,
        "two_workers_check_at_the_same_time: {are_accepted} {}",
        of_workers.is_over()
    )?;
    writeln!(
        lines,
        "threads_and_the_collector_run_at_the_same_time: {are_run} {}",
        of_threads.is_over()
    )
}
