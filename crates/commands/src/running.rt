//! The command `run`.
ghost use Rattle.std.specs.Prelude.{IfOk};
ghost use Rattle.reports.specs.Said.{OfCertified, Says};
ghost use Rattle.reports.specs.TraceRuns.{OfRunCerts, OfThreads, OfTraceFile};
ghost use Rattle.trace_text.specs.Traces.{IsTraceOf};

use command_line::RunOptions;
use gate::OpenGate;
use module_check::{Accepted, check};
use mutators::{Limits, run};
use reports::{
    Certified, Files, Outputs, no_threads, ran, read_certified, report_verdict, trace_in, unread,
};
use std::alloc::Global;
use std::io;
use std::thread::Threads;
use trace_text::Trace;

/// Runs the threads with which a trace of an accepted module begins.
fn run_threads(
    rt: &(impl Threads + Sync),
    alloc: Global,
    accepted: &Accepted,
    trace: &Trace,
    limits: Limits,
    outputs: &mut Outputs,
) -> io::Result<u8>
    requires { IsTraceOf accepted.now.program trace.now }
    ensures { IfOk result (Says (OfThreads limits accepted.now.program accepted.now.certs.sections trace.now) outputs.old outputs.new) }
{
    match run(rt, alloc, accepted, &trace.setup, limits, &OpenGate) {
        Ok(report) => ran(&mut outputs.out, &report),
        Err(fault) => no_threads(&mut outputs.err, fault),
    }
}

/// Runs an accepted module from the beginning of the trace.
fn run_accepted(
    rt: &(impl Threads + Sync),
    alloc: Global,
    accepted: &Accepted,
    limits: Limits,
    files: &Files<'_>,
    outputs: &mut Outputs,
) -> io::Result<u8>
    ensures { IfOk result (Says (OfTraceFile limits accepted.now.program accepted.now.certs.sections files.now.trace) outputs.old outputs.new) }
{
    match trace_in(alloc, files, accepted.program()) {
        Ok(trace) => {
            let status = run_threads(rt, alloc, accepted, &trace, limits, outputs);
            drop(trace);
            status
        }
        Err(fault) => unread(&mut outputs.err, fault),
    }
}

/// Checks a module against its certificates, and runs it if it is accepted.
fn run_certified(
    rt: &(impl Threads + Sync),
    alloc: Global,
    certified: Certified,
    limits: Limits,
    files: &Files<'_>,
    outputs: &mut Outputs,
) -> io::Result<u8>
    ensures { IfOk result (Says (OfRunCerts limits files.now.trace certified.of_module certified.certs) outputs.old outputs.new) }
{
    match check(alloc, certified.of_module, certified.certs) {
        Ok(accepted) => {
            let status = run_accepted(rt, alloc, &accepted, limits, files, outputs);
            drop(accepted);
            status
        }
        Err(answer) => {
            let status = report_verdict(alloc, &answer, outputs);
            drop(answer);
            status
        }
    }
}

/// Checks the module against the certificate, and runs it from the beginning of the trace. The first fault counts: of the module and the
/// certificate, each its path and then its text; then what the check says; then of the trace, its path and then its text; then of its
/// threads.
pub fn run_files(
    rt: &(impl Threads + Sync),
    alloc: Global,
    options: RunOptions,
    files: &Files<'_>,
    outputs: &mut Outputs,
) -> io::Result<u8>
    ensures { IfOk result (Says (OfCertified (OfRunCerts (record { turns = options.turns; steps = options.steps }) files.now.trace) files.now.of_module files.now.certificate) outputs.old outputs.new) }
{
    let limits = Limits {
        turns: options.turns,
        steps: options.steps,
    };
    match read_certified(alloc, files) {
        Ok(certified) => run_certified(rt, alloc, certified, limits, files, outputs),
        Err(fault) => unread(&mut outputs.err, fault),
    }
}
