//! The command `check`.
ghost use Rattle.std.specs.Prelude.{◌≤◌, IfOk};
ghost use Rattle.command_line.specs.declared.options.Refusals.TheVariants.{First, OfBlocks};
ghost use Rattle.reports.specs.Said.{OfAccepted, OfCertified, Says};
ghost use Rattle.check_commands.specs.Checks.{OfCerts};

use crate::refusing::print_rejected;
use command_line::{CheckOptions, Refusals};
use module_check::{Accepted, UnderCheck};
use parallel_check::{check_all, check_seen};
use reports::{
    Certified, Files, Findings, Outputs, not_laid_out, read_certified, report_accepted,
    report_verdict, show_accepted, show_layouts, unread,
};
use std::alloc::Global;
use std::io;
use std::thread::Threads;

/// How all refusals are found and told.
#[derive(Clone, Copy)]
struct AllBlocks {
    workers: u32,
    /// How many are told at most.
    limit: u32,
}

/// Prints that a module is accepted.
fn print_accepted(alloc: Global, accepted: Accepted, outputs: &mut Outputs) -> io::Result<u8>
    ensures { IfOk result (Says (OfAccepted accepted.program.of_module) outputs.old outputs.new) }
{
    let status = report_accepted(alloc, accepted.program().module(), outputs);
    drop(accepted);
    status
}

/// Checks a module and its certificates up to the first refusal.
fn check_first(
    rt: &(impl Threads + Sync),
    alloc: Global,
    certified: Certified,
    workers: u32,
    outputs: &mut Outputs,
    seen: &mut impl Findings,
) -> io::Result<u8>
    requires some { 1 ≤ workers }
    requires few { workers ≤ 64 }
    ensures { IfOk result (Says (OfCerts First certified.of_module certified.certs) outputs.old outputs.new) }
{
    let Certified { of_module, certs } = certified;
    match check_seen(rt, alloc, workers, of_module, certs, seen) {
        Ok(accepted) => {
            show_accepted(seen, &accepted);
            print_accepted(alloc, accepted, outputs)
        }
        Err(answer) => {
            show_layouts(seen, answer.verdict);
            let status = report_verdict(alloc, &answer, outputs);
            drop(answer);
            status
        }
    }
}

/// Checks all blocks of a module with its certificates.
fn check_blocks(
    rt: &(impl Threads + Sync),
    alloc: Global,
    certified: Certified,
    blocks: AllBlocks,
    outputs: &mut Outputs,
    seen: &mut impl Findings,
) -> io::Result<u8>
    requires { 1 ≤ blocks.workers }
    ensures { IfOk result (Says (OfCerts (OfBlocks blocks.limit) certified.of_module certified.certs) outputs.old outputs.new) }
{
    let Certified { of_module, certs } = certified;
    let under = match UnderCheck::new(alloc, of_module, certs) {
        Ok(under) => under,
        Err(answer) => {
            show_layouts(seen, answer.verdict);
            let status = not_laid_out(&mut outputs.err, &answer);
            drop(answer);
            return status;
        }
    };
    match check_all(rt, alloc, blocks.workers, under) {
        Ok(accepted) => {
            show_accepted(seen, &accepted);
            print_accepted(alloc, accepted, outputs)
        }
        Err(rejected) => print_rejected(alloc, rejected, blocks.limit, outputs, seen),
    }
}

/// Checks a module and its certificates.
fn check_certified(
    rt: &(impl Threads + Sync),
    alloc: Global,
    certified: Certified,
    options: CheckOptions,
    outputs: &mut Outputs,
    seen: &mut impl Findings,
) -> io::Result<u8>
    requires some { 1 ≤ options.workers }
    requires few { options.workers ≤ 64 }
    ensures { IfOk result (Says (OfCerts options.refusals certified.of_module certified.certs) outputs.old outputs.new) }
{
    let workers = options.workers;
    match options.refusals {
        Refusals::First => check_first(rt, alloc, certified, workers, outputs, seen),
        Refusals::OfBlocks(limit) => {
            let blocks = AllBlocks { workers, limit };
            check_blocks(rt, alloc, certified, blocks, outputs, seen)
        }
    }
}

/// Checks the module and the certificate, by so many workers as the options say. The first fault counts: of each of the two files, its
/// path and then its text, then of the layouts, then of the check. It is seen, and so is each refusal that is told, and a module
/// that is accepted.
pub fn check_files(
    rt: &(impl Threads + Sync),
    alloc: Global,
    options: CheckOptions,
    files: &Files<'_>,
    outputs: &mut Outputs,
    seen: &mut impl Findings,
) -> io::Result<u8>
    requires some { 1 ≤ options.workers }
    requires few { options.workers ≤ 64 }
    ensures { IfOk result (Says (OfCertified (OfCerts options.refusals) files.now.of_module files.now.certificate) outputs.old outputs.new) }
{
    match read_certified(alloc, files) {
        Ok(certified) => check_certified(rt, alloc, certified, options, outputs, seen),
        Err(fault) => {
            seen.not_read(&fault);
            unread(&mut outputs.err, fault)
        }
    }
}
