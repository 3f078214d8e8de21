//! `dgc_tests`, the program: runs commands of `dgc` on files and compares what they print with what is wanted. Also cases that are made
//! in code: a text that is too long, outputs that take nothing, replays of traces in which an actor stops for good, and workers and
//! threads that meet. A line is written of each case.
//!
//! Each check is run by one worker and by three. Of each module that is accepted a certificate is made, with which it is accepted too.
//! It is also migrated with its own certificate, and checked again.
//!
//! `rows.txt` names the rows, one a line. The folder `rows/NAME` of a row has these files:
//! - `args`: the command line after `dgc`, one word a line.
//! - `status`, `stdout`, `stderr`: the wanted exit status and the wanted bytes of both outputs. Where wanted bytes end within a line,
//!   more may follow them.
//! - `saved`: the wanted bytes of the file that the command writes. Without it they do not matter.
//! - `saved_cert`: so of the certificate that it writes beside a module.
//! - `migrated`: a folder with such files for the check of the opaque text, where they are other ones.
//! - `stdin`: the bytes of the standard input, where `args` has a `-`. Without it there are none.
//! - The files that `args` names. A file that is not there cannot be read by the command either.
//!
//! Before the rows it writes the lines of the cases, each with its name and what comes of it. The file `stdout` has what must be
//! written.
#![tactic(auto)]

mod accepted;
mod cases;
mod command_cases;
mod contents;
mod done;
mod listing;
mod meeting;
mod meetings;
mod output;
mod printed;
mod row;
mod row_failure;
mod stops;
mod tally;
mod texts;

use crate::cases::write_cases;
use crate::row_failure::RowFailure;
use crate::tally::{Tally, run_rows};
use std::io::Write;
use std::process::ExitCode;
use std::rt::Runtime;
use std::thread::Threads;

/// The file with the names of the rows, one a line.
const ROWS: &str = "rows.txt";

/// Writes what comes of the cases that are made in code. Then runs all rows and writes how many are as wanted. Returns whether all are.
fn run(
    rt: &(impl Runtime + AllocGlobal + Threads + Sync),
    lines: &mut Vec<u8>,
) -> Result<bool, RowFailure> {
    write_cases(rt, lines)?;
    let Tally { alike, different } = run_rows(rt, ROWS, lines)?;
    writeln!(lines, "{alike} rows as wanted, {different} not")?;
    Ok(different == 0)
}

/// Why not all rows were run.
fn text_of(failure: RowFailure) -> &'static str {
    match failure {
        RowFailure::Memory => "error memory\n",
        RowFailure::Outside => "error file rows.txt\n",
    }
}

fn main(rt: HostRuntime) -> ExitCode {
    let mut lines = Vec::new(rt.alloc());
    let outcome = run(&rt, &mut lines);
    let written = rt.stdout().write_all(lines.as_slice());
    drop(lines);
    if let Err(failure) = outcome {
        let _ = rt.stderr().write_all(text_of(failure).as_bytes());
    }
    match (outcome, written) {
        (Ok(true), Ok(())) => ExitCode::SUCCESS,
        _ => ExitCode::FAILURE,
    }
}
