//! All rows.
use crate::row::compare_row;
use crate::row_failure::RowFailure;
use std::fs;
use std::io::Write;
use std::rt::Runtime;
use std::thread::Threads;

/// The numbers of rows that are as wanted, and of those that are not.
#[derive(Clone, Copy)]
pub struct Tally {
    pub alike: u32,
    pub different: u32,
}

/// Compares what the command of a row prints, and writes what differs. A row whose own files cannot be read is not as wanted.
fn try_row(
    rt: &(impl Runtime + AllocGlobal + Threads + Sync),
    name: &str,
    lines: &mut Vec<u8>,
) -> Result<(), RowFailure> {
    match compare_row(rt, name, lines) {
        Err(RowFailure::Outside) => {
            writeln!(
                lines,
                "{name}: wanted the files args, status, stdout and stderr"
            )?;
            Ok(())
        }
        answer => answer,
    }
}

/// Runs the rows with these names, one a line. Returns how many are as wanted, and writes what differs.
fn run_all(
    rt: &(impl Runtime + AllocGlobal + Threads + Sync),
    names: &str,
    lines: &mut Vec<u8>,
) -> Result<Tally, RowFailure> {
    let mut tally = Tally {
        alike: 0,
        different: 0,
    };
    for name in names.lines() {
        let before = lines.len();
        try_row(rt, name, lines)?;
        if lines.len() == before {
            tally.alike = tally.alike.saturating_add(1);
        } else {
            tally.different = tally.different.saturating_add(1);
        }
    }
    Ok(tally)
}

/// Runs the rows that the file at this path names, one a line. Returns how many are as wanted, and writes what differs.
pub fn run_rows(
    rt: &(impl Runtime + AllocGlobal + Threads + Sync),
    path: &str,
    lines: &mut Vec<u8>,
) -> Result<Tally, RowFailure> {
    let names = fs::read_to_string(rt, path)?;
    let tally = run_all(rt, names.as_str(), lines);
    drop(names);
    tally
}
