//! Commands on a long text, which is made here, and on outputs that take nothing.
use crate::accepted::{CHECK, checked_texts};
use crate::done::{printed_of, status_with};
use crate::output::FullOutput;
use crate::printed::Printed;
use crate::row_failure::RowFailure;
use commands::{Contents, Results, status_of};
use std::alloc::AllocError;
use std::io::Write;
use std::rt::Runtime;
use std::thread::Threads;

/// What `check` prints of a module of spaces, one more than a module may have bytes. There is no certificate.
fn long_text(rt: &(impl Runtime + AllocGlobal + Threads + Sync)) -> Result<Printed, AllocError> {
    let text = vec![in rt.alloc(); b' '; 16_777_217]?;
    let contents = checked_texts(Some(text), None);
    let printed = printed_of(rt, &CHECK, &contents);
    drop(contents);
    Ok(printed)
}

/// The status of `check` of these files where no output takes anything.
fn status_without_outputs(
    rt: &(impl Runtime + AllocGlobal + Threads + Sync),
    contents: &Contents,
) -> u8 {
    let mut results = Results::new(rt.alloc());
    let status = status_with(rt, &CHECK, contents, &mut results);
    let (mut out, mut err) = (FullOutput, FullOutput);
    let written = results.outputs.write(&mut out, &mut err);
    drop(results);
    status_of(written.map(|()| status))
}

/// The status where no file can be read, and no output takes anything.
fn status_of_no_file(rt: &(impl Runtime + AllocGlobal + Threads + Sync)) -> u8 {
    let contents = checked_texts(None, None);
    let status = status_without_outputs(rt, &contents);
    drop(contents);
    status
}

/// The status where the module is accepted, and no output takes anything.
fn status_of_yes(rt: &(impl Runtime + AllocGlobal + Threads + Sync)) -> Result<u8, AllocError> {
    let alloc = rt.alloc();
    let certificate = Vec::from_slice(alloc, b"cert 1")?;
    let contents = checked_texts(Some(Vec::new(alloc)), Some(certificate));
    let status = status_without_outputs(rt, &contents);
    drop(contents);
    Ok(status)
}

/// Writes a line for each of these cases.
pub fn write_outputs(
    rt: &(impl Runtime + AllocGlobal + Threads + Sync),
    lines: &mut Vec<u8>,
) -> Result<(), RowFailure> {
    let printed = long_text(rt)?;
    let written = printed.write(lines, "refuses_a_long_text");
    drop(printed);
    written?;
    let without_error = status_of_no_file(rt);
    let without_output = status_of_yes(rt)?;
    writeln!(
        lines,
        "ends_with_a_failed_write: {without_error} {without_output}"
    )?;
    Ok(())
}
