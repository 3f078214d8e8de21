//! The lines of all cases.
use crate::command_cases::write_outputs;
use crate::meetings::write_meetings;
use crate::row_failure::RowFailure;
use crate::stops::write_stops;
use std::rt::Runtime;
use std::thread::Threads;

/// Writes what comes of each case.
pub fn write_cases(
    rt: &(impl Runtime + AllocGlobal + Threads + Sync),
    lines: &mut Vec<u8>,
) -> Result<(), RowFailure> {
    write_outputs(rt, lines)?;
    write_stops(rt, lines)?;
    write_meetings(rt, rt.alloc(), lines)?;
    Ok(())
}
