//! Why the files of a command are not read, as it is printed on the standard error.
ghost use Rattle.std.specs.Prelude.{IfOk};
ghost use Rattle.reports.specs.Files.{of_unread};
ghost use Rattle.reports.specs.Report.{IsTold};

use crate::faults::{no_certificate, no_edits, no_file, no_layouts, no_module, no_trace};
use crate::files::Unread;
use std::io;
use std::io::Write;

/// Prints why files are not read.
fn print_unread<W: Write>(err: &mut W, unread: &Unread<'_>) -> io::Result<u8>
    ensures { IfOk result (λ status. IsTold (W.contents err.old) (W.contents err.new) status (of_unread unread.now)) }
{
    match unread {
        Unread::NoFile(path) => no_file(err, path),
        Unread::NoModule(fault) => no_module(err, fault),
        Unread::NoLayouts(refused) => no_layouts(err, &refused.of_module, refused.fault),
        Unread::NoCertificate(of_module, fault) => no_certificate(err, of_module, *fault),
        Unread::NoEdits(fault) => no_edits(err, *fault),
        Unread::NoTrace(fault) => no_trace(err, *fault),
    }
}

/// Files that are not read.
pub fn unread<W: Write>(err: &mut W, unread: Unread<'_>) -> io::Result<u8>
    ensures { IfOk result (λ status. IsTold (W.contents err.old) (W.contents err.new) status (of_unread unread.entry)) }
{
    let status = print_unread(err, &unread);
    drop(unread);
    status
}
