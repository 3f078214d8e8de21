//! The command `explain`.
ghost use Rattle.std.specs.Prelude.{◌≡◌, IfOk, option_map};
ghost use Rattle.check_commands.specs.Explained.{explained, no_code, OfExplain};
ghost use Rattle.reports.specs.Report.{IsTold};
ghost use Rattle.reports.specs.Said.{Says};

use command_line::ExplainOptions;
use explain::{Code, LIST};
use reports::{Outputs, STATUS_USAGE, STATUS_YES};
use std::io;
use std::io::Write;

/// Prints the page of a code, or the list of all codes.
fn print_told<O: Write>(out: &mut O, text: &str) -> io::Result<u8>
    ensures { IfOk result (λ status. IsTold (O.contents out.old) (O.contents out.new) status (explained text.now)) }
{
    write!(out, "{text}")?;
    Ok(STATUS_YES)
}

/// No code is named so, which is a fault of the command line.
fn print_no_code<E: Write>(err: &mut E, name: &str) -> io::Result<u8>
    ensures { IfOk result (λ status. IsTold (E.contents err.old) (E.contents err.new) status (no_code name.now)) }
{
    writeln!(err, "error: `dgc explain` lists no code {name}")?;
    Ok(STATUS_USAGE)
}

/// Tells of a code; without one, lists all codes.
pub fn explain_code(options: ExplainOptions<'_>, outputs: &mut Outputs) -> io::Result<u8>
    ensures { IfOk result (Says (OfExplain (option_map (λ name. name.now) options.entry.code)) outputs.old outputs.new) }
{
    let Some(name) = options.code else {
        return print_told(&mut outputs.out, LIST);
    };
    match Code::named(name) {
        Some(code) => print_told(&mut outputs.out, code.text()),
        None => print_no_code(&mut outputs.err, name),
    }
}
