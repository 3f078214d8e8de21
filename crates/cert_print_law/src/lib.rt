//! Laws of printed certificates and traces: what is printed of the certificates of a module that is read is a text of them,
//! and its program meets what printed traces ask of names, if the module's names are short when they are printed.
#![tactic(auto)]

ghost use Rattle.cert_print_law.specs.Printed.{AreNamed, AreReadAgain, AreReadAlike, AreRootsNamed};
ghost use Rattle.cert_print_law.specs.PrintedTraces.{AreProgramsNamed, AreReadProgramsNamed};

use certificate::cert_law;
use ir_print_law::{named_law, within_law};

/// In a module that is read from bytes, and whose names are short when they are printed, each name is found as what it
/// names. So what is printed of certificates that are read for it is a text of these certificates.
pub fn printed_again_law()
    ensures named { AreNamed }
    ensures again { AreReadAgain }
{
    cert_law();
    named_law();
}

/// What is printed of certificates that are read for a module that is read from bytes, and whose names are short when they are printed, is a
/// text of certificates with the same sections and functions outside, and with shapes that say the same of the module, whether its text writes
/// `ptr` or not. Each root slot's name is that of a value where the module's numbers are within its tables, as they are after edits too.
pub fn printed_alike_law()
    ensures roots { AreRootsNamed }
    ensures alike { AreReadAlike }
{
    cert_law();
    named_law();
    within_law();
}

/// In a module whose names mean its items, and are short when they are printed, each function and each layout is the one that
/// has its name. So it is in each module that is read from bytes. By the contract of `print_trace`, what is printed of a trace of
/// such a program is then a text of that trace.
pub fn printed_traces_law()
    ensures named { AreProgramsNamed }
    ensures read { AreReadProgramsNamed }
{
    named_law();
}
