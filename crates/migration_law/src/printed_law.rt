//! An opaque text can be printed where the module's could.
ghost use Rattle.migration_law.specs.OpaquePrintable.{AreOpaqueAgain, AreOpaquePrintable};

use ir_print_law::print_law;

/// The module with `ptr` for each pointer is printable where the module is, and what is printed of it is read as it again, if it is within the
/// limit. The parts of each type of the module's table come before it.
pub fn opaque_printed_law()
    ensures printable { AreOpaquePrintable }
    ensures again { AreOpaqueAgain }
{
    print_law();
}
