//! What is read is printable, and its names are its own.
ghost use Rattle.ir_print_law.specs.ReadModules.{ArePrintable, AreNamed};

/// A module that is read from a text of bytes is printable.
pub fn printable_law()
    ensures { ArePrintable }
{}

/// The names of a module that is read from a text of bytes mean its items.
pub fn named_law()
    ensures { AreNamed }
{}
