//! What is printed of a whole module is read again.
ghost use Rattle.ir_print_law.specs.Printed.{ArePrintedAgain, AreReadAgain};

/// The printed text of a printable module is read as that module again, if that text is within the limit.
pub fn print_law()
    ensures { ArePrintedAgain }
{}

/// What is read from a text of bytes is printed as a text that is read as that module again, if that text is within the limit.
pub fn printed_again_law()
    ensures { AreReadAgain }
{}
