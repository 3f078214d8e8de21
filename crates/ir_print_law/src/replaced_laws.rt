//! A module in which one function is replaced is a module.
ghost use Rattle.ir_print_law.specs.Growing.{AreReplacedAlone, ReplacingKeepsTables};
ghost use Rattle.ir_print_law.specs.Wholes.{AreReadWhole, AreReplacedWhole, AreWholeAgain};

/// A module that is read from a text is whole, and what is printed of a whole module is read as that module again, if that text
/// is within the limit.
pub fn whole_law()
    ensures read { AreReadWhole }
    ensures again { AreWholeAgain }
{}

/// A whole module in which one function is replaced is whole. It has more types and that function, and is else as it was: no name is new.
pub fn replaced_law()
    ensures whole { AreReplacedWhole }
    ensures alone { AreReplacedAlone }
{}

/// Where one function of any module is replaced, each type stays at its place, and each name of a struct means what it meant.
pub fn grown_law()
    ensures { ReplacingKeepsTables }
{}
