//! Law of edits: where the text of a function stands in a whole text that is read, it is read alone too.
ghost use Rattle.ir_print_law.specs.Standing.{AreCounted, AreReadAlone, AreReadAnew, StayCounted};

/// Where a text stands in a whole text as one function of a module, `ir_text::replace` reads it alone. Otherwise it is refused for the
/// tables of the module that is edited: they have no room for more, or they have pointers of another kind.
pub fn read_alone_law()
    ensures whole { AreReadAlone }
    ensures place { AreReadAnew }
{}

/// In each module that is read, each global name has its meaning beside it, and still where one function of it is replaced.
pub fn counted_law()
    ensures read { AreCounted }
    ensures replaced { StayCounted }
{}
