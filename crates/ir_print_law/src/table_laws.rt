//! The tables of a module that is read.
ghost use Rattle.ir_print_law.specs.OneTypes.{HaveOneTypes, ReplacingKeepsOneTypes};
ghost use Rattle.ir_print_law.specs.Within.{AreWithin, AreReplacedWithin};

/// Each type is once in the table of a module that is read from a text, and still where one function of it is replaced. So two
/// types are one exactly where they are written alike.
pub fn one_type_law()
    ensures read { HaveOneTypes }
    ensures replaced { ReplacingKeepsOneTypes }
{}

/// What items and instructions of a module that is read from a text name by number is there, and still where one function of it is replaced.
pub fn within_law()
    ensures read { AreWithin }
    ensures replaced { AreReplacedWithin }
{}
