//! What is printed is read again.
ghost use Rattle.ir_print_law.specs.CoreForms.{AreCoreNamesRead, AreCoreRead, AreCoreTypesRead, AreCoreWordsRead, FormsStay};
ghost use Rattle.ir_print_law.specs.Ends.{JumpsAreRead, EmptyReturnsAreRead, UnreachablesAreRead};
ghost use Rattle.ir_print_law.specs.Stars.{StarsAreRead};
ghost use Rattle.ir_print_law.specs.Readings.{ConstantsAreRead, LocalsAreRead, LocalOperandsAreRead, GlobalOperandsAreRead, CalleesAreRead, StructNamesAreRead, TargetsAreRead, NewValuesAreRead, NumberedValuesAreRead, LabelsAreRead, CollectorsAreRead, IntegerTypesAreRead};

/// Printed ends of blocks that write no type are read as themselves.
pub fn end_law()
    ensures jumps { JumpsAreRead }
    ensures empty_returns { EmptyReturnsAreRead }
    ensures unreachables { UnreachablesAreRead }
{}

/// A printed constant that fits its type is read as itself.
pub fn constant_law()
    ensures { ConstantsAreRead }
{}

/// A printed integer type is read as itself.
pub fn integer_type_law()
    ensures { IntegerTypesAreRead }
{}

/// Printed names are read as those names, by their numbers in the tables that are there.
pub fn name_law()
    ensures locals { LocalsAreRead }
    ensures local_operands { LocalOperandsAreRead }
    ensures global_operands { GlobalOperandsAreRead }
    ensures callees { CalleesAreRead }
    ensures structs { StructNamesAreRead }
    ensures targets { TargetsAreRead }
    ensures new_values { NewValuesAreRead }
    ensures numbered_values { NumberedValuesAreRead }
    ensures labels { LabelsAreRead }
    ensures collectors { CollectorsAreRead }
{}

/// Printed stars are read as the pointer types that they make of a type.
pub fn star_law()
    ensures { StarsAreRead }
{}

/// Where the wide forms may not stand, an operation on integers is read as if there were none: the same one, or the same fault. The same names
/// of intrinsics are left out. And nothing that is read changes whether the wide forms may stand.
pub fn core_law()
    ensures core { AreCoreRead }
    ensures words { AreCoreWordsRead }
    ensures types { AreCoreTypesRead }
    ensures names { AreCoreNamesRead }
    ensures stay { FormsStay }
{}
