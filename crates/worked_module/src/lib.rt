//! Law of worked modules: there is a program with opaque pointers, and one that calls a function outside, with certificates, a heap and
//! threads, of which all holds that the safety theorem asks for. So the theorem says something of such programs.
#![tactic(auto)]

ghost use Rattle.worked_module.specs.Worked.{OpaqueIsWorked, ForeignIsWorked};

/// There is a program whose text writes `ptr`, certified, with a heap of it and a thread that begins at its function. The function loads a
/// reference by `ptr` from a global. There is another one that writes a number into a global, as it got it from a function outside.
pub fn worked_module_law()
    ensures opaque { OpaqueIsWorked }
    ensures foreign { ForeignIsWorked }
{}
