//! The code of each fault. Where memory was refused there is none.
ghost use Rattle.std.specs.Prelude.{◌≡◌};
ghost use Rattle.fault_codes.specs.FaultCodes as spec;

use certificate::CertFault;
use explain::Code;
use ir_text::ReadFault;
use layout::LayoutFault;
use recheck::EditFault;
use trace_text::TraceFault;

/// The code of a fault in the text of a module.
pub fn read_code(fault: &ReadFault) -> Option<Code>
    ensures { result ≡ spec.read_code fault.now }
{
    match fault {
        ReadFault::BadByte(_) => Some(Code::L1),
        ReadFault::Unfinished(_) => Some(Code::L2),
        ReadFault::Unexpected(_) => Some(Code::L3),
        ReadFault::DefinedTwice(_) => Some(Code::L4),
        ReadFault::NotDefined(_) => Some(Code::L5),
        ReadFault::OutOfRange(_) => Some(Code::L6),
        ReadFault::LeftOut { .. } => Some(Code::L7),
        ReadFault::Limit(_) => Some(Code::L8),
        ReadFault::WrongNumber(_) => Some(Code::L9),
        ReadFault::OtherPointer(_) => Some(Code::L10),
        ReadFault::Memory => None,
    }
}

/// The code of a fault in the text of certificates, of shapes or of edits.
pub fn cert_code(fault: &CertFault) -> Option<Code>
    ensures { result ≡ spec.cert_code fault.now }
{
    match fault {
        CertFault::Syntax(_) => Some(Code::C1),
        CertFault::Version(_) => Some(Code::C2),
        CertFault::UnknownName(_) => Some(Code::C3),
        CertFault::ListedTwice(_) => Some(Code::C4),
        CertFault::Missing(_) => Some(Code::C5),
        CertFault::MissingBlock(_, _) => Some(Code::C5),
        CertFault::MissingWord(_, _) => Some(Code::C6),
        CertFault::MissingGlobal(_) => Some(Code::C6),
        CertFault::MissingRoot(_, _) => Some(Code::C6),
        CertFault::Memory => None,
    }
}

/// The code of a module without layouts.
pub fn layout_code(fault: &LayoutFault) -> Option<Code>
    ensures { result ≡ spec.layout_code fault.now }
{
    match fault {
        LayoutFault::HoldsItself(_) => Some(Code::Y1),
        LayoutFault::TooManyWords(_) => Some(Code::Y2),
        LayoutFault::NoSuchLayout(_) => Some(Code::Y3),
        LayoutFault::ShapesWanted => Some(Code::Y5),
        LayoutFault::Memory => None,
    }
}

/// The code of a fault in the text of a trace.
pub fn trace_code(fault: &TraceFault) -> Option<Code>
    ensures { result ≡ spec.trace_code fault.now }
{
    match fault {
        TraceFault::Syntax(_) => Some(Code::P1),
        TraceFault::NoThread(_) => Some(Code::P2),
        TraceFault::TooManySteps(_) => Some(Code::P3),
        TraceFault::TooManyCells => Some(Code::Y4),
        TraceFault::Memory => None,
    }
}

/// The code for which an edit is refused.
pub fn edit_code(fault: &EditFault) -> Option<Code>
    ensures { result ≡ spec.edit_code fault.now }
{
    match fault {
        EditFault::NoFunction => Some(Code::L5),
        EditFault::NoSection => Some(Code::C3),
        EditFault::ShapesWanted => Some(Code::C2),
        EditFault::Code(fault) => read_code(fault),
        EditFault::Cert(fault) => cert_code(fault),
        EditFault::Memory => None,
    }
}
