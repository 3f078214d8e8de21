//! Where in its text each fault is. A fault of the whole text has no place, and memory that was refused has none.
ghost use Rattle.std.specs.Prelude.{◌≡◌};
ghost use Rattle.fault_codes.specs.FaultPlaces as spec;

use certificate::CertFault;
use ir_text::ReadFault;
use ir_tokens::Position;
use trace_text::TraceFault;

/// The place of a fault in the text of a module.
pub fn read_place(fault: &ReadFault) -> Option<Position>
    ensures { result ≡ spec.read_place fault.now }
{
    match fault {
        ReadFault::BadByte(place) => Some(*place),
        ReadFault::Unfinished(place) => Some(*place),
        ReadFault::Unexpected(place) => Some(*place),
        ReadFault::DefinedTwice(place) => Some(*place),
        ReadFault::NotDefined(place) => Some(*place),
        ReadFault::OutOfRange(place) => Some(*place),
        ReadFault::LeftOut { place, .. } => Some(*place),
        ReadFault::Limit(place) => Some(*place),
        ReadFault::WrongNumber(place) => Some(*place),
        ReadFault::OtherPointer(place) => Some(*place),
        ReadFault::Memory => None,
    }
}

/// The place of a fault in the text of certificates, of shapes or of edits.
pub fn cert_place(fault: &CertFault) -> Option<Position>
    ensures { result ≡ spec.cert_place fault.now }
{
    match fault {
        CertFault::Syntax(place) => Some(*place),
        CertFault::Version(place) => Some(*place),
        CertFault::UnknownName(place) => Some(*place),
        CertFault::ListedTwice(place) => Some(*place),
        _ => None,
    }
}

/// The place of a fault in the text of a trace.
pub fn trace_place(fault: &TraceFault) -> Option<Position>
    ensures { result ≡ spec.trace_place fault.now }
{
    match fault {
        TraceFault::Syntax(place) => Some(*place),
        TraceFault::NoThread(place) => Some(*place),
        TraceFault::TooManySteps(place) => Some(*place),
        _ => None,
    }
}
