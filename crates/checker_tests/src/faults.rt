//! Faults as plain values.
use certificate::CertFault;
use ir_text::ReadFault;
use ir_tokens::Position;

/// The code of a fault, and the line and the column of its place.
pub(crate) type Told = (&'static str, usize, usize);

/// A code at a place.
fn told_at(code: &'static str, place: Position) -> Told {
    (code, place.line, place.column)
}

/// A fault in the text of a module.
pub(crate) fn told_of_module(fault: &ReadFault) -> Told {
    match fault {
        ReadFault::BadByte(place) => told_at("L1", *place),
        ReadFault::Unfinished(place) => told_at("L2", *place),
        ReadFault::Unexpected(place) => told_at("L3", *place),
        ReadFault::DefinedTwice(place) => told_at("L4", *place),
        ReadFault::NotDefined(place) => told_at("L5", *place),
        ReadFault::OutOfRange(place) => told_at("L6", *place),
        ReadFault::LeftOut { place, .. } => told_at("L7", *place),
        ReadFault::Limit(place) => told_at("L8", *place),
        ReadFault::WrongNumber(place) => told_at("L9", *place),
        ReadFault::OtherPointer(place) => told_at("L10", *place),
        ReadFault::Memory => ("memory", 0, 0),
    }
}

/// A fault in the text of certificates. What has no section is named by the numbers of its function and of its block, and what has no shape by its own.
pub(crate) fn told_of_certificate(fault: CertFault) -> Told {
    match fault {
        CertFault::Syntax(place) => told_at("C1", place),
        CertFault::Version(place) => told_at("C2", place),
        CertFault::UnknownName(place) => told_at("C3", place),
        CertFault::ListedTwice(place) => told_at("C4", place),
        CertFault::Missing(function) => ("C5", function, 0),
        CertFault::MissingBlock(function, block) => ("C5", function, block),
        CertFault::MissingWord(layout, word) => ("C6", layout, word),
        CertFault::MissingGlobal(symbol) => ("C6", symbol, 0),
        CertFault::MissingRoot(function, slot) => ("C6", function, slot),
        CertFault::Memory => ("memory", 0, 0),
    }
}
