//! The codes of faults, and where they are.
ghost use Rattle.std.specs.Prelude.{◌≡◌};
ghost use Rattle.check_commands.specs.Rechecks.{code_text};
ghost use Rattle.fault_codes.specs.FaultCodes.{cert_code, read_code};
ghost use Rattle.library_answers.specs.Told.{IsCode, IsNoInstruction};

use crate::place::Place;
use certificate::CertFault;
use ir_text::ReadFault;
use ir_tokens::Position;
use layout::LayoutFault;
use reports::Unread;

/// A code that names no place.
fn coded(letter: u8, number: u32) -> Place
    ensures instruction { IsNoInstruction result }
    ensures letter { result.letter ≡ letter }
    ensures number { result.number ≡ number }
{
    Place {
        letter: letter as u32,
        number,
        function: usize::MAX,
        block: usize::MAX,
        instruction: usize::MAX,
        line: 0,
        column: 0,
    }
}

/// A code at this place of a text.
fn coded_at(letter: u8, number: u32, at: Position) -> Place
    ensures instruction { IsNoInstruction result }
    ensures letter { result.letter ≡ letter }
    ensures number { result.number ≡ number }
    ensures line { result.line ≡ at.line }
    ensures column { result.column ≡ at.column }
{
    let Position { line, column } = at;
    Place {
        letter: letter as u32,
        number,
        function: usize::MAX,
        block: usize::MAX,
        instruction: usize::MAX,
        line,
        column,
    }
}

/// The code of a fault of a module's text, and where it is.
fn place_of_module(fault: &ReadFault) -> Place
    ensures code { IsCode (code_text (read_code fault.now)) result }
    ensures instruction { IsNoInstruction result }
{
    match fault {
        ReadFault::BadByte(at) => coded_at(b'L', 1, *at),
        ReadFault::Unfinished(at) => coded_at(b'L', 2, *at),
        ReadFault::Unexpected(at) => coded_at(b'L', 3, *at),
        ReadFault::DefinedTwice(at) => coded_at(b'L', 4, *at),
        ReadFault::NotDefined(at) => coded_at(b'L', 5, *at),
        ReadFault::OutOfRange(at) => coded_at(b'L', 6, *at),
        ReadFault::LeftOut { place, .. } => coded_at(b'L', 7, *place),
        ReadFault::Limit(at) => coded_at(b'L', 8, *at),
        ReadFault::WrongNumber(at) => coded_at(b'L', 9, *at),
        ReadFault::OtherPointer(at) => coded_at(b'L', 10, *at),
        ReadFault::Memory => coded(0, 0),
    }
}

/// The code of a fault of a certificate's text, and where it is.
fn place_of_certificate(fault: CertFault) -> Place
    ensures code { IsCode (code_text (cert_code fault)) result }
    ensures instruction { IsNoInstruction result }
{
    match fault {
        CertFault::Syntax(at) => coded_at(b'C', 1, at),
        CertFault::Version(at) => coded_at(b'C', 2, at),
        CertFault::UnknownName(at) => coded_at(b'C', 3, at),
        CertFault::ListedTwice(at) => coded_at(b'C', 4, at),
        CertFault::Missing(_) => coded(b'C', 5),
        CertFault::MissingBlock(_, _) => coded(b'C', 5),
        CertFault::MissingWord(_, _) => coded(b'C', 6),
        CertFault::MissingGlobal(_) => coded(b'C', 6),
        CertFault::MissingRoot(_, _) => coded(b'C', 6),
        CertFault::Memory => coded(0, 0),
    }
}

/// The code of a module that has no layouts.
pub(crate) fn place_of_layouts(fault: LayoutFault) -> Place
    ensures { IsNoInstruction result }
{
    match fault {
        LayoutFault::HoldsItself(_) => coded(b'Y', 1),
        LayoutFault::TooManyWords(_) => coded(b'Y', 2),
        LayoutFault::NoSuchLayout(_) => coded(b'Y', 3),
        LayoutFault::ShapesWanted => coded(b'Y', 5),
        LayoutFault::Memory => coded(0, 0),
    }
}

/// The code of texts that are not read, and where it is.
pub(crate) fn place_of_unread(unread: &Unread<'_>) -> Place
    ensures { IsNoInstruction result }
{
    match unread {
        Unread::NoFile(_) => coded(0, 0),
        Unread::NoModule(fault) => place_of_module(fault),
        Unread::NoLayouts(refused) => place_of_layouts(refused.fault),
        Unread::NoCertificate(_, fault) => place_of_certificate(*fault),
        Unread::NoEdits(fault) => place_of_certificate(*fault),
        Unread::NoTrace(_) => coded(0, 0),
    }
}
