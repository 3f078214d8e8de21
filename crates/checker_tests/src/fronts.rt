//! The fronts of a text: what comes of it where it is cut at each of its bytes.
use certificate::CertFault;
use ir_text::ReadFault;
use ir_tokens::Position;

/// A front is told apart by up to this number of parts.
const PARTS: usize = 8;

/// What comes of one front of a text.
#[derive(Clone, Copy)]
pub(crate) enum Front {
    /// It is read, and has this number of parts.
    Read(usize),
    /// It is refused as the front of such a text may be, at this place.
    Refused(Position),
    /// It is refused for a part that is not there, which has no place.
    Missing,
    /// Anything else.
    Other,
}

/// How a text is read.
pub(crate) trait Reader {
    /// What comes of this front.
    fn front(&self, text: &[u8]) -> Front;
}

/// The fault of a front of a module: a token of it is cut, it ends too early, or it ends in the front of an intrinsic's name.
pub(crate) fn cut_module(fault: &ReadFault, text: &[u8]) -> Front {
    match fault {
        ReadFault::BadByte(place) | ReadFault::Unfinished(place) | ReadFault::Unexpected(place) => {
            Front::Refused(*place)
        }
        ReadFault::LeftOut { place, word } => {
            if word.as_slice().starts_with(b"@llvm.") && text.ends_with(word.as_slice()) {
                Front::Refused(*place)
            } else {
                Front::Other
            }
        }
        _ => Front::Other,
    }
}

/// The fault of a front of certificates: it ends too early, or in the front of a name, or sections are not there.
pub(crate) fn cut_certificates(fault: CertFault) -> Front {
    match fault {
        CertFault::Syntax(place) | CertFault::UnknownName(place) => Front::Refused(place),
        CertFault::Missing(_) => Front::Missing,
        _ => Front::Other,
    }
}

/// How many fronts are read with each number of parts, how many are refused at a place within them or at their end, and how many for
/// a part that is not there. A front of which anything else comes is in none of these.
pub(crate) type Fronts = ([usize; PARTS + 1], usize, usize);

/// No front of any kind.
pub(crate) const NONE: Fronts = ([0; PARTS + 1], 0, 0);

/// Whether a text has a byte at this place, or ends there.
fn has_place(text: &[u8], place: Position) -> bool {
    let (mut line, mut column) = (1usize, 1usize);
    for byte in text {
        if place.line == line && place.column == column {
            return true;
        }
        if *byte == b'\n' {
            line = line.saturating_add(1);
            column = 1;
        } else {
            column = column.saturating_add(1);
        }
    }
    place.line == line && place.column == column
}

/// Counts what comes of the front that is this text.
fn count(fronts: &mut Fronts, text: &[u8], front: Front) {
    let (read, refused, missing) = fronts;
    match front {
        Front::Read(parts) => {
            if let Some(read) = read.get_mut(parts) {
                *read = read.saturating_add(1);
            }
        }
        Front::Refused(place) => {
            if has_place(text, place) {
                *refused = refused.saturating_add(1);
            }
        }
        Front::Missing => *missing = missing.saturating_add(1),
        Front::Other => {}
    }
}

/// What comes of the fronts of a text, the text itself not among them.
pub(crate) fn fronts_of<R: Reader>(reader: &R, text: &[u8]) -> Fronts {
    let mut fronts = NONE;
    for end in 0..text.len() {
        let front = &text[..end];
        count(&mut fronts, front, reader.front(front));
    }
    fronts
}
