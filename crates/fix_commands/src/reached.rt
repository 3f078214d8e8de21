//! How far a check of two texts comes.
use crate::pair::Pair;
use crate::trial::Trial;
use block_rules::{Refusal, Rule};
use certificate::CertFault;
use fixes::offset_of;
use ir_text::ReadFault;
use ir_tokens::Position;
use module_check::{NotAccepted, Reason};

/// How far a check comes: which part of it ends it, and where. A part that comes later, or a place in the same part, is further.
#[derive(Clone, Copy)]
pub(crate) struct Reached {
    part: usize,
    first: usize,
    second: usize,
    third: usize,
}

/// The place of a fault of a module's text.
pub(crate) fn position_of(fault: &ReadFault) -> Option<Position> {
    match fault {
        ReadFault::BadByte(place)
        | ReadFault::Unfinished(place)
        | ReadFault::Unexpected(place)
        | ReadFault::DefinedTwice(place)
        | ReadFault::NotDefined(place)
        | ReadFault::OutOfRange(place)
        | ReadFault::LeftOut { place, .. }
        | ReadFault::Limit(place)
        | ReadFault::WrongNumber(place)
        | ReadFault::OtherPointer(place) => Some(*place),
        ReadFault::Memory => None,
    }
}

/// In the text of the module.
fn in_module(fault: &ReadFault) -> Reached {
    let (first, second) = match position_of(fault) {
        Some(place) => (place.line, place.column),
        None => (0, 0),
    };
    Reached {
        part: 0,
        first,
        second,
        third: 0,
    }
}

/// How many numbers there are for what is left of a text.
const MOST: usize = 1 << 40;

/// At a place of the certificate's text: the fewer bytes are left, the further it is.
fn at_place(text: &[u8], position: Position) -> Reached {
    let left = text.len().saturating_sub(offset_of(text, position));
    Reached {
        part: 1,
        first: 0,
        second: MOST.saturating_sub(left),
        third: 0,
    }
}

/// In the certificate, once all of its text is read: in front of this function and this block.
fn at_missing(function: usize, block: usize) -> Reached {
    Reached {
        part: 1,
        first: 1,
        second: function,
        third: block,
    }
}

/// In the certificate.
fn in_certificate(text: &[u8], fault: CertFault) -> Reached {
    match fault {
        CertFault::Syntax(place)
        | CertFault::Version(place)
        | CertFault::UnknownName(place)
        | CertFault::ListedTwice(place) => at_place(text, place),
        CertFault::Missing(function) => at_missing(function, 0),
        CertFault::MissingBlock(function, block) => {
            at_missing(function, block.saturating_add(1))
        }
        _ => Reached {
            part: 1,
            first: 1,
            second: 0,
            third: 0,
        },
    }
}

/// At a refused instruction.
pub(crate) fn at_refusal(refusal: &Refusal) -> Reached {
    Reached {
        part: 3,
        first: refusal.func.number() as usize,
        second: refusal.block.number() as usize,
        third: refusal.instr,
    }
}

/// At a whole part.
fn at_part(part: usize) -> Reached {
    Reached {
        part,
        first: 0,
        second: 0,
        third: 0,
    }
}

/// How far the check of these texts came that said this.
pub(crate) fn how_far(pair: &Pair, trial: &Trial) -> Reached {
    match trial {
        Trial::NoModule(fault) => in_module(fault),
        Trial::NoCertificate(_, fault) => in_certificate(pair.certificate.as_slice(), *fault),
        Trial::NotAccepted(refused) => match &refused.verdict {
            Reason::Refused(refusal) => at_refusal(refusal),
            _ => at_part(2),
        },
        Trial::Accepted => at_part(4),
    }
}

impl Reached {
    /// Whether another one is further.
    pub(crate) fn is_before(self, other: Reached) -> bool {
        if self.part != other.part {
            return self.part < other.part;
        }
        if self.first != other.first {
            return self.first < other.first;
        }
        if self.second != other.second {
            return self.second < other.second;
        }
        self.third < other.third
    }
}

/// The refusal for which a module is not accepted, if it is one.
pub(crate) fn refusal_of(refused: &NotAccepted) -> Option<Refusal> {
    match refused.verdict {
        Reason::Refused(refusal) => Some(refusal),
        _ => None,
    }
}

/// The refusal that a check ended with, if it is one.
pub(crate) fn refusal_in(trial: &Trial) -> Option<Refusal> {
    match trial {
        Trial::NotAccepted(refused) => refusal_of(refused),
        _ => None,
    }
}

/// Whether a check leaves the function of a refusal behind.
pub(crate) fn leaves(trial: &Trial, refusal: &Refusal) -> bool {
    match (trial, refusal_in(trial)) {
        (Trial::Accepted, _) => true,
        (_, Some(next)) => next.func.number() > refusal.func.number(),
        _ => false,
    }
}

/// Whether a refusal follows from a fix of another one: of a plain store a later one, of anything else what is not in front of it.
fn comes_to(refusal: &Refusal, next: &Refusal) -> bool {
    let (here, there) = (at_refusal(refusal), at_refusal(next));
    match refusal.rule {
        Rule::K6 => here.is_before(there),
        _ => !there.is_before(here),
    }
}

/// Whether a check comes from a refusal to a plain store of the same function, which a further fix may mend.
pub(crate) fn leads_to_store(trial: &Trial, refusal: &Refusal) -> bool {
    match refusal_in(trial) {
        Some(next) => {
            matches!(next.rule, Rule::K6)
                && next.func.number() == refusal.func.number()
                && comes_to(refusal, &next)
        }
        None => false,
    }
}
