//! Which word of a claim is missing before an edge.
use crate::cases::Missing;
use certs::{Age, Fact};
use facts::{Facts, Known, SlotFact};
use ir_ast::{BlockId, Constant, Operand, ValueId};
use pools::LayoutId;

/// What is claimed of a reference.
#[derive(Clone, Copy)]
struct Wanted {
    layout: LayoutId,
    nonnull: bool,
    age: Age,
}

/// What is missing of a claim on a reference.
fn missing_of_reference(facts: &Facts, wanted: Wanted, known: &Known) -> Missing {
    match known {
        Known::Null if wanted.nonnull => Missing::Null,
        Known::Cell {
            class,
            layout,
            stale,
        } => {
            let class = facts.class(*class);
            if *layout != wanted.layout {
                Missing::Layout
            } else if *stale && !matches!(wanted.age, Age::Stale) {
                Missing::Stale
            } else if matches!(wanted.age, Age::Fresh) && !class.fresh {
                Missing::Fresh
            } else if wanted.nonnull && !class.nonnull {
                Missing::Nonnull
            } else {
                Missing::Other
            }
        }
        _ => Missing::Other,
    }
}

/// What is known of an operand.
fn known_of(facts: &Facts, operand: &Operand) -> Known {
    match operand {
        Operand::Constant(Constant::Null) => Known::Null,
        Operand::Constant(_) => Known::Number {
            bits: 64,
            below: None,
        },
        _ => block_rules::known_of(facts, operand),
    }
}

/// What is missing of a claim that a value is an address.
fn missing_of_address(facts: &Facts, known: &Known) -> Missing {
    match known {
        Known::Address { base, .. } => match facts.known(*base) {
            Known::Cell { stale: true, .. } => Missing::Stale,
            _ => Missing::Other,
        },
        _ => Missing::Other,
    }
}

/// What is missing of a claim on a value, of which an operand comes in.
pub(crate) fn missing_of(facts: &Facts, fact: &Fact, operand: &Operand) -> Missing {
    let known = known_of(facts, operand);
    if matches!(known, Known::Nothing) {
        return Missing::All;
    }
    match fact {
        Fact::Reference {
            layout,
            nonnull,
            age,
            ..
        } => {
            let wanted = Wanted {
                layout: *layout,
                nonnull: *nonnull,
                age: *age,
            };
            missing_of_reference(facts, wanted, &known)
        }
        Fact::Number { below: Some(_), .. } if matches!(known, Known::Number { .. }) =>
            Missing::Below,
        Fact::Address { .. } => missing_of_address(facts, &known),
        _ => Missing::Other,
    }
}

/// What is missing of a claim on a slot.
pub(crate) fn missing_of_slot(facts: &Facts, slot: SlotFact, nonnull: bool) -> Missing {
    if nonnull && !facts.slot_nonnull(slot) {
        Missing::SlotNonnull
    } else {
        Missing::Holds
    }
}

/// The block that defines the value, where a way leads to the edge without it.
pub(crate) fn definer_of(missing: &Missing) -> Option<BlockId> {
    match missing {
        Missing::OneWay(block) => Some(*block),
        _ => None,
    }
}

/// What else leads to the cell.
pub(crate) fn holder_in(missing: &Missing) -> Option<Operand> {
    match missing {
        Missing::InSlot(holder) | Missing::Twin(holder) | Missing::InPhi(holder) => {
            Some(Operand::Local(*holder))
        }
        _ => None,
    }
}
