//! K15: an edge, the claim that it does not imply, which word of that is missing and why.
use crate::before::claims_of;
use crate::cases::{Case, Mending, Missing, Seen};
use crate::diagnosis::{Draft, Sought};
use crate::holders::holder_of;
use crate::missing::{definer_of, holder_in, missing_of, missing_of_slot};
use crate::one_way::find_one_way_on;
use crate::scene::{Scene, Spot, block_at};
use crate::stale::find_lost;
use crate::told::{Told, local, value_in};
use crate::unknown::{find_cause, missing_by_cause, note_definition};
use crate::ways::is_block;
use block_rules::Detail;
use certs::{Claim, Fact};
use facts::{Facts, SlotFact};
use ir_ast::{BlockId, End, Function, Incoming, Operand, ValueId};
use std::alloc::AllocError;

/// What comes in from a block.
pub(crate) fn operand_from(
    function: &Function,
    incoming: &[Incoming],
    from: BlockId,
) -> Option<Operand> {
    for entry in incoming {
        if is_block(function, entry.from, from) {
            return Some(entry.operand);
        }
    }
    None
}

/// The phi of a block that gives a value.
fn phi_of(function: &Function, block: BlockId, value: ValueId) -> Option<Spot> {
    let phis = block_at(function, block)?.phis.as_slice();
    let place = phis.iter().position(|phi| phi.value == value)?;
    Some(Spot { block, place })
}

/// What is claimed of, as it is named before the edge: of a phi what comes in.
pub(crate) fn before_edge(scene: &Scene, target: BlockId, value: ValueId) -> Option<Operand> {
    let function = scene.context.function;
    let phis = block_at(function, target)?.phis.as_slice();
    let phi = phis.iter().find(|phi| phi.value == value)?;
    operand_from(function, phi.incoming.as_slice(), scene.refusal.block)
}

/// The condition of a branch, and whether it is true on the edge to this block. Where both edges lead there, that is not said.
pub(crate) fn decided(function: &Function, end: &End, target: BlockId) -> Option<(ValueId, bool)> {
    let End::Branch {
        condition,
        taken,
        other,
        ..
    } = end
    else {
        return None;
    };
    let value = local(*condition)?;
    let on = is_block(function, *taken, target);
    if on == is_block(function, *other, target) {
        return None;
    }
    Some((value, on))
}

/// Adds what the branch at the end of a block shows on its edge to another one.
pub(crate) fn learn_branch(
    facts: &mut Facts,
    function: &Function,
    block: BlockId,
    target: BlockId,
) -> Result<(), AllocError> {
    let Some(block) = block_at(function, block) else {
        return Ok(());
    };
    match decided(function, &block.end, target) {
        Some((value, on)) => {
            let test = facts.test(value);
            facts.learn(test, on)
        }
        None => Ok(()),
    }
}

/// The claim that is not implied.
fn claim_at(scene: &Scene, detail: &Detail) -> Option<Claim> {
    let claims = claims_of(&scene.context, scene.refusal.func, detail.target);
    claims.get(detail.claim).copied()
}

/// What is known of a slot by its name.
fn slot_fact(scene: &Scene, slot: ValueId) -> SlotFact {
    match scene.context.slots.slot_of(slot) {
        Some(slot) => scene.facts.slot(slot),
        None => SlotFact::open(),
    }
}

/// An edge and a claim that it does not imply.
#[derive(Clone, Copy)]
struct Unshown {
    /// The value, as it is named at the target.
    value: ValueId,
    /// What comes in for it.
    operand: Operand,
    missing: Missing,
}

/// What is missing of a claim on a value.
fn unshown_value(scene: &Scene, target: BlockId, value: ValueId, fact: &Fact) -> Unshown {
    let function = scene.context.function;
    let is_phi = phi_of(function, target, value).is_some();
    match before_edge(scene, target, value) {
        Some(operand) => Unshown {
            value,
            operand,
            missing: missing_of(scene.facts, fact, &operand),
        },
        None => Unshown {
            value,
            operand: Operand::Local(value),
            missing: if is_phi {
                Missing::Entry
            } else {
                missing_of(scene.facts, fact, &Operand::Local(value))
            },
        },
    }
}

fn unshown_of(scene: &Scene, target: BlockId, claim: &Claim) -> Unshown {
    match claim {
        Claim::Value { value, fact } => unshown_value(scene, target, *value, fact),
        Claim::Slot { slot, nonnull, .. } => Unshown {
            value: *slot,
            operand: Operand::Local(*slot),
            missing: missing_of_slot(scene.facts, slot_fact(scene, *slot), *nonnull),
        },
    }
}

/// What is told to be missing of a claim. A value of which nothing is known since it would be stale is told as stale.
fn missing_told(
    scene: &Scene,
    target: BlockId,
    claim: &Claim,
    unshown: &Unshown,
) -> Result<Missing, AllocError> {
    match (unshown.missing, local(unshown.operand)) {
        (Missing::All, Some(value)) => missing_by_cause(scene, value),
        (Missing::Other, Some(value)) => {
            Ok(holder_of(scene, target, claim, value).unwrap_or(Missing::Other))
        }
        (missing, _) => Ok(missing),
    }
}

/// Where what comes in for a phi is written.
fn note_phi(found: &mut Draft, told: &Told, target: BlockId, value: ValueId, missing: &Missing) {
    let scene = told.scene;
    let seen = match missing {
        Missing::Entry => Seen::Defined,
        _ => Seen::ComesIn,
    };
    if let Some(spot) = phi_of(scene.context.function, target, value) {
        found.note(told, &spot, told.holes.it, seen);
    }
}

/// What is known of what comes in, and what shows a word of the claim.
fn find_word(found: &mut Draft, told: &Told, operand: Operand) {
    found.know(told.scene, &[operand]);
    found.mend(told, Mending::OfCase)
}

/// Why a claim is not shown by what comes in, and what mends it.
fn find_why(found: &mut Draft, told: &Told, operand: Operand, missing: &Missing) {
    match missing {
        Missing::All => match value_in(told.holes.it) {
            Some(value) => find_cause(found, told, value),
            None => found.mend(told, Mending::OfCase),
        },
        Missing::Stale => {
            find_lost(found, told, &[operand]);
            found.mend(told, Mending::StaleClaim)
        }
        Missing::Nonnull => {
            note_definition(found, told, Seen::Uncompared);
            find_word(found, told, operand)
        }
        Missing::Layout => {
            note_definition(found, told, Seen::Defined);
            find_word(found, told, operand);
            found.mend(told, Mending::Numbers)
        }
        _ => find_word(found, told, operand),
    }
}

/// Why a claim is not shown, and what mends it.
fn find_reason(
    found: &mut Draft,
    told: &Told,
    target: BlockId,
    unshown: &Unshown,
    missing: &Missing,
) {
    match missing {
        Missing::OneWay(_) => find_one_way_on(found, told, target),
        Missing::InSlot(_) | Missing::Twin(_) => {
            let value = Some(Operand::Local(unshown.value));
            find_why(found, &told.with_it(value), unshown.operand, missing)
        }
        missing => find_why(found, told, unshown.operand, missing),
    }
}

/// The claim that an edge does not imply, why, and what mends it.
pub(crate) fn find_edge(found: &mut Draft, scene: &Scene, detail: &Detail) {
    let Some(claim) = claim_at(scene, detail) else {
        return;
    };
    let target = detail.target;
    let unshown = unshown_of(scene, target, &claim);
    let Ok(missing) = missing_told(scene, target, &claim, &unshown) else {
        return found.refuse();
    };
    let told = Told::of(scene, Some(unshown.operand))
        .with_block(Some(target))
        .with_definer(definer_of(&missing))
        .with_place(holder_in(&missing));
    let case = Case::Edge(missing, *detail);
    found.case_under(&told, case, scene.label_of(target));
    note_phi(found, &told, target, unshown.value, &missing);
    let line = Sought::Claim(target, detail.claim);
    found.cert_note(&told, line, Seen::Claim(missing));
    find_reason(found, &told, target, &unshown, &missing)
}
