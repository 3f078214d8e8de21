//! What else leads to a cell that a block claims to be fresh: with `fresh` all of that is claimed.
use crate::before::claims_of;
use crate::cases::Missing;
use crate::edges::{before_edge, operand_from};
use crate::scene::{Scene, block_at};
use crate::stale::{class_of, slot_with};
use crate::told::value_in;
use certs::{Age, Claim, Fact};
use facts::ClassId;
use ir_ast::{BlockId, Operand, ValueId};

/// Whether some claims say what a slot holds.
fn says_held(claims: &[Claim], name: ValueId) -> bool {
    claims.iter().any(|claim| match claim {
        Claim::Slot { slot, holds, .. } => *slot == name && holds.is_some(),
        Claim::Value { .. } => false,
    })
}

/// The slot that holds a class before the edge, and of which the claims do not say what it holds.
fn unsaid_slot(scene: &Scene, claims: &[Claim], class: ClassId) -> Option<ValueId> {
    let entry = scene.context.function.blocks.get(0)?;
    for instr in entry.body.as_slice() {
        if let Some(name) = slot_with(scene, scene.facts, instr, class) {
            if !says_held(claims, name) {
                return Some(name);
            }
        }
    }
    None
}

/// Whether an operand is of a class before the edge.
fn is_of_class(scene: &Scene, operand: Option<Operand>, class: ClassId) -> bool {
    match value_in(operand) {
        Some(value) => class_of(scene.facts, value) == Some(class),
        None => false,
    }
}

/// Whether a value is of a class before the edge to a block, as it is named there.
fn is_of(scene: &Scene, target: BlockId, value: ValueId, class: ClassId) -> bool {
    let before = before_edge(scene, target, value).unwrap_or(Operand::Local(value));
    is_of_class(scene, Some(before), class)
}

/// The phi of a block that takes in a class on the edge.
fn phi_with(scene: &Scene, target: BlockId, class: ClassId) -> Option<ValueId> {
    let function = scene.context.function;
    for phi in block_at(function, target)?.phis.as_slice() {
        let taken = operand_from(function, phi.incoming.as_slice(), scene.refusal.block);
        if is_of_class(scene, taken, class) {
            return Some(phi.value);
        }
    }
    None
}

/// The value that a claim of a reference says to be the same.
fn same_as(fact: &Fact) -> Option<ValueId> {
    match fact {
        Fact::Reference { same, .. } => *same,
        _ => None,
    }
}

/// Another value of a class that is listed, and not as the same one.
fn twin_of(
    scene: &Scene,
    target: BlockId,
    value: ValueId,
    fact: &Fact,
    class: ClassId,
) -> Option<ValueId> {
    for claim in claims_of(&scene.context, scene.refusal.func, target) {
        if let Claim::Value {
            value: other,
            fact: said,
        } = claim
        {
            if matches!(said, Fact::Reference { .. })
                && *other != value
                && is_of(scene, target, *other, class)
                && same_as(fact) != Some(*other)
                && same_as(said) != Some(value)
            {
                return Some(*other);
            }
        }
    }
    None
}

/// What hinders a claim that a value is fresh, of which this is the name before the edge: a phi that takes it in, a slot that holds it
/// too, or another value.
pub(crate) fn holder_of(
    scene: &Scene,
    target: BlockId,
    claim: &Claim,
    before: ValueId,
) -> Option<Missing> {
    let Claim::Value { value, fact } = claim else {
        return None;
    };
    if !matches!(
        fact,
        Fact::Reference {
            age: Age::Fresh,
            ..
        }
    ) {
        return None;
    }
    let class = class_of(scene.facts, before)?;
    if let Some(phi) = phi_with(scene, target, class) {
        return Some(Missing::InPhi(phi));
    }
    let claims = claims_of(&scene.context, scene.refusal.func, target);
    if let Some(slot) = unsaid_slot(scene, claims, class) {
        return Some(Missing::InSlot(slot));
    }
    let twin = twin_of(scene, target, *value, fact, class)?;
    Some(Missing::Twin(twin))
}
