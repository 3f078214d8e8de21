//! What is known of operands, as claims.
use crate::known_claims::claim_of;
use crate::operands::reference_of;
use crate::scene::Scene;
use certs::Claim;
use ir_ast::{Operand, ValueId};
use items::Items;
use std::alloc::AllocError;

/// Whether a claim is of a value.
pub(crate) fn is_of(claim: &Claim, value: ValueId) -> bool {
    match claim {
        Claim::Value { value: other, .. } => *other == value,
        _ => false,
    }
}

/// What is known of a value comes after what is known of others, each once.
fn add_known(scene: &Scene, claims: &mut Items<Claim>, value: ValueId) -> Result<(), AllocError> {
    if claims.as_slice().iter().any(|claim| is_of(claim, value)) {
        return Ok(());
    }
    match claim_of(scene.facts, value) {
        Some(claim) => claims.push(claim),
        None => Ok(()),
    }
}

/// What is known of operands, and of the references to whose words they lead.
pub(crate) fn known_claims(
    scene: &Scene,
    operands: &[Operand],
) -> Result<Items<Claim>, AllocError> {
    let mut claims = Items::new(scene.alloc);
    for operand in operands {
        if let Operand::Local(value) = operand {
            add_known(scene, &mut claims, *value)?;
            add_known(scene, &mut claims, reference_of(scene.facts, *value))?;
        }
    }
    Ok(claims)
}
