//! K1: why nothing is known of a value, and what makes it known.
use crate::callers::{find_stale_caller, find_stale_return};
use crate::cases::{Case, Cause, Mending, Missing, Seen};
use crate::definitions::{Definition, claim_after, definition_of, is_bypassed, spot_of};
use crate::diagnosis::{Draft, Sought};
use crate::missing_blocks::mend_missing;
use crate::one_way::find_one_way_here;
use crate::scene::{Scene, Spot, instr_in};
use crate::stale::{find_lost, lost_before};
use crate::told::{Told, value_in};
use block_rules::Refusal;
use certs::{Claim, Fact};
use ir_ast::{BlockId, Op, ValueId};
use std::alloc::AllocError;

/// The cause of a value of which nothing is known after the instruction that defines it.
fn unknown_at(scene: &Scene, spot: &Spot) -> Cause {
    match instr_in(scene.context.function, spot) {
        Some(instr) if matches!(instr.op, Op::Call(_)) => Cause::Result,
        _ => Cause::FromNothing,
    }
}

/// The cause of a value of which nothing is known where it is defined.
fn unknown_from(scene: &Scene, definition: &Definition) -> Cause {
    match definition {
        Definition::Parameter(_) => Cause::Parameter,
        Definition::At(spot) => unknown_at(scene, spot),
        Definition::Nowhere => Cause::NotYet,
    }
}

/// Whether an instruction of the refused one's block comes after it.
fn is_below(scene: &Scene, definition: &Definition) -> bool {
    let Refusal { block, instr, .. } = scene.refusal;
    matches!(definition, Definition::At(spot) if spot.block == block && spot.place >= instr)
}

/// The cause of a value that is known where it is defined.
fn lost_on_the_way(scene: &Scene, value: ValueId, fact: Fact) -> Result<Cause, AllocError> {
    if !matches!(fact, Fact::Reference { .. } | Fact::Address { .. }) {
        return Ok(Cause::Unlisted);
    }
    let spot = scene.spot();
    match lost_before(scene, &spot, Some(value))? {
        Some(_) => Ok(Cause::Stale),
        None => Ok(Cause::Unlisted),
    }
}

/// The block that defines a value, if another way leads to the refused instruction.
fn one_way(scene: &Scene, definition: &Definition) -> Result<Option<BlockId>, AllocError> {
    let from = definition.block();
    if is_bypassed(scene, &from, scene.refusal.block)? {
        Ok(from)
    } else {
        Ok(None)
    }
}

/// Why nothing is known of a value at the refused instruction.
fn cause_of(scene: &Scene, value: ValueId) -> Result<Cause, AllocError> {
    let definition = definition_of(scene.context.function, value);
    if is_below(scene, &definition) {
        return Ok(Cause::NotYet);
    }
    if let Some(block) = one_way(scene, &definition)? {
        return Ok(Cause::OneWay(block));
    }
    match claim_after(scene, &definition, value)? {
        Some(_) if scene.refusal.block.number() == 0 => Ok(Cause::NotYet),
        Some(Claim::Value { fact, .. }) => lost_on_the_way(scene, value, fact),
        Some(Claim::Slot { .. }) | None => Ok(unknown_from(scene, &definition)),
    }
}

/// The block that defines a value, where another way does not lead through it.
fn definer_of(cause: &Cause) -> Option<BlockId> {
    match cause {
        Cause::OneWay(block) => Some(*block),
        _ => None,
    }
}

/// Where it is defined, if an instruction does that.
pub(crate) fn note_definition(found: &mut Draft, told: &Told, seen: Seen) {
    let Some(value) = value_in(told.holes.it) else {
        return;
    };
    if let Some(spot) = spot_of(told.scene, value) {
        found.note(told, &spot, None, seen);
    }
}

/// A parameter of which the certificate does not say to what it refers, since a caller passes what is stale, or for another reason.
fn find_parameter(found: &mut Draft, told: &Told, value: ValueId) {
    match find_stale_caller(found, told, value) {
        Ok(true) => {}
        Ok(false) => {
            found.cert_note(told, Sought::Function, Seen::Section);
            found.mend(told, Mending::PromiseLayout);
            mend_wide(found, told, Mending::PromiseNumber)
        }
        Err(_) => found.refuse(),
    }
}

/// The result of a call of which the certificate does not say that, since what is returned is stale, or for another reason.
fn find_result(found: &mut Draft, told: &Told, value: ValueId) {
    note_definition(found, told, Seen::CallResult);
    match find_stale_return(found, told, value) {
        Ok(true) => {}
        Ok(false) => {
            found.mend(told, Mending::PromiseResult);
            mend_wide(found, told, Mending::PromiseNumberResult)
        }
        Err(_) => found.refuse(),
    }
}

/// A further way where the wide forms may stand.
fn mend_wide(found: &mut Draft, told: &Told, mending: Mending) {
    if told.scene.context.module().wide {
        found.mend(told, mending)
    }
}

/// A block on the way does not list it.
fn find_unlisted(found: &mut Draft, told: &Told, value: ValueId) {
    let scene = told.scene;
    note_definition(found, told, Seen::Defined);
    found.cert_note(told, Sought::Block(scene.refusal.block), Seen::Listed);
    let definition = definition_of(scene.context.function, value);
    match claim_after(scene, &definition, value) {
        Ok(Some(Claim::Value { fact, .. })) => {
            mend_missing(found, told, &definition, value, &fact)
        }
        Ok(_) => {}
        Err(_) => found.refuse(),
    }
}

/// What makes a value known of which nothing is.
fn find_unknown(found: &mut Draft, told: &Told, value: ValueId, cause: &Cause) {
    match cause {
        Cause::Parameter => find_parameter(found, told, value),
        Cause::Result => find_result(found, told, value),
        Cause::NotYet => found.mend(told, Mending::Define),
        Cause::OneWay(_) => find_one_way_here(found, told),
        Cause::FromNothing => {
            note_definition(found, told, Seen::Defined);
            found.mend(told, Mending::TakeKnown)
        }
        Cause::Unlisted => find_unlisted(found, told, value),
        Cause::Stale => find_lost(found, told, &[]),
    }
}

/// Why nothing is known of a value, and what mends it.
pub(crate) fn find_cause(found: &mut Draft, told: &Told, value: ValueId) {
    match cause_of(told.scene, value) {
        Ok(cause) => find_unknown(found, &told.with_definer(definer_of(&cause)), value, &cause),
        Err(_) => found.refuse(),
    }
}

/// What is missing of a value of which nothing is known.
pub(crate) fn missing_by_cause(scene: &Scene, value: ValueId) -> Result<Missing, AllocError> {
    Ok(match cause_of(scene, value)? {
        Cause::Stale => Missing::Stale,
        Cause::OneWay(block) => Missing::OneWay(block),
        _ => Missing::All,
    })
}

/// K1: a value of which nothing is known.
pub(crate) fn find_unavailable(found: &mut Draft, told: &Told, value: ValueId) {
    let Ok(cause) = cause_of(told.scene, value) else {
        return found.refuse();
    };
    let told = told.with_definer(definer_of(&cause));
    found.case(&told, Case::Unknown(cause));
    find_unknown(found, &told, value, &cause)
}
