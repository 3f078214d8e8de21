//! A value that is defined on one way to its use, and not on another: where it is used, and how it is loaded again there.
use crate::cases::{Mending, Seen};
use crate::definitions::blocks_between;
use crate::diagnosis::Draft;
use crate::entered::labels_of;
use crate::nulls::{is_value, load_of};
use crate::operands::operands_of;
use crate::scene::{Scene, Spot, There, block_at};
use crate::told::{Told, value_in};
use crate::unknown::note_definition;
use ir_ast::{Block, BlockId, Instr, ValueId};
use std::alloc::AllocError;
use types::target_of;

/// How many blocks are gone over at most.
const FAR: usize = 4096;

/// Whether an instruction reads a value.
fn reads(scene: &Scene, there: There, value: ValueId) -> Result<bool, AllocError> {
    let operands = operands_of(scene.alloc, there)?;
    let found = operands
        .as_slice()
        .iter()
        .any(|operand| is_value(value, Some(*operand)));
    drop(operands);
    Ok(found)
}

/// The first instruction of some of a body that reads a value.
fn used_in_body(
    scene: &Scene,
    body: &[Instr],
    value: ValueId,
) -> Result<Option<usize>, AllocError> {
    for (place, instr) in body.iter().enumerate() {
        if reads(scene, There::Body(instr), value)? {
            return Ok(Some(place));
        }
    }
    Ok(None)
}

/// The place of the first instruction of a block after its phis that reads a value.
fn used_in(scene: &Scene, block: &Block, value: ValueId) -> Result<Option<usize>, AllocError> {
    let phis = block.phis.len();
    if let Some(place) = used_in_body(scene, block.body.as_slice(), value)? {
        return Ok(Some(phis.saturating_add(place)));
    }
    if reads(scene, There::End(&block.end), value)? {
        Ok(Some(phis.saturating_add(block.body.len())))
    } else {
        Ok(None)
    }
}

/// Appends the blocks to which one leads, each once.
fn add_next(scene: &Scene, block: &Block, found: &mut Vec<BlockId>) -> Result<(), AllocError> {
    let labels = labels_of(scene.alloc, &block.end)?;
    for label in labels.as_slice() {
        if let Some(id) = target_of(scene.context.function, *label) {
            if found.len() < FAR && !found.contains(&id) {
                found.push(id)?;
            }
        }
    }
    drop(labels);
    Ok(())
}

/// The first instruction from the beginning of a block on that reads a value.
fn first_use(scene: &Scene, from: BlockId, value: ValueId) -> Result<Option<Spot>, AllocError> {
    let function = scene.context.function;
    let mut found = Vec::new(scene.alloc);
    found.push(from)?;
    for turn in 0..FAR {
        let Some(id) = found.get(turn).copied() else {
            return Ok(None);
        };
        if let Some(block) = block_at(function, id) {
            if let Some(place) = used_in(scene, block, value)? {
                return Ok(Some(Spot { block: id, place }));
            }
            add_next(scene, block, &mut found)?;
        }
    }
    Ok(None)
}

/// Whether a way leads from the block that defines the value to another one.
fn is_on_a_way(scene: &Scene, by: BlockId, to: BlockId) -> Result<bool, AllocError> {
    let blocks = blocks_between(scene, &None, to)?;
    let is_on = blocks.contains(&by);
    drop(blocks);
    Ok(is_on)
}

/// What mends it where the value is no load from a slot.
fn mend_without_load(found: &mut Draft, told: &Told, at: BlockId) {
    let Some(by) = told.holes.by else {
        return;
    };
    match is_on_a_way(told.scene, by, at) {
        Ok(true) => found.mend(told, Mending::PhiOnWays),
        Ok(false) => found.mend(told, Mending::OtherValue),
        Err(_) => found.refuse(),
    }
}

/// What mends it: the load again, or a phi. The value is used at a block.
fn mend_one_way(found: &mut Draft, told: &Told, at: BlockId) {
    let load = match value_in(told.holes.it) {
        Some(value) => load_of(told.scene, value),
        None => None,
    };
    match load {
        Some((load, place)) => {
            found.mend(&told.with_place(Some(place)), Mending::LoadAgain(load))
        }
        None => mend_without_load(found, told, at),
    }
}

/// Where the value is defined and used, and what mends it, of a use that is the refused instruction itself.
pub(crate) fn find_one_way_here(found: &mut Draft, told: &Told) {
    note_definition(found, told, Seen::DefinedIn);
    mend_one_way(found, told, told.scene.refusal.block)
}

/// Where a value is defined and used that an edge to this block does not have, and what mends it.
pub(crate) fn find_one_way_on(found: &mut Draft, told: &Told, target: BlockId) {
    let Some(value) = value_in(told.holes.it) else {
        return;
    };
    note_definition(found, told, Seen::DefinedIn);
    match first_use(told.scene, target, value) {
        Ok(Some(spot)) => {
            found.note(told, &spot, told.holes.it, Seen::Used);
            mend_one_way(found, told, spot.block)
        }
        Ok(None) => found.mend(told, Mending::UnusedClaim),
        Err(_) => found.refuse(),
    }
}
