//! Which blocks have to list a value, and do not; and what each of them may list.
use crate::cases::Mending;
use crate::definitions::{Definition, blocks_between, is_missing};
use crate::diagnosis::{Draft, Unlisted};
use crate::edges::learn_branch;
use crate::null_tests::shows_nonnull;
use crate::scene::{Scene, Spot};
use crate::told::Told;
use certs::Fact;
use facts::{Class, ClassId, Facts, Known};
use ir_ast::{BlockId, ValueId};
use std::alloc::AllocError;

/// How many blocks there are at most of which it is found what edges into them show.
const SHOWN: usize = 64;

/// How many edges into these blocks there are at most.
const EDGES: usize = 1024;

/// The blocks that have to list a value, and do not.
fn missing(
    scene: &Scene,
    definition: &Definition,
    value: ValueId,
) -> Result<Vec<BlockId>, AllocError> {
    let from = definition.block();
    let blocks = blocks_between(scene, &from, scene.refusal.block)?;
    let mut found = Vec::new(scene.alloc);
    for block in blocks.as_slice() {
        if is_missing(scene, &from, *block, value) {
            found.push(*block)?;
        }
    }
    drop(blocks);
    Ok(found)
}

fn class_unless_stale(facts: &Facts, class: ClassId, stale: bool) -> Class {
    if stale {
        Class::lost()
    } else {
        facts.class(class)
    }
}

/// What is known of the class of a reference on an edge. Of one that is stale there nothing is.
fn class_on_edge(
    scene: &Scene,
    value: ValueId,
    from: BlockId,
    to: BlockId,
) -> Result<Class, AllocError> {
    let mut facts = scene.facts_at(&Spot {
        block: from,
        place: usize::MAX,
    })?;
    learn_branch(&mut facts, scene.context.function, from, to)?;
    let class = match facts.known(value) {
        Known::Cell { class, stale, .. } => class_unless_stale(&facts, class, stale),
        _ => Class::lost(),
    };
    drop(facts);
    Ok(class)
}

/// Whether an edge shows that a value is not null, if the first blocks may list it as such.
fn is_nonnull_on_edge(
    scene: &Scene,
    value: ValueId,
    from: BlockId,
    to: BlockId,
    listed: &[BlockId],
) -> Result<bool, AllocError> {
    if listed.contains(&from) || shows_nonnull(scene.context.function, value, from, to) {
        return Ok(true);
    }
    Ok(class_on_edge(scene, value, from, to)?.nonnull)
}

/// Whether each edge into a block shows that a value is not null, if these blocks may list it as such.
fn is_nonnull_at(
    scene: &Scene,
    value: ValueId,
    to: BlockId,
    listed: &[BlockId],
) -> Result<bool, AllocError> {
    for from in scene.entered.group(to.number() as usize) {
        if !is_nonnull_on_edge(scene, value, BlockId::new(*from), to, listed)? {
            return Ok(false);
        }
    }
    Ok(true)
}

/// Whether each edge into a block shows that a value is fresh.
fn is_fresh_at(scene: &Scene, value: ValueId, to: BlockId) -> Result<bool, AllocError> {
    for from in scene.entered.group(to.number() as usize) {
        if !class_on_edge(scene, value, BlockId::new(*from), to)?.fresh {
            return Ok(false);
        }
    }
    Ok(true)
}

/// The blocks among some at which a value is not null, if all of them may list it as such.
fn still_nonnull(
    scene: &Scene,
    value: ValueId,
    listed: &[BlockId],
) -> Result<Vec<BlockId>, AllocError> {
    let mut kept = Vec::new(scene.alloc);
    for block in listed {
        if is_nonnull_at(scene, value, *block, listed)? {
            kept.push(*block)?;
        }
    }
    Ok(kept)
}

/// The blocks among some that may list a value as one that is not null.
fn nonnull_among(
    scene: &Scene,
    value: ValueId,
    blocks: &[BlockId],
) -> Result<Vec<BlockId>, AllocError> {
    let mut listed = Vec::from_slice(scene.alloc, blocks)?;
    for _turn in 0..blocks.len() {
        let kept = still_nonnull(scene, value, listed.as_slice())?;
        let is_settled = kept.len() == listed.len();
        listed = kept;
        if is_settled {
            return Ok(listed);
        }
    }
    Ok(listed)
}

/// What edges show of a value at each of some blocks, if these may list it as not null.
fn shown_by(
    scene: &Scene,
    value: ValueId,
    blocks: &[BlockId],
    nonnull: &[BlockId],
) -> Result<Vec<Unlisted>, AllocError> {
    let mut found = Vec::new(scene.alloc);
    for block in blocks {
        found.push(Unlisted {
            block: *block,
            nonnull: nonnull.contains(block),
            fresh: is_fresh_at(scene, value, *block)?,
        })?;
    }
    Ok(found)
}

/// What edges show of a value at each of some blocks.
fn shown_at(
    scene: &Scene,
    value: ValueId,
    blocks: &[BlockId],
) -> Result<Vec<Unlisted>, AllocError> {
    let nonnull = nonnull_among(scene, value, blocks)?;
    let found = shown_by(scene, value, blocks, nonnull.as_slice());
    drop(nonnull);
    found
}

/// From how many blocks edges lead into a block. Those of one block stand together.
fn edges_into(scene: &Scene, to: BlockId) -> usize {
    let mut edges: usize = 0;
    let mut last = None;
    for from in scene.entered.group(to.number() as usize) {
        if last != Some(*from) {
            edges = edges.saturating_add(1);
        }
        last = Some(*from);
    }
    edges
}

/// Whether few edges lead into some blocks.
fn are_entered_by_few(scene: &Scene, blocks: &[BlockId]) -> bool {
    let mut edges: usize = 0;
    for to in blocks {
        edges = edges.saturating_add(edges_into(scene, *to));
    }
    edges <= EDGES
}

/// Whether it is found what the edges into some blocks show.
fn are_shown(scene: &Scene, blocks: &[BlockId]) -> bool {
    blocks.len() <= SHOWN && are_entered_by_few(scene, blocks)
}

/// The blocks, where nothing is said of edges.
fn not_shown(scene: &Scene, blocks: &[BlockId]) -> Result<Vec<Unlisted>, AllocError> {
    let mut found = Vec::new(scene.alloc);
    for block in blocks {
        found.push(Unlisted {
            block: *block,
            nonnull: false,
            fresh: false,
        })?;
    }
    Ok(found)
}

/// The blocks that have to list a value, with what the edges into them show.
fn unlisted_blocks(
    scene: &Scene,
    definition: &Definition,
    value: ValueId,
    fact: &Fact,
) -> Result<Vec<Unlisted>, AllocError> {
    let blocks = missing(scene, definition, value)?;
    let each = with_shown(scene, blocks.as_slice(), value, fact);
    drop(blocks);
    each
}

/// These blocks, with what the edges into them show.
fn with_shown(
    scene: &Scene,
    blocks: &[BlockId],
    value: ValueId,
    fact: &Fact,
) -> Result<Vec<Unlisted>, AllocError> {
    if matches!(fact, Fact::Reference { .. }) && are_shown(scene, blocks) {
        shown_at(scene, value, blocks)
    } else {
        not_shown(scene, blocks)
    }
}

/// The lines to add, and the blocks to which they are to be added.
pub(crate) fn mend_missing(
    found: &mut Draft,
    told: &Told,
    definition: &Definition,
    value: ValueId,
    fact: &Fact,
) {
    match unlisted_blocks(told.scene, definition, value, fact) {
        Ok(blocks) => {
            if !blocks.is_empty() {
                found.mend(told, Mending::List(value, *fact));
            }
            found.unlisted(blocks)
        }
        Err(_) => found.refuse(),
    }
}
