//! K16: an entry of a phi that is missing, or one too many.
use crate::cases::Entries;
use crate::scene::{Scene, There, block_id};
use ir_ast::{BlockId, Function, Incoming};
use number_tables::{put, row_or};
use std::alloc::{AllocError, Global};
use types::target_of;

/// For each block of a function whether a phi has an entry of it.
fn entered_from(
    alloc: Global,
    function: &Function,
    incoming: &[Incoming],
) -> Result<Vec<bool>, AllocError> {
    let mut entered = vec![in alloc; false; function.blocks.len()]?;
    for entry in incoming {
        if let Some(from) = target_of(function, entry.from) {
            put(&mut entered, from.number() as usize, true);
        }
    }
    Ok(entered)
}

/// For each block of a function whether it leads to the refused phi.
fn leading(scene: &Scene) -> Result<Vec<bool>, AllocError> {
    let mut leads = vec![in scene.alloc; false; scene.context.function.blocks.len()]?;
    let here = scene.refusal.block.number() as usize;
    for from in scene.entered.group(here) {
        put(&mut leads, *from as usize, true);
    }
    Ok(leads)
}

/// The first block that leads to the phi without an entry, or has one and does not lead there.
fn first_wrong(leading: &[bool], entered: &[bool]) -> Entries {
    for (place, leads) in leading.iter().enumerate() {
        if let Some(id) = block_id(place) {
            match (*leads, row_or(entered, place, false)) {
                (true, false) => return Entries::Missing(id),
                (false, true) => return Entries::Extra(id),
                _ => {}
            }
        }
    }
    Entries::Other
}

/// What is wrong with the entries of the refused phi.
pub(crate) fn entries_of(scene: &Scene) -> Result<Entries, AllocError> {
    let There::Phi(phi) = scene.there() else {
        return Ok(Entries::Other);
    };
    let leads = leading(scene)?;
    let entered = entered_from(scene.alloc, scene.context.function, phi.incoming.as_slice())?;
    Ok(first_wrong(leads.as_slice(), entered.as_slice()))
}

/// The block of the entry that is wrong.
pub(crate) fn block_of(entries: &Entries) -> Option<BlockId> {
    match entries {
        Entries::Missing(block) | Entries::Extra(block) => Some(*block),
        Entries::Other => None,
    }
}
