ghost use Rattle.std.specs.Prelude.{◌≡◌, ◌<◌, List, None, IsTrue, IfOk, IfSome};
ghost use Rattle.pools.specs.Heap.{Setup, cells_in, cells, kind_of};
ghost use Rattle.pools.specs.Layouts.{is_reference_kind};
ghost use Rattle.runs.specs.Machine.{WordValue as AWordValue};
ghost use Rattle.moves.specs.Calls.{move_in};
ghost use Rattle.stepping.specs.Reach.{IsSchemaOf};
ghost use Rattle.stepping.specs.Covers.{IsOver, IsStored, FreesNoneOf};
ghost use Rattle.stepping.specs.Walks.{IsClosed, IsNearlyClosed};

use crate::gone::HeapSchema;
use crate::walk::Walk;
use colours::Turn;
use moves::{Move, NULL, Shared, WordValue};
use pools::WordKind;
use std::alloc::AllocError;

/// Cells among which is all that can be reached, none of it gone, where they are known.
#[derive(Drop)]
pub struct Cover {
    pub(crate) walk: Option<Walk>,
}

impl Cover {
    /// No cells are known.
    pub fn unknown() -> Self
        ensures { result ≡ record { walk = None } }
    {
        Cover { walk: None }
    }
}

/// The walk after a step of the collector, unless that frees a cell that was met.
pub(crate) fn after_turn(walk: Walk, turn: Turn) -> Option<Walk>
    ensures { IfSome result (λ kept. (kept ≡ walk) × FreesNoneOf walk.met turn) }
{
    match turn {
        Turn::Free(cell) if walk.has_met(cell) => None,
        _ => Some(walk),
    }
}

/// What a move stores in a reference word of the heap; null where it stores none.
pub(crate) fn stored_by(schema: HeapSchema<'_>, made: &Move) -> WordValue
    ensures { (s : Setup) (roots : List AWordValue) → IsSchemaOf s schema.entry → IsStored s (move_in roots made.now) result }
{
    match made {
        Move::StoresAfterBarrier { base, word, value } => stored_in(schema, *base, *word, *value),
        Move::StoresPlain { base, word, value } => stored_in(schema, *base, *word, *value),
        _ => NULL,
    }
}

/// This reference, if the word that it is stored in holds references.
fn stored_in(schema: HeapSchema<'_>, base: WordValue, word: u32, value: WordValue) -> WordValue
    ensures { (s : Setup) → IsSchemaOf s schema.entry → base.cell < cells s → IsTrue (is_reference_kind (kind_of s base.cell word)) → result ≡ value }
{
    match schema.kind(base.cell, word) {
        Some(WordKind::Reference(_)) => value,
        _ => NULL,
    }
}

/// The walk after the reference that a move stored, the roots of its thread, and what they lead to; none where some of that is
/// gone.
pub(crate) fn walked_on(
    walk: Walk,
    schema: HeapSchema<'_>,
    shared: &Shared,
    stored: WordValue,
    roots: &[WordValue],
) -> Result<Option<Walk>, AllocError>
    requires { IsOver (cells_in schema.pools.now) walk }
    ensures { (s : Setup) (all : List AWordValue) → IsSchemaOf s schema.entry → IsNearlyClosed s shared.now all roots.now stored walk
        → IfOk result (λ o. IfSome o (λ kept. IsOver (cells s) kept × IsClosed s shared.now all kept)) }
{
    let mut walk = walk;
    walk.go_on(schema, shared, stored, roots)?;
    match (walk.blue, walk.reborn) {
        (None, None) => Ok(Some(walk)),
        _ => Ok(None),
    }
}
