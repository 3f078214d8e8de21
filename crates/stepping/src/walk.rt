ghost use Rattle.std.specs.Prelude.{◌≡◌, ◌<◌, ◌≤◌, ◌^◌, [], List, length, false, true, slice_index_or, IsTrue, IsFalse, IfOk, OnOk};
ghost use Rattle.pools.specs.Heap.{Setup, cells_in, cells, words_of_cell};
ghost use Rattle.runs.specs.Moves.{null};
ghost use Rattle.stepping.specs.Reach.{IsSchemaOf};
ghost use Rattle.stepping.specs.Walks as walks;
ghost use Rattle.runs.specs.Machine.{WordValue as AWordValue};
ghost use Rattle.stepping.specs.Walks.{meeting, following, following_first, looking_at, looking, IsSeen, IsSound, IsLooked, IsClosed, IsNearlyClosed, IsWhole, IsShaped};

use crate::gone::HeapSchema;
use items::Items;
use moves::{NULL, Shared, WordValue};
use pools::WordKind;
use std::alloc::{AllocError, Global};

/// A walk over what can be reached, for references that are gone.
#[derive(Drop)]
pub(crate) struct Walk {
    /// The cells that were met.
    met: Items<bool>,
    /// The same cells, as they were met.
    order: Items<u32>,
    /// The least free cell, and the least that was claimed again.
    pub(crate) blue: Option<u64>,
    pub(crate) reborn: Option<u64>,
}

impl Walk {
    /// Before any reference is met, over this number of cells.
    fn new(alloc: Global, cells: u32) -> Result<Self, AllocError>
        ensures { IfOk result (λ walk. walk ≡ walks.begun cells) }
    {
        let met = vec![in alloc; false; cells as usize]?;
        Ok(Walk {
            met: Items::from_vec(met),
            order: Items::new(alloc),
            blue: None,
            reborn: None,
        })
    }

    /// The cell is there, and was not met.
    fn is_new(&self, cell: u64) -> bool
        ensures value { result ≡ walks.is_new self.now.met cell }
        ensures within { IsTrue result → cell < length self.now.met }
    {
        !is_set(self.met.as_slice(), cell as usize)
    }

    /// A reference can be reached.
    fn meet(&mut self, shared: &Shared, found: WordValue) -> Result<(), AllocError>
        requires { length self.old.met ≤ 2 ^ 20 }
        ensures { OnOk result (self.new ≡ meeting shared.now self.old found) }
    {
        let cell = found.cell;
        if shared.colour(cell) == 0 {
            self.blue = Some(least(self.blue, cell));
        }
        if shared.birth(cell) != found.birth {
            self.reborn = Some(least(self.reborn, cell));
        }
        if self.is_new(cell) {
            self.met.set(cell as usize, true);
            self.order.push(cell as u32)?;
        }
        Ok(())
    }

    /// The cell was met.
    pub(crate) fn has_met(&self, cell: u32) -> bool
        ensures { result ≡ slice_index_or self.now.met cell false }
    {
        self.met
            .as_slice()
            .get(cell as usize)
            .copied()
            .unwrap_or(false)
    }

    /// What a word or a root holds can be reached; null points to nothing.
    fn follow(&mut self, shared: &Shared, held: WordValue) -> Result<(), AllocError>
        requires { length self.old.met ≤ 2 ^ 20 }
        ensures { OnOk result (self.new ≡ following shared.now self.old held) }
    {
        if held.cell != 0 {
            self.meet(shared, held)?;
        }
        Ok(())
    }

    /// What a word of this kind holds can be reached, if it holds references.
    fn look_at(
        &mut self,
        shared: &Shared,
        kind: WordKind,
        held: WordValue,
    ) -> Result<(), AllocError>
        requires { length self.old.met ≤ 2 ^ 20 }
        ensures { OnOk result (self.new ≡ looking_at shared.now self.old (Some kind) held) }
    {
        match kind {
            WordKind::Reference(_) => self.follow(shared, held),
            WordKind::Integer(_) => Ok(()),
        }
    }

    /// What the reference words of a cell hold can be reached too.
    fn look_into(
        &mut self,
        schema: HeapSchema<'_>,
        shared: &Shared,
        cell: u32,
    ) -> Result<(), AllocError>
        requires is_cell { cell < cells_in schema.pools.now }
        requires few { length self.old.met ≤ 2 ^ 20 }
        ensures { (s : Setup) → IsSchemaOf s schema.entry
            → OnOk result (self.new ≡ looking shared.now (words_of_cell s cell) (slice_index_or shared.now.words cell []) self.old (length (words_of_cell s cell))) }
    {
        let row = shared.words.row(u64::from(cell));
        for (word, kind) in schema.words(cell).iter().enumerate() {
            self.look_at(shared, *kind, reference_at(row, word))?;
        }
        Ok(())
    }

    /// What each of these roots holds can be reached.
    fn follow_all(&mut self, shared: &Shared, roots: &[WordValue]) -> Result<(), AllocError>
        requires { length self.old.met ≤ 2 ^ 20 }
        ensures { OnOk result (self.new ≡ following_first shared.now roots.now self.old (length roots.now)) }
    {
        for root in roots {
            self.follow(shared, *root)?;
        }
        Ok(())
    }

    /// Looks into the cells of the order from this place on, and into those that are met by it.
    fn look_from(
        &mut self,
        schema: HeapSchema<'_>,
        shared: &Shared,
        place: usize,
    ) -> Result<(), AllocError>
        requires shaped { IsShaped (cells_in schema.pools.now) self.old }
        requires few { length self.old.met ≤ 2 ^ 20 }
        requires place { place ≤ length self.old.order }
        ensures shaped { OnOk result (IsShaped (cells_in schema.entry.pools.now) self.new) }
        ensures looked { (s : Setup) → IsSchemaOf s schema.entry → IsLooked s shared.now self.old place → OnOk result (IsLooked s shared.now self.new (length self.new.order)) }
        ensures seen { (r : AWordValue) → IsSeen shared.now self.old r → OnOk result (IsSeen shared.now self.new r) }
        ensures sound { (s : Setup) (roots : List AWordValue) → IsSchemaOf s schema.entry → IsSound s shared.now roots self.old → OnOk result (IsSound s shared.now roots self.new) }
    {
        let mut looked = place;
        while let Some(cell) = self.order.get(looked).copied() {
            self.look_into(schema, shared, cell)?;
            looked += 1;
        }
        Ok(())
    }

    /// Goes on with the reference that a move stored and with the roots of its thread, and with what they lead to.
    pub(crate) fn go_on(
        &mut self,
        schema: HeapSchema<'_>,
        shared: &Shared,
        stored: WordValue,
        roots: &[WordValue],
    ) -> Result<(), AllocError>
        requires shaped { IsShaped (cells_in schema.pools.now) self.old }
        requires few { length self.old.met ≤ 2 ^ 20 }
        ensures shaped { OnOk result (IsShaped (cells_in schema.entry.pools.now) self.new) }
        ensures closed { (s : Setup) (all : List AWordValue) → IsSchemaOf s schema.entry → IsNearlyClosed s shared.now all roots.now stored self.old → OnOk result (IsClosed s shared.now all self.new) }
    {
        let place = self.order.len();
        self.follow(shared, stored)?;
        self.follow_all(shared, roots)?;
        self.look_from(schema, shared, place)?;
        Ok(())
    }
}

/// The least of a cell and those so far.
fn least(so_far: Option<u64>, cell: u64) -> u64
    ensures { result ≡ walks.least so_far cell }
{
    match so_far {
        Some(other) if other < cell => other,
        _ => cell,
    }
}

/// The entry at this place; true outside the list.
fn is_set(each: &[bool], at: usize) -> bool
    ensures value { result ≡ slice_index_or each.now at true }
    ensures within { IsFalse result → at < length each.now }
{
    match each.get(at) {
        Some(told) => *told,
        None => true,
    }
}

/// The reference at this place; null outside the row.
fn reference_at(row: &[WordValue], at: usize) -> WordValue
    ensures { result ≡ slice_index_or row.now at null }
{
    row.get(at).copied().unwrap_or(NULL)
}

/// The whole walk from the globals and from these roots.
pub(crate) fn walk_from(
    alloc: Global,
    schema: HeapSchema<'_>,
    shared: &Shared,
    roots: &[WordValue],
) -> Result<Walk, AllocError>
    ensures whole { (s : Setup) → IsSchemaOf s schema.entry → IfOk result (λ walk. IsShaped (cells s) walk × IsWhole s shared.now roots.now walk) }
    ensures limit { cells_in schema.entry.pools.now ≤ 2 ^ 20 }
{
    let mut walk = Walk::new(alloc, schema.pools.cells())?;
    walk.meet(shared, NULL)?;
    walk.follow_all(shared, roots)?;
    walk.look_from(schema, shared, 0)?;
    Ok(walk)
}
