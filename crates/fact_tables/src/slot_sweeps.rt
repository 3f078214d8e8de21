//! What changes in the slots that are listed, and what is asked of them.
ghost use Rattle.std.specs.Prelude.{◌≡◌, ◌<◌, ℕ, true, slice_set, IfOk, OnOk, OnErr};
ghost use Rattle.std.specs.List.{list_all};
ghost use Rattle.lemmas.specs.Lists.{IsIn};
ghost use Rattle.fact_tables.specs.EachListed.{each_listed, copied};
ghost use Rattle.fact_tables.specs.Chains.{listed};
ghost use Rattle.fact_tables.specs.Rows.{open_slot, slot_at, holds, let_go, end_hold};
ghost use Rattle.fact_tables.specs.SlotRows.{is_open, with_filled, with_holding, each_let_go, covers_at, NamesAll, OnlyHolding, OnlyKeepers, AreRecorded};

use crate::chains::Chains;
use crate::class_id::ClassId;
use crate::known::SlotFact;
use crate::rows;
use crate::uses::use_at;
use crate::values::Values;
use std::alloc::{AllocError, Global};

/// What is known of a slot, or nothing.
pub fn slot_at(slots: &[SlotFact], at: usize) -> SlotFact
    ensures { result ≡ slot_at slots.now at }
{
    match slots.get(at) {
        Some(slot) => *slot,
        None => SlotFact::open(),
    }
}

/// Whether nothing is known of a slot.
fn is_open(slot: &SlotFact) -> bool
    ensures { result ≡ is_open slot.now }
{
    !slot.rooted && !slot.nonnull && slot.holds.is_none()
}

/// A slot is recorded as filled, unless it was, where this was known of it.
fn record_filled(filled: &mut Vec<usize>, at: usize, before: &SlotFact) -> Result<(), AllocError>
    ensures ok { OnOk result (filled.new.items ≡ with_filled at before.now filled.old.items) }
    ensures err { OnErr result (filled.new.items ≡ filled.old.items) }
{
    if is_open(before) {
        filled.push(at)?;
    }
    Ok(())
}

/// A slot of which this is known from now on is recorded, if it holds a class.
fn record_holding(holding: &mut Vec<usize>, at: usize, after: &SlotFact) -> Result<(), AllocError>
    ensures ok { OnOk result (holding.new.items ≡ with_holding at after.now.holds holding.old.items) }
    ensures err { OnErr result (holding.new.items ≡ holding.old.items) }
{
    if after.holds.is_some() {
        holding.push(at)?;
    }
    Ok(())
}

/// A slot of which this is known from now on is a keeper of the class that it holds.
fn record_keeper(keepers: &mut Chains, at: usize, after: &SlotFact) -> Result<(), AllocError>
    ensures kept { (c s : ℕ) → IsIn s (listed keepers.old c) → IsIn s (listed keepers.new c) }
    ensures recorded { OnOk result ((c : ℕ) → holds c after.now ≡ true → IsIn at (listed keepers.new c)) }
{
    match after.holds {
        Some(c) => keepers.add(c.number(), at),
        None => Ok(()),
    }
}

/// A slot of which this is known from now on is recorded.
pub fn record_one(
    filled: &mut Vec<usize>,
    holding: &mut Vec<usize>,
    keepers: &mut Chains,
    slots: &[SlotFact],
    at: usize,
    after: &SlotFact,
) -> Result<(), AllocError>
    ensures kept { AreRecorded filled.old.items holding.old.items keepers.old slots.now → AreRecorded filled.new.items holding.new.items keepers.new slots.now }
    ensures recorded { OnOk result (AreRecorded filled.old.items holding.old.items keepers.old slots.now → AreRecorded filled.new.items holding.new.items keepers.new (slice_set slots.now at after.now)) }
{
    let before = slot_at(slots, at);
    record_filled(filled, at, &before)?;
    record_holding(holding, at, after)?;
    record_keeper(keepers, at, after)
}

/// The keepers of each class, where these slots may hold one.
pub fn keepers_of(
    alloc: Global,
    slots: &[SlotFact],
    holding: &[usize],
) -> Result<Chains, AllocError>
    ensures { IfOk result (λ keepers. OnlyHolding holding.now slots.now → OnlyKeepers keepers slots.now) }
{
    let mut keepers = Chains::new(alloc);
    for s in holding {
        let slot = slot_at(slots, *s);
        record_keeper(&mut keepers, *s, &slot)?;
    }
    Ok(keepers)
}

/// The numbers that are listed, or all below `count` where those are fewer.
pub fn shorter(alloc: Global, listed: &[usize], count: usize) -> Result<Vec<usize>, AllocError>
    ensures { IfOk result (λ names. NamesAll count listed.now names.items) }
{
    if listed.len() < count {
        Vec::from_slice(alloc, listed)
    } else {
        all_below(alloc, count)
    }
}

fn all_below(alloc: Global, count: usize) -> Result<Vec<usize>, AllocError>
    ensures { IfOk result (λ names. (s : ℕ) → s < count → IsIn s names.items) }
{
    let mut names = Vec::new(alloc);
    for at in 0..count {
        names.push(at)?;
    }
    Ok(names)
}

/// The slots are those of another list, which are open where it is shorter.
pub fn copy(slots: &mut Vec<SlotFact>, listed: &[usize], others: &[SlotFact])
    ensures { slots.new.items ≡ each_listed open_slot (copied open_slot others.now) listed.now slots.old.items }
{
    for s in listed {
        let at = *s;
        if at < slots.len() {
            slots[at] = slot_at(others, at);
        }
    }
}

/// The keepers of a class do not hold it.
pub fn let_go_each(slots: &mut Vec<SlotFact>, keepers: &Chains, c: ClassId, nonnull: bool)
    ensures { slots.new.items ≡ each_listed open_slot (λ s. let_go c nonnull) (listed keepers.now c) slots.old.items }
{
    let mut at = keepers.newest(c.number());
    for step in 0..keepers.links.len() {
        let Some(found) = use_at(&keepers.links, at) else {
            return;
        };
        let slot = slot_at(slots, found.user);
        write(slots, found.user, rows::let_go(c, nonnull, slot));
        at = found.before;
    }
}

/// The keepers of a class that has no value any more do not hold it, if there is such a class.
pub fn let_go_last(
    slots: &mut Vec<SlotFact>,
    keepers: &Chains,
    last: &Option<ClassId>,
    nonnull: bool,
)
    ensures { slots.new.items ≡ each_let_go last.now nonnull keepers.now slots.old.items }
{
    if let Some(c) = last {
        let_go_each(slots, keepers, *c, nonnull);
    }
}

/// This is known of a slot.
pub fn write(slots: &mut Vec<SlotFact>, at: usize, slot: SlotFact)
    ensures { slots.new.items ≡ slice_set slots.old.items at slot }
{
    if at < slots.len() {
        slots[at] = slot;
    }
}

/// The slots that are listed hold no class.
pub fn end_holds(slots: &mut Vec<SlotFact>, listed: &[usize], values: &Values)
    ensures { slots.new.items ≡ each_listed open_slot (λ s. end_hold values.now.classes) listed.now slots.old.items }
{
    for s in listed {
        let at = *s;
        if at < slots.len() {
            slots[at] = rows::end_hold(values, slot_at(slots, at));
        }
    }
}

/// Whether the slots that hold a class here, of which these are the keepers, hold another there.
pub fn covers(
    here: &[SlotFact],
    keepers: &Chains,
    there: &[SlotFact],
    c: ClassId,
    d: ClassId,
) -> bool
    ensures { result ≡ list_all (covers_at c d here.now there.now) (listed keepers.now c) }
{
    let mut at = keepers.newest(c.number());
    for step in 0..keepers.links.len() {
        let Some(found) = use_at(&keepers.links, at) else {
            return true;
        };
        if !covers_at(c, d, here, there, found.user) {
            return false;
        }
        at = found.before;
    }
    true
}

fn covers_at(c: ClassId, d: ClassId, here: &[SlotFact], there: &[SlotFact], at: usize) -> bool
    ensures { result ≡ covers_at c d here.now there.now at }
{
    rows::holds_class(d, slot_at(there, at).holds) || !rows::holds_class(c, slot_at(here, at).holds)
}
