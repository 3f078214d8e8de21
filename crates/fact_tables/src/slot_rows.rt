//! The slots of a function, of which few are filled, and of which few hold a class.
ghost use Rattle.std.specs.Prelude.{◌≡◌, false, map, length, replicate, slice_set, Some, IfOk, OnOk, OnErr};
ghost use Rattle.std.specs.List.{list_any, list_all, enumerate_from};
ghost use Rattle.fact_tables.specs.Rows.{open_slot, slot_at, holds, let_go, end_hold};
ghost use Rattle.fact_tables.specs.Values.{new_of};
ghost use Rattle.fact_tables.specs.Covers.{covers_slot};
ghost use Rattle.fact_tables.specs.SlotRows.{OnlyFilled, OnlyHolding, OnlyKeepers, empty_slot, let_go_last, let_go_others};

use crate::chains::Chains;
use crate::class_id::ClassId;
use crate::known::{Class, SlotFact};
use crate::values::Values;
use crate::{rows, slot_sweeps};
use ir_ast::ValueId;
use pools::LayoutId;
use shadow_stack::SlotId;
use std::alloc::{AllocError, Global};
use std::marker::Model;

/// What is known of each slot.
#[derive(Drop)]
pub struct SlotRows {
    slots: Vec<SlotFact>,
    /// The slots of which something may be known.
    filled: Vec<usize>,
    /// The slots that may hold a class.
    holding: Vec<usize>,
    /// The slots that have held each class.
    keepers: Chains,
}

impl Model for SlotRows {
    ghost use Rattle.std.specs.Prelude.{List};
    ghost use Rattle.fact_tables.specs.declared.known.SlotFact.{SlotFact};
    ghost use Rattle.fact_tables.specs.SlotRows.{AreRecorded};

    ghost Value = { List SlotFact };

    ghost view = { λ rows. rows.slots.items };

    ghost invariant = { λ rows. AreRecorded rows.filled.items rows.holding.items rows.keepers rows.slots.items };
}

impl Clone for SlotRows {
    ghost is_clone = { λ rows copy. copy ≡ rows };

    fn clone(&self) -> Result<SlotRows, AllocError> {
        let slots = Vec::from_slice(*self.slots.allocator(), &self.slots)?;
        let filled = Vec::from_slice(*self.filled.allocator(), &self.filled)?;
        let holding = Vec::from_slice(*self.holding.allocator(), &self.holding)?;
        let keepers = slot_sweeps::keepers_of(*self.slots.allocator(), &self.slots, &self.holding)?;
        Ok(SlotRows {
            slots,
            filled,
            holding,
            keepers,
        })
    }
}

impl SlotRows {
    /// `count` slots of which nothing is known.
    pub fn new(alloc: Global, count: usize) -> Result<Self, AllocError>
        ensures { IfOk result (λ rows. rows ≡ replicate count open_slot) }
    {
        let slots = rows::open_slots(alloc, count)?;
        Ok(SlotRows {
            slots,
            filled: Vec::new(alloc),
            holding: Vec::new(alloc),
            keepers: Chains::new(alloc),
        })
    }

    /// How many slots there are.
    pub fn len(&self) -> usize
        ensures { result ≡ length self.now }
    {
        self.slots.len()
    }

    /// What is known of a slot.
    pub fn slot(&self, s: SlotId) -> SlotFact
        ensures { result ≡ slot_at self.now s }
    {
        slot_sweeps::slot_at(&self.slots, s.number())
    }

    /// This is known of a slot.
    pub fn set(&mut self, s: SlotId, slot: SlotFact) -> Result<(), AllocError>
        ensures ok { OnOk result (self.new ≡ slice_set self.old s slot) }
        ensures err { OnErr result (self.new ≡ self.old) }
    {
        let at = s.number();
        slot_sweeps::record_one(
            &mut self.filled,
            &mut self.holding,
            &mut self.keepers,
            &self.slots,
            at,
            &slot,
        )?;
        slot_sweeps::write(&mut self.slots, at, slot);
        Ok(())
    }

    /// Of what a slot holds nothing is known.
    pub fn empty(&mut self, s: SlotId)
        ensures { self.new ≡ slice_set self.old s (empty_slot (slot_at self.old s)) }
    {
        let at = s.number();
        if at < self.slots.len() {
            let before = slot_sweeps::slot_at(&self.slots, at);
            self.slots[at] = SlotFact {
                nonnull: false,
                holds: None,
                ..before
            };
        }
    }

    /// Nothing is known of any slot.
    pub fn clear(&mut self)
        ensures { self.new ≡ replicate (length self.old) open_slot }
    {
        slot_sweeps::copy(&mut self.slots, &self.filled, &[]);
        self.filled.clear();
        self.holding.clear();
        self.keepers = Chains::new(*self.slots.allocator());
    }

    /// The slots of which something may be known, each once if that is shorter.
    pub fn filled(&self, alloc: Global) -> Result<Vec<usize>, AllocError>
        ensures { IfOk result (λ filled. OnlyFilled filled.items self.now) }
    {
        slot_sweeps::shorter(alloc, &self.filled, self.slots.len())
    }

    /// The slots that may hold a class, each once if that is shorter.
    pub fn holding(&self, alloc: Global) -> Result<Vec<usize>, AllocError>
        ensures { IfOk result (λ holding. OnlyHolding holding.items self.now) }
    {
        slot_sweeps::shorter(alloc, &self.holding, self.slots.len())
    }

    /// The slots that hold each class, where these may hold one.
    pub fn keepers(&self, alloc: Global, holding: &[usize]) -> Result<Chains, AllocError>
        ensures { IfOk result (λ keepers. OnlyHolding holding.now self.now → OnlyKeepers keepers self.now) }
    {
        slot_sweeps::keepers_of(alloc, &self.slots, holding)
    }

    /// The slots are as they are elsewhere, where these may be filled and may hold a class, and these hold each class.
    pub fn set_from(
        &mut self,
        filled: Vec<usize>,
        holding: Vec<usize>,
        keepers: Chains,
        other: &SlotRows,
    )
        requires long { length self.old ≡ length other.now }
        requires filled { OnlyFilled filled.items other.now }
        requires holding { OnlyHolding holding.items other.now }
        requires keepers { OnlyKeepers keepers other.now }
        ensures { self.new ≡ other.now }
    {
        slot_sweeps::copy(&mut self.slots, &self.filled, &[]);
        slot_sweeps::copy(&mut self.slots, &filled, &other.slots);
        self.filled = filled;
        self.holding = holding;
        self.keepers = keepers;
    }

    /// Whether a slot has held this class: if none has, none holds it.
    pub fn may_hold(&self, c: ClassId) -> bool
        ensures { result ≡ false → list_any (holds c) self.now ≡ false }
    {
        self.keepers.newest(c.number()).is_some()
    }

    /// No slot holds the class.
    pub fn let_go_each(&mut self, c: ClassId, nonnull: bool)
        ensures { self.new ≡ map (let_go c nonnull) self.old }
    {
        slot_sweeps::let_go_each(&mut self.slots, &self.keepers, c, nonnull);
    }

    /// No slot but `s` holds a class that has no value any more, if there is such a class.
    pub fn let_go_others(&mut self, s: SlotId, last: &Option<ClassId>, nonnull: bool)
        ensures { self.new ≡ let_go_others s last.now nonnull self.old }
    {
        let at = s.number();
        let kept = slot_sweeps::slot_at(&self.slots, at);
        slot_sweeps::let_go_last(&mut self.slots, &self.keepers, last, nonnull);
        slot_sweeps::write(&mut self.slots, at, kept);
    }

    /// No slot holds a class that has no value any more, if there is such a class.
    pub fn let_go(&mut self, last: &Option<ClassId>, nonnull: bool)
        ensures { self.new ≡ let_go_last last.now nonnull self.old }
    {
        if let Some(c) = last {
            self.let_go_each(*c, nonnull);
        }
    }

    /// No slot holds a class.
    pub fn end_holds(&mut self, values: &Values)
        ensures { self.new ≡ map (end_hold values.now.classes) self.old }
    {
        slot_sweeps::end_holds(&mut self.slots, &self.holding, values);
        self.holding.clear();
        self.keepers = Chains::new(*self.slots.allocator());
    }

    /// A value is the reference that a slot holds: it is of a new class, which is not null where this holds.
    pub fn load_new(
        &mut self,
        values: &mut Values,
        v: ValueId,
        s: SlotId,
        layout: LayoutId,
        nonnull: bool,
    ) -> Result<(), AllocError>
        ensures ok { OnOk result ((values.new ≡ new_of v layout nonnull values.old) × (self.new ≡ slice_set self.old s (record (slot_at self.old s) { nonnull = nonnull; holds = Some (length values.old.classes) }))) }
        ensures err { OnErr result ((values.new ≡ values.old) × (self.new ≡ self.old)) }
    {
        let at = s.number();
        let before = slot_sweeps::slot_at(&self.slots, at);
        let slot = SlotFact {
            nonnull,
            holds: Some(values.next_class()),
            ..before
        };
        slot_sweeps::record_one(
            &mut self.filled,
            &mut self.holding,
            &mut self.keepers,
            &self.slots,
            at,
            &slot,
        )?;
        let fresh = false;
        values.define_new(v, layout, false, Class { nonnull, fresh })?;
        slot_sweeps::write(&mut self.slots, at, slot);
        Ok(())
    }

    /// Whether all slots that hold a class here hold another there.
    pub fn covers(&self, there: &SlotRows, c: ClassId, d: ClassId) -> bool
        ensures { result ≡ list_all (covers_slot c d there.now) (enumerate_from 0 self.now) }
    {
        slot_sweeps::covers(&self.slots, &self.keepers, &there.slots, c, d)
    }
}
