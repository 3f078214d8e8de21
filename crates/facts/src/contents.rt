//! The rows of which facts are made.
ghost use Rattle.std.specs.Prelude.{◌≡◌, ◌==◌, ◌&&◌, true, false, List, length, IfOk, OnOk, OnErr};
ghost use Rattle.fact_tables.specs.declared.known.Class.{Class};
ghost use Rattle.fact_tables.specs.declared.known.Known.{Known};
ghost use Rattle.fact_tables.specs.declared.known.Known.TheVariants.{Cell};
ghost use Rattle.fact_tables.specs.Rows.{known_at, slot_at, values_without, held_nonnull};
ghost use Rattle.facts.specs.Facts.{nothing_known, forget, define, define_test, add_class, set_known, set_class, set_slot, end_slot, load_slot, make_stale, slots_of_class, slots_without};
ghost use Rattle.facts.specs.Contents.{set_of};
ghost use Rattle.fact_tables.specs.SlotRows.{OnlyFilled, OnlyHolding, OnlyKeepers, let_go_last};
ghost use Rattle.facts.specs.TakenBack.{EndsAlone};

use crate::kept::KeptFacts;
use fact_tables::{Chains, Class, ClassId, Known, SlotFact, SlotRows, Test, Values, rows};
use ir_ast::ValueId;
use pools::LayoutId;
use shadow_stack::SlotId;
use std::alloc::{AllocError, Global};
use std::rc::Rc;

/// What is known of values, of classes and of slots.
#[derive(Drop)]
pub(crate) struct Contents {
    pub values: Values,
    pub slots: SlotRows,
}

/// Lists of slots.
#[derive(Drop)]
struct SlotLists {
    /// The slots of which something may be known.
    filled: Vec<usize>,
    /// The slots that may hold a class.
    holding: Vec<usize>,
    /// The slots that hold each class.
    keepers: Chains,
}

impl SlotLists {
    /// The lists of these slots.
    fn of(alloc: Global, slots: &SlotRows) -> Result<SlotLists, AllocError>
        ensures filled { IfOk result (λ lists. OnlyFilled lists.filled.items slots.now) }
        ensures holding { IfOk result (λ lists. OnlyHolding lists.holding.items slots.now) }
        ensures keepers { IfOk result (λ lists. OnlyKeepers lists.keepers slots.now) }
    {
        let filled = slots.filled(alloc)?;
        let holding = slots.holding(alloc)?;
        let keepers = slots.keepers(alloc, &holding)?;
        Ok(SlotLists {
            filled,
            holding,
            keepers,
        })
    }
}

impl Clone for Contents {
    ghost use Rattle.facts.specs.Contents.{set_of};

    ghost is_clone = { λ contents copy. set_of copy ≡ set_of contents };

    fn clone(&self) -> Result<Contents, AllocError> {
        let values = self.values.clone()?;
        let slots = self.slots.clone()?;
        Ok(Contents { values, slots })
    }
}

impl Contents {
    /// Nothing is known of this number of values and slots.
    pub fn new(alloc: Global, values: usize, slots: usize) -> Result<Self, AllocError>
        ensures { IfOk result (λ contents. set_of contents ≡ nothing_known values slots) }
    {
        let values = Values::new(alloc, values)?;
        let slots = SlotRows::new(alloc, slots)?;
        Ok(Contents { values, slots })
    }

    /// Rows to be shared, in which nothing is known of this number of values and slots.
    pub fn blank(alloc: Global, values: usize, slots: usize) -> Result<Rc<Contents>, AllocError>
        ensures { IfOk result (λ rows. set_of rows.value ≡ nothing_known values slots) }
    {
        let contents = Contents::new(alloc, values, slots)?;
        Ok(Rc::new(alloc, contents)?)
    }

    /// Rows to be shared, with what is known elsewhere.
    pub fn copied(alloc: Global, other: &Contents) -> Result<Rc<Contents>, AllocError>
        ensures { IfOk result (λ rows. set_of rows.value ≡ set_of other.now) }
    {
        let mut contents = Contents::new(alloc, other.values.count(), other.slots.len())?;
        match contents.copy(alloc, other) {
            Ok(()) => Ok(Rc::new(alloc, contents)?),
            Err(refused) => {
                drop(contents);
                Err(refused)
            }
        }
    }

    /// Rows to be shared, with what was kept.
    pub fn opened(alloc: Global, kept: &KeptFacts) -> Result<Rc<Contents>, AllocError>
        ensures { IfOk result (λ rows. set_of rows.value ≡ kept.now) }
    {
        let mut contents = Contents::new(alloc, kept.values.count(), kept.slots.len())?;
        match contents.open(alloc, kept) {
            Ok(()) => Ok(Rc::new(alloc, contents)?),
            Err(refused) => {
                drop(contents);
                Err(refused)
            }
        }
    }

    /// Whether there are rows for this number of values and slots.
    pub fn has(&self, values: usize, slots: usize) -> bool
        ensures { result ≡ ((length self.now.values.values == values) && (length self.now.slots == slots)) }
    {
        self.values.count() == values && self.slots.len() == slots
    }

    /// What is known of a slot.
    pub fn slot(&self, s: SlotId) -> SlotFact
        ensures { result ≡ slot_at self.now.slots s }
    {
        self.slots.slot(s)
    }

    /// Nothing is known of this number of values and slots. The rows of values are sized anew in the room that they have.
    pub fn resize(&mut self, alloc: Global, values: usize, slots: usize) -> Result<(), AllocError>
        ensures ok { OnOk result (set_of self.new ≡ nothing_known values slots) }
        ensures err { OnErr result (set_of self.new ≡ set_of self.old) }
    {
        let new_slots = SlotRows::new(alloc, slots)?;
        match self.values.resize(values) {
            Ok(()) => {
                self.slots = new_slots;
                Ok(())
            }
            Err(refused) => {
                drop(new_slots);
                Err(refused)
            }
        }
    }

    /// Nothing is known any more.
    pub fn clear(&mut self)
        ensures { set_of self.new ≡ nothing_known (length self.old.values.values) (length self.old.slots) }
    {
        self.values.clear();
        self.slots.clear();
    }

    /// What is known elsewhere of as many values and slots.
    pub fn copy(&mut self, alloc: Global, other: &Contents) -> Result<(), AllocError>
        requires values { length self.old.values.values ≡ length other.now.values.values }
        requires slots { length self.old.slots ≡ length other.now.slots }
        ensures ok { OnOk result (set_of self.new ≡ set_of other.now) }
        ensures err { OnErr result (set_of self.new ≡ set_of self.old) }
    {
        let lists = SlotLists::of(alloc, &other.slots)?;
        self.values.set_from(&other.values)?;
        self.slots
            .set_from(lists.filled, lists.holding, lists.keepers, &other.slots);
        Ok(())
    }

    /// What is known, in as much room as it fills.
    pub fn keep(&self, alloc: Global) -> Result<KeptFacts, AllocError>
        ensures { IfOk result (λ kept. kept ≡ set_of self.now) }
    {
        let values = self.values.keep(alloc)?;
        let slots = self.slots.clone()?;
        Ok(KeptFacts { values, slots })
    }

    /// What was kept of as many values and slots, in place of what is known here.
    pub fn open(&mut self, alloc: Global, kept: &KeptFacts) -> Result<(), AllocError>
        requires values { length self.old.values.values ≡ length kept.now.values }
        requires slots { length self.old.slots ≡ length kept.now.slots }
        ensures ok { OnOk result (set_of self.new ≡ kept.now) }
        ensures err { OnErr result (set_of self.new ≡ set_of self.old) }
    {
        let lists = SlotLists::of(alloc, &kept.slots)?;
        self.values.open(alloc, &kept.values)?;
        self.slots
            .set_from(lists.filled, lists.holding, lists.keepers, &kept.slots);
        Ok(())
    }

    /// Each statement that names a value ends.
    pub fn forget(&mut self, v: ValueId)
        ensures { set_of self.new ≡ forget v (set_of self.old) }
    {
        let known = self.values.known(v);
        self.values.forget(v);
        if let Known::Cell { class, .. } = known {
            self.let_go(class);
        }
    }

    /// The slots hold the class of a value that was forgotten on only while another value is of it.
    fn let_go(&mut self, c: ClassId)
        ensures values { self.new.values ≡ self.old.values }
        ensures slots { self.new.slots ≡ slots_of_class c self.old.values.values self.old.values.classes self.old.slots }
    {
        if !self.slots.may_hold(c) {
            return;
        }
        if !self.values.any_of(c) {
            let nonnull = self.values.class(c).nonnull;
            self.slots.let_go_each(c, nonnull);
        }
    }

    /// This is known of a value, and no more.
    pub fn define(&mut self, v: ValueId, known: Known) -> Result<(), AllocError>
        ensures ok { OnOk result (set_of self.new ≡ define v known (set_of self.old)) }
        ensures err { OnErr result (set_of self.new ≡ set_of self.old) }
    {
        let last = self.last_of(v);
        let nonnull = rows::held_nonnull(&self.values, &last);
        self.values.define(v, known)?;
        self.slots.let_go(&last, nonnull);
        Ok(())
    }

    /// A value is a comparison of another with a constant, and no more is known of it.
    pub fn define_test(&mut self, v: ValueId, test: Test) -> Result<(), AllocError>
        ensures ok { OnOk result (set_of self.new ≡ define_test v test (set_of self.old)) }
        ensures err { OnErr result (set_of self.new ≡ set_of self.old) }
    {
        let last = self.last_of(v);
        let nonnull = rows::held_nonnull(&self.values, &last);
        let test = rows::off_test(v, Some(test));
        self.values.define_test(v, 1, test)?;
        self.slots.let_go(&last, nonnull);
        Ok(())
    }

    /// A value is a reference to this layout, of a new class, and no more is known of it.
    pub fn define_new(
        &mut self,
        v: ValueId,
        layout: LayoutId,
        stale: bool,
        class: Class,
    ) -> Result<(), AllocError>
        ensures ok { OnOk result (set_of self.new ≡ define v (Cell (length self.old.values.classes) layout stale) (add_class class (set_of self.old))) }
        ensures err { OnErr result (set_of self.new ≡ set_of self.old) }
    {
        let last = self.last_of(v);
        self.values.define_new(v, layout, stale, class)?;
        let nonnull = rows::held_nonnull(&self.values, &last);
        self.slots.let_go(&last, nonnull);
        Ok(())
    }

    /// A value is the reference that a slot holds.
    pub fn load_slot(&mut self, v: ValueId, s: SlotId, layout: LayoutId) -> Result<(), AllocError>
        ensures ok { OnOk result (set_of self.new ≡ load_slot v s layout (set_of self.old)) }
        ensures err { OnErr result (set_of self.new ≡ set_of self.old) }
    {
        let last = self.last_of(v);
        let nonnull = rows::held_nonnull(&self.values, &last);
        let before = self.slot(s);
        let SlotFact {
            nonnull: filled,
            holds,
            ..
        } = rows::let_go_slot(&last, nonnull, before);
        match holds {
            Some(class) => {
                self.values.define_of(v, layout, class, filled)?;
                self.slots.let_go(&last, nonnull);
            }
            None => {
                self.slots.load_new(&mut self.values, v, s, layout, filled)?;
                self.slots.let_go_others(s, &last, nonnull);
            }
        }
        Ok(())
    }

    /// The class that slots hold and that has no value but `v`, if there is one.
    fn last_of(&self, v: ValueId) -> Option<ClassId>
        ensures { (classes : List Class) → slots_without (known_at self.now.values.values v) (values_without v self.now.values.values) classes self.now.slots ≡ let_go_last result (held_nonnull classes result) self.now.slots }
    {
        match self.values.known(v) {
            Known::Cell { class, .. } => self.last_held(v, class),
            _ => None,
        }
    }

    /// This class, if slots hold it and it has no value but `v`.
    fn last_held(&self, v: ValueId, c: ClassId) -> Option<ClassId>
        ensures { (classes : List Class) → slots_of_class c (values_without v self.now.values.values) classes self.now.slots ≡ let_go_last result (held_nonnull classes result) self.now.slots }
    {
        if !self.slots.may_hold(c) {
            return None;
        }
        if self.values.any_other(v, c) {
            None
        } else {
            Some(c)
        }
    }

    /// Whether it is seen that the end of what is known of a value ends nothing else.
    pub fn ends_alone(&self, v: ValueId) -> bool
        ensures { result ≡ true → EndsAlone v (set_of self.now) }
    {
        self.values.is_unnamed(v) && !self.may_be_held(self.values.known(v))
    }

    /// Whether a slot may hold the class of what is known of a value.
    fn may_be_held(&self, known: Known) -> bool
        ensures { result ≡ false → (values : List Known) (classes : List Class) → slots_without known values classes self.now.slots ≡ self.now.slots }
    {
        match known {
            Known::Cell { class, .. } => self.slots.may_hold(class),
            _ => false,
        }
    }

    /// This is known of a value besides.
    pub fn set_known(&mut self, v: ValueId, known: Known) -> Result<(), AllocError>
        ensures ok { OnOk result (set_of self.new ≡ set_known v known (set_of self.old)) }
        ensures err { OnErr result (set_of self.new ≡ set_of self.old) }
    {
        self.values.set_known(v, known)
    }

    /// This is known of a class.
    pub fn set_class(&mut self, c: ClassId, class: Class) -> Result<(), AllocError>
        ensures ok { OnOk result (set_of self.new ≡ set_class c class (set_of self.old)) }
        ensures err { OnErr result (set_of self.new ≡ set_of self.old) }
    {
        self.values.set_class(c, class)
    }

    /// This is known of a slot.
    pub fn set_slot(&mut self, s: SlotId, slot: SlotFact) -> Result<(), AllocError>
        ensures ok { OnOk result (set_of self.new ≡ set_slot s slot (set_of self.old)) }
        ensures err { OnErr result (set_of self.new ≡ set_of self.old) }
    {
        self.slots.set(s, slot)
    }

    /// What was known of a slot ends, and it may go on to hold it.
    pub fn end_slot(&mut self, s: SlotId)
        ensures { set_of self.new ≡ end_slot s (set_of self.old) }
    {
        let slot = self.slot(s);
        if let Some(c) = slot.holds {
            self.values.drop_fresh(c);
        }
        self.slots.empty(s);
    }

    /// A safepoint: each reference is stale, and the slots hold what nobody else is known to name.
    pub fn make_stale(&mut self)
        ensures { set_of self.new ≡ make_stale (set_of self.old) }
    {
        self.slots.end_holds(&self.values);
        self.values.make_stale();
    }
}
