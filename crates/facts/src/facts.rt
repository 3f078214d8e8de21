ghost use Rattle.std.specs.Prelude.{◌≡◌, true, ◌==◌, ◌&&◌, length, IfOk, OnOk, OnErr};
ghost use Rattle.fact_tables.specs.Rows.{known_at, slot_at, class_at, test_at, slot_nonnull};
ghost use Rattle.facts.specs.Facts.{FactSet, AreFacts, nothing_known, forget, define, define_new, define_test, set_known, set_class, drop_fresh, drop_fresh_of, learn_nonnull, after_phis, set_slot, clear_slot, end_slot, root_slot, hold, store_slot, load_slot, make_stale};
ghost use Rattle.facts.specs.Claims.{covers, facts_of_claims};
ghost use Rattle.facts.specs.Contents.{HasRows, set_of};
ghost use Rattle.facts.specs.TakenBack.{DifferBy};

use crate::contents::Contents;
use crate::entry::Entry;
use crate::kept::KeptFacts;
use crate::spare_rows::SpareRows;
use certs::Claim;
use fact_tables::{Class, ClassId, Known, SlotFact, Test, rows};
use ir_ast::ValueId;
use pools::LayoutId;
use shadow_stack::{SlotId, Slots};
use std::alloc::{AllocError, Global};
use std::marker::Model;
use std::mem;
use std::rc::Rc;

/// What is known at a place of a function. A value names its class, and what is known of a class is kept there once.
/// Sharers use one list of rows, until one of them is written: that one gets rows of its own first.
#[derive(Drop)]
pub struct Facts {
    contents: Rc<Contents>,
}

impl Model for Facts {
    ghost use Rattle.facts.specs.Facts.{FactSet};
    ghost use Rattle.facts.specs.Contents.{set_of};

    ghost Value = { FactSet };

    ghost view = { λ facts. set_of facts.contents.value };
}

impl Facts {
    /// Nothing is known of this number of values and slots.
    pub fn new(alloc: Global, values: usize, slots: usize) -> Result<Self, AllocError>
        ensures { IfOk result (λ facts. facts ≡ nothing_known values slots) }
    {
        Ok(Facts {
            contents: Contents::blank(alloc, values, slots)?,
        })
    }

    /// The same facts, which stay as they are when these are written, and the other way round.
    pub fn share(&self) -> Result<Facts, AllocError>
        ensures { IfOk result (λ facts. facts ≡ self.now) }
    {
        Ok(Facts {
            contents: self.contents.clone()?,
        })
    }

    /// What is known of a value.
    pub fn known(&self, v: ValueId) -> Known
        ensures { result ≡ known_at self.now.values v }
    {
        self.contents.values.known(v)
    }

    /// What is known of a slot.
    pub fn slot(&self, s: SlotId) -> SlotFact
        ensures { result ≡ slot_at self.now.slots s }
    {
        self.contents.slot(s)
    }

    /// What is known of a class.
    pub fn class(&self, c: ClassId) -> Class
        ensures { result ≡ class_at self.now.classes c }
    {
        self.contents.values.class(c)
    }

    /// The comparison that gave a value.
    pub fn test(&self, v: ValueId) -> Option<Test>
        ensures { result ≡ test_at self.now.tests v }
    {
        self.contents.values.test(v)
    }

    /// Each value has a class for itself, whatever was written: what the laws ask of facts.
    pub fn classes_law(&self)
        ensures { AreFacts self.now }
    {
        self.contents.values.classes_law();
    }

    /// Nothing is known of this number of values and slots, in place of what is known here.
    pub fn reset(&mut self, alloc: Global, values: usize, slots: usize) -> Result<(), AllocError>
        ensures ok { OnOk result (self.new ≡ nothing_known values slots) }
        ensures err { OnErr result (self.new ≡ self.old) }
    {
        let has = self.has(values, slots);
        let contents = Rc::make_mut(&mut self.contents)?;
        if has {
            contents.clear();
            Ok(())
        } else {
            contents.resize(alloc, values, slots)
        }
    }

    /// What a block with these claims begins with, in a function of this number of values and with these slots, in place of
    /// what is known.
    pub fn begin(
        &mut self,
        alloc: Global,
        spare: &mut SpareRows,
        values: usize,
        table: &Slots,
        claims: &[Claim],
    ) -> Result<(), AllocError>
        ensures ok { OnOk result (self.new ≡ facts_of_claims table.now values (length table.now.held) claims.now) }
        ensures err { OnErr result (self.new ≡ self.old) }
    {
        let mut rows = spare.take(alloc, values, table.count())?;
        begin_in(alloc, &mut rows, table, claims)?;
        self.put(rows, spare);
        Ok(())
    }

    /// The phis of a block, each with what is known of its entry, where the block is entered.
    pub fn after_phis(
        &mut self,
        alloc: Global,
        spare: &mut SpareRows,
        entries: &[Entry],
    ) -> Result<(), AllocError>
        ensures ok { OnOk result (self.new ≡ after_phis entries.now self.old) }
        ensures err { OnErr result (self.new ≡ self.old) }
    {
        if entries.is_empty() {
            return Ok(());
        }
        let values = self.contents.values.count();
        let slots = self.contents.slots.len();
        let mut rows = spare.take(alloc, values, slots)?;
        enter_in(alloc, &mut rows, &self.contents, entries)?;
        self.put(rows, spare);
        Ok(())
    }

    /// The same, where other facts have what is known here. If this is true, `take_back` takes back what the phis changed.
    pub fn try_phis(&mut self, entries: &[Entry], before: &Facts) -> Result<bool, AllocError>
        requires { self.old ≡ before.now }
        ensures ok { OnOk result (self.new ≡ after_phis entries.now self.old) }
        ensures err { OnErr result (self.new ≡ self.old) }
        ensures back { IfOk result (λ back. back ≡ true → DifferBy entries.now self.old self.new) }
    {
        let kept = before.contents.clone()?;
        let result = enter(&mut self.contents, entries);
        if result.is_err() {
            self.contents = kept;
        }
        result
    }

    /// What was known before these phis took what came in, if they changed no more than this can take back: other facts have it.
    /// Where there is no memory to write it, their rows are shared.
    pub fn take_back(&mut self, entries: &[Entry], before: &Facts) -> Result<(), AllocError>
        requires { DifferBy entries.now before.now self.old }
        ensures ok { OnOk result (self.new ≡ before.now) }
        ensures err { OnErr result (self.new ≡ self.old) }
    {
        let kept = before.contents.clone()?;
        if take_back(&mut self.contents, entries, &before.contents).is_err() {
            self.contents = kept;
        }
        Ok(())
    }

    /// What is known elsewhere, in place of what is known here.
    pub fn set_from(&mut self, alloc: Global, other: &Facts) -> Result<(), AllocError>
        ensures ok { OnOk result (self.new ≡ other.now) }
        ensures err { OnErr result (self.new ≡ self.old) }
    {
        let values = other.contents.values.count();
        let slots = other.contents.slots.len();
        if self.has(values, slots) {
            Rc::make_mut(&mut self.contents)?.copy(alloc, &other.contents)
        } else {
            self.replace(Contents::copied(alloc, &other.contents)?);
            Ok(())
        }
    }

    /// What is known, to be kept.
    pub fn keep(&self, alloc: Global) -> Result<KeptFacts, AllocError>
        ensures { IfOk result (λ kept. kept ≡ self.now) }
    {
        self.contents.keep(alloc)
    }

    /// What was kept, in place of what is known here.
    pub fn open(&mut self, alloc: Global, kept: &KeptFacts) -> Result<(), AllocError>
        ensures ok { OnOk result (self.new ≡ kept.now) }
        ensures err { OnErr result (self.new ≡ self.old) }
    {
        let values = kept.values.count();
        let slots = kept.slots.len();
        if self.has(values, slots) {
            Rc::make_mut(&mut self.contents)?.open(alloc, kept)
        } else {
            self.replace(Contents::opened(alloc, kept)?);
            Ok(())
        }
    }

    /// Whether there are rows for this number of values and slots.
    fn has(&self, values: usize, slots: usize) -> bool
        ensures { result ≡ ((length self.now.values == values) && (length self.now.slots == slots)) }
    {
        self.contents.has(values, slots)
    }

    /// What is known is this from now on.
    fn replace(&mut self, contents: Rc<Contents>)
        ensures { self.new ≡ set_of contents.value }
    {
        self.contents = contents;
    }

    /// What is known is this from now on. The rows that there were are to spare.
    fn put(&mut self, contents: Rc<Contents>, spare: &mut SpareRows)
        ensures { self.new ≡ set_of contents.value }
    {
        spare.keep(mem::replace(&mut self.contents, contents));
    }

    /// Each statement that names a value ends.
    pub fn forget(&mut self, v: ValueId) -> Result<(), AllocError>
        ensures ok { OnOk result (self.new ≡ forget v self.old) }
        ensures err { OnErr result (self.new ≡ self.old) }
    {
        Rc::make_mut(&mut self.contents)?.forget(v);
        Ok(())
    }

    /// This is known of a value, and no more.
    pub fn define(&mut self, v: ValueId, known: Known) -> Result<(), AllocError>
        ensures ok { OnOk result (self.new ≡ define v known self.old) }
        ensures err { OnErr result (self.new ≡ self.old) }
    {
        Rc::make_mut(&mut self.contents)?.define(v, known)
    }

    /// A value is a reference to this layout, of a new class.
    pub fn define_new(
        &mut self,
        v: ValueId,
        layout: LayoutId,
        class: Class,
    ) -> Result<(), AllocError>
        ensures ok { OnOk result (self.new ≡ define_new v layout class self.old) }
        ensures err { OnErr result (self.new ≡ self.old) }
    {
        Rc::make_mut(&mut self.contents)?.define_new(v, layout, false, class)
    }

    /// A value is a comparison of another with a constant.
    pub fn define_test(&mut self, v: ValueId, test: Test) -> Result<(), AllocError>
        ensures ok { OnOk result (self.new ≡ define_test v test self.old) }
        ensures err { OnErr result (self.new ≡ self.old) }
    {
        Rc::make_mut(&mut self.contents)?.define_test(v, test)
    }

    /// What is stored goes where others may find it: its class is fresh no more.
    pub fn drop_fresh_of(&mut self, known: Known) -> Result<(), AllocError>
        ensures ok { OnOk result (self.new ≡ drop_fresh_of known self.old) }
        ensures err { OnErr result (self.new ≡ self.old) }
    {
        match known {
            Known::Cell { class, .. } => self.drop_fresh(class),
            _ => Ok(()),
        }
    }

    /// Of what a slot holds nothing is known.
    pub fn clear_slot(&mut self, s: SlotId) -> Result<(), AllocError>
        ensures ok { OnOk result (self.new ≡ clear_slot s self.old) }
        ensures err { OnErr result (self.new ≡ self.old) }
    {
        let slot = self.slot(s);
        self.set_slot(
            s,
            SlotFact {
                nonnull: false,
                holds: None,
                ..slot
            },
        )
    }

    /// What was known of a slot ends, and it may go on to hold it.
    pub fn end_slot(&mut self, s: SlotId) -> Result<(), AllocError>
        ensures ok { OnOk result (self.new ≡ end_slot s self.old) }
        ensures err { OnErr result (self.new ≡ self.old) }
    {
        Rc::make_mut(&mut self.contents)?.end_slot(s);
        Ok(())
    }

    /// A gcroot names a slot.
    pub fn root_slot(&mut self, s: SlotId) -> Result<(), AllocError>
        ensures ok { OnOk result (self.new ≡ root_slot s self.old) }
        ensures err { OnErr result (self.new ≡ self.old) }
    {
        self.set_slot(
            s,
            SlotFact {
                rooted: true,
                nonnull: false,
                holds: None,
            },
        )
    }

    /// A slot holds what is known of a value.
    pub fn store_slot(&mut self, s: SlotId, known: Known) -> Result<(), AllocError>
        ensures ok { OnOk result (self.new ≡ store_slot s known self.old) }
        ensures err { OnErr result (self.new ≡ self.old) }
    {
        match known {
            Known::Cell { class, .. } => self.hold(s, class),
            _ => self.clear_slot(s),
        }
    }

    /// A value is the reference that a slot holds.
    pub fn load_slot(&mut self, v: ValueId, s: SlotId, layout: LayoutId) -> Result<(), AllocError>
        ensures ok { OnOk result (self.new ≡ load_slot v s layout self.old) }
        ensures err { OnErr result (self.new ≡ self.old) }
    {
        Rc::make_mut(&mut self.contents)?.load_slot(v, s, layout)
    }

    /// A safepoint: each reference is stale, and the slots hold what nobody else is known to name.
    pub fn make_stale(&mut self) -> Result<(), AllocError>
        ensures ok { OnOk result (self.new ≡ make_stale self.old) }
        ensures err { OnErr result (self.new ≡ self.old) }
    {
        Rc::make_mut(&mut self.contents)?.make_stale();
        Ok(())
    }

    /// This is known of a value besides.
    pub(crate) fn set_known(&mut self, v: ValueId, known: Known) -> Result<(), AllocError>
        ensures ok { OnOk result (self.new ≡ set_known v known self.old) }
        ensures err { OnErr result (self.new ≡ self.old) }
    {
        Rc::make_mut(&mut self.contents)?.set_known(v, known)
    }

    /// A class is not null where this holds.
    pub(crate) fn learn_nonnull(&mut self, c: ClassId, nonnull: bool) -> Result<(), AllocError>
        ensures ok { OnOk result (self.new ≡ learn_nonnull c nonnull self.old) }
        ensures err { OnErr result (self.new ≡ self.old) }
    {
        let class = self.class(c);
        let nonnull = class.nonnull || nonnull;
        self.set_class(c, Class { nonnull, ..class })
    }

    /// A class is fresh no more.
    pub(crate) fn drop_fresh(&mut self, c: ClassId) -> Result<(), AllocError>
        ensures ok { OnOk result (self.new ≡ drop_fresh c self.old) }
        ensures err { OnErr result (self.new ≡ self.old) }
    {
        Rc::make_mut(&mut self.contents)?.values.drop_fresh(c);
        Ok(())
    }

    pub(crate) fn set_class(&mut self, c: ClassId, class: Class) -> Result<(), AllocError>
        ensures ok { OnOk result (self.new ≡ set_class c class self.old) }
        ensures err { OnErr result (self.new ≡ self.old) }
    {
        Rc::make_mut(&mut self.contents)?.set_class(c, class)
    }

    pub(crate) fn set_slot(&mut self, s: SlotId, slot: SlotFact) -> Result<(), AllocError>
        ensures ok { OnOk result (self.new ≡ set_slot s slot self.old) }
        ensures err { OnErr result (self.new ≡ self.old) }
    {
        Rc::make_mut(&mut self.contents)?.set_slot(s, slot)
    }

    fn hold(&mut self, s: SlotId, c: ClassId) -> Result<(), AllocError>
        ensures ok { OnOk result (self.new ≡ hold s c self.old) }
        ensures err { OnErr result (self.new ≡ self.old) }
    {
        let slot = self.slot(s);
        let nonnull = self.class(c).nonnull;
        self.set_slot(
            s,
            SlotFact {
                nonnull,
                holds: Some(c),
                ..slot
            },
        )
    }

    /// Whether what a slot with this fact holds is not null.
    pub fn slot_nonnull(&self, slot: SlotFact) -> bool
        ensures { result ≡ slot_nonnull self.now.classes slot }
    {
        rows::slot_nonnull(&self.contents.values, slot)
    }

    /// Whether all that is of a class here is listed there as of another.
    pub(crate) fn covers(&self, there: &Facts, c: ClassId, d: ClassId) -> bool
        ensures { result ≡ covers self.now there.now c d }
    {
        let (here, there) = (&self.contents, &there.contents);
        here.values.covers(&there.values, c, d) && here.slots.covers(&there.slots, c, d)
    }
}

/// What a block with these claims begins with, in these rows.
fn begin_in(
    alloc: Global,
    rows: &mut Rc<Contents>,
    table: &Slots,
    claims: &[Claim],
) -> Result<(), AllocError>
    ensures { OnOk result (set_of rows.new.value ≡ facts_of_claims table.now (length rows.old.value.values.values) (length rows.old.value.slots) claims.now) }
{
    Rc::make_mut(rows)?.begin(alloc, table, claims)
}

/// What is known after these phis where this was known before, in rows for as many values and slots.
fn enter_in(
    alloc: Global,
    rows: &mut Rc<Contents>,
    before: &Contents,
    entries: &[Entry],
) -> Result<(), AllocError>
    requires { HasRows (length before.now.values.values) (length before.now.slots) rows.old.value }
    ensures { OnOk result (set_of rows.new.value ≡ after_phis entries.now (set_of before.now)) }
{
    let written = Rc::make_mut(rows)?;
    written.copy(alloc, before)?;
    written.enter(entries)?;
    Ok(())
}

fn enter(contents: &mut Rc<Contents>, entries: &[Entry]) -> Result<bool, AllocError>
    ensures ok { OnOk result (set_of contents.new.value ≡ after_phis entries.now (set_of contents.old.value)) }
    ensures back { IfOk result (λ back. back ≡ true → DifferBy entries.now (set_of contents.old.value) (set_of contents.new.value)) }
{
    Rc::make_mut(contents)?.enter(entries)
}

fn take_back(
    contents: &mut Rc<Contents>,
    entries: &[Entry],
    before: &Contents,
) -> Result<(), AllocError>
    requires { DifferBy entries.now (set_of before.now) (set_of contents.old.value) }
    ensures { OnOk result (set_of contents.new.value ≡ set_of before.now) }
{
    Rc::make_mut(contents)?.take_back(entries, before)
}
