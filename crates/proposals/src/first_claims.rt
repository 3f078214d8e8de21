//! The claims of a block by the first edge to it.
use crate::draft_claims::BlockClaims;
use crate::summary::FunctionSummary;
use block_rules::RuleContext;
use certs::{Age, Claim, Fact, Family, family_of_value};
use facts::{ClassId, Facts, Known};
use indexmap::{IndexMap, IndexSet};
use ir_ast::{BlockId, ValueId};
use number_tables::row_or;
use pools::{LayoutId, WordSet};
use shadow_stack::SlotId;
use std::alloc::{AllocError, Global};

/// Whether a slot was seen before that holds the same.
#[derive(Clone, Copy)]
enum Seen {
    Once,
    Again,
}

/// What is listed of what is known on an edge.
#[derive(Drop)]
struct Lister<'a> {
    rule_context: RuleContext<'a>,
    summary: &'a FunctionSummary<'a>,
    facts: &'a Facts,
    /// What is wanted, in its order.
    wanted: &'a [u32],
    listed: BlockClaims,
    /// The first value that is listed of each class.
    firsts: IndexMap<usize, ValueId>,
}

/// The claims of a block by what is known on the first edge to it; `names` are all values of which something may be known.
pub fn first_claims(
    alloc: Global,
    rule_context: RuleContext<'_>,
    summary: &FunctionSummary,
    facts: &Facts,
    to: BlockId,
    names: &[ValueId],
) -> Result<BlockClaims, AllocError> {
    let mut lister = Lister {
        rule_context,
        summary,
        facts,
        wanted: summary.reading.wanted.group(to.number() as usize),
        listed: BlockClaims::new(alloc),
        firsts: IndexMap::new(alloc),
    };
    match lister.list(alloc, names) {
        Ok(()) => Ok(lister.into_listed()),
        Err(refused) => {
            drop(lister);
            Err(refused)
        }
    }
}

impl<'a> Lister<'a> {
    fn list(&mut self, alloc: Global, names: &[ValueId]) -> Result<(), AllocError> {
        self.values()?;
        self.held(alloc, names)?;
        self.addresses()?;
        self.slots()
    }

    fn into_listed(self) -> BlockClaims {
        self.listed
    }

    fn is_wanted(&self, number: u32) -> bool {
        self.wanted.binary_search(&number).is_ok()
    }

    fn is_slot_wanted(&self, slot: SlotId) -> bool {
        let values = self.rule_context.function.locals.count();
        match u32::try_from(values.saturating_add(slot.number())) {
            Ok(number) => self.is_wanted(number),
            Err(_) => false,
        }
    }

    fn value(&mut self, value: ValueId, fact: Fact) -> Result<(), AllocError> {
        self.listed.add(Claim::Value { value, fact }, 0)
    }

    /// The numbers and references that are wanted.
    fn values(&mut self) -> Result<(), AllocError> {
        for number in self.wanted {
            let value = ValueId::new(*number);
            match self.facts.known(value) {
                Known::Number { bits, below } => {
                    self.value(value, Fact::Number { bits, below })?;
                }
                Known::Cell {
                    class,
                    layout,
                    stale,
                } => self.cell(value, class, layout, stale)?,
                Known::Null => self.null(value)?,
                Known::Nothing | Known::Address { .. } | Known::GlobalAddress(_) => {}
            }
        }
        Ok(())
    }

    /// A stale reference is of no use.
    fn cell(
        &mut self,
        value: ValueId,
        class: ClassId,
        layout: LayoutId,
        stale: bool,
    ) -> Result<(), AllocError> {
        if stale {
            Ok(())
        } else {
            self.reference(value, class, layout)
        }
    }

    fn reference(
        &mut self,
        value: ValueId,
        class: ClassId,
        layout: LayoutId,
    ) -> Result<(), AllocError> {
        let known = self.facts.class(class);
        let same = self.firsts.get(&class.number()).copied();
        let age = if known.fresh { Age::Fresh } else { Age::Held };
        self.value(
            value,
            Fact::Reference {
                layout,
                nonnull: known.nonnull,
                age,
                same,
            },
        )?;
        if same.is_none() {
            self.firsts.insert(class.number(), value)?;
        }
        Ok(())
    }

    /// Null has the layout that its type or the text gives.
    fn null(&mut self, value: ValueId) -> Result<(), AllocError> {
        let Some(layout) = self.null_layout(value) else {
            return Ok(());
        };
        self.value(
            value,
            Fact::Reference {
                layout,
                nonnull: false,
                age: Age::Held,
                same: None,
            },
        )
    }

    fn null_layout(&self, value: ValueId) -> Option<LayoutId> {
        match family_of_value(
            self.rule_context.module(),
            self.rule_context.function,
            value,
        ) {
            Family::Reference(layout) => Some(layout),
            _ => self.summary.layout_of(value),
        }
    }

    /// The addresses that are wanted, on references that are listed.
    fn addresses(&mut self) -> Result<(), AllocError> {
        for number in self.wanted {
            let value = ValueId::new(*number);
            match self.facts.known(value) {
                Known::Address { base, words } => self.address(value, base, words)?,
                Known::GlobalAddress(global) => {
                    self.value(value, Fact::GlobalAddress(global))?;
                }
                Known::Nothing | Known::Number { .. } | Known::Cell { .. } | Known::Null => {}
            }
        }
        Ok(())
    }

    fn address(&mut self, value: ValueId, base: ValueId, words: WordSet) -> Result<(), AllocError> {
        if self.is_wanted(base.number()) && is_current(self.facts.known(base)) {
            self.value(value, Fact::Address { base, words })
        } else {
            Ok(())
        }
    }

    /// What a wanted slot holds is listed, though it is not wanted, where two slots hold it. Where it is fresh it is listed by its
    /// first name, which most edges to a block imply.
    fn held(&mut self, alloc: Global, names: &[ValueId]) -> Result<(), AllocError> {
        let mut once = IndexSet::new(alloc);
        let mut hidden = IndexMap::new(alloc);
        let held = self.held_by_slots(&mut once, &mut hidden, names);
        drop(hidden);
        drop(once);
        held
    }

    fn held_by_slots(
        &mut self,
        once: &mut IndexSet<usize>,
        hidden: &mut IndexMap<usize, (ValueId, LayoutId)>,
        names: &[ValueId],
    ) -> Result<(), AllocError> {
        for slot in self.summary.slots.root_slots() {
            if let Some(class) = self.class_kept(*slot) {
                let seen = if once.insert(class.number())? {
                    Seen::Once
                } else {
                    Seen::Again
                };
                if self.is_name_needed(class, seen) {
                    self.list_hidden(hidden, names, class)?;
                }
            }
        }
        Ok(())
    }

    /// The class that a wanted slot holds.
    fn class_kept(&self, slot: SlotId) -> Option<ClassId> {
        let class = self.held_class(slot)?;
        if self.is_slot_wanted(slot) {
            Some(class)
        } else {
            None
        }
    }

    /// Whether a value of a class that a slot holds is to be listed besides those that are wanted.
    fn is_name_needed(&self, class: ClassId, seen: Seen) -> bool {
        match seen {
            Seen::Once => self.facts.class(class).fresh,
            Seen::Again => self.firsts.get(&class.number()).is_none(),
        }
    }

    fn list_hidden(
        &mut self,
        hidden: &mut IndexMap<usize, (ValueId, LayoutId)>,
        names: &[ValueId],
        class: ClassId,
    ) -> Result<(), AllocError> {
        if hidden.is_empty() {
            self.find_hidden(hidden, names)?;
        }
        match hidden.get(&class.number()).copied() {
            Some((value, layout)) if !self.is_wanted(value.number()) => {
                self.reference(value, class, layout)
            }
            _ => Ok(()),
        }
    }

    /// The first value of each class of which one has a name.
    fn find_hidden(
        &self,
        hidden: &mut IndexMap<usize, (ValueId, LayoutId)>,
        names: &[ValueId],
    ) -> Result<(), AllocError> {
        for value in names {
            record_hidden(hidden, *value, self.facts.known(*value))?;
        }
        Ok(())
    }

    /// The slots that are wanted, and those that hold what is listed as fresh.
    fn slots(&mut self) -> Result<(), AllocError> {
        for slot in self.summary.slots.root_slots() {
            self.slot(*slot)?;
        }
        Ok(())
    }

    fn slot(&mut self, slot: SlotId) -> Result<(), AllocError> {
        let nonnull = self.is_slot_nonnull(slot);
        let holds = self.first_of(self.held_class(slot));
        let fresh = holds.is_some() && self.is_fresh(self.held_class(slot));
        let says = nonnull || holds.is_some();
        let listed = says && (fresh || self.is_slot_wanted(slot));
        let name = row_or(&self.summary.reading.guesses.slots, slot.number(), None);
        if !listed {
            return Ok(());
        }
        match name {
            Some(name) => self.listed.add(
                Claim::Slot {
                    slot: name,
                    nonnull,
                    holds,
                },
                0,
            ),
            None => Ok(()),
        }
    }

    fn held_class(&self, slot: SlotId) -> Option<ClassId> {
        self.facts.slot(slot).holds
    }

    fn is_slot_nonnull(&self, slot: SlotId) -> bool {
        let fact = self.facts.slot(slot);
        self.facts.slot_nonnull(fact)
    }

    /// The first value that is listed of a class.
    fn first_of(&self, class: Option<ClassId>) -> Option<ValueId> {
        self.firsts.get(&class?.number()).copied()
    }

    fn is_fresh(&self, class: Option<ClassId>) -> bool {
        match class {
            Some(class) => self.facts.class(class).fresh,
            None => false,
        }
    }
}

/// Whether it is a reference that is not stale.
fn is_current(known: Known) -> bool {
    match known {
        Known::Cell { stale, .. } => !stale,
        _ => false,
    }
}

fn record_hidden(
    hidden: &mut IndexMap<usize, (ValueId, LayoutId)>,
    value: ValueId,
    known: Known,
) -> Result<(), AllocError> {
    match known {
        Known::Cell {
            class,
            layout,
            stale,
        } => {
            if stale {
                Ok(())
            } else {
                record_first(hidden, value, class, layout)
            }
        }
        _ => Ok(()),
    }
}

/// Records a value of a class, unless one that comes before is recorded.
fn record_first(
    hidden: &mut IndexMap<usize, (ValueId, LayoutId)>,
    value: ValueId,
    class: ClassId,
    layout: LayoutId,
) -> Result<(), AllocError> {
    if comes_before(value, hidden.get(&class.number())) {
        hidden.insert(class.number(), (value, layout))?;
    }
    Ok(())
}

/// Whether a value comes before another, in the order in which the text mentions them first.
fn comes_before(value: ValueId, other: Option<&(ValueId, LayoutId)>) -> bool {
    match other {
        Some((other, _)) => value.number() < other.number(),
        None => true,
    }
}
