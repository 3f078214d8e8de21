//! Whether what is known implies the claims of a target.
ghost use Rattle.std.specs.Prelude.{◌≡◌};
ghost use Rattle.std.specs.List.{list_all, zip};
ghost use Rattle.fact_tables.specs.Covers.{implied, covers_value, covers_slot};
ghost use Rattle.facts.specs.Claims.{is_fresh, is_below, covers, covers_known, is_fresh_in, is_same, is_alone, implies_reference, implies_number, implies_address, implies_global, implies_fact, holds_known, holds_value, implies_slot, implies_claim};

use crate::claims::{is_fresh, is_stale};
use crate::facts::Facts;
use certs::{Age, Claim, Fact};
use fact_tables::{ClassId, Known, SlotFact, rows};
use ir_ast::{SymbolId, ValueId};
use pools::{LayoutId, WordSet};
use shadow_stack::{SlotId, Slots};

/// What a claim asks of a reference.
#[derive(Clone, Copy)]
struct Asked {
    value: ValueId,
    layout: LayoutId,
    nonnull: bool,
    age: Age,
    same: Option<ValueId>,
}

impl Facts {
    /// Whether a claim of a target is implied; `there` is what the target begins with.
    pub fn implies(&self, table: &Slots, there: &Facts, claim: Claim) -> bool
        ensures { result ≡ implies_claim table.now self.now there.now claim }
    {
        match claim {
            Claim::Value { value, fact } => self.implies_fact(there, value, fact),
            Claim::Slot {
                slot,
                nonnull,
                holds,
            } => self.implies_slot(table.slot_of(slot), nonnull, holds),
        }
    }

    fn implies_fact(&self, there: &Facts, v: ValueId, fact: Fact) -> bool
        ensures { result ≡ implies_fact self.now there.now v fact }
    {
        let known = self.known(v);
        match fact {
            Fact::Number { bits, below } => implies_number(bits, below, known),
            Fact::Reference {
                layout,
                nonnull,
                age,
                same,
            } => self.implies_reference(
                there,
                Asked {
                    value: v,
                    layout,
                    nonnull,
                    age,
                    same,
                },
                known,
            ),
            Fact::Address { base, words } => implies_address(base, &words, known),
            Fact::GlobalAddress(global) => implies_global(global, known),
        }
    }

    fn implies_reference(&self, there: &Facts, asked: Asked, known: Known) -> bool
        ensures { result ≡ implies_reference self.now there.now asked.value asked.layout asked.nonnull asked.age asked.same known }
    {
        match known {
            Known::Cell {
                class,
                layout,
                stale,
            } => {
                layout == asked.layout
                    && implied(asked.nonnull, self.class(class).nonnull)
                    && implied(!is_stale(asked.age), !stale)
                    && self.is_as_fresh(there, class, asked.value, asked.age)
                    && self.is_same(class, asked.same)
            }
            Known::Null => {
                !asked.nonnull && !is_fresh(asked.age) && is_alone(asked.value, asked.same)
            }
            _ => false,
        }
    }

    /// Whether a value may be listed with this age, by what is fresh.
    #[tactic(auto, using(crate::proofs::Unfresh::implied_asked, crate::proofs::Unfresh::implied_unasked))]
    fn is_as_fresh(&self, there: &Facts, c: ClassId, v: ValueId, age: Age) -> bool
        ensures { result ≡ implied (is_fresh age) (is_fresh_in self.now there.now c v) }
    {
        if is_fresh(age) {
            self.is_fresh_in(there, c, v)
        } else {
            true
        }
    }

    fn is_fresh_in(&self, there: &Facts, c: ClassId, v: ValueId) -> bool
        ensures { result ≡ is_fresh_in self.now there.now c v }
    {
        self.class(c).fresh && self.covers_known(there, c, there.known(v))
    }

    fn covers_known(&self, there: &Facts, c: ClassId, known: Known) -> bool
        ensures { result ≡ covers_known self.now there.now c known }
    {
        match known {
            Known::Cell { class, .. } => self.covers(there, c, class),
            _ => false,
        }
    }

    fn is_same(&self, c: ClassId, same: Option<ValueId>) -> bool
        ensures { result ≡ is_same self.now.values c same }
    {
        match same {
            Some(w) => rows::is_of(c, self.known(w)),
            None => true,
        }
    }

    fn implies_slot(&self, slot: Option<SlotId>, nonnull: bool, holds: Option<ValueId>) -> bool
        ensures { result ≡ implies_slot self.now slot nonnull holds }
    {
        match slot {
            Some(s) => {
                let slot = self.slot(s);
                let held = slot.holds;
                implied(nonnull, self.slot_nonnull(slot)) && self.holds_value(held, holds)
            }
            None => false,
        }
    }

    fn holds_value(&self, holds: Option<ClassId>, asked: Option<ValueId>) -> bool
        ensures { result ≡ holds_value self.now.values holds asked }
    {
        match asked {
            Some(x) => holds_known(holds, self.known(x)),
            None => true,
        }
    }
}

fn implied(asked: bool, holds: bool) -> bool
    ensures { result ≡ implied asked holds }
{
    holds || !asked
}

fn is_alone(v: ValueId, same: Option<ValueId>) -> bool
    ensures { result ≡ is_alone v same }
{
    match same {
        Some(w) => w == v,
        None => true,
    }
}

fn is_below(below: Option<u64>, asked: Option<u64>) -> bool
    ensures { result ≡ is_below below asked }
{
    match (below, asked) {
        (_, None) => true,
        (None, Some(_)) => false,
        (Some(known), Some(asked)) => known <= asked,
    }
}

fn implies_number(bits: u32, below: Option<u64>, known: Known) -> bool
    ensures { result ≡ implies_number bits below known }
{
    match known {
        Known::Number {
            bits: n,
            below: known,
        } => n == bits && is_below(known, below),
        _ => false,
    }
}

fn implies_address(base: ValueId, words: &WordSet, known: Known) -> bool
    ensures { result ≡ implies_address base words.now known }
{
    match known {
        Known::Address {
            base: x,
            words: known,
        } => x == base && known.is_within(words),
        _ => false,
    }
}

fn implies_global(global: SymbolId, known: Known) -> bool
    ensures { result ≡ implies_global global known }
{
    match known {
        Known::GlobalAddress(other) => other == global,
        _ => false,
    }
}

fn holds_known(holds: Option<ClassId>, known: Known) -> bool
    ensures { result ≡ holds_known holds known }
{
    match known {
        Known::Cell { class, .. } => rows::holds_class(class, holds),
        _ => false,
    }
}
