//! What the claims of a block give where it begins.
ghost use Rattle.std.specs.Prelude.{◌≡◌, ◌==◌, ℕ, true, length, OnOk, OnErr};
ghost use Rattle.facts.specs.Contents.{set_of};
ghost use Rattle.facts.specs.Facts.{nothing_known};
ghost use Rattle.facts.specs.Claims.{is_stale, is_fresh, list_value, list_slot, list_claim, list_claims, join, join_known, join_values, tie_value, tie_fact, tie_claim, tie_claims, hold_known, hold_value, hold_claim, hold_claims, facts_of_claims, promised_below, promised_nonnull, promised_layout, promised_number, receive_reference, receive_given, receive};
ghost use Rattle.fact_tables.specs.Ties.{AreTies, class_now, known_now};
ghost use Rattle.facts.specs.Tied.{is_own, AreOwn, class_of_both, facts_now, settle_value};

use crate::contents::Contents;
use crate::facts::Facts;
use crate::given::Given;
use certs::{Age, Claim, Fact, Promise};
use fact_tables::{Class, ClassId, Known, SlotFact, Ties};
use ir_ast::ValueId;
use pools::LayoutId;
use shadow_stack::{SlotId, Slots};
use std::alloc::{AllocError, Global};

impl Facts {
    /// A parameter, or the result of a call, with what its type gives and what is promised of it.
    pub fn receive(
        &mut self,
        v: ValueId,
        given: Given,
        promise: Option<Promise>,
    ) -> Result<(), AllocError>
        ensures ok { OnOk result (self.new ≡ receive v given promise self.old) }
        ensures err { OnErr result (self.new ≡ self.old) }
    {
        if promised_number(&promise) {
            let bits = 64;
            return self.define(v, Known::Number { bits, below: None });
        }
        self.receive_given(v, given, promise)
    }

    fn receive_given(
        &mut self,
        v: ValueId,
        given: Given,
        promise: Option<Promise>,
    ) -> Result<(), AllocError>
        ensures ok { OnOk result (self.new ≡ receive_given v given promise self.old) }
        ensures err { OnErr result (self.new ≡ self.old) }
    {
        match given {
            Given::Nothing => self.define(v, Known::Nothing),
            Given::Number(bits) => {
                let below = promised_below(&promise);
                self.define(v, Known::Number { bits, below })
            }
            Given::Reference(layout) => {
                let nonnull = promised_nonnull(&promise);
                self.receive_reference(v, Some(layout), nonnull)
            }
            Given::AnyReference => {
                let layout = promised_layout(&promise);
                let nonnull = promised_nonnull(&promise);
                self.receive_reference(v, layout, nonnull)
            }
        }
    }

    fn receive_reference(
        &mut self,
        v: ValueId,
        layout: Option<LayoutId>,
        nonnull: bool,
    ) -> Result<(), AllocError>
        ensures ok { OnOk result (self.new ≡ receive_reference v layout nonnull self.old) }
        ensures err { OnErr result (self.new ≡ self.old) }
    {
        match layout {
            Some(layout) => self.define_new(
                v,
                layout,
                Class {
                    nonnull,
                    fresh: false,
                },
            ),
            None => self.define(v, Known::Nothing),
        }
    }
}

impl Contents {
    /// What a block with these claims begins with, in place of what is known.
    pub fn begin(
        &mut self,
        alloc: Global,
        table: &Slots,
        claims: &[Claim],
    ) -> Result<(), AllocError>
        ensures { OnOk result (set_of self.new ≡ facts_of_claims table.now (length self.old.values.values) (length self.old.slots) claims.now) }
    {
        self.clear();
        self.add_claims(alloc, table, claims)
    }

    fn add_claims(
        &mut self,
        alloc: Global,
        table: &Slots,
        claims: &[Claim],
    ) -> Result<(), AllocError>
        requires { AreOwn self.old.values.values }
        ensures ok { OnOk result (set_of self.new ≡ hold_claims table.now claims.now (tie_claims claims.now (list_claims table.now claims.now (set_of self.old)))) }
    {
        self.list_claims(table, claims)?;
        self.tie_claims(alloc, claims)?;
        self.hold_claims(table, claims)
    }

    fn list_claims(&mut self, table: &Slots, claims: &[Claim]) -> Result<(), AllocError>
        ensures ok { OnOk result (set_of self.new ≡ list_claims table.now claims.now (set_of self.old)) }
    {
        for claim in claims {
            self.list_claim(table, *claim)?;
        }
        Ok(())
    }

    fn list_claim(&mut self, table: &Slots, claim: Claim) -> Result<(), AllocError>
        ensures ok { OnOk result (set_of self.new ≡ list_claim table.now claim (set_of self.old)) }
    {
        match claim {
            Claim::Value { value, fact } => self.list_value(value, fact),
            Claim::Slot { slot, nonnull, .. } => self.list_slot(table.slot_of(slot), nonnull),
        }
    }

    fn list_value(&mut self, v: ValueId, fact: Fact) -> Result<(), AllocError>
        ensures ok { OnOk result (set_of self.new ≡ list_value v fact (set_of self.old)) }
    {
        match fact {
            Fact::Number { bits, below } => self.set_known(v, Known::Number { bits, below }),
            Fact::Reference {
                layout,
                nonnull,
                age,
                ..
            } => {
                let class = ClassId::new(v.number() as usize);
                let stale = is_stale(age);
                let fresh = is_fresh(age);
                self.set_known(
                    v,
                    Known::Cell {
                        class,
                        layout,
                        stale,
                    },
                )?;
                self.set_class(class, Class { nonnull, fresh })
            }
            Fact::Address { base, words } => self.set_known(v, Known::Address { base, words }),
            Fact::GlobalAddress(global) => self.set_known(v, Known::GlobalAddress(global)),
        }
    }

    fn list_slot(&mut self, slot: Option<SlotId>, nonnull: bool) -> Result<(), AllocError>
        ensures ok { OnOk result (set_of self.new ≡ list_slot slot nonnull (set_of self.old)) }
    {
        match slot {
            Some(s) => self.set_slot(
                s,
                SlotFact {
                    rooted: false,
                    nonnull,
                    holds: None,
                },
            ),
            None => Ok(()),
        }
    }

    fn tie_claims(&mut self, alloc: Global, claims: &[Claim]) -> Result<(), AllocError>
        requires { AreOwn self.old.values.values }
        ensures ok { OnOk result (set_of self.new ≡ tie_claims claims.now (set_of self.old)) }
    {
        let mut ties = Ties::new(alloc);
        let tied = self.tie_by(&mut ties, claims);
        drop(ties);
        tied
    }

    /// What the claims say of equal values, by ties in which each value is alone.
    fn tie_by(&mut self, ties: &mut Ties, claims: &[Claim]) -> Result<(), AllocError>
        requires own { AreOwn self.old.values.values }
        requires ties { AreTies ties.old }
        requires alone { (c : ℕ) → class_now ties.old c ≡ c }
        ensures ok { OnOk result (set_of self.new ≡ tie_claims claims.now (set_of self.old)) }
    {
        for claim in claims {
            self.tie_claim(ties, *claim)?;
        }
        self.settle(ties)
    }

    fn tie_claim(&mut self, ties: &mut Ties, claim: Claim) -> Result<(), AllocError>
        requires own { AreOwn self.old.values.values }
        requires ties { AreTies ties.old }
        ensures tied { OnOk result (facts_now ties.new (set_of self.new) ≡ tie_claim claim (facts_now ties.old (set_of self.old))) }
        ensures ties { OnOk result (AreTies ties.new) }
        ensures values { OnOk result (self.new.values.values ≡ self.old.values.values) }
    {
        match claim {
            Claim::Value { value, fact } => self.tie_fact(ties, value, fact),
            Claim::Slot { .. } => Ok(()),
        }
    }

    fn tie_fact(&mut self, ties: &mut Ties, v: ValueId, fact: Fact) -> Result<(), AllocError>
        requires own { AreOwn self.old.values.values }
        requires ties { AreTies ties.old }
        ensures tied { OnOk result (facts_now ties.new (set_of self.new) ≡ tie_fact v fact (facts_now ties.old (set_of self.old))) }
        ensures ties { OnOk result (AreTies ties.new) }
        ensures values { OnOk result (self.new.values.values ≡ self.old.values.values) }
    {
        match fact {
            Fact::Reference { same, .. } => self.tie_value(ties, v, same),
            _ => Ok(()),
        }
    }

    fn tie_value(
        &mut self,
        ties: &mut Ties,
        v: ValueId,
        same: Option<ValueId>,
    ) -> Result<(), AllocError>
        requires own { AreOwn self.old.values.values }
        requires ties { AreTies ties.old }
        ensures tied { OnOk result (facts_now ties.new (set_of self.new) ≡ tie_value v same (facts_now ties.old (set_of self.old))) }
        ensures ties { OnOk result (AreTies ties.new) }
        ensures values { OnOk result (self.new.values.values ≡ self.old.values.values) }
    {
        match same {
            Some(w) => {
                let known = self.values.known(v);
                let other = self.values.known(w);
                self.join_values(ties, v, w, known, other)
            }
            None => Ok(()),
        }
    }

    /// Two values, and what is known of them.
    fn join_values(
        &mut self,
        ties: &mut Ties,
        v: ValueId,
        w: ValueId,
        known: Known,
        other: Known,
    ) -> Result<(), AllocError>
        requires ties { AreTies ties.old }
        requires known { is_own v known ≡ true }
        requires other { is_own w other ≡ true }
        ensures tied { OnOk result (facts_now ties.new (set_of self.new) ≡ join_values (known_now ties.old known) (known_now ties.old other) (facts_now ties.old (set_of self.old))) }
        ensures ties { OnOk result (AreTies ties.new) }
        ensures values { OnOk result (self.new.values.values ≡ self.old.values.values) }
    {
        match known {
            Known::Cell { class, .. } => self.join_known(ties, v, w, class, other),
            _ => Ok(()),
        }
    }

    /// Two values, the class of one, and what is known of the other.
    fn join_known(
        &mut self,
        ties: &mut Ties,
        v: ValueId,
        w: ValueId,
        from: ClassId,
        other: Known,
    ) -> Result<(), AllocError>
        requires ties { AreTies ties.old }
        requires from { (from == v) ≡ true }
        requires other { is_own w other ≡ true }
        ensures tied { OnOk result (facts_now ties.new (set_of self.new) ≡ join_known (class_now ties.old from) (known_now ties.old other) (facts_now ties.old (set_of self.old))) }
        ensures ties { OnOk result (AreTies ties.new) }
        ensures values { OnOk result (self.new.values.values ≡ self.old.values.values) }
    {
        match other {
            Known::Cell { class, .. } => self.join(ties, v, w, from, class),
            _ => Ok(()),
        }
    }

    fn hold_claims(&mut self, table: &Slots, claims: &[Claim]) -> Result<(), AllocError>
        ensures ok { OnOk result (set_of self.new ≡ hold_claims table.now claims.now (set_of self.old)) }
    {
        for claim in claims {
            self.hold_claim(table, *claim)?;
        }
        Ok(())
    }

    fn hold_claim(&mut self, table: &Slots, claim: Claim) -> Result<(), AllocError>
        ensures ok { OnOk result (set_of self.new ≡ hold_claim table.now claim (set_of self.old)) }
    {
        match claim {
            Claim::Slot { slot, holds, .. } => self.hold_value(table.slot_of(slot), holds),
            Claim::Value { .. } => Ok(()),
        }
    }

    fn hold_value(&mut self, slot: Option<SlotId>, holds: Option<ValueId>) -> Result<(), AllocError>
        ensures ok { OnOk result (set_of self.new ≡ hold_value slot holds (set_of self.old)) }
    {
        match (slot, holds) {
            (Some(s), Some(x)) => {
                let known = self.values.known(x);
                self.hold_known(s, known)
            }
            _ => Ok(()),
        }
    }

    fn hold_known(&mut self, s: SlotId, known: Known) -> Result<(), AllocError>
        ensures ok { OnOk result (set_of self.new ≡ hold_known s known (set_of self.old)) }
    {
        match known {
            Known::Cell { class, .. } => {
                let slot = self.slot(s);
                self.set_slot(
                    s,
                    SlotFact {
                        holds: Some(class),
                        ..slot
                    },
                )
            }
            _ => Ok(()),
        }
    }

    /// Two values are equal references: their classes are one.
    fn join(
        &mut self,
        ties: &mut Ties,
        v: ValueId,
        w: ValueId,
        from: ClassId,
        to: ClassId,
    ) -> Result<(), AllocError>
        requires ties { AreTies ties.old }
        requires from { (from == v) ≡ true }
        requires to { (to == w) ≡ true }
        ensures tied { OnOk result (facts_now ties.new (set_of self.new) ≡ join (class_now ties.old from) (class_now ties.old to) (facts_now ties.old (set_of self.old))) }
        ensures ties { OnOk result (AreTies ties.new) }
        ensures values { OnOk result (self.new.values.values ≡ self.old.values.values) }
    {
        let from = ties.class(from);
        let to = ties.class(to);
        let one = self.values.class(from);
        let other = self.values.class(to);
        ties.tie(v, w)?;
        self.set_class(to, class_of_both(one, other))
    }

    /// Each value that was tied is of the class that it has now.
    fn settle(&mut self, ties: &Ties) -> Result<(), AllocError>
        requires own { AreOwn self.old.values.values }
        requires ties { AreTies ties.now }
        ensures ok { OnOk result (set_of self.new ≡ facts_now ties.now (set_of self.old)) }
    {
        for v in ties.tied() {
            self.settle_value(ties, *v)?;
        }
        Ok(())
    }

    fn settle_value(&mut self, ties: &Ties, v: ValueId) -> Result<(), AllocError>
        ensures ok { OnOk result (set_of self.new ≡ settle_value ties.now v (set_of self.old)) }
    {
        let known = ties.known(self.values.known(v));
        self.set_known(v, known)
    }
}

/// Whether a reference is listed as stale.
pub(crate) fn is_stale(age: Age) -> bool
    ensures { result ≡ is_stale age }
{
    matches!(age, Age::Stale)
}

/// Whether a reference is listed as fresh.
pub(crate) fn is_fresh(age: Age) -> bool
    ensures { result ≡ is_fresh age }
{
    matches!(age, Age::Fresh)
}

fn promised_below(promise: &Option<Promise>) -> Option<u64>
    ensures { result ≡ promised_below promise.now }
{
    match promise {
        Some(promise) => promise.below,
        None => None,
    }
}

fn promised_nonnull(promise: &Option<Promise>) -> bool
    ensures { result ≡ promised_nonnull promise.now }
{
    match promise {
        Some(promise) => promise.nonnull,
        None => false,
    }
}

fn promised_number(promise: &Option<Promise>) -> bool
    ensures { result ≡ promised_number promise.now }
{
    match promise {
        Some(promise) => promise.number,
        None => false,
    }
}

fn promised_layout(promise: &Option<Promise>) -> Option<LayoutId>
    ensures { result ≡ promised_layout promise.now }
{
    match promise {
        Some(promise) => promise.layout,
        None => None,
    }
}

/// What is known of a class that two became.
fn class_of_both(one: Class, other: Class) -> Class
    ensures { result ≡ class_of_both one other }
{
    let nonnull = one.nonnull || other.nonnull;
    let fresh = one.fresh || other.fresh;
    Class { nonnull, fresh }
}
