//! The first claim of a target that is not implied. Whether all that is of a class is listed is looked at once for each class.
ghost use Rattle.std.specs.Prelude.{◌≡◌, ◌&&◌, true, position, not, nat_eq, Some};
ghost use Rattle.indexmap.specs.IndexMap.{get};
ghost use Rattle.shadow_stack.specs.Slots.{SlotTable};
ghost use Rattle.facts.specs.Covered.{with_class, both_classes, classes_of, classes_listed, unfresh_age, unfresh_fact, unfresh, IsRecorded, AreCovered};
ghost use Rattle.facts.specs.Claims.{implies_claim};

use crate::claims::is_fresh;
use crate::facts::Facts;
use certs::{Age, Claim, Fact};
use fact_tables::{ClassId, Known};
use indexmap::IndexMap;
use ir_ast::ValueId;
use shadow_stack::Slots;
use std::alloc::Global;

/// Up to so many claims each is looked at by itself.
const FEW: usize = 8;

impl Facts {
    /// The first claim of a target that is not implied; `there` is what the target begins with.
    pub fn first_unmet(
        &self,
        alloc: Global,
        table: &Slots,
        there: &Facts,
        claims: &[Claim],
    ) -> Option<usize>
        ensures { result ≡ position (λ claim. not (implies_claim table.now self.now there.now claim)) claims.now }
    {
        if claims.len() <= FEW {
            return self.first_unmet_of_few(table, there, claims);
        }
        let mut recorded = IndexMap::new(alloc);
        self.record_claims(there, claims, &mut recorded);
        self.first_unmet_by(table, there, &recorded, claims)
    }

    /// The same of claims that are few: what is found of a class is not recorded.
    fn first_unmet_of_few(&self, table: &Slots, there: &Facts, claims: &[Claim]) -> Option<usize>
        ensures { result ≡ position (λ claim. not (implies_claim table.now self.now there.now claim)) claims.now }
    {
        claims
            .iter()
            .position(|claim| !self.implies(table, there, *claim))
    }

    /// Records the classes that claims list as fresh, up to the first that may not be.
    fn record_claims(&self, there: &Facts, claims: &[Claim], recorded: &mut IndexMap<usize, usize>)
        requires { AreCovered self.now there.now (get nat_eq recorded.old) }
        ensures { AreCovered self.now there.now (get nat_eq recorded.new) }
    {
        for claim in claims {
            if !self.record_claim(there, claim, recorded) {
                return;
            }
        }
    }

    /// Records the class that a claim lists as fresh, if it may be. Returns whether it is recorded, or there is none.
    #[tactic(auto, using(crate::proofs::Unfresh::recorded_more))]
    fn record_claim(
        &self,
        there: &Facts,
        claim: &Claim,
        recorded: &mut IndexMap<usize, usize>,
    ) -> bool
        requires { AreCovered self.now there.now (get nat_eq recorded.old) }
        ensures { AreCovered self.now there.now (get nat_eq recorded.new) }
    {
        match self.classes_listed(there, claim) {
            Some((here, listed)) => {
                is_recorded(recorded, here, listed)
                    || (self.class(here).fresh
                        && self.covers(there, here, listed)
                        && recorded.insert(here.number(), listed.number()).is_ok())
            }
            None => true,
        }
    }

    /// The first claim that is not implied; these classes are recorded.
    fn first_unmet_by(
        &self,
        table: &Slots,
        there: &Facts,
        recorded: &IndexMap<usize, usize>,
        claims: &[Claim],
    ) -> Option<usize>
        requires { AreCovered self.now there.now (get nat_eq recorded.now) }
        ensures { result ≡ position (λ claim. not (implies_claim table.now self.now there.now claim)) claims.now }
    {
        claims
            .iter()
            .position(|claim| !self.implies_by(table, there, recorded, claim))
    }

    /// Whether a claim is implied; these classes are recorded.
    fn implies_by(
        &self,
        table: &Slots,
        there: &Facts,
        recorded: &IndexMap<usize, usize>,
        claim: &Claim,
    ) -> bool
        requires { AreCovered self.now there.now (get nat_eq recorded.now) }
        ensures { result ≡ implies_claim table.now self.now there.now claim.now }
    {
        let asked = self.asked(there, recorded, claim);
        self.implies(table, there, asked)
    }

    /// A claim that is implied exactly where this one is; these classes are recorded, and it does not ask of them again.
    #[tactic(auto, using(crate::proofs::Unfresh::unfresh_implied))]
    fn asked(&self, there: &Facts, recorded: &IndexMap<usize, usize>, claim: &Claim) -> Claim
        requires { AreCovered self.now there.now (get nat_eq recorded.now) }
        ensures { (table : SlotTable) → implies_claim table self.now there.now result ≡ implies_claim table self.now there.now claim.now }
    {
        if self.is_covered(there, recorded, claim) {
            unfresh(claim)
        } else {
            *claim
        }
    }

    /// Whether the classes of a value that a claim lists as fresh are recorded.
    fn is_covered(&self, there: &Facts, recorded: &IndexMap<usize, usize>, claim: &Claim) -> bool
        ensures { result ≡ true → IsRecorded (get nat_eq recorded.now) (classes_listed self.now there.now claim.now) }
    {
        match self.classes_listed(there, claim) {
            Some((here, listed)) => is_recorded(recorded, here, listed),
            None => false,
        }
    }

    /// The classes of a value that a claim lists as fresh, here and at the target.
    fn classes_listed(&self, there: &Facts, claim: &Claim) -> Option<(ClassId, ClassId)>
        ensures { result ≡ classes_listed self.now there.now claim.now }
    {
        match claim {
            Claim::Value { value, fact } => self.classes_of(there, *value, *fact),
            _ => None,
        }
    }

    fn classes_of(&self, there: &Facts, v: ValueId, fact: Fact) -> Option<(ClassId, ClassId)>
        ensures { result ≡ classes_of self.now there.now v fact }
    {
        match fact {
            Fact::Reference { age, .. } => {
                if is_fresh(age) {
                    both_classes(self.known(v), there.known(v))
                } else {
                    None
                }
            }
            _ => None,
        }
    }
}

fn both_classes(here: Known, there: Known) -> Option<(ClassId, ClassId)>
    ensures { result ≡ both_classes here there }
{
    match here {
        Known::Cell { class, .. } => with_class(class, there),
        _ => None,
    }
}

fn with_class(here: ClassId, there: Known) -> Option<(ClassId, ClassId)>
    ensures { result ≡ with_class here there }
{
    match there {
        Known::Cell { class, .. } => Some((here, class)),
        _ => None,
    }
}

/// Whether a class is recorded with this one of the target.
fn is_recorded(recorded: &IndexMap<usize, usize>, here: ClassId, listed: ClassId) -> bool
    ensures { result ≡ true → get nat_eq recorded.now here ≡ Some listed }
{
    recorded.get(&here.number()).copied() == Some(listed.number())
}

/// The claim, which does not list its value as fresh.
fn unfresh(claim: &Claim) -> Claim
    ensures { result ≡ unfresh claim.now }
{
    match claim {
        Claim::Value { value, fact } => Claim::Value {
            value: *value,
            fact: unfresh_fact(*fact),
        },
        _ => *claim,
    }
}

fn unfresh_fact(fact: Fact) -> Fact
    ensures { result ≡ unfresh_fact fact }
{
    match fact {
        Fact::Reference {
            layout,
            nonnull,
            age,
            same,
        } => Fact::Reference {
            layout,
            nonnull,
            age: unfresh_age(age),
            same,
        },
        _ => fact,
    }
}

fn unfresh_age(age: Age) -> Age
    ensures { result ≡ unfresh_age age }
{
    match age {
        Age::Fresh => Age::Held,
        _ => age,
    }
}
