//! What an edge adds: what the comparison that decides it says, and what the phis take.
ghost use Rattle.std.specs.Prelude.{◌≡◌, true, IfOk, OnOk, OnErr};
ghost use Rattle.facts.specs.Facts.{FactSet, below_both, known_below, learn_below, learn_known_nonnull, learn_up_to, learn_null_test, learn_number_test, learn_constant_test, learn_test, drop_fresh_of, drop_fresh_all, enter_phi, enter_phis, after_phis};
ghost use Rattle.facts.specs.Contents.{set_of};
ghost use Rattle.facts.specs.TakenBack.{DifferBy};

use crate::contents::Contents;
use crate::entry::Entry;
use crate::facts::Facts;
use fact_tables::{Class, Known, Test};
use ir_ast::{Comparison, Constant, ValueId};
use std::alloc::AllocError;

impl Facts {
    /// What the edge implies where this comparison decides it: `taken` where it is true.
    pub fn learn(&mut self, test: Option<Test>, taken: bool) -> Result<(), AllocError>
        ensures ok { OnOk result (self.new ≡ learn_test test taken self.old) }
        ensures err { OnErr result (self.new ≡ self.old) }
    {
        match test {
            Some(test) => { self.learn_constant_test(test.tested, test.constant, test.kind, taken) }
            None => Ok(()),
        }
    }

    fn learn_constant_test(
        &mut self,
        v: ValueId,
        constant: Constant,
        kind: Comparison,
        taken: bool,
    ) -> Result<(), AllocError>
        ensures ok { OnOk result (self.new ≡ learn_constant_test v constant kind taken self.old) }
        ensures err { OnErr result (self.new ≡ self.old) }
    {
        match constant {
            Constant::Number(n) => self.learn_number_test(v, n, kind, taken),
            Constant::Null => self.learn_null_test(v, kind, taken),
            Constant::Float(_) | Constant::Truth(_) => Ok(()),
        }
    }

    fn learn_null_test(
        &mut self,
        v: ValueId,
        kind: Comparison,
        taken: bool,
    ) -> Result<(), AllocError>
        ensures ok { OnOk result (self.new ≡ learn_null_test v kind taken self.old) }
        ensures err { OnErr result (self.new ≡ self.old) }
    {
        match (kind, taken) {
            (Comparison::Equal, false) | (Comparison::NotEqual, true) => {
                let known = self.known(v);
                self.learn_known_nonnull(known)
            }
            _ => Ok(()),
        }
    }

    fn learn_number_test(
        &mut self,
        v: ValueId,
        n: u64,
        kind: Comparison,
        taken: bool,
    ) -> Result<(), AllocError>
        ensures ok { OnOk result (self.new ≡ learn_number_test v n kind taken self.old) }
        ensures err { OnErr result (self.new ≡ self.old) }
    {
        match (kind, taken) {
            (Comparison::UnsignedLess, true) | (Comparison::UnsignedGreaterOrEqual, false) => {
                self.learn_below(v, n)
            }
            (Comparison::UnsignedLessOrEqual, true)
            | (Comparison::Equal, true)
            | (Comparison::UnsignedGreater, false)
            | (Comparison::NotEqual, false) => self.learn_up_to(v, n),
            _ => Ok(()),
        }
    }

    fn learn_known_nonnull(&mut self, known: Known) -> Result<(), AllocError>
        ensures ok { OnOk result (self.new ≡ learn_known_nonnull known self.old) }
        ensures err { OnErr result (self.new ≡ self.old) }
    {
        match known {
            Known::Cell { class, .. } => self.learn_nonnull(class, true),
            _ => Ok(()),
        }
    }

    fn learn_up_to(&mut self, v: ValueId, n: u64) -> Result<(), AllocError>
        ensures ok { OnOk result (self.new ≡ learn_up_to v n self.old) }
        ensures err { OnErr result (self.new ≡ self.old) }
    {
        if n < u64::MAX {
            self.learn_below(v, n + 1)
        } else {
            Ok(())
        }
    }

    fn learn_below(&mut self, v: ValueId, n: u64) -> Result<(), AllocError>
        ensures ok { OnOk result (self.new ≡ learn_below v n self.old) }
        ensures err { OnErr result (self.new ≡ self.old) }
    {
        let known = known_below(n, self.known(v));
        self.set_known(v, known)
    }
}

impl Contents {
    /// The phis of a block, each with what is known of its entry, where the block is entered. If this is true, `take_back` takes
    /// back what they changed.
    pub fn enter(&mut self, entries: &[Entry]) -> Result<bool, AllocError>
        ensures ok { OnOk result (set_of self.new ≡ after_phis entries.now (set_of self.old)) }
        ensures back { IfOk result (λ back. back ≡ true → DifferBy entries.now (set_of self.old) (set_of self.new)) }
    {
        self.drop_fresh_all(entries);
        self.enter_phis(entries)
    }

    fn enter_phis(&mut self, entries: &[Entry]) -> Result<bool, AllocError>
        ensures ok { OnOk result (set_of self.new ≡ enter_phis entries.now (set_of self.old)) }
        ensures back { IfOk result (λ back. back ≡ true → (before : FactSet) → DifferBy entries.now before (set_of self.old) → DifferBy entries.now before (set_of self.new)) }
    {
        let mut back = true;
        for entry in entries {
            back = back && self.ends_alone(entry.phi);
            self.enter_phi(entry.phi, entry.known)?;
        }
        Ok(back)
    }

    fn enter_phi(&mut self, v: ValueId, known: Known) -> Result<(), AllocError>
        ensures { OnOk result (set_of self.new ≡ enter_phi v known (set_of self.old)) }
    {
        match known {
            Known::Cell {
                class,
                layout,
                stale,
            } => {
                let nonnull = self.values.class(class).nonnull;
                self.define_new(
                    v,
                    layout,
                    stale,
                    Class {
                        nonnull,
                        fresh: false,
                    },
                )
            }
            Known::Number { .. } | Known::Null => self.define(v, known),
            _ => self.define(v, Known::Nothing),
        }
    }

    /// The classes of all that comes in are fresh no more.
    fn drop_fresh_all(&mut self, entries: &[Entry])
        ensures { set_of self.new ≡ drop_fresh_all entries.now (set_of self.old) }
    {
        for entry in entries {
            self.drop_fresh_of(entry.known);
        }
    }

    fn drop_fresh_of(&mut self, known: Known)
        ensures { set_of self.new ≡ drop_fresh_of known (set_of self.old) }
    {
        if let Known::Cell { class, .. } = known {
            self.values.drop_fresh(class);
        }
    }
}

fn known_below(n: u64, known: Known) -> Known
    ensures { result ≡ known_below n known }
{
    match known {
        Known::Number { bits, below } => Known::Number {
            bits,
            below: below_both(below, n),
        },
        _ => known,
    }
}

fn below_both(below: Option<u64>, n: u64) -> Option<u64>
    ensures { result ≡ below_both below n }
{
    match below {
        Some(m) if m < n => Some(m),
        _ => Some(n),
    }
}
