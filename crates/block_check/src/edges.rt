//! The edges out of a block, and the first claim of a target that is not implied.
ghost use Rattle.std.specs.Prelude.{◌≡◌, [], true, length, map, Some, OnOk, IfOk};
ghost use Rattle.facts.specs.Facts.{nothing_known, after_phis};
ghost use Rattle.facts.specs.TakenBack.{DifferBy};
ghost use Rattle.types.specs.ValueTypes.{target_of};
ghost use Rattle.block_rules.specs.Edges.{open_edge, branch_edges, edges, decided_facts, entered, claim_facts, unmet_claim, unmet_at, unmet_on};
ghost use Rattle.block_check.specs.FunctionUnderCheck.{seen, IsReady};
ghost use Rattle.block_check.specs.Decided.{decided_by};
ghost use Rattle.block_check.specs.Implied.{AreImplied};
ghost use Rattle.block_check.specs.Refills.{CanRefill, refill_after};

use crate::block_set::BlockSet;
use crate::entry_facts::{begin_claims, reset_facts};
use crate::phis::record_entries;
use crate::under_check::{FunctionUnderCheck, phis_of};
use block_rules::Detail;
use facts::{Entry, Facts, SpareRows};
use ir_ast::{BlockId, Case, End, Operand, ValueId};
use items::Items;
use std::alloc::{AllocError, Global};
use types::target_of;

/// Where an edge comes from: a block, with what is known at its end.
#[derive(Clone, Copy)]
pub struct Exit<'a> {
    pub block: BlockId,
    pub facts: &'a Facts,
}

/// A br that has a condition: the labels to which it leads where that is 1, and else.
#[derive(Clone, Copy)]
struct Branch<'a> {
    condition: &'a Operand,
    taken: ValueId,
    other: ValueId,
}

/// How the scratch for an edge gets what is known at the end of the block.
#[derive(Clone, Copy)]
pub enum Refill {
    /// What was copied before is there but for what phis changed.
    TakeBack,
    Copy,
}

/// Facts in which it is written what is known on an edge, and what its target begins with, and rows to spare.
#[derive(Drop)]
pub struct EdgeScratch {
    edge: Facts,
    refill: Refill,
    there: Facts,
    entries: Items<Entry>,
    pub spare: SpareRows,
}

impl EdgeScratch {
    /// Scratch without rows, in which nothing is recorded. It gets the rows that the functions need for which it is used.
    pub fn new(alloc: Global) -> Result<EdgeScratch, AllocError>
        ensures edge { IfOk result (λ scratch. scratch.edge ≡ nothing_known 0 0) }
        ensures there { IfOk result (λ scratch. scratch.there ≡ nothing_known 0 0) }
        ensures entries { IfOk result (λ scratch. scratch.entries ≡ []) }
    {
        let edge = Facts::new(alloc, 0, 0)?;
        let there = Facts::new(alloc, 0, 0)?;
        Ok(EdgeScratch {
            edge,
            refill: Refill::Copy,
            there,
            entries: Items::new(alloc),
            spare: SpareRows::none(),
        })
    }

    /// There are rows for an edge of this function, in which nothing is known.
    pub fn make_room(
        &mut self,
        alloc: Global,
        under_check: &FunctionUnderCheck,
    ) -> Result<(), AllocError>
        ensures { OnOk result (self.new.edge ≡ nothing_known (length under_check.now.context.function.now.locals) (length under_check.now.context.slots.now.held)) }
    {
        reset_facts(alloc, under_check, &mut self.edge)
    }

    /// The first claim that is not implied, on the first edge where one is not.
    pub fn unmet_on(
        &mut self,
        alloc: Global,
        under_check: &FunctionUnderCheck,
        exit: &Exit,
        end: &End,
    ) -> Result<Option<Detail>, AllocError>
        requires { IsReady under_check.now }
        ensures { IfOk result (λ found. found ≡ unmet_on (seen under_check.now) exit.now.block exit.now.facts.now (edges end.now)) }
    {
        self.refill = Refill::Copy;
        match end {
            End::Jump(target) => self.unmet_at(alloc, under_check, exit, *target, None),
            End::Branch {
                condition,
                taken,
                other,
                ..
            } => {
                let branch = Branch {
                    condition,
                    taken: *taken,
                    other: *other,
                };
                self.unmet_on_branch(alloc, under_check, exit, &branch)
            }
            End::Switch {
                otherwise,
                cases,
                ..
            } => {
                if let Some(detail) = self.unmet_at(alloc, under_check, exit, *otherwise, None)? {
                    return Ok(Some(detail));
                }
                self.unmet_on_cases(alloc, under_check, exit, cases.as_slice())
            }
            End::Unreachable | End::ReturnVoid | End::Return(_) => Ok(None),
        }
    }

    fn unmet_on_branch(
        &mut self,
        alloc: Global,
        under_check: &FunctionUnderCheck,
        exit: &Exit,
        branch: &Branch,
    ) -> Result<Option<Detail>, AllocError>
        requires ready { IsReady under_check.now }
        requires refill { CanRefill exit.now.facts.now self.old }
        ensures { IfOk result (λ found. found ≡ unmet_on (seen under_check.now) exit.now.block exit.now.facts.now (branch_edges branch.now.condition.now branch.now.taken branch.now.other)) }
    {
        let on = decided_by(branch.condition, true);
        if let Some(detail) = self.unmet_at(alloc, under_check, exit, branch.taken, on)? {
            return Ok(Some(detail));
        }
        let off = decided_by(branch.condition, false);
        self.unmet_at(alloc, under_check, exit, branch.other, off)
    }

    fn unmet_on_cases(
        &mut self,
        alloc: Global,
        under_check: &FunctionUnderCheck,
        exit: &Exit,
        cases: &[Case],
    ) -> Result<Option<Detail>, AllocError>
        requires ready { IsReady under_check.now }
        requires refill { CanRefill exit.now.facts.now self.old }
        ensures { IfOk result (λ found. found ≡ unmet_on (seen under_check.now) exit.now.block exit.now.facts.now (map (λ case. open_edge case.target) cases.now)) }
    {
        let mut implied = BlockSet::new(alloc);
        for case in cases {
            if let Some(detail) = self.unmet_anew(
                alloc,
                under_check,
                exit,
                &mut implied,
                case.target,
            )? {
                return Ok(Some(detail));
            }
        }
        Ok(None)
    }

    /// The same on an edge that no value decides; the claims of these targets are known to be implied.
    fn unmet_anew(
        &mut self,
        alloc: Global,
        under_check: &FunctionUnderCheck,
        exit: &Exit,
        implied: &mut BlockSet,
        target: ValueId,
    ) -> Result<Option<Detail>, AllocError>
        requires ready { IsReady under_check.now }
        requires implied { AreImplied (seen under_check.now) exit.now.block exit.now.facts.now implied.old }
        requires refill { CanRefill exit.now.facts.now self.old }
        ensures found { IfOk result (λ found. found ≡ unmet_at (seen under_check.now) exit.now.block exit.now.facts.now (target_of under_check.now.context.function.now target)) }
        ensures implied { OnOk result (AreImplied (seen under_check.now) exit.now.block exit.now.facts.now implied.new) }
        ensures refill { OnOk result (CanRefill exit.now.facts.now self.new) }
    {
        let Some(to) = target_of(under_check.context.function, target) else {
            return Ok(None);
        };
        if implied.has(to) {
            return Ok(None);
        }
        match self.unmet_in(alloc, under_check, exit, None, to)? {
            Some(detail) => Ok(Some(detail)),
            None => {
                implied.add(to)?;
                Ok(None)
            }
        }
    }

    /// The first claim of the target that is not implied on one edge.
    fn unmet_at(
        &mut self,
        alloc: Global,
        under_check: &FunctionUnderCheck,
        exit: &Exit,
        target: ValueId,
        decided: Option<(ValueId, bool)>,
    ) -> Result<Option<Detail>, AllocError>
        requires ready { IsReady under_check.now }
        requires refill { CanRefill exit.now.facts.now self.old }
        ensures found { IfOk result (λ found. found ≡ unmet_at (seen under_check.now) exit.now.block (decided_facts decided exit.now.facts.now) (target_of under_check.now.context.function.now target)) }
        ensures refill { OnOk result (CanRefill exit.now.facts.now self.new) }
    {
        match target_of(under_check.context.function, target) {
            Some(to) => self.unmet_in(alloc, under_check, exit, decided, to),
            None => Ok(None),
        }
    }

    fn unmet_in(
        &mut self,
        alloc: Global,
        under_check: &FunctionUnderCheck,
        exit: &Exit,
        decided: Option<(ValueId, bool)>,
        to: BlockId,
    ) -> Result<Option<Detail>, AllocError>
        requires ready { IsReady under_check.now }
        requires refill { CanRefill exit.now.facts.now self.old }
        ensures found { IfOk result (λ found. found ≡ unmet_at (seen under_check.now) exit.now.block (decided_facts decided exit.now.facts.now) (Some to)) }
        ensures refill { OnOk result (CanRefill exit.now.facts.now self.new) }
    {
        if under_check.claims(to).is_empty() {
            return Ok(None);
        }
        begin_claims(alloc, under_check, &mut self.there, &mut self.spare, to)?;
        match self.unmet_entered(alloc, under_check, exit, decided, to)? {
            Some(claim) => Ok(Some(Detail { target: to, claim })),
            None => Ok(None),
        }
    }

    /// The first claim of the target that is not implied. Where nothing is decided and no phi takes anything, it is
    /// known on the edge what is known at the end of the block.
    fn unmet_entered(
        &mut self,
        alloc: Global,
        under_check: &FunctionUnderCheck,
        exit: &Exit,
        decided: Option<(ValueId, bool)>,
        to: BlockId,
    ) -> Result<Option<usize>, AllocError>
        requires ready { IsReady under_check.now }
        requires there { self.old.there ≡ claim_facts (seen under_check.now) to }
        requires refill { CanRefill exit.now.facts.now self.old }
        ensures refill { OnOk result (CanRefill exit.now.facts.now self.new) }
        ensures found { IfOk result (λ found. found ≡ unmet_claim (seen under_check.now) to (entered (seen under_check.now) exit.now.block to (decided_facts decided exit.now.facts.now))) }
    {
        if decided.is_none() && phis_of(under_check.context.function, to).is_empty() {
            return Ok(self.unmet_claim(alloc, under_check, exit.facts, to));
        }
        self.enter(alloc, under_check, exit, decided, to)?;
        Ok(self.unmet_claim(alloc, under_check, &self.edge, to))
    }

    /// The first claim of the target that these facts do not imply.
    fn unmet_claim(
        &self,
        alloc: Global,
        under_check: &FunctionUnderCheck,
        facts: &Facts,
        to: BlockId,
    ) -> Option<usize>
        requires { self.now.there ≡ claim_facts (seen under_check.now) to }
        ensures { result ≡ unmet_claim (seen under_check.now) to facts.now }
    {
        facts.first_unmet(
            alloc,
            under_check.context.slots,
            &self.there,
            under_check.claims(to),
        )
    }

    /// What is known after the phis of the target.
    fn enter(
        &mut self,
        alloc: Global,
        under_check: &FunctionUnderCheck,
        exit: &Exit,
        decided: Option<(ValueId, bool)>,
        to: BlockId,
    ) -> Result<(), AllocError>
        requires ready { IsReady under_check.now }
        requires refill { CanRefill exit.now.facts.now self.old }
        ensures edge { OnOk result (self.new.edge ≡ entered (seen under_check.now) exit.now.block to (decided_facts decided exit.now.facts.now)) }
        ensures refill { OnOk result (CanRefill exit.now.facts.now self.new) }
        ensures there { self.new.there ≡ self.old.there }
    {
        self.fill(alloc, exit)?;
        learn(&mut self.edge, &decided)?;
        record_entries(under_check, exit.block, &self.edge, to, &mut self.entries)?;
        let back = self.take_phis(alloc, exit.facts, decided)?;
        self.refill = refill_after(back);
        Ok(())
    }

    /// The phis take what comes in to them. If this is true, what was known at the end of the block can be taken back: what
    /// decides an edge cannot.
    fn take_phis(
        &mut self,
        alloc: Global,
        exit: &Facts,
        decided: Option<(ValueId, bool)>,
    ) -> Result<bool, AllocError>
        requires { self.old.edge ≡ decided_facts decided exit.now }
        ensures edge { OnOk result (self.new.edge ≡ after_phis self.old.entries self.old.edge) }
        ensures entries { self.new.entries ≡ self.old.entries }
        ensures there { self.new.there ≡ self.old.there }
        ensures back { IfOk result (λ back. back ≡ true → DifferBy self.old.entries exit.now self.new.edge) }
    {
        match decided {
            Some(_) => {
                self.edge
                    .after_phis(alloc, &mut self.spare, self.entries.as_slice())?;
                Ok(false)
            }
            None => self.edge.try_phis(self.entries.as_slice(), exit),
        }
    }

    /// What is known at the end of the block.
    fn fill(&mut self, alloc: Global, exit: &Exit) -> Result<(), AllocError>
        requires { CanRefill exit.now.facts.now self.old }
        ensures edge { OnOk result (self.new.edge ≡ exit.now.facts.now) }
        ensures there { self.new.there ≡ self.old.there }
    {
        match self.refill {
            Refill::TakeBack => self.edge.take_back(self.entries.as_slice(), exit.facts),
            Refill::Copy => self.edge.set_from(alloc, exit.facts),
        }
    }
}

/// How the room for an edge is filled again.
fn refill_after(back: bool) -> Refill
    ensures { result ≡ refill_after back }
{
    if back { Refill::TakeBack } else { Refill::Copy }
}

fn decided_by(condition: &Operand, taken: bool) -> Option<(ValueId, bool)>
    ensures { result ≡ decided_by condition.now taken }
{
    match condition {
        Operand::Local(value) => Some((*value, taken)),
        _ => None,
    }
}

/// What an edge implies by what decides it.
fn learn(facts: &mut Facts, decided: &Option<(ValueId, bool)>) -> Result<(), AllocError>
    ensures { OnOk result (facts.new ≡ decided_facts decided.now facts.old) }
{
    match decided {
        Some((value, taken)) => {
            let test = facts.test(*value);
            facts.learn(test, *taken)
        }
        None => Ok(()),
    }
}
