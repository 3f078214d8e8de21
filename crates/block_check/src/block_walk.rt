//! The walk over one block: its phis, its body and its end.
ghost use Rattle.std.specs.Prelude.{◌≡◌, ◌∷◌, IfOk, MatchOption};
ghost use Rattle.block_rules.specs.InstrContext.{phis_of, body_of, head_in, begins_collected};
ghost use Rattle.block_rules.specs.Edges.{entry_facts_at};
ghost use Rattle.block_rules.specs.Certified.{stands, phi_count, PhisPass, Follows, IsCertified, BreaksAt};
ghost use Rattle.block_check.specs.FunctionUnderCheck.{seen, IsReady};
ghost use Rattle.block_check.specs.BlockWalk.{IsFound};

use crate::breach::{breach, end_breach, phi_breach};
use crate::edges::{EdgeScratch, Exit};
use crate::entry_facts::begin_block;
use crate::under_check::{FunctionUnderCheck, body_of, end_of, phis_of};
use block_rules::{Breach, InstrContext, advance, head_of, keeps_shadow_stack};
use facts::Facts;
use ir_ast::BlockId;
use std::alloc::{AllocError, Global};

/// A block that is walked over, with what is found of it once.
#[derive(Clone, Copy)]
pub struct BlockWalk<'a> {
    under_check: &'a FunctionUnderCheck<'a>,
    block: BlockId,
    /// How far the head goes.
    head: usize,
    /// Whether the first instruction may be there.
    begins: bool,
}

impl<'a> BlockWalk<'a> {
    pub fn over(under_check: &'a FunctionUnderCheck<'a>, block: BlockId) -> BlockWalk<'a>
        requires { IsReady under_check.now }
        ensures found { IsFound result }
        ensures under_check { result.under_check.now ≡ under_check.now }
        ensures block { result.block ≡ block }
    {
        BlockWalk {
            under_check,
            block,
            head: head_in(under_check, block),
            begins: begins_collected(under_check, block),
        }
    }

    /// The first place of the block that breaks a rule, with what it breaks.
    pub fn first_breach(
        &self,
        alloc: Global,
        facts: &mut Facts,
        scratch: &mut EdgeScratch,
    ) -> Result<Option<(usize, Breach)>, AllocError>
        requires { IsFound self.now }
        ensures { IfOk result (λ found. MatchOption found (IsCertified (seen self.now.under_check.now) self.now.block) (λ broken. BreaksAt (seen self.now.under_check.now) self.now.block broken.0 broken.1)) }
    {
        if let Some(broken) = self.among_phis() {
            return Ok(Some(broken));
        }
        begin_block(
            alloc,
            self.under_check,
            facts,
            &mut scratch.spare,
            self.block,
        )?;
        if let Some(broken) = self.in_body(facts)? {
            return Ok(Some(broken));
        }
        self.at_end(alloc, facts, scratch)
    }

    fn among_phis(&self) -> Option<(usize, Breach)>
        requires { IsFound self.now }
        ensures { let s = seen self.now.under_check.now in MatchOption result (PhisPass s self.now.block 0 (phis_of s.function self.now.block)) (λ broken. BreaksAt s self.now.block broken.0 broken.1) }
    {
        let under_check = self.under_check;
        let phis = phis_of(under_check.context.function, self.block);
        for (place, phi) in phis.iter().enumerate() {
            let here = self.instr_context(place);
            if let Some(broken) = phi_breach(under_check, here, self.block, place, phi) {
                return Some((place, broken));
            }
        }
        None
    }

    /// It goes on to what is known at the end of the block.
    fn in_body(&self, facts: &mut Facts) -> Result<Option<(usize, Breach)>, AllocError>
        requires found { IsFound self.now }
        requires phis { let s = seen self.now.under_check.now in PhisPass s self.now.block 0 (phis_of s.function self.now.block) }
        requires entry_facts { facts.old ≡ entry_facts_at (seen self.now.under_check.now) self.now.block }
        ensures { let s = seen self.now.under_check.now in let b = self.now.block in IfOk result (λ found. MatchOption found (Follows s b (phi_count s b) (entry_facts_at s b) (body_of s.function b) facts.new) (λ broken. BreaksAt s b broken.0 broken.1)) }
    {
        let under_check = self.under_check;
        let function = under_check.context.function;
        let first = phis_of(function, self.block).len();
        let body = body_of(function, self.block);
        for (index, instr) in body.iter().enumerate() {
            let place = first + index;
            let here = self.instr_context(place);
            match breach(under_check, here, facts, instr) {
                Some(broken) => return Ok(Some((place, broken))),
                None => advance(&under_check.context, facts, instr)?,
            }
        }
        Ok(None)
    }

    fn at_end(
        &self,
        alloc: Global,
        facts: &Facts,
        scratch: &mut EdgeScratch,
    ) -> Result<Option<(usize, Breach)>, AllocError>
        requires found { IsFound self.now }
        requires phis { let s = seen self.now.under_check.now in PhisPass s self.now.block 0 (phis_of s.function self.now.block) }
        requires body { let s = seen self.now.under_check.now in let b = self.now.block in Follows s b (phi_count s b) (entry_facts_at s b) (body_of s.function b) facts.now }
        ensures { IfOk result (λ found. MatchOption found (IsCertified (seen self.now.under_check.now) self.now.block) (λ broken. BreaksAt (seen self.now.under_check.now) self.now.block broken.0 broken.1)) }
    {
        let under_check = self.under_check;
        let function = under_check.context.function;
        let Some(end) = end_of(function, self.block) else {
            return Ok(None);
        };
        let place = phis_of(function, self.block).len() + body_of(function, self.block).len();
        let exit = Exit {
            block: self.block,
            facts,
        };
        let here = self.instr_context(place);
        match end_breach(alloc, under_check, scratch, here, &exit, end)? {
            Some(broken) => Ok(Some((place, broken))),
            None => Ok(None),
        }
    }

    /// Where the instruction at a place is.
    fn instr_context(&self, place: usize) -> InstrContext
        requires { IsFound self.now }
        ensures { result ≡ stands (seen self.now.under_check.now) self.now.block place }
    {
        InstrContext {
            in_entry: self.block.number() == 0,
            in_head: place < self.head,
            may_move_references: place != 0 || self.begins,
            promised: self.under_check.promised(),
            mark: self.under_check.mark(),
        }
    }
}

fn head_in(under_check: &FunctionUnderCheck, block: BlockId) -> usize
    ensures { result ≡ head_in under_check.now.context.program.now.of_module under_check.now.context.function.now under_check.now.context.slots.now block }
{
    let function = under_check.context.function;
    if block.number() == 0 {
        head_of(
            &under_check.context,
            phis_of(function, block),
            body_of(function, block),
        )
    } else {
        0
    }
}

fn begins_collected(under_check: &FunctionUnderCheck, block: BlockId) -> bool
    ensures { result ≡ begins_collected under_check.now.context.program.now.of_module under_check.now.context.function.now block }
{
    block.number() != 0
        || keeps_shadow_stack(under_check.context.module(), under_check.context.function)
}
