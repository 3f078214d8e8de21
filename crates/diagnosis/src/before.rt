//! What is known before an instruction.
ghost use Rattle.std.specs.Prelude.{◌≡◌, IfOk, OnOk, length, take, ◌-◌};
ghost use Rattle.facts.specs.Facts.{FactSet as AFactSet};
ghost use Rattle.facts.specs.Claims.{receive_all};
ghost use Rattle.block_rules.specs.Edges.{parameters_given, entry_facts_at};
ghost use Rattle.block_rules.specs.InstrContext.{phis_of, body_of};
ghost use Rattle.block_rules.specs.Certified.{phi_count, Follows};
ghost use Rattle.diagnosis.specs.Before as spec;
ghost use Rattle.diagnosis.specs.Before.{seen};

use crate::changes::CodeAt;
use block_rules::{RuleContext, TypeKind, advance, given_by, promises_in};
use certs::{Claim, Promise};
use facts::{Facts, SpareRows};
use ir_ast::{BlockId, FuncId, Function, Instr, Module, Parameter};
use std::alloc::{AllocError, Global};

/// The claims of a block in the certificate.
pub(crate) fn claims_of<'a>(context: &RuleContext<'a>, func: FuncId, block: BlockId) -> &'a [Claim]
    ensures { result.now ≡ spec.claims_of context.now func block }
{
    match context.certs.section(func) {
        Some(section) => match section.blocks.get(block.number() as usize) {
            Some(claims) => claims.as_slice(),
            None => &[],
        },
        None => &[],
    }
}

/// How many phis a block has.
fn phi_count(function: &Function, block: BlockId) -> usize
    ensures { result ≡ length (phis_of function.now block) }
{
    match function.blocks.get(block.number() as usize) {
        Some(block) => block.phis.len(),
        None => 0,
    }
}

/// The instructions of the body of a block.
fn body_of(function: &Function, block: BlockId) -> &[Instr]
    ensures { result.now ≡ body_of function.now block }
{
    match function.blocks.get(block.number() as usize) {
        Some(block) => block.body.as_slice(),
        None => &[],
    }
}

/// The first instructions, as many as there are up to this number.
fn first_of(body: &[Instr], count: usize) -> &[Instr]
    ensures { result.now ≡ take count body.now }
{
    if count < body.len() {
        &body[..count]
    } else {
        body
    }
}

fn receive_parameters(
    module: &Module,
    facts: &mut Facts,
    parameters: &[Parameter],
    promises: &[Option<Promise>],
) -> Result<(), AllocError>
    ensures { OnOk result (facts.new ≡ receive_all (parameters_given «module».now parameters.now promises.now) facts.old) }
{
    let mut rest = promises;
    for parameter in parameters {
        let given = given_by(TypeKind::of(module, parameter.written));
        match rest {
            [promise, others @ ..] => {
                facts.receive(parameter.value, given, *promise)?;
                rest = others;
            }
            [] => facts.receive(parameter.value, given, None)?,
        }
    }
    Ok(())
}

/// What the entry of a function begins with, in place of nothing.
fn begin_entry(context: &RuleContext, func: FuncId, facts: &mut Facts) -> Result<(), AllocError>
    requires { facts.old ≡ spec.nothing_of context.now }
    ensures { OnOk result (facts.new ≡ entry_facts_at (seen context.now func) 0) }
{
    receive_parameters(
        context.module(),
        facts,
        context.function.parameters.as_slice(),
        promises_in(context.certs.section(func)),
    )
}

/// What a block begins with, in place of what is known.
fn begin_block(
    alloc: Global,
    spare: &mut SpareRows,
    context: &RuleContext,
    func: FuncId,
    block: BlockId,
    facts: &mut Facts,
) -> Result<(), AllocError>
    ensures { OnOk result (facts.new ≡ entry_facts_at (seen context.now func) block) }
{
    let values = context.function.locals.count();
    if block.number() == 0 {
        facts.reset(alloc, values, context.slots.count())?;
        begin_entry(context, func, facts)
    } else {
        let claims = claims_of(context, func, block);
        facts.begin(alloc, spare, values, context.slots, claims)
    }
}

/// What a block begins with.
pub(crate) fn facts_at_entry(
    alloc: Global,
    context: &RuleContext,
    func: FuncId,
    block: BlockId,
) -> Result<Facts, AllocError>
    ensures { IfOk result (λ facts. facts ≡ entry_facts_at (seen context.now func) block) }
{
    let mut facts = Facts::new(alloc, 0, 0)?;
    let mut spare = SpareRows::none();
    begin_block(alloc, &mut spare, context, func, block, &mut facts)?;
    Ok(facts)
}

/// Goes on to what is known after these instructions.
fn follow(context: &RuleContext, facts: &mut Facts, body: &[Instr]) -> Result<(), AllocError>
    ensures { OnOk result (facts.new ≡ spec.after_all context.now facts.old body.now) }
{
    for instr in body {
        advance(context, facts, instr)?;
    }
    Ok(())
}

/// The instructions of the body of a block before this place of the block.
pub(crate) fn body_before<'a>(
    context: &RuleContext<'a>,
    block: BlockId,
    place: usize,
) -> &'a [Instr]
    ensures { result.now ≡ spec.body_before context.now block place }
{
    let phis = phi_count(context.function, block);
    first_of(body_of(context.function, block), place.saturating_sub(phis))
}

/// What is known before the instruction at a place of a block.
pub fn facts_before(
    alloc: Global,
    context: &RuleContext,
    func: FuncId,
    block: BlockId,
    place: usize,
) -> Result<Facts, AllocError>
    ensures value { IfOk result (λ facts. facts ≡ spec.facts_before context.now func block place) }
    // Where the rules hold up to there, this is what the check found.
    ensures as_checked { (last : AFactSet) → let s = seen context.now func in Follows s block (phi_count s block) (entry_facts_at s block) (spec.body_before context.now block place) last → IfOk result (λ facts. facts ≡ last) }
{
    let mut facts = facts_at_entry(alloc, context, func, block)?;
    follow(context, &mut facts, body_before(context, block, place))?;
    Ok(facts)
}

/// What is known before the instruction at a place of a block, in place of what is known.
pub(crate) fn lead_to(
    alloc: Global,
    spare: &mut SpareRows,
    context: &RuleContext,
    at: CodeAt,
    facts: &mut Facts,
) -> Result<(), AllocError>
    ensures { OnOk result (facts.new ≡ spec.facts_before context.now at.func at.block at.place) }
{
    begin_block(alloc, spare, context, at.func, at.block, facts)?;
    follow(context, facts, body_before(context, at.block, at.place))
}
