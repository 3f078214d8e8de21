//! What a block begins with.
ghost use Rattle.std.specs.Prelude.{◌≡◌, length, IfOk, OnOk, OnErr};
ghost use Rattle.facts.specs.Facts.{nothing_known};
ghost use Rattle.facts.specs.Claims.{receive_all};
ghost use Rattle.block_rules.specs.Edges.{parameters_given, claim_facts, entry_facts_at};
ghost use Rattle.block_check.specs.FunctionUnderCheck.{seen, IsReady};

use crate::under_check::FunctionUnderCheck;
use block_rules::{TypeKind, given_by};
use certs::Promise;
use facts::{Facts, SpareRows};
use ir_ast::{BlockId, Module, Parameter};
use std::alloc::{AllocError, Global};

/// What a block begins with, in place of what is known.
pub fn begin_block(
    alloc: Global,
    under_check: &FunctionUnderCheck,
    facts: &mut Facts,
    spare: &mut SpareRows,
    block: BlockId,
) -> Result<(), AllocError>
    requires { IsReady under_check.now }
    ensures { OnOk result (facts.new ≡ entry_facts_at (seen under_check.now) block) }
{
    match under_check.kept(block) {
        Some(kept) => facts.open(alloc, kept),
        None => find_entry_facts(alloc, under_check, facts, spare, block),
    }
}

/// What a block begins with is found anew.
fn find_entry_facts(
    alloc: Global,
    under_check: &FunctionUnderCheck,
    facts: &mut Facts,
    spare: &mut SpareRows,
    block: BlockId,
) -> Result<(), AllocError>
    requires { IsReady under_check.now }
    ensures { OnOk result (facts.new ≡ entry_facts_at (seen under_check.now) block) }
{
    if block.number() == 0 {
        reset_facts(alloc, under_check, facts)?;
        receive_parameters(
            under_check.context.module(),
            facts,
            under_check.context.function.parameters.as_slice(),
            under_check.promises(),
        )
    } else {
        list_claims(alloc, under_check, facts, spare, block)
    }
}

/// What the claims of a block say, in place of what is known: a block other than the entry begins with it.
pub fn begin_claims(
    alloc: Global,
    under_check: &FunctionUnderCheck,
    facts: &mut Facts,
    spare: &mut SpareRows,
    block: BlockId,
) -> Result<(), AllocError>
    requires { IsReady under_check.now }
    ensures { OnOk result (facts.new ≡ claim_facts (seen under_check.now) block) }
{
    if block.number() == 0 {
        list_claims(alloc, under_check, facts, spare, block)
    } else {
        begin_block(alloc, under_check, facts, spare, block)
    }
}

fn list_claims(
    alloc: Global,
    under_check: &FunctionUnderCheck,
    facts: &mut Facts,
    spare: &mut SpareRows,
    block: BlockId,
) -> Result<(), AllocError>
    requires { IsReady under_check.now }
    ensures { OnOk result (facts.new ≡ claim_facts (seen under_check.now) block) }
{
    facts.begin(
        alloc,
        spare,
        values_of(under_check),
        under_check.context.slots,
        under_check.claims(block),
    )
}

/// How many values the function has.
fn values_of(under_check: &FunctionUnderCheck) -> usize
    ensures { result ≡ length under_check.now.context.function.now.locals }
{
    under_check.context.function.locals.count()
}

/// Nothing is known of the values and slots of the function, in place of what is known.
pub fn reset_facts(
    alloc: Global,
    under_check: &FunctionUnderCheck,
    facts: &mut Facts,
) -> Result<(), AllocError>
    ensures ok { OnOk result (facts.new ≡ nothing_known (length under_check.now.context.function.now.locals) (length under_check.now.context.slots.now.held)) }
    ensures err { OnErr result (facts.new ≡ facts.old) }
{
    facts.reset(
        alloc,
        values_of(under_check),
        under_check.context.slots.count(),
    )
}

/// Facts where nothing is known of the values and slots of the function.
pub fn blank_facts(alloc: Global, under_check: &FunctionUnderCheck) -> Result<Facts, AllocError>
    ensures { IfOk result (λ facts. facts ≡ nothing_known (length under_check.now.context.function.now.locals) (length under_check.now.context.slots.now.held)) }
{
    Facts::new(
        alloc,
        values_of(under_check),
        under_check.context.slots.count(),
    )
}

fn receive_parameters(
    module: &Module,
    facts: &mut Facts,
    parameters: &[Parameter],
    promises: &[Option<Promise>],
) -> Result<(), AllocError>
    ensures { OnOk result (facts.new ≡ receive_all (parameters_given «module».now parameters.now promises.now) facts.old) }
{
    let mut rest = promises;
    for parameter in parameters {
        let entry_facts = given_by(TypeKind::of(module, parameter.written));
        match rest {
            [promise, others @ ..] => {
                facts.receive(parameter.value, entry_facts, *promise)?;
                rest = others;
            }
            [] => facts.receive(parameter.value, entry_facts, None)?,
        }
    }
    Ok(())
}
