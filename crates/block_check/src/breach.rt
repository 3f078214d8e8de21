//! What a phi, an instruction of a body, or the end of a block breaks.
ghost use Rattle.std.specs.Prelude.{◌≡◌, ◌<◌, ◌∷◌, ◌++◌, [], Some, length, slice_get, IfOk};
ghost use Rattle.block_rules.specs.FirstFailing.{first_failing};
ghost use Rattle.block_rules.specs.Rules.{phi_conditions};
ghost use Rattle.block_rules.specs.InstrContext.{phis_of};
ghost use Rattle.block_rules.specs.Edges.{are_entries};
ghost use Rattle.block_rules.specs.Certified.{breach_by, phi_breach, breach, end_breach};
ghost use Rattle.block_check.specs.FunctionUnderCheck.{seen, IsReady};

use crate::edges::{EdgeScratch, Exit};
use crate::entries::are_entries;
use crate::under_check::FunctionUnderCheck;
use block_rules::{Breach, InstrContext, Rule, end_refusal, phi_refusal, refusal};
use facts::Facts;
use ir_ast::{BlockId, End, Instr, Phi};
use std::alloc::{AllocError, Global};

fn breach_by(failed: Option<Rule>) -> Option<Breach>
    ensures { result ≡ breach_by failed }
{
    match failed {
        Some(rule) => Some(Breach { rule, detail: None }),
        None => None,
    }
}

/// What the phi at a place of a block breaks, if it breaks a rule.
pub fn phi_breach(
    under_check: &FunctionUnderCheck,
    here: InstrContext,
    block: BlockId,
    place: usize,
    phi: &Phi,
) -> Option<Breach>
    requires ready { IsReady under_check.now }
    requires within { block < length under_check.now.context.function.now.blocks }
    requires at { slice_get (phis_of under_check.now.context.function.now block) place ≡ Some phi.now }
    ensures { result ≡ phi_breach (seen under_check.now) block here phi.now }
{
    breach_by(failed_by_phi(under_check, here, block, place, phi))
}

/// The first rule that it fails.
fn failed_by_phi(
    under_check: &FunctionUnderCheck,
    here: InstrContext,
    block: BlockId,
    place: usize,
    phi: &Phi,
) -> Option<Rule>
    requires ready { IsReady under_check.now }
    requires within { block < length under_check.now.context.function.now.blocks }
    requires at { slice_get (phis_of under_check.now.context.function.now block) place ≡ Some phi.now }
    ensures { let s = under_check.now.context in result ≡ first_failing (phi_conditions s.program.now.of_module s.function.now s.slots.now here phi.now ++ (Rule.K16, are_entries s.function.now block phi.now.incoming) ∷ []) }
{
    if let Some(rule) = phi_refusal(&under_check.context, here, phi) {
        return Some(rule);
    }
    if are_entries(under_check, block, place, phi.incoming.as_slice()) {
        None
    } else {
        Some(Rule::K16)
    }
}

/// What an instruction of a body breaks by what is known before it, if it breaks a rule.
pub fn breach(
    under_check: &FunctionUnderCheck,
    here: InstrContext,
    facts: &Facts,
    instr: &Instr,
) -> Option<Breach>
    ensures { result ≡ breach (seen under_check.now) here facts.now instr.now }
{
    breach_by(refusal(&under_check.context, here, facts, instr))
}

/// What the end of a block breaks by what is known before it, if it breaks a rule.
pub fn end_breach(
    alloc: Global,
    under_check: &FunctionUnderCheck,
    scratch: &mut EdgeScratch,
    here: InstrContext,
    exit: &Exit,
    end: &End,
) -> Result<Option<Breach>, AllocError>
    requires { IsReady under_check.now }
    ensures { IfOk result (λ found. found ≡ end_breach (seen under_check.now) exit.now.block here exit.now.facts.now end.now) }
{
    if let Some(rule) = end_refusal(&under_check.context, here, exit.facts, end) {
        return Ok(Some(Breach { rule, detail: None }));
    }
    match scratch.unmet_on(alloc, under_check, exit, end)? {
        Some(detail) => Ok(Some(Breach {
            rule: Rule::K15,
            detail: Some(detail),
        })),
        None => Ok(None),
    }
}
