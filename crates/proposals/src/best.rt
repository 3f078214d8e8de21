//! The claims of a block that no edge enters: all that it needs, since it never runs.
use crate::draft_claims::BlockClaims;
use crate::summary::FunctionSummary;
use block_rules::RuleContext;
use certs::{Age, Claim, Fact, Family, family_of_value};
use ir_ast::{BlockId, ValueId};
use std::alloc::{AllocError, Global};

/// The most that can be said of each value that is wanted at a block.
pub fn best_claims(
    alloc: Global,
    rule_context: &RuleContext,
    summary: &FunctionSummary,
    block: BlockId,
) -> Result<BlockClaims, AllocError> {
    let values = rule_context.function.locals.count();
    let mut listed = BlockClaims::new(alloc);
    for number in summary.reading.wanted.group(block.number() as usize) {
        let value = ValueId::new(*number);
        if (*number as usize) < values {
            if let Some(fact) = best_fact(rule_context, summary, value) {
                listed.add(Claim::Value { value, fact }, 0)?;
            }
        }
    }
    Ok(listed)
}

fn best_fact(
    rule_context: &RuleContext,
    summary: &FunctionSummary,
    value: ValueId,
) -> Option<Fact> {
    let layout = match family_of_value(rule_context.module(), rule_context.function, value) {
        Family::Number(bits) => {
            return Some(Fact::Number {
                bits,
                below: Some(1),
            });
        }
        Family::Reference(layout) => layout,
        Family::AnyReference | Family::Opaque => summary.layout_of(value)?,
        Family::Address | Family::Nothing => return None,
    };
    Some(Fact::Reference {
        layout,
        nonnull: true,
        age: Age::Fresh,
        same: None,
    })
}
