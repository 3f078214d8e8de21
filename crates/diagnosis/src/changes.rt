//! Where a reference became stale, or its class lost `fresh`.
ghost use Rattle.std.specs.Prelude.{◌≡◌, true, Some, if◌then◌else◌, IfOk, IfSome, OnOk};
ghost use Rattle.block_rules.specs.Rules.{after};
ghost use Rattle.diagnosis.specs.Changes as spec;
ghost use Rattle.diagnosis.specs.Changes.{ChangesAt, ChangesIn};

use crate::before::{body_before, facts_at_entry};
use block_rules::{RuleContext, advance};
use facts::{Facts, Known};
use ir_ast::{BlockId, FuncId, Instr, ValueId};
use std::alloc::{AllocError, Global};

/// A place of a block of a function.
#[derive(Clone, Copy)]
pub struct CodeAt {
    pub func: FuncId,
    pub block: BlockId,
    pub place: usize,
}

/// How a reference changes.
#[derive(Clone, Copy)]
pub enum Change {
    /// It becomes stale.
    Stale,
    /// Its class loses `fresh`.
    Unfresh,
}

/// Whether a value is a reference that has changed so.
fn has(facts: &Facts, value: ValueId, change: Change) -> bool
    ensures { result ≡ spec.has facts.now value change }
{
    match facts.known(value) {
        Known::Cell { class, stale, .. } => match change {
            Change::Stale => stale,
            Change::Unfresh => !facts.class(class).fresh,
        },
        _ => false,
    }
}

/// Whether a value is a reference that has not changed so.
fn has_not(facts: &Facts, value: ValueId, change: Change) -> bool
    ensures { result ≡ spec.has_not facts.now value change }
{
    matches!(facts.known(value), Known::Cell { .. }) && !has(facts, value, change)
}

/// Goes on to what is known after an instruction. If this is true, a reference changes so at it.
fn changes_at(
    context: &RuleContext,
    facts: &mut Facts,
    instr: &Instr,
    value: ValueId,
    change: Change,
) -> Result<bool, AllocError>
    ensures facts { OnOk result (facts.new ≡ after context.now.program.now context.now.certs.now.sections context.now.slots.now facts.old instr.now) }
    ensures changes { IfOk result (λ changes. changes ≡ true → ChangesAt facts.old facts.new value change) }
{
    let before = has_not(facts, value, change);
    advance(context, facts, instr)?;
    Ok(before && has(facts, value, change))
}

/// The number of an instruction, if it changes something, or what was found before it.
fn later(found: Option<usize>, index: usize, changes: bool) -> Option<usize>
    ensures { result ≡ (if changes then Some index else found) }
{
    if changes { Some(index) } else { found }
}

/// The number in the body of a block of the last instruction before a place of the block at which a reference changes so. No clause says
/// that it is the last, or that it is always found.
pub fn last_change(
    alloc: Global,
    context: &RuleContext,
    at: CodeAt,
    value: ValueId,
    change: Change,
) -> Result<Option<usize>, AllocError>
    ensures { IfOk result (λ found. IfSome found (λ index. ChangesIn context.now at.func at.block at.place index value change)) }
{
    let mut facts = facts_at_entry(alloc, context, at.func, at.block)?;
    let mut found = None;
    let body = body_before(context, at.block, at.place);
    for (index, instr) in body.iter().enumerate() {
        let changes = changes_at(context, &mut facts, instr, value, change)?;
        found = later(found, index, changes);
    }
    Ok(found)
}
