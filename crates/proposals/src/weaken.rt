//! What is left of the claims of a block where another edge leads to it.
use crate::draft_claims::BlockClaims;
use crate::flow_facts::FlowFacts;
use crate::summary::FunctionSummary;
use certs::{Age, Claim, Fact};
use facts::{Class, ClassId, Facts, Known};
use indexmap::IndexSet;
use ir_ast::{SymbolId, ValueId};
use number_tables::row_or;
use pools::{LayoutId, WordSet};
use shadow_stack::SlotId;
use std::alloc::{AllocError, Global};

/// How often a bound may grow to what an edge implies.
const GROWTH_LIMIT: u8 = 3;

/// How often it may grow at all.
const RAISE_LIMIT: u8 = 8;

/// What a claim says of a reference.
#[derive(Clone, Copy)]
struct ReferenceClaim {
    layout: LayoutId,
    nonnull: bool,
    age: Age,
    same: Option<ValueId>,
}

/// A claim, and how often its bound has grown.
#[derive(Clone, Copy)]
struct Left {
    claim: Claim,
    grown: u8,
}

/// The claims without what the edge does not imply; None where it implies them all. `lengths` are those of the module's arrays, in order.
pub fn weakened(
    alloc: Global,
    summary: &FunctionSummary,
    flow: &mut FlowFacts,
    lengths: &[u64],
    listed: &BlockClaims,
) -> Result<Option<BlockClaims>, AllocError> {
    flow.begin_there(alloc, summary, listed.claims.as_slice())?;
    if shows_all(alloc, summary, flow, listed.claims.as_slice()) {
        return Ok(None);
    }
    let met = met(alloc, summary, flow.edge(), lengths, listed)?;
    let kept = without_unlisted(alloc, &met);
    drop(met);
    let kept = kept?;
    let left = without_lost_fresh(alloc, summary, flow, &kept);
    drop(kept);
    match left {
        Ok(left) => Ok(Some(left)),
        Err(refused) => Err(refused),
    }
}

/// Whether claims of which one says `fresh` name fewer values that are the same, or that slots hold, than those before them. An edge shows `fresh`
/// only where they list all that is the same, and each slot that holds it.
pub fn lists_less_of_fresh(before: &BlockClaims, left: &BlockClaims) -> bool {
    says_fresh(left) && names_listed(left) < names_listed(before)
}

fn says_fresh(listed: &BlockClaims) -> bool {
    for claim in listed.claims.as_slice() {
        if is_fresh(claim) {
            return true;
        }
    }
    false
}

fn is_fresh(claim: &Claim) -> bool {
    match claim {
        Claim::Value { fact, .. } => {
            matches!(
                fact,
                Fact::Reference {
                    age: Age::Fresh,
                    ..
                }
            )
        }
        Claim::Slot { .. } => false,
    }
}

/// How many claims name a value that is the same, or that a slot holds.
fn names_listed(listed: &BlockClaims) -> usize {
    let mut count = 0usize;
    for claim in listed.claims.as_slice() {
        if names_another(claim) {
            count = count.saturating_add(1);
        }
    }
    count
}

fn names_another(claim: &Claim) -> bool {
    match claim {
        Claim::Value {
            fact: Fact::Reference { same, .. },
            ..
        } => same.is_some(),
        Claim::Value { .. } => false,
        Claim::Slot { holds, .. } => holds.is_some(),
    }
}

fn shows_all(alloc: Global, summary: &FunctionSummary, flow: &FlowFacts, claims: &[Claim]) -> bool {
    flow.edge()
        .first_unmet(alloc, &summary.slots, &flow.there, claims)
        .is_none()
}

/// What both the claims and the edge say, claim by claim.
fn met(
    alloc: Global,
    summary: &FunctionSummary,
    edge: &Facts,
    lengths: &[u64],
    listed: &BlockClaims,
) -> Result<BlockClaims, AllocError> {
    let mut met = BlockClaims::new(alloc);
    for (claim, grown) in listed.claims.as_slice().iter().zip(listed.grown.iter()) {
        if let Some(left) = met_claim(summary, edge, lengths, *claim, *grown) {
            met.add(left.claim, left.grown)?;
        }
    }
    Ok(met)
}

fn met_claim(
    summary: &FunctionSummary,
    edge: &Facts,
    lengths: &[u64],
    claim: Claim,
    grown: u8,
) -> Option<Left> {
    match claim {
        Claim::Value { value, fact } => met_value(edge, lengths, value, fact, grown),
        Claim::Slot {
            slot,
            nonnull,
            holds,
        } => {
            let claim = met_slot(summary, edge, slot, nonnull, holds)?;
            Some(Left { claim, grown })
        }
    }
}

fn met_value(edge: &Facts, lengths: &[u64], value: ValueId, fact: Fact, grown: u8) -> Option<Left> {
    let known = edge.known(value);
    match fact {
        Fact::Number { bits, below } => met_number(lengths, value, bits, below, grown, known),
        Fact::Reference {
            layout,
            nonnull,
            age,
            same,
        } => {
            let claim = ReferenceClaim {
                layout,
                nonnull,
                age,
                same,
            };
            let fact = met_reference(edge, &claim, known)?;
            Some(unchanged(value, fact))
        }
        Fact::Address { base, words } => {
            let fact = met_address(base, &words, known)?;
            Some(unchanged(value, fact))
        }
        Fact::GlobalAddress(global) => {
            let fact = met_global(global, known)?;
            Some(unchanged(value, fact))
        }
    }
}

fn unchanged(value: ValueId, fact: Fact) -> Left {
    Left {
        claim: Claim::Value { value, fact },
        grown: 0,
    }
}

fn met_number(
    lengths: &[u64],
    value: ValueId,
    bits: u32,
    below: Option<u64>,
    grown: u8,
    known: Known,
) -> Option<Left> {
    let Known::Number {
        bits: other,
        below: shown,
    } = known
    else {
        return None;
    };
    if other != bits {
        return None;
    }
    let grows = !is_within(shown, below);
    let below = if grows {
        grown_bound(lengths, shown, grown)
    } else {
        below
    };
    let grown = if grows {
        grown.saturating_add(1)
    } else {
        grown
    };
    Some(Left {
        claim: Claim::Value {
            value,
            fact: Fact::Number { bits, below },
        },
        grown,
    })
}

fn is_within(shown: Option<u64>, below: Option<u64>) -> bool {
    match (shown, below) {
        (_, None) => true,
        (Some(shown), Some(below)) => shown <= below,
        (None, Some(_)) => false,
    }
}

/// The bound of an edge, then the next length of an array, and then none.
fn grown_bound(lengths: &[u64], shown: Option<u64>, grown: u8) -> Option<u64> {
    let shown = shown?;
    if grown < GROWTH_LIMIT {
        Some(shown)
    } else if grown < RAISE_LIMIT {
        lengths.iter().copied().find(|length| *length >= shown)
    } else {
        None
    }
}

fn met_global(global: SymbolId, known: Known) -> Option<Fact> {
    match known {
        Known::GlobalAddress(other) => {
            if other == global {
                Some(Fact::GlobalAddress(global))
            } else {
                None
            }
        }
        _ => None,
    }
}

fn met_reference(edge: &Facts, claim: &ReferenceClaim, known: Known) -> Option<Fact> {
    match known {
        Known::Cell {
            class,
            layout,
            stale,
        } => {
            if stale || layout != claim.layout {
                None
            } else {
                Some(met_cell(edge, claim, class))
            }
        }
        Known::Null => Some(Fact::Reference {
            layout: claim.layout,
            nonnull: false,
            age: Age::Held,
            same: None,
        }),
        _ => None,
    }
}

fn met_cell(edge: &Facts, claim: &ReferenceClaim, class: ClassId) -> Fact {
    let Class { nonnull, fresh } = edge.class(class);
    Fact::Reference {
        layout: claim.layout,
        nonnull: claim.nonnull && nonnull,
        age: if fresh { claim.age } else { Age::Held },
        same: same_in(edge, class, claim.same),
    }
}

/// A value, if it is of this class.
fn same_in(edge: &Facts, class: ClassId, same: Option<ValueId>) -> Option<ValueId> {
    match same {
        Some(value) => {
            if is_of(edge.known(value), class) {
                same
            } else {
                None
            }
        }
        None => None,
    }
}

fn is_of(known: Known, class: ClassId) -> bool {
    match known {
        Known::Cell { class: other, .. } => other == class,
        _ => false,
    }
}

fn met_address(base: ValueId, words: &WordSet, known: Known) -> Option<Fact> {
    match known {
        Known::Address {
            base: other,
            words: shown,
        } => {
            if other == base {
                Some(Fact::Address {
                    base,
                    words: union(words, &shown),
                })
            } else {
                None
            }
        }
        _ => None,
    }
}

fn union(one: &WordSet, other: &WordSet) -> WordSet {
    let mut words = *one;
    for word in 0..64u32 {
        if other.has(word) {
            words.add(word);
        }
    }
    words
}

fn met_slot(
    summary: &FunctionSummary,
    edge: &Facts,
    slot: ValueId,
    nonnull: bool,
    holds: Option<ValueId>,
) -> Option<Claim> {
    let place = summary.slots.slot_of(slot)?;
    let nonnull = nonnull && is_slot_nonnull(edge, place);
    let holds = match edge.slot(place).holds {
        Some(class) => same_in(edge, class, holds),
        None => None,
    };
    slot_claim(slot, nonnull, holds)
}

fn is_slot_nonnull(edge: &Facts, slot: SlotId) -> bool {
    let fact = edge.slot(slot);
    edge.slot_nonnull(fact)
}

/// The claims that are left where a value that they name is not listed.
fn without_unlisted(alloc: Global, met: &BlockClaims) -> Result<BlockClaims, AllocError> {
    let mut references = IndexSet::new(alloc);
    for claim in met.claims.as_slice() {
        if let Some(value) = reference_listed(claim) {
            references.insert(value.number())?;
        }
    }
    let mut kept = BlockClaims::new(alloc);
    for (claim, grown) in met.claims.as_slice().iter().zip(met.grown.iter()) {
        if let Some(claim) = on_listed(&references, *claim) {
            kept.add(claim, *grown)?;
        }
    }
    Ok(kept)
}

/// The value of a claim, if it is a reference.
fn reference_listed(claim: &Claim) -> Option<ValueId> {
    match claim {
        Claim::Value { value, fact } => {
            if matches!(fact, Fact::Reference { .. }) {
                Some(*value)
            } else {
                None
            }
        }
        Claim::Slot { .. } => None,
    }
}

fn on_listed(references: &IndexSet<u32>, claim: Claim) -> Option<Claim> {
    match claim {
        Claim::Value { value, fact } => {
            let fact = fact_on_listed(references, fact)?;
            Some(Claim::Value { value, fact })
        }
        Claim::Slot {
            slot,
            nonnull,
            holds,
        } => {
            let holds = if_listed(references, holds);
            slot_claim(slot, nonnull, holds)
        }
    }
}

/// A claim of a slot, if it says something.
fn slot_claim(slot: ValueId, nonnull: bool, holds: Option<ValueId>) -> Option<Claim> {
    if nonnull || holds.is_some() {
        Some(Claim::Slot {
            slot,
            nonnull,
            holds,
        })
    } else {
        None
    }
}

fn fact_on_listed(references: &IndexSet<u32>, fact: Fact) -> Option<Fact> {
    match fact {
        Fact::Reference {
            layout,
            nonnull,
            age,
            same,
        } => Some(Fact::Reference {
            layout,
            nonnull,
            age,
            same: if_listed(references, same),
        }),
        Fact::Address { base, words } => {
            if references.contains(&base.number()) {
                Some(Fact::Address { base, words })
            } else {
                None
            }
        }
        Fact::Number { .. } | Fact::GlobalAddress(_) => Some(fact),
    }
}

fn if_listed(references: &IndexSet<u32>, value: Option<ValueId>) -> Option<ValueId> {
    match value {
        Some(listed) => {
            if references.contains(&listed.number()) {
                value
            } else {
                None
            }
        }
        None => None,
    }
}

/// Drops `fresh` from each claim whose freshness the edge does not imply.
fn without_lost_fresh(
    alloc: Global,
    summary: &FunctionSummary,
    flow: &mut FlowFacts,
    kept: &BlockClaims,
) -> Result<BlockClaims, AllocError> {
    flow.begin_there(alloc, summary, kept.claims.as_slice())?;
    let mut left = BlockClaims::new(alloc);
    for (claim, grown) in kept.claims.as_slice().iter().zip(kept.grown.iter()) {
        let shown = flow.edge().implies(&summary.slots, &flow.there, *claim);
        let claim = if shown { *claim } else { held(*claim) };
        left.add(claim, *grown)?;
    }
    Ok(left)
}

/// A claim whose reference is not fresh.
fn held(claim: Claim) -> Claim {
    match claim {
        Claim::Value { value, fact } => Claim::Value {
            value,
            fact: held_fact(fact),
        },
        Claim::Slot { .. } => claim,
    }
}

fn held_fact(fact: Fact) -> Fact {
    match fact {
        Fact::Reference {
            layout,
            nonnull,
            same,
            ..
        } => Fact::Reference {
            layout,
            nonnull,
            age: Age::Held,
            same,
        },
        _ => fact,
    }
}
