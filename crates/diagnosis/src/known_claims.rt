//! What is known of a value, as a claim of a certificate.
ghost use Rattle.std.specs.Prelude.{◌≡◌, IfOk, [], ◌∷◌, slice_get, Some};
ghost use Rattle.diagnosis.specs.KnownClaims as spec;

use certs::{Age, Certs, Claim, Fact, Mark, Section};
use facts::{ClassId, Facts, Known};
use ir_ast::{FuncId, Outside, ValueId};
use items::Items;
use pools::LayoutId;
use std::alloc::{AllocError, Global};

fn age_of(facts: &Facts, class: ClassId, stale: bool) -> Age
    ensures { result ≡ spec.age_of facts.now class stale }
{
    if stale {
        Age::Stale
    } else if facts.class(class).fresh {
        Age::Fresh
    } else {
        Age::Held
    }
}

fn reference(facts: &Facts, class: ClassId, layout: LayoutId, stale: bool) -> Fact
    ensures { result ≡ spec.reference facts.now class layout stale }
{
    Fact::Reference {
        layout,
        nonnull: facts.class(class).nonnull,
        age: age_of(facts, class, stale),
        same: None,
    }
}

/// What is known of a value as a claim, if it is known and a claim can say it. It names no other value but the base of an address.
pub fn claim_of(facts: &Facts, value: ValueId) -> Option<Claim>
    ensures { result ≡ spec.claim_of facts.now value }
{
    let fact = match facts.known(value) {
        Known::Number { bits, below } => Fact::Number { bits, below },
        Known::Cell {
            class,
            layout,
            stale,
        } => reference(facts, class, layout, stale),
        Known::Address { base, words } => Fact::Address { base, words },
        Known::GlobalAddress(symbol) => Fact::GlobalAddress(symbol),
        Known::Nothing | Known::Null => return None,
    };
    Some(Claim::Value { value, fact })
}

/// The section of a function of which no claim is made.
fn blank_section(alloc: Global) -> Section
    ensures { result ≡ spec.section_of [] }
{
    Section {
        mark: Mark::None,
        parameters: Items::new(alloc),
        result: None,
        blocks: Items::new(alloc),
    }
}

/// Certificates in which a function has these claims at its first block, to print the claims.
pub fn claims_as_certs(
    alloc: Global,
    func: FuncId,
    claims: Items<Claim>,
) -> Result<Certs, AllocError>
    ensures { IfOk result (λ certs. slice_get certs.sections func ≡ Some (spec.section_of (claims ∷ []))) }
{
    let mut section = blank_section(alloc);
    section.blocks.push(claims)?;
    let mut sections = Items::new(alloc);
    for _number in 0..func.number() {
        sections.push(blank_section(alloc))?;
    }
    sections.push(section)?;
    Ok(Certs {
        sections,
        shapes: None,
        foreign: Outside::none(alloc),
    })
}
