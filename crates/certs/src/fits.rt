//! Which certificates are certificates of a module.
ghost use Rattle.std.specs.Prelude.{◌≡◌, ◌&&◌};
ghost use Rattle.std.specs.List.{list_all, list_any, zip};
ghost use Rattle.certs.specs.Fits as spec;

use crate::family::{Family, family_of_type, family_of_value};
use crate::roots::is_root_found;
use crate::runs::{all_named_listed, lists_once};
use crate::section::{Claim, Fact, Promise, Section};
use ir_ast::{Function, LocalSort, Module, Parameter, ValueId};
use items::Items;
use pools::{LayoutId, WordSet};
use types::global_named;

fn is_count(number: u64) -> bool
    ensures { result ≡ spec.is_count number }
{
    number != 0
}

fn below_fits(below: Option<u64>) -> bool
    ensures { result ≡ spec.below_fits below }
{
    match below {
        None => true,
        Some(number) => is_count(number),
    }
}

fn stands_for(layout: LayoutId, own: &Option<LayoutId>) -> bool
    ensures { result ≡ spec.stands_for layout own.now }
{
    match own {
        None => false,
        Some(own) => *own == layout,
    }
}

/// Whether it is a layout of the module.
pub(crate) fn is_layout(module: &Module, layout: LayoutId) -> bool
    ensures { result ≡ list_any (spec.stands_for layout) «module».now.struct_of }
{
    module
        .struct_of
        .as_slice()
        .iter()
        .any(|own| stands_for(layout, own))
}

fn layout_fits(module: &Module, family: Family, layout: LayoutId) -> bool
    ensures { result ≡ spec.layout_fits «module».now family layout }
{
    family.refers_to(layout) && is_layout(module, layout)
}

fn words_fit(words: &WordSet) -> bool
    ensures { result ≡ spec.words_fit words.now }
{
    words.next_from(0).is_some()
}

fn says_something(promise: &Promise) -> bool
    ensures { result ≡ spec.says_something promise.now }
{
    promise.layout.is_some() || promise.nonnull || promise.below.is_some() || promise.number
}

/// Whether nothing else is promised of an address outside, which is a pointer.
fn promised_number_fits(module: &Module, family: &Family, promise: &Promise) -> bool
    ensures { result ≡ spec.promised_number_fits «module».now family.now promise.now }
{
    !promise.number
        || (family.may_be_outside(module)
            && (promise.layout.is_none() && (!promise.nonnull && promise.below.is_none())))
}

/// Whether this may be promised of such a value.
fn promise_fits(module: &Module, family: &Family, promise: &Promise) -> bool
    ensures { result ≡ spec.promise_fits «module».now family.now promise.now }
{
    says_something(promise)
        && promised_number_fits(module, family, promise)
        && promised_layout_fits(module, family, promise.layout)
        && (!promise.nonnull || family.is_reference())
        && promised_below_fits(family, promise.below)
}

fn promised_layout_fits(module: &Module, family: &Family, layout: Option<LayoutId>) -> bool
    ensures { result ≡ spec.promised_layout_fits «module».now family.now layout }
{
    match layout {
        None => true,
        Some(layout) => layout_fits(module, *family, layout),
    }
}

fn promised_below_fits(family: &Family, below: Option<u64>) -> bool
    ensures { result ≡ spec.promised_below_fits family.now below }
{
    match below {
        None => true,
        Some(number) => family.is_integer() && is_count(number),
    }
}

fn promised_fits(module: &Module, family: &Family, promise: &Option<Promise>) -> bool
    ensures { result ≡ spec.promised_fits «module».now family.now promise.now }
{
    match promise {
        None => true,
        Some(promise) => promise_fits(module, family, promise),
    }
}

fn parameter_fits(
    module: &Module,
    function: &Function,
    parameter: &Parameter,
    promise: &Option<Promise>,
) -> bool
    ensures { result ≡ spec.parameter_fits «module».now function.now parameter.now promise.now }
{
    let family = family_of_value(module, function, parameter.value);
    promised_fits(module, &family, promise)
}

/// Whether it is what may be said of an address outside: a number of 64 bits.
fn is_outside_fact(module: &Module, family: &Family, bits: u32, below: Option<u64>) -> bool
    ensures { result ≡ spec.is_outside_fact «module».now family.now bits below }
{
    family.may_be_outside(module) && (bits == 64 && below.is_none())
}

/// Whether a fact may be given of such a value.
fn fact_fits(module: &Module, family: Family, fact: &Fact) -> bool
    ensures { result ≡ spec.fact_fits «module».now family fact.now }
{
    match fact {
        Fact::Number { bits, below } => {
            let outside = is_outside_fact(module, &family, *bits, *below);
            (family.same_bits(Some(*bits as u64)).is_some() && below_fits(*below)) || outside
        }
        Fact::Reference { layout, .. } => layout_fits(module, family, *layout),
        Fact::Address { words, .. } => family.is_address() && words_fit(words),
        Fact::GlobalAddress(symbol) => {
            family.is_address() && global_named(module, *symbol).is_some()
        }
    }
}

fn is_value(function: &Function, value: ValueId) -> bool
    ensures { result ≡ spec.is_value function.now value }
{
    matches!(
        function.sorts.get(value.number() as usize),
        Some(LocalSort::Value(_) | LocalSort::Slot(_) | LocalSort::Element { .. })
    )
}

/// Whether it is the name of a root slot's alloca.
pub(crate) fn is_root_name(module: &Module, function: &Function, slot: ValueId) -> bool
    ensures { result ≡ spec.is_root_name «module».now function.now slot }
{
    is_value(function, slot) && is_root_found(module, function, slot)
}

/// Whether a claim is allowed, wherever it is.
fn claim_fits(module: &Module, function: &Function, claim: &Claim) -> bool
    ensures { result ≡ spec.claim_fits «module».now function.now claim.now }
{
    match claim {
        Claim::Value { value, fact } => {
            fact_fits(module, family_of_value(module, function, *value), fact)
        }
        Claim::Slot { slot, .. } => is_root_name(module, function, *slot),
    }
}

pub(crate) fn lists(value: ValueId, claim: &Claim) -> bool
    ensures { result ≡ spec.lists value claim.now }
{
    match claim {
        Claim::Value { value: own, .. } => *own == value,
        Claim::Slot { .. } => false,
    }
}

pub(crate) fn lists_slot(slot: ValueId, claim: &Claim) -> bool
    ensures { result ≡ spec.lists_slot slot claim.now }
{
    match claim {
        Claim::Value { .. } => false,
        Claim::Slot { slot: own, .. } => *own == slot,
    }
}

pub(crate) fn some_lists(claims: &[Claim], value: ValueId) -> bool
    ensures { result ≡ list_any (spec.lists value) claims.now }
{
    claims.iter().any(|claim| lists(value, claim))
}

fn named_in_fact(fact: &Fact) -> Option<ValueId>
    ensures { result ≡ spec.named_in_fact fact.now }
{
    match fact {
        Fact::Reference { same, .. } => *same,
        Fact::Address { base, .. } => Some(*base),
        _ => None,
    }
}

/// The value that a claim names besides the one that it lists.
pub(crate) fn named_in(claim: &Claim) -> Option<ValueId>
    ensures { result ≡ spec.named_in claim.now }
{
    match claim {
        Claim::Value { fact, .. } => named_in_fact(fact),
        Claim::Slot { holds, .. } => *holds,
    }
}

fn each_claim_fits(module: &Module, function: &Function, claims: &[Claim]) -> bool
    ensures { result ≡ list_all (spec.claim_fits «module».now function.now) claims.now }
{
    claims
        .iter()
        .all(|claim| claim_fits(module, function, claim))
}

/// Whether they may be the claims of a block.
fn claims_fit(module: &Module, function: &Function, claims: &[Claim]) -> bool
    ensures { result ≡ spec.claims_fit «module».now function.now claims.now }
{
    each_claim_fits(module, function, claims) && lists_once(claims) && all_named_listed(claims)
}

fn entry_is_empty(blocks: &[Items<Claim>]) -> bool
    ensures { result ≡ spec.entry_is_empty blocks.now }
{
    match blocks {
        [] => true,
        [entry, ..] => entry.len() == 0,
    }
}

fn each_block_fits(module: &Module, function: &Function, blocks: &[Items<Claim>]) -> bool
    ensures { result ≡ list_all (spec.claims_fit «module».now function.now) blocks.now }
{
    blocks
        .iter()
        .all(|claims| claims_fit(module, function, claims.as_slice()))
}

fn blocks_fit(module: &Module, function: &Function, blocks: &[Items<Claim>]) -> bool
    ensures { result ≡ spec.blocks_fit «module».now function.now blocks.now }
{
    blocks.len() == function.blocks.len()
        && entry_is_empty(blocks)
        && each_block_fits(module, function, blocks)
}

fn parameters_fit(module: &Module, function: &Function, promises: &[Option<Promise>]) -> bool
    ensures { result ≡ spec.parameters_fit «module».now function.now promises.now }
{
    let parameters = function.parameters.as_slice();
    promises.len() == parameters.len()
        && each_parameter_fits(module, function, parameters, promises)
}

fn each_parameter_fits(
    module: &Module,
    function: &Function,
    parameters: &[Parameter],
    promises: &[Option<Promise>],
) -> bool
    ensures { result ≡ list_all (λ p. spec.parameter_fits «module».now function.now p.0 p.1) (zip parameters.now promises.now) }
{
    parameters.iter().zip(promises.iter()).all(|(parameter, promise)| parameter_fits(
        module, function, parameter, promise,
    ))
}

/// Whether it may be the certificate of this function.
fn section_fits(module: &Module, function: &Function, section: &Section) -> bool
    ensures { result ≡ spec.section_fits «module».now function.now section.now }
{
    let returned = family_of_type(module, function.returned);
    parameters_fit(module, function, section.parameters.as_slice())
        && promised_fits(module, &returned, &section.result)
        && blocks_fit(module, function, section.blocks.as_slice())
}

/// Whether each section may be the certificate of the function beside it.
pub fn sections_fit(module: &Module, functions: &[Function], sections: &[Section]) -> bool
    ensures { result ≡ list_all (λ p. spec.section_fits «module».now p.0 p.1) (zip functions.now sections.now) }
{
    functions.iter().zip(sections.iter()).all(|(function, section)| section_fits(
        module, function, section,
    ))
}
