//! Facts that many blocks share.
use facts::{Class, Facts, Known};
use ir_ast::ValueId;
use pools::LayoutId;
use std::alloc::{AllocError, Global};

/// A value that is a reference.
const REFERENCE: u32 = 0;

/// Facts of one value, which is a reference.
fn sample(alloc: Global) -> Result<Facts, AllocError> {
    let mut facts = Facts::new(alloc, 1, 0)?;
    let class = Class {
        nonnull: false,
        fresh: true,
    };
    facts.define_new(ValueId::new(REFERENCE), LayoutId::new(0), class)?;
    Ok(facts)
}

/// Whether the value is known as a reference.
fn is_reference(facts: &Facts) -> bool {
    matches!(facts.known(ValueId::new(REFERENCE)), Known::Cell { .. })
}

/// A sharer of the last of these sharers of some facts, or of the facts themselves.
fn next_sharer(sharers: &[Facts], facts: &Facts) -> Result<Facts, AllocError> {
    match sharers.last() {
        Some(last) => last.share(),
        None => facts.share(),
    }
}

/// Adds a million sharers of some facts, each of the one before it.
fn add_sharers(sharers: &mut Vec<Facts>, facts: &Facts) -> Result<(), AllocError> {
    for _step in 0..1_000_000u32 {
        let next = next_sharer(sharers.as_slice(), facts)?;
        sharers.push(next)?;
    }
    Ok(())
}

/// A sharer of the last of a million sharers, which forgets the value.
fn changed_last(sharers: &mut Vec<Facts>, facts: &Facts) -> Result<Facts, AllocError> {
    add_sharers(sharers, facts)?;
    let mut last = next_sharer(sharers.as_slice(), facts)?;
    last.forget(ValueId::new(REFERENCE))?;
    Ok(last)
}

/// The same, once the million sharers are dropped.
fn last_alone(alloc: Global, facts: &Facts) -> Result<Facts, AllocError> {
    let mut sharers = Vec::new(alloc);
    let last = changed_last(&mut sharers, facts);
    drop(sharers);
    last
}

/// Whether the value is still known of some facts, and of the last of their sharers, which was changed.
fn outlive_sharers_of(alloc: Global, facts: &Facts) -> Result<(bool, bool), AllocError> {
    let last = last_alone(alloc, facts)?;
    let known = (is_reference(facts), is_reference(&last));
    drop(last);
    Ok(known)
}

/// Whether the last of a million sharers is changed alone, and stays so where the others are dropped.
fn outlive_sharers(alloc: Global) -> Result<(bool, bool), AllocError> {
    let facts = sample(alloc)?;
    let outlive = outlive_sharers_of(alloc, &facts);
    drop(facts);
    outlive
}

#[test]
fn a_million_sharers_are_dropped(rt: HostRuntime) -> Result<(), AllocError> {
    assert_eq!(rt; outlive_sharers(rt.alloc())?, (true, false));
    Ok(())
}
