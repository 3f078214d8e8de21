//! The blocks from which each block of a function is entered.
use ir_ast::{Block, End, Function, ValueId};
use number_tables::Buckets;
use std::alloc::{AllocError, Global};
use types::target_of;

/// For each block those from which it is entered, once for each edge.
pub fn predecessors_of(alloc: Global, function: &Function) -> Result<Buckets, AllocError> {
    let pairs = edges_of(alloc, function)?;
    let predecessors = Buckets::of(alloc, &pairs, function.blocks.len());
    drop(pairs);
    predecessors
}

/// Each block with one from which it is entered.
fn edges_of(alloc: Global, function: &Function) -> Result<Vec<(usize, u32)>, AllocError> {
    let mut pairs = Vec::new(alloc);
    let mut from = 0u32;
    for block in function.blocks.as_slice() {
        record_edges(&mut pairs, function, from, block)?;
        from = from.saturating_add(1);
    }
    Ok(pairs)
}

fn record_edges(
    pairs: &mut Vec<(usize, u32)>,
    function: &Function,
    from: u32,
    block: &Block,
) -> Result<(), AllocError> {
    match &block.end {
        End::Jump(target) => record_edge(pairs, function, from, *target),
        End::Branch { taken, other, .. } => {
            record_edge(pairs, function, from, *taken)?;
            record_edge(pairs, function, from, *other)
        }
        End::Switch {
            otherwise,
            cases,
            ..
        } => {
            record_edge(pairs, function, from, *otherwise)?;
            for case in cases.as_slice() {
                record_edge(pairs, function, from, case.target)?;
            }
            Ok(())
        }
        End::Unreachable | End::ReturnVoid | End::Return(_) => Ok(()),
    }
}

fn record_edge(
    pairs: &mut Vec<(usize, u32)>,
    function: &Function,
    from: u32,
    target: ValueId,
) -> Result<(), AllocError> {
    if let Some(to) = target_of(function, target) {
        pairs.push((to.number() as usize, from))?;
    }
    Ok(())
}
