//! From which blocks each block of a function is entered.
use ir_ast::{End, Function, ValueId};
use number_tables::Buckets;
use std::alloc::{AllocError, Global};
use types::target_of;

/// For each block those that lead to it, in their order. One that leads to it by two edges is there twice.
pub(crate) fn predecessors_of(alloc: Global, function: &Function) -> Result<Buckets, AllocError> {
    let edges = edges_of(alloc, function)?;
    let predecessors = Buckets::of(alloc, &edges, function.blocks.len());
    drop(edges);
    predecessors
}

/// The labels to which the end of a block leads, one for each edge.
pub(crate) fn labels_of(alloc: Global, end: &End) -> Result<Vec<ValueId>, AllocError> {
    let mut labels = Vec::new(alloc);
    match end {
        End::Jump(label) => labels.push(*label)?,
        End::Branch { taken, other, .. } => {
            labels.push(*taken)?;
            labels.push(*other)?
        }
        End::Switch {
            otherwise,
            cases,
            ..
        } => {
            labels.push(*otherwise)?;
            for case in cases.as_slice() {
                labels.push(case.target)?;
            }
        }
        End::Unreachable | End::ReturnVoid | End::Return(_) => {}
    }
    Ok(labels)
}

/// Each block with one that leads to it.
fn edges_of(alloc: Global, function: &Function) -> Result<Vec<(usize, u32)>, AllocError> {
    let mut edges = Vec::new(alloc);
    let mut from = 0u32;
    for block in function.blocks.as_slice() {
        let labels = labels_of(alloc, &block.end)?;
        for label in labels.as_slice() {
            if let Some(to) = target_of(function, *label) {
                edges.push((to.number() as usize, from))?;
            }
        }
        drop(labels);
        from = from.saturating_add(1);
    }
    Ok(edges)
}
