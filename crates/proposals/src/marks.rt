use crate::call_graph::CallGraph;
use certs::Mark;
use number_tables::{put, row_or};
use std::alloc::{AllocError, Global};

/// The mark of each of `count` functions: `may` where a safepoint can be reached over calls.
pub fn marks_of(alloc: Global, graph: &CallGraph, count: usize) -> Result<Vec<Mark>, AllocError> {
    let mut marks = vec![in alloc; Mark::None; count]?;
    let mut reached = Vec::new(alloc);
    for func in graph.safepoints.as_slice() {
        reach(&mut marks, &mut reached, *func)?;
    }
    for at in 0..usize::MAX {
        let Some(func) = reached.get(at).copied() else {
            break;
        };
        for caller in graph.callers.group(func as usize) {
            reach(&mut marks, &mut reached, *caller)?;
        }
    }
    Ok(marks)
}

fn reach(marks: &mut [Mark], reached: &mut Vec<u32>, func: u32) -> Result<(), AllocError> {
    let at = func as usize;
    if row_or(marks, at, Mark::May) == Mark::None {
        put(marks, at, Mark::May);
        reached.push(func)?;
    }
    Ok(())
}
