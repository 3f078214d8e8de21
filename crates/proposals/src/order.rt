//! The order in which functions are walked over first.
use crate::call_graph::CallGraph;
use number_tables::{put, row_or};
use std::alloc::{AllocError, Global};

/// Functions on the path down the calls.
#[derive(Drop)]
struct Descent {
    /// Each function on the path, and how many of its calls were followed.
    path: Vec<(u32, usize)>,
    entered: Vec<bool>,
    order: Vec<u32>,
}

/// The `count` functions of a module, each after those that it calls, but for circles.
pub fn callees_first(
    alloc: Global,
    graph: &CallGraph,
    count: usize,
) -> Result<Vec<u32>, AllocError> {
    let entered = vec![in alloc; false; count]?;
    let mut descent = Descent {
        path: Vec::new(alloc),
        entered,
        order: Vec::new(alloc),
    };
    match descent.go(graph, count) {
        Ok(()) => Ok(descent.into_order()),
        Err(refused) => {
            drop(descent);
            Err(refused)
        }
    }
}

impl Descent {
    fn go(&mut self, graph: &CallGraph, count: usize) -> Result<(), AllocError> {
        let Ok(count) = u32::try_from(count) else {
            return Ok(());
        };
        for func in 0..count {
            self.enter(func)?;
            self.descend(graph)?;
        }
        Ok(())
    }

    /// Goes down the calls until no function is on the path.
    fn descend(&mut self, graph: &CallGraph) -> Result<(), AllocError> {
        for _ in 0..usize::MAX {
            let Some((func, followed)) = self.path.pop() else {
                break;
            };
            self.follow(graph, func, followed)?;
        }
        Ok(())
    }

    fn into_order(self) -> Vec<u32> {
        self.order
    }

    fn enter(&mut self, func: u32) -> Result<(), AllocError> {
        let at = func as usize;
        if !row_or(&self.entered, at, true) {
            put(&mut self.entered, at, true);
            self.path.push((func, 0))?;
        }
        Ok(())
    }

    fn follow(&mut self, graph: &CallGraph, func: u32, followed: usize) -> Result<(), AllocError> {
        match graph.callees.group(func as usize).get(followed) {
            Some(callee) => {
                self.path.push((func, followed.saturating_add(1)))?;
                self.enter(*callee)
            }
            None => {
                self.order.push(func)?;
                Ok(())
            }
        }
    }
}
