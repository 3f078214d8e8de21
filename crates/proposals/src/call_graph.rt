use ir_ast::{Block, Call, FuncId, Module, Op, Runtime, SymbolId, SymbolSort};
use number_tables::Buckets;
use std::alloc::{AllocError, Global};
use types::runtime_called;

/// Which functions call which others, and which call a safepoint.
#[derive(Drop)]
pub struct CallGraph {
    pub callees: Buckets,
    pub callers: Buckets,
    /// The functions with a safepoint of their own.
    pub safepoints: Vec<u32>,
}

/// The calls that are found so far.
#[derive(Drop)]
struct Calls {
    /// Each caller with what it calls.
    downward: Vec<(usize, u32)>,
    /// Each callee with what calls it.
    upward: Vec<(usize, u32)>,
    safepoints: Vec<u32>,
}

impl CallGraph {
    pub fn of(alloc: Global, module: &Module) -> Result<CallGraph, AllocError> {
        let mut calls = Calls {
            downward: Vec::new(alloc),
            upward: Vec::new(alloc),
            safepoints: Vec::new(alloc),
        };
        let graph = match calls.record_functions(module) {
            Ok(()) => calls.graph(alloc, module.functions.len()),
            Err(refused) => Err(refused),
        };
        drop(calls);
        graph
    }
}

impl Calls {
    fn record_functions(&mut self, module: &Module) -> Result<(), AllocError> {
        let mut number = 0u32;
        for function in module.functions.as_slice() {
            for block in function.blocks.as_slice() {
                self.record_block(module, number, block)?;
            }
            number = number.saturating_add(1);
        }
        Ok(())
    }

    fn record_block(
        &mut self,
        module: &Module,
        caller: u32,
        block: &Block,
    ) -> Result<(), AllocError> {
        for instr in block.body.as_slice() {
            if let Op::Call(call) = &instr.op {
                self.record_call(module, caller, call)?;
            }
        }
        Ok(())
    }

    fn record_call(&mut self, module: &Module, caller: u32, call: &Call) -> Result<(), AllocError> {
        if let Some(callee) = defined(module, call.callee) {
            self.downward.push((caller as usize, callee.number()))?;
            self.upward.push((callee.number() as usize, caller))?;
        }
        if let Some(Runtime::Safepoint) = runtime_called(module, call.callee) {
            self.safepoints.push(caller)?;
        }
        Ok(())
    }

    /// The graph of `count` functions.
    fn graph(&self, alloc: Global, count: usize) -> Result<CallGraph, AllocError> {
        let callees = Buckets::of(alloc, &self.downward, count)?;
        let Ok(callers) = Buckets::of(alloc, &self.upward, count) else {
            drop(callees);
            return Err(AllocError);
        };
        let Ok(safepoints) = Vec::from_slice(alloc, &self.safepoints) else {
            drop(callees);
            drop(callers);
            return Err(AllocError);
        };
        Ok(CallGraph {
            callees,
            callers,
            safepoints,
        })
    }
}

/// The function that a global name is defined as.
pub fn defined(module: &Module, callee: SymbolId) -> Option<FuncId> {
    match module.sorts.get(callee.number() as usize) {
        Some(SymbolSort::Defined(number)) => Some(*number),
        _ => None,
    }
}
