use crate::guesses::Guesses;
use crate::incoming_operands::IncomingOperands;
use crate::predecessors::predecessors_of;
use crate::scan::Scan;
use crate::wanted::wanted_of;
use ir_ast::{FuncId, Function, Module, ValueId};
use layout_flow::{LayoutFlow, Leads};
use number_tables::Buckets;
use pools::LayoutId;
use shadow_stack::{Slots, slots_of};
use std::alloc::{AllocError, Global};

/// What is found of a function once, for a walk over its blocks.
#[derive(Drop)]
pub struct FunctionSummary<'a> {
    pub func: FuncId,
    layouts: &'a LayoutFlow,
    pub slots: Slots,
    /// How many values it has.
    pub values: usize,
    pub reading: Reading,
}

/// What is read in the text of a function.
#[derive(Drop)]
pub struct Reading {
    pub incoming: IncomingOperands,
    pub guesses: Guesses,
    /// The values and slots that are wanted at each block; a slot's number comes after those of all values.
    pub wanted: Buckets,
    /// The blocks from which each block is entered, once for each edge.
    pub predecessors: Buckets,
}

impl<'a> FunctionSummary<'a> {
    pub fn of(
        alloc: Global,
        module: &Module,
        func: FuncId,
        function: &Function,
        layouts: &'a LayoutFlow,
    ) -> Result<FunctionSummary<'a>, AllocError> {
        let slots = slots_of(alloc, module, function)?;
        let Ok(reading) = Reading::of(alloc, function, &slots) else {
            drop(slots);
            return Err(AllocError);
        };
        Ok(FunctionSummary {
            func,
            layouts,
            slots,
            values: function.locals.count(),
            reading,
        })
    }

    /// The layout of an `i8*` or a `ptr`, as far as the module tells.
    pub fn layout_of(&self, value: ValueId) -> Option<LayoutId> {
        match self.layouts.of_value(self.func, value) {
            Leads::To(layout) => Some(layout),
            Leads::Outside | Leads::Nowhere => None,
        }
    }
}

impl Reading {
    fn of(alloc: Global, function: &Function, slots: &Slots) -> Result<Reading, AllocError> {
        let incoming = IncomingOperands::of(alloc, function)?;
        let Ok(predecessors) = predecessors_of(alloc, function) else {
            drop(incoming);
            return Err(AllocError);
        };
        match guesses_and_wanted(alloc, function, slots, &predecessors) {
            Ok((guesses, wanted)) => Ok(Reading {
                incoming,
                guesses,
                wanted,
                predecessors,
            }),
            Err(refused) => {
                drop(incoming);
                drop(predecessors);
                Err(refused)
            }
        }
    }
}

fn guesses_and_wanted(
    alloc: Global,
    function: &Function,
    slots: &Slots,
    predecessors: &Buckets,
) -> Result<(Guesses, Buckets), AllocError> {
    let guesses = Guesses::of(alloc, function, slots)?;
    match wanted_in(alloc, function, slots, predecessors, &guesses) {
        Ok(wanted) => Ok((guesses, wanted)),
        Err(refused) => {
            drop(guesses);
            Err(refused)
        }
    }
}

fn wanted_in(
    alloc: Global,
    function: &Function,
    slots: &Slots,
    predecessors: &Buckets,
    guesses: &Guesses,
) -> Result<Buckets, AllocError> {
    let scan = Scan::of(alloc, function, slots, &guesses.bases)?;
    let wanted = wanted_of(alloc, function.blocks.len(), predecessors, &scan);
    drop(scan);
    wanted
}
