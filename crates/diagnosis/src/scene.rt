//! A refused instruction, with what is known before it.
use crate::before::facts_before;
use block_rules::{Refusal, RuleContext};
use facts::Facts;
use ir_ast::{
    Block, BlockId, End, FuncId, Function, Instr, Module, Operand, Phi, SymbolId, SymbolSort,
};
use number_tables::Buckets;
use std::alloc::{AllocError, Global};

/// An instruction of a function, by its block and its place there.
#[derive(Clone, Copy)]
pub struct Spot {
    pub block: BlockId,
    pub place: usize,
}

/// A refused instruction, with what is known before it.
#[derive(Clone, Copy)]
pub(crate) struct Scene<'a> {
    pub(crate) alloc: Global,
    pub(crate) context: RuleContext<'a>,
    /// For each block of the function those that lead to it.
    pub(crate) entered: &'a Buckets,
    pub(crate) facts: &'a Facts,
    pub(crate) refusal: Refusal,
}

/// What an instruction of a block is.
#[derive(Clone, Copy)]
pub(crate) enum There<'a> {
    Phi(&'a Phi),
    Body(&'a Instr),
    End(&'a End),
    Nothing,
}

/// A block of a function.
pub(crate) fn block_at(function: &Function, block: BlockId) -> Option<&Block> {
    function.blocks.get(block.number() as usize)
}

/// The block at a place among those of its function.
pub(crate) fn block_id(place: usize) -> Option<BlockId> {
    match u32::try_from(place) {
        Ok(number) => Some(BlockId::new(number)),
        Err(_) => None,
    }
}

/// The function of the module that a name stands for.
pub(crate) fn defined_as(of_module: &Module, symbol: SymbolId) -> Option<FuncId> {
    match of_module.sorts.get(symbol.number() as usize) {
        Some(SymbolSort::Defined(func)) => Some(*func),
        _ => None,
    }
}

/// The instruction of a body at a place of a function.
pub(crate) fn instr_in<'a>(function: &'a Function, spot: &Spot) -> Option<&'a Instr> {
    let block = block_at(function, spot.block)?;
    block.body.get(spot.place.checked_sub(block.phis.len())?)
}

/// The instruction at a place of a block.
fn instruction_at(function: &Function, spot: Spot) -> There<'_> {
    let Some(block) = block_at(function, spot.block) else {
        return There::Nothing;
    };
    if let Some(phi) = block.phis.get(spot.place) {
        return There::Phi(phi);
    }
    match block.body.get(spot.place.saturating_sub(block.phis.len())) {
        Some(instr) => There::Body(instr),
        None => There::End(&block.end),
    }
}

impl<'a> Scene<'a> {
    /// The refused instruction.
    pub(crate) fn there(&self) -> There<'a> {
        instruction_at(self.context.function, self.spot())
    }

    /// What is known before an instruction of the function.
    pub(crate) fn facts_at(&self, spot: &Spot) -> Result<Facts, AllocError> {
        facts_before(
            self.alloc,
            &self.context,
            self.refusal.func,
            spot.block,
            spot.place,
        )
    }

    /// Where the refused instruction is.
    pub(crate) fn spot(&self) -> Spot {
        Spot {
            block: self.refusal.block,
            place: self.refusal.instr,
        }
    }

    /// How many phis a block has.
    pub(crate) fn phis_of(&self, block: BlockId) -> usize {
        match block_at(self.context.function, block) {
            Some(block) => block.phis.len(),
            None => 0,
        }
    }

    /// Where an instruction of the body of a block is.
    pub(crate) fn spot_in(&self, block: BlockId, index: usize) -> Spot {
        Spot {
            block,
            place: self.phis_of(block).saturating_add(index),
        }
    }

    /// The value that the refused instruction defines.
    pub(crate) fn result(&self) -> Option<Operand> {
        match self.there() {
            There::Phi(phi) => Some(Operand::Local(phi.value)),
            There::Body(instr) => match instr.result {
                Some(value) => Some(Operand::Local(value)),
                None => None,
            },
            _ => None,
        }
    }

    /// The label of a block of the function.
    pub(crate) fn label_of(&self, block: BlockId) -> Option<Operand> {
        match block_at(self.context.function, block) {
            Some(block) => Some(Operand::Local(block.label)),
            None => None,
        }
    }
}
