use indexmap::IndexMap;
use ir_ast::{Block, BlockId, Function, Incoming, Operand, Phi};
use std::alloc::{AllocError, Global};
use types::target_of;

/// Where an operand comes in: to the phi at a place of a block, from another block.
#[derive(Clone, Copy, PartialEq, Eq, Hash)]
struct PhiEdge {
    to: u32,
    place: usize,
    from: u32,
}

/// The operands that come in to the phis of a function's blocks.
#[derive(Drop)]
pub struct IncomingOperands {
    each: IndexMap<PhiEdge, Operand>,
}

impl IncomingOperands {
    pub fn of(alloc: Global, function: &Function) -> Result<IncomingOperands, AllocError> {
        let mut operands = IncomingOperands {
            each: IndexMap::new(alloc),
        };
        match operands.record_blocks(function) {
            Ok(()) => Ok(operands),
            Err(refused) => {
                drop(operands);
                Err(refused)
            }
        }
    }

    fn record_blocks(&mut self, function: &Function) -> Result<(), AllocError> {
        let mut to = 0u32;
        for block in function.blocks.as_slice() {
            self.record_block(function, to, block)?;
            to = to.saturating_add(1);
        }
        Ok(())
    }

    /// The operand that comes in to the phi at a place of a block from another.
    pub fn operand(&self, to: BlockId, place: usize, from: BlockId) -> Option<Operand> {
        let edge = PhiEdge {
            to: to.number(),
            place,
            from: from.number(),
        };
        self.each.get(&edge).copied()
    }

    fn record_block(
        &mut self,
        function: &Function,
        to: u32,
        block: &Block,
    ) -> Result<(), AllocError> {
        let mut place = 0usize;
        for phi in block.phis.as_slice() {
            self.record_phi(function, to, place, phi)?;
            place = place.saturating_add(1);
        }
        Ok(())
    }

    fn record_phi(
        &mut self,
        function: &Function,
        to: u32,
        place: usize,
        phi: &Phi,
    ) -> Result<(), AllocError> {
        for entry in phi.incoming.as_slice() {
            self.record_entry(function, to, place, *entry)?;
        }
        Ok(())
    }

    /// Records an operand, unless one is recorded for this place and this block.
    fn record_entry(
        &mut self,
        function: &Function,
        to: u32,
        place: usize,
        entry: Incoming,
    ) -> Result<(), AllocError> {
        let Some(from) = target_of(function, entry.from) else {
            return Ok(());
        };
        let edge = PhiEdge {
            to,
            place,
            from: from.number(),
        };
        if self.each.get(&edge).is_none() {
            self.each.insert(edge, entry.operand)?;
        }
        Ok(())
    }
}
