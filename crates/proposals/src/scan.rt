//! What each block reads before it writes it, and what it writes. A value has its own number, and a slot the one after those
//! of all values.
use crate::numbers::operands_of;
use ir_ast::{
    Argument, Block, End, Function, Incoming, Instr, MemoryOp, NumberOp, Op, Operand, Phi, ValueId,
};
use number_tables::{put, row_or};
use shadow_stack::{SlotId, Slots};
use std::alloc::{AllocError, Global};
use types::target_of;

/// A walk over all blocks of a function.
#[derive(Drop)]
pub struct Scan<'a> {
    function: &'a Function,
    slots: &'a Slots,
    /// The reference on which each address is, as far as the text tells.
    bases: &'a [Option<ValueId>],
    block: u32,
    /// The last block that wrote each.
    written: Vec<Option<u32>>,
    /// What is read, with the block that does not write it before.
    pub read: Vec<(usize, u32)>,
    /// What is written, with the block.
    pub ended: Vec<(usize, u32)>,
    /// The block of which each is a phi.
    pub phis: Vec<Option<u32>>,
}

impl<'a> Scan<'a> {
    pub fn of(
        alloc: Global,
        function: &'a Function,
        slots: &'a Slots,
        bases: &'a [Option<ValueId>],
    ) -> Result<Scan<'a>, AllocError> {
        let count = function.locals.count().saturating_add(slots.count());
        let written = vec![in alloc; None; count]?;
        let Ok(phis) = vec![in alloc; None; count] else {
            drop(written);
            return Err(AllocError);
        };
        let mut scan = Scan {
            function,
            slots,
            bases,
            block: 0,
            written,
            read: Vec::new(alloc),
            ended: Vec::new(alloc),
            phis,
        };
        match scan.go() {
            Ok(()) => Ok(scan),
            Err(refused) => {
                drop(scan);
                Err(refused)
            }
        }
    }

    fn go(&mut self) -> Result<(), AllocError> {
        self.blocks()?;
        self.phis_read()
    }

    /// How many values and slots there are.
    pub fn count(&self) -> usize {
        self.written.len()
    }

    fn blocks(&mut self) -> Result<(), AllocError> {
        let mut number = 0u32;
        for block in self.function.blocks.as_slice() {
            self.block = number;
            self.one_block(block)?;
            number = number.saturating_add(1);
        }
        Ok(())
    }

    fn one_block(&mut self, block: &Block) -> Result<(), AllocError> {
        for phi in block.phis.as_slice() {
            put(
                &mut self.phis,
                phi.value.number() as usize,
                Some(self.block),
            );
        }
        for instr in block.body.as_slice() {
            self.instr(instr)?;
        }
        match &block.end {
            End::Branch { condition, .. } => self.operand(condition),
            End::Switch { value, .. } => self.operand(value),
            End::Return(argument) => self.operand(&argument.operand),
            End::Jump(_) | End::Unreachable | End::ReturnVoid => Ok(()),
        }
    }

    fn instr(&mut self, instr: &Instr) -> Result<(), AllocError> {
        match &instr.op {
            Op::Number(op) => self.number(op)?,
            Op::Memory(op) => self.memory(op)?,
            Op::Element(element) => {
                self.operand(&element.base)?;
                self.arguments(element.indices.as_slice())?;
            }
            Op::Cast(cast) => self.operand(&cast.operand)?,
            Op::Choice(choice) => {
                self.operand(&choice.condition)?;
                self.operand(&choice.chosen)?;
                self.operand(&choice.other)?;
            }
            Op::Call(call) => self.arguments(call.arguments.as_slice())?,
        }
        match instr.result {
            Some(value) => self.end(value.number() as usize),
            None => Ok(()),
        }
    }

    fn number(&mut self, op: &NumberOp) -> Result<(), AllocError> {
        let (first, second) = operands_of(op);
        self.operand(&first)?;
        match second {
            Some(second) => self.operand(&second),
            None => Ok(()),
        }
    }

    fn memory(&mut self, op: &MemoryOp) -> Result<(), AllocError> {
        match op {
            MemoryOp::Alloca(_) => Ok(()),
            MemoryOp::Buffer { count, .. } => match count {
                Some(count) => self.operand(&count.operand),
                None => Ok(()),
            },
            MemoryOp::Load { place, .. } => match self.slot_at(place) {
                Some(slot) => self.name(self.number_of(slot)),
                None => self.operand(place),
            },
            MemoryOp::Store { value, place, .. } => {
                self.operand(value)?;
                match self.slot_at(place) {
                    Some(slot) => self.end(self.number_of(slot)),
                    None => self.operand(place),
                }
            }
        }
    }

    fn slot_at(&self, place: &Operand) -> Option<SlotId> {
        match place {
            Operand::Local(value) => self.slots.slot_of(*value),
            _ => None,
        }
    }

    fn number_of(&self, slot: SlotId) -> usize {
        self.function.locals.count().saturating_add(slot.number())
    }

    fn arguments(&mut self, arguments: &[Argument]) -> Result<(), AllocError> {
        for argument in arguments {
            self.operand(&argument.operand)?;
        }
        Ok(())
    }

    /// An operand is read, and the base of an address with it.
    fn operand(&mut self, operand: &Operand) -> Result<(), AllocError> {
        let Operand::Local(value) = operand else {
            return Ok(());
        };
        if self.slots.slot_of(*value).is_some() {
            return Ok(());
        }
        let at = value.number() as usize;
        self.name(at)?;
        match row_or(self.bases, at, None) {
            Some(base) => self.name(base.number() as usize),
            None => Ok(()),
        }
    }

    fn name(&mut self, at: usize) -> Result<(), AllocError> {
        if row_or(&self.written, at, None) != Some(self.block) {
            self.read.push((at, self.block))?;
        }
        Ok(())
    }

    fn end(&mut self, at: usize) -> Result<(), AllocError> {
        put(&mut self.written, at, Some(self.block));
        self.ended.push((at, self.block))?;
        Ok(())
    }

    /// What comes in to phis is read at the end of the blocks from which it comes.
    fn phis_read(&mut self) -> Result<(), AllocError> {
        for block in self.function.blocks.as_slice() {
            for phi in block.phis.as_slice() {
                self.phi_read(phi)?;
            }
        }
        Ok(())
    }

    fn phi_read(&mut self, phi: &Phi) -> Result<(), AllocError> {
        for entry in phi.incoming.as_slice() {
            self.entry_read(*entry)?;
        }
        Ok(())
    }

    /// A value is written in one block at most.
    fn entry_read(&mut self, entry: Incoming) -> Result<(), AllocError> {
        if let Some(from) = target_of(self.function, entry.from) {
            self.block = from.number();
            self.operand(&entry.operand)?;
        }
        Ok(())
    }
}
