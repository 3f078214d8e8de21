//! What the text of a function tells of its values before they are known.
use ir_ast::{Cast, Function, Instr, Op, Operand, ValueId};
use number_tables::{put, row_or};
use shadow_stack::Slots;
use std::alloc::{AllocError, Global};

/// What the text tells of each value of a function.
#[derive(Drop)]
pub struct Guesses {
    /// The reference on which an address is.
    pub bases: Vec<Option<ValueId>>,
    /// The name of the alloca of each slot.
    pub slots: Vec<Option<ValueId>>,
}

impl Guesses {
    pub fn of(alloc: Global, function: &Function, slots: &Slots) -> Result<Guesses, AllocError> {
        let mut guesses = Guesses::before(alloc, function, slots.count())?;
        for block in function.blocks.as_slice() {
            for instr in block.body.as_slice() {
                guesses.record_one(slots, instr);
            }
        }
        Ok(guesses)
    }

    /// What is known before the instructions are looked at.
    fn before(alloc: Global, function: &Function, slots: usize) -> Result<Guesses, AllocError> {
        let bases = vec![in alloc; None; function.locals.count()]?;
        let Ok(slots) = vec![in alloc; None; slots] else {
            drop(bases);
            return Err(AllocError);
        };
        Ok(Guesses { bases, slots })
    }

    fn record_one(&mut self, slots: &Slots, instr: &Instr) {
        let Some(value) = instr.result else {
            return;
        };
        let at = value.number() as usize;
        if let Some(slot) = slots.slot_of(value) {
            if let Op::Memory(_) = &instr.op {
                put(&mut self.slots, slot.number(), Some(value));
            }
            return;
        }
        match &instr.op {
            Op::Element(element) => self.record_element(at, &element.base),
            Op::Cast(cast) => self.record_cast(at, cast),
            Op::Number(_) | Op::Memory(_) | Op::Choice(_) | Op::Call(_) => {}
        }
    }

    /// An element is on the base of its own base, if that is an address, or on its own base.
    fn record_element(&mut self, at: usize, base: &Operand) {
        if let Operand::Local(base) = base {
            let found = row_or(&self.bases, base.number() as usize, None);
            let base = match found {
                Some(found) => found,
                None => *base,
            };
            put(&mut self.bases, at, Some(base));
        }
    }

    fn record_cast(&mut self, at: usize, cast: &Cast) {
        let Operand::Local(from) = &cast.operand else {
            return;
        };
        let base = row_or(&self.bases, from.number() as usize, None);
        put(&mut self.bases, at, base);
    }
}
