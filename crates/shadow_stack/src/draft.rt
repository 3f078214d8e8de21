ghost use Rattle.std.specs.Prelude.{◌≡◌, [], ◌∷◌, ◌++◌, length, replicate, IfOk, OnOk};
ghost use Rattle.shadow_stack.specs.Slots.{put, origin_of, recorded_op, recorded, recorded_blocks, draft_of};
ghost use Rattle.shadow_stack.specs.declared.draft.Origin.TheVariants.{Nowhere};

use crate::slot_id::SlotId;
use ir_ast::{Block, Function, Instr, MemoryOp, Op, Operand, TypeId, ValueId};
use items::Items;
use std::alloc::{AllocError, Global};

/// What a local name was defined as.
#[derive(Clone, Copy)]
pub enum Origin {
    /// Neither a slot nor an address.
    Nowhere,
    /// By an alloca.
    Slot(SlotId),
    /// By a getelementptr, or by a bitcast of a global.
    Address,
    /// By a bitcast of this name.
    Same(ValueId),
}

/// What each local name was defined as, and the types of the allocas.
#[derive(Drop)]
pub struct Draft {
    pub origins: Items<Origin>,
    pub held: Items<TypeId>,
}

impl Draft {
    pub fn of(alloc: Global, function: &Function) -> Result<Draft, AllocError>
        ensures { IfOk result (λ draft. draft ≡ draft_of function.now) }
    {
        let nowhere = vec![in alloc; Origin::Nowhere; function.locals.count()]?;
        let mut draft = Draft {
            origins: Items::from_vec(nowhere),
            held: Items::new(alloc),
        };
        draft.record_blocks(function.blocks.as_slice())?;
        Ok(draft)
    }

    fn record_blocks(&mut self, blocks: &[Block]) -> Result<(), AllocError>
        ensures { OnOk result (self.new ≡ recorded_blocks blocks.now self.old) }
    {
        for block in blocks {
            self.record_all(block.body.as_slice())?;
        }
        Ok(())
    }

    fn record_all(&mut self, body: &[Instr]) -> Result<(), AllocError>
        ensures { OnOk result (self.new ≡ recorded body.now self.old) }
    {
        for instr in body {
            self.record_one(instr)?;
        }
        Ok(())
    }

    fn record_one(&mut self, instr: &Instr) -> Result<(), AllocError>
        ensures { OnOk result (self.new ≡ recorded_op instr.now.result instr.now.op self.old) }
    {
        match &instr.op {
            Op::Memory(MemoryOp::Alloca(held)) => {
                let slot = SlotId::new(self.held.len());
                self.held.push(*held)?;
                self.put(instr.result, Origin::Slot(slot));
            }
            Op::Element(_) => self.put(instr.result, Origin::Address),
            Op::Cast(cast) => self.put(instr.result, origin_of(cast.operand)),
            _ => {}
        }
        Ok(())
    }

    fn put(&mut self, name: Option<ValueId>, origin: Origin)
        ensures { self.new ≡ record self.old { origins = put name origin self.old.origins } }
    {
        if let Some(value) = name {
            let at = value.number() as usize;
            if at < self.origins.len() {
                self.origins.set(at, origin);
            }
        }
    }
}

fn origin_of(operand: Operand) -> Origin
    ensures { result ≡ origin_of operand }
{
    match operand {
        Operand::Constant(_) => Origin::Nowhere,
        Operand::Local(value) => Origin::Same(value),
        Operand::Global(_) | Operand::CastGlobal { .. } => Origin::Address,
    }
}
