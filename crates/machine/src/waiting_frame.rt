//! Frames that wait for a call to return. Where a function has many registers, only those that are set take memory.
ghost use Rattle.std.specs.Prelude.{◌≡◌, IfErr, IfOk, IfSome};

use crate::entry::all_unset;
use crate::frame::{Frame, put_at};
use crate::kinds::is_set;
use crate::value::Value;
use items::Items;
use std::alloc::{AllocError, Global};
use std::marker::Model;

/// A frame with at most this number of registers keeps them whole.
const KEPT_WHOLE: usize = 64;

/// A register that is set, and its value.
#[derive(Clone, Copy)]
pub struct RegisterValue {
    pub register: usize,
    pub value: Value,
}

/// Registers of which only those that are set take memory: how many there are, and these.
#[derive(Drop)]
pub struct SparseRegisters {
    count: usize,
    set: Items<RegisterValue>,
}

impl Model for SparseRegisters {
    ghost use Rattle.std.specs.Prelude.{List};
    ghost use Rattle.machine.specs.declared.value.Value.{Value as AValue};
    ghost use Rattle.machine.specs.Waiting.{registers_with};

    ghost Value = { List AValue };

    ghost view = { λ registers. registers_with registers.count registers.set };
}

impl SparseRegisters {
    fn of(alloc: Global, registers: &[Value]) -> Result<Self, AllocError>
        ensures { IfOk result (λ kept. kept ≡ registers.now) }
    {
        let mut set = Items::from_vec(Vec::with_capacity(alloc, KEPT_WHOLE)?);
        for register in 0..registers.len() {
            let value = registers[register];
            if is_set(&value) {
                set.push(RegisterValue { register, value })?;
            }
        }
        Ok(SparseRegisters {
            count: registers.len(),
            set,
        })
    }

    /// All registers, those that are not set too.
    fn all(&self, alloc: Global) -> Result<Items<Value>, AllocError>
        ensures { IfOk result (λ registers. registers ≡ self.now) }
    {
        let mut registers = all_unset(alloc, self.count)?;
        for one in self.set.as_slice() {
            put_at(&mut registers, one.register, one.value);
        }
        Ok(registers)
    }
}

/// The registers of a frame that is to wait, where there are many.
pub fn many_registers(
    alloc: Global,
    registers: &[Value],
) -> Result<Option<SparseRegisters>, AllocError>
    ensures { IfOk result (λ many. IfSome many (λ kept. kept ≡ registers.now)) }
{
    if registers.len() <= KEPT_WHOLE {
        return Ok(None);
    }
    let kept = SparseRegisters::of(alloc, registers)?;
    Ok(Some(kept))
}

/// A frame that waits for a call to return.
#[derive(Drop)]
pub struct WaitingFrame {
    /// The frame, without its registers where there are many.
    frame: Frame,
    many: Option<SparseRegisters>,
}

impl Model for WaitingFrame {
    ghost use Rattle.machine.specs.declared.frame.Frame.{Frame as AFrame};
    ghost use Rattle.machine.specs.Waiting.{with_registers};

    ghost Value = { AFrame };

    ghost view = { λ waiting. with_registers waiting.many waiting.frame };
}

impl WaitingFrame {
    /// A frame waits. Where it has many registers, they are these.
    pub fn new(alloc: Global, frame: Frame, many: Option<SparseRegisters>) -> Self
        requires { IfSome many (λ registers. registers ≡ frame.registers) }
        ensures { result ≡ frame }
    {
        let mut frame = frame;
        if many.is_some() {
            frame.registers = Items::new(alloc);
        }
        WaitingFrame { frame, many }
    }

    /// The frame, but for its registers.
    pub fn frame(&self) -> &Frame
        ensures { self.now ≡ record result.now { registers = self.now.registers } }
    {
        &self.frame
    }

    /// The frame runs again. Without memory it waits as before.
    pub fn running(self, alloc: Global) -> Result<Frame, WaitingFrame>
        ensures ok { IfOk result (λ frame. frame ≡ self) }
        ensures err { IfErr result (λ waiting. waiting ≡ self) }
    {
        let WaitingFrame { mut frame, many } = self;
        let Some(kept) = many else {
            return Ok(frame);
        };
        match kept.all(alloc) {
            Ok(registers) => {
                frame.registers = registers;
                Ok(frame)
            }
            Err(_) => Err(WaitingFrame {
                frame,
                many: Some(kept),
            }),
        }
    }
}
