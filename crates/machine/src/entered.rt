//! The functions that a thread entered.
ghost use Rattle.std.specs.Prelude.{◌≡◌, ◌<◌, ◌≤◌, ◌++◌, ◌↔◌, ℕ, None, Some, length, replicate, slice_get, IfOk, IsTrue, OnOk};
ghost use Rattle.ir_ast.specs.declared.function.Function.{Function as AFunction};
ghost use Rattle.shadow_stack.specs.Slots.{slots_of};
ghost use Rattle.machine.specs.Jumps.{phis_of};
ghost use Rattle.machine.specs.Machine.{frame_roots, enter};
ghost use Rattle.machine.specs.Entered.{WasEntered};

use crate::entry::{all_unset, most_phis};
use crate::frame::Frame;
use crate::frame_code::FrameCode;
use crate::frame_roots::FrameRoots;
use crate::memory::slot_value;
use crate::value::Value;
use ir_ast::{BlockId, FuncId, Function, Module};
use items::Items;
use layout::Program;
use shadow_stack::{Slots, slots_of};
use std::alloc::{AllocError, Global};
use std::marker::Model;

/// The functions of a program, and what is kept of those that were entered.
#[derive(Drop)]
pub struct Entered<'a> {
    program: &'a Program,
    /// The slots of each function, by its number, if it was entered.
    tables: Items<Option<Slots>>,
    /// Room for the values that the phis of a block take.
    phi_values: Items<Value>,
}

impl<'a> Model for Entered<'a> {
    ghost use Rattle.std.specs.Prelude.{◌≡◌, length};
    ghost use Rattle.machine.specs.Entered.{Known, AreKept};

    ghost Value = { Known };

    ghost view = { λ entered. record { program = entered.program.now; tables = entered.tables } };

    ghost invariant = { λ entered. (length entered.tables ≡ length entered.program.now.of_module.functions) × AreKept entered.program.now.of_module entered.phi_values entered.tables };
}

impl<'a> Entered<'a> {
    /// None was entered so far.
    pub fn new(alloc: Global, program: &'a Program) -> Result<Self, AllocError>
        ensures { IfOk result (λ entered. entered.program ≡ program.now) }
    {
        let tables = no_tables(alloc, program.module().functions.len())?;
        Ok(Entered {
            program,
            tables,
            phi_values: Items::new(alloc),
        })
    }

    /// The program.
    pub fn program(&self) -> &'a Program
        ensures { result.now ≡ self.now.program }
    {
        self.program
    }

    /// A function is entered: its slots are found, if they were not before.
    pub fn enter(&mut self, alloc: Global, number: FuncId) -> Result<(), AllocError>
        requires { number < length self.old.program.of_module.functions }
        ensures program { self.new.program ≡ self.old.program }
        ensures entered { OnOk result (WasEntered self.new.tables number) }
        ensures stay { (function : ℕ) → WasEntered self.old.tables function → WasEntered self.new.tables function }
    {
        if self.was_entered(number) {
            return Ok(());
        }
        let of_module = self.program.module();
        let function = function_of(of_module, number);
        make_room(alloc, &mut self.phi_values, most_phis(function))?;
        let slots = slots_of(alloc, of_module, function)?;
        self.tables.set(number.number() as usize, Some(slots));
        Ok(())
    }

    fn was_entered(&self, number: FuncId) -> bool
        ensures { IsTrue result ↔ WasEntered self.now.tables number }
    {
        matches!(self.tables.get(number.number() as usize), Some(Some(_)))
    }

    /// A function that was entered.
    pub fn function(&self, number: FuncId) -> &'a Function
        requires { WasEntered self.now.tables number }
        ensures { slice_get self.now.program.of_module.functions number ≡ Some result.now }
    {
        function_of(self.program.module(), number)
    }

    /// Its slots.
    pub fn slots(&self, number: FuncId) -> &Slots
        requires { WasEntered self.now.tables number }
        ensures { (f : AFunction) → slice_get self.now.program.of_module.functions number ≡ Some f → result.now ≡ slots_of self.now.program.of_module f }
    {
        match self.tables.get(number.number() as usize) {
            Some(Some(slots)) => slots,
            _ => unreachable!(),
        }
    }

    /// The code of a function that was entered.
    pub fn code<'e>(&'e self, number: FuncId, function: &'e Function) -> FrameCode<'e>
        requires entered { WasEntered self.now.tables number }
        requires function { slice_get self.now.program.of_module.functions number ≡ Some function.now }
        ensures program { result.program.now ≡ self.now.program }
        ensures function { result.function.now ≡ function.now }
        ensures slots { result.slots.now ≡ slots_of self.now.program.of_module function.now }
    {
        FrameCode {
            program: self.program,
            function,
            slots: self.slots(number),
        }
    }

    /// A frame of a function that was entered goes on in a block of it.
    pub fn enter_block(&mut self, frame: &mut Frame, function: &Function, block: BlockId)
        requires entered { WasEntered self.old.tables frame.old.function }
        requires function { slice_get self.old.program.of_module.functions frame.old.function ≡ Some function.now }
        ensures known { self.new ≡ self.old }
        ensures frame { frame.new ≡ enter self.old.program.of_module function.now frame.old.block block (phis_of (slice_get function.now.blocks block)) frame.old }
    {
        frame.enter(self.program.module(), function, block, &mut self.phi_values);
    }

    /// Adds the roots of a frame after those of others.
    pub fn add_roots(&self, frame: &Frame, roots: &mut Vec<Value>) -> Result<(), AllocError>
        requires { WasEntered self.now.tables frame.now.function }
        ensures { OnOk result (roots.new.items ≡ roots.old.items ++ frame_roots self.now.program.of_module frame.now (slice_get self.now.program.of_module.functions frame.now.function)) }
    {
        let _ = &self.program;
        for slot in self.slots(frame.function).root_slots() {
            roots.push(slot_value(frame.slots.as_slice(), *slot))?;
        }
        Ok(())
    }

    /// The roots of a frame.
    pub fn frame_roots<'f>(&'f self, frame: &'f Frame) -> FrameRoots<'f>
        requires { WasEntered self.now.tables frame.now.function }
        ensures { result ≡ frame_roots self.now.program.of_module frame.now (slice_get self.now.program.of_module.functions frame.now.function) }
    {
        let _ = &self.program;
        let roots = self.slots(frame.function).root_slots();
        FrameRoots::new(roots, frame.slots.as_slice())
    }
}

/// A table of `count` functions, none of which was entered.
#[tactic(auto, using(crate::proofs::Kept::one_more))]
fn no_tables(alloc: Global, count: usize) -> Result<Items<Option<Slots>>, AllocError>
    ensures { IfOk result (λ tables. tables ≡ replicate count None) }
{
    let mut tables = Items::new(alloc);
    for _ in 0..count {
        tables.push(None)?;
    }
    Ok(tables)
}

/// The function with a number.
pub fn function_of(of_module: &Module, number: FuncId) -> &Function
    requires { number < length of_module.now.functions }
    ensures { slice_get of_module.now.functions number ≡ Some result.now }
{
    &of_module.functions.as_slice()[number.number() as usize]
}

/// There is room for at least `count` values.
fn make_room(alloc: Global, values: &mut Items<Value>, count: usize) -> Result<(), AllocError>
    ensures grows { length values.old ≤ length values.new }
    ensures room { OnOk result (count ≤ length values.new) }
{
    if count > values.len() {
        *values = all_unset(alloc, count)?;
    }
    Ok(())
}
