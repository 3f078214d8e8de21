//! The frames of a thread: how calls and returns change them.
ghost use Rattle.std.specs.Prelude.{◌≡◌, ◌+◌, ◌<◌, ◌^◌, ◌∷◌, ◌++◌, [], List, Option, Some, not, is_ok, if◌then◌else◌, reverse, slice_get, IfOk, OnErr};
ghost use Rattle.shadow_stack.specs.Slots.{SlotTable, slots_of};
ghost use Rattle.machine.specs.Asks.{edge_of, target_at};
ghost use Rattle.machine.specs.Machine.{above_callers, with_room, function_called, has_room, values_of, entry_frame, after_op, after_instr, after_end, enter_block, go_on, frames_called, frames_unless, frames_returned};
ghost use Rattle.machine.specs.Entered.{WasEntered, WereEntered};

use crate::action::Action;
use crate::answer::Answer;
use crate::calls::{number_called, values_of};
use crate::ends::{result_of, target_of_edge};
use crate::entered::Entered;
use crate::entry::entry_frame;
use crate::frame::Frame;
use crate::value::Value;
use crate::waiting_frame::{WaitingFrame, many_registers};
use ir_ast::{Argument, End, FuncId, Function, Instr, Module, Op, ValueId};
use std::alloc::{AllocError, Global};
use std::mem;

/// How many frames a thread may have.
const FRAME_LIMIT: u128 = 10_000;

/// Whether there may be one frame more above the running one, which has this number of frames below.
pub fn has_room(below: usize) -> bool
    ensures { result ≡ has_room below }
{
    below as u128 + 1 < FRAME_LIMIT
}

/// What the end of a block that asks for this alone asks for above this number of frames.
pub fn above_callers(end: &End, below: usize, asked: Action) -> Action
    ensures { result ≡ above_callers end.now below asked }
{
    match (end, asked) {
        (End::ReturnVoid | End::Return(_), Action::End) if below > 0 => Action::Local,
        (_, asked) => asked,
    }
}

/// What an instruction that asks for this alone asks for above this number of frames, by the function that it calls.
pub fn with_room(called: Option<FuncId>, below: usize, asked: Action) -> Action
    ensures { result ≡ with_room called below asked }
{
    match (called, asked) {
        (Some(_), Action::Local) => {
            if has_room(below) {
                Action::Local
            } else {
                Action::End
            }
        }
        (_, asked) => asked,
    }
}

/// A frame is put above the running one, which goes on at the next place once it runs again.
fn push_frame(
    alloc: Global,
    running: &mut Frame,
    below: &mut Vec<WaitingFrame>,
    frame: Frame,
) -> Result<(), AllocError>
    requires { running.old.place + 1 < 2 ^ 64 }
    ensures running { running.new ≡ (if is_ok result then frame else running.old) }
    ensures below { below.new.items ≡ (if is_ok result then below.old.items ++ go_on running.old ∷ [] else below.old.items) }
{
    below.reserve(1)?;
    let many = many_registers(alloc, running.registers.as_slice())?;
    let mut caller = mem::replace(running, frame);
    caller.place += 1;
    below.push_reserved(WaitingFrame::new(alloc, caller, many));
    Ok(())
}

/// A call of a defined function: its number, the name that takes the result, and the arguments.
#[derive(Clone, Copy)]
struct DefinedCall<'a> {
    number: FuncId,
    into: Option<ValueId>,
    arguments: &'a [Argument],
}

/// The first frame of a function that was entered and is called so.
fn called_frame(
    alloc: Global,
    entered: &Entered<'_>,
    registers: &[Value],
    callee: &Function,
    called: &DefinedCall,
) -> Result<Frame, AllocError>
    requires entered { WasEntered entered.now.tables called.now.number }
    requires callee { slice_get entered.now.program.of_module.functions called.now.number ≡ Some callee.now }
    ensures { let m = entered.now.program.of_module in IfOk result (λ frame. frame ≡ entry_frame m callee.now called.now.number called.now.into (values_of m registers.now called.now.arguments.now)) }
{
    let of_module = entered.program().module();
    let values = values_of(alloc, of_module, registers, called.arguments)?;
    let code = entered.code(called.number, callee);
    let frame = entry_frame(alloc, &code, called.number, called.into, values.as_slice());
    drop(values);
    frame
}

/// A function is called. Whether the thread goes on: it ends where there is no room for one frame more.
fn call(
    alloc: Global,
    entered: &mut Entered<'_>,
    running: &mut Frame,
    below: &mut Vec<WaitingFrame>,
    called: &DefinedCall,
) -> Result<bool, AllocError>
    requires entered { WereEntered entered.old.tables (running.old ∷ below.old.items) }
    requires place { running.old.place + 1 < 2 ^ 64 }
    ensures program { entered.new.program ≡ entered.old.program }
    ensures entered { WereEntered entered.new.tables (running.new ∷ below.new.items) }
    ensures ok { let m = entered.old.program.of_module in IfOk result (λ goes_on. frames_unless (not goes_on) running.new (reverse below.new.items) ≡ frames_called m called.now.into (values_of m running.old.registers called.now.arguments.now) called.now.number (slice_get m.functions called.now.number) running.old (reverse below.old.items)) }
    ensures err { OnErr result ((running.new ≡ running.old) × (below.new.items ≡ below.old.items)) }
{
    let of_module = entered.program().module();
    let Some(callee) = of_module.functions.get(called.number.number() as usize) else {
        return Ok(true);
    };
    if !has_room(below.len()) {
        return Ok(false);
    }
    entered.enter(alloc, called.number)?;
    let frame = called_frame(alloc, entered, running.registers.as_slice(), callee, called)?;
    push_frame(alloc, running, below, frame)?;
    Ok(true)
}

/// An instruction of the running frame, with the answer to what it asked for.
#[derive(Clone, Copy)]
pub struct Answered<'a> {
    pub instr: &'a Instr,
    pub answer: Answer,
}

/// The running frame goes on at the next place of its block.
fn go_on(entered: &Entered<'_>, running: &mut Frame, function: &Function, answered: &Answered)
    requires entered { WasEntered entered.now.tables running.old.function }
    requires function { slice_get entered.now.program.of_module.functions running.old.function ≡ Some function.now }
    requires place { running.old.place + 1 < 2 ^ 64 }
    ensures { let p = entered.now.program in running.new ≡ go_on (after_op p function.now (slots_of p.of_module function.now) answered.now.instr.now.result answered.now.instr.now.op answered.now.answer running.old) }
{
    let code = entered.code(running.function, function);
    let instr = answered.instr;
    running.after_op(&code, instr.result, &instr.op, answered.answer);
    running.place += 1;
}

/// The running frame goes on in the block to which a br or a switch leads.
fn follow(entered: &mut Entered<'_>, running: &mut Frame, function: &Function, end: &End)
    requires entered { WasEntered entered.old.tables running.old.function }
    requires function { slice_get entered.old.program.of_module.functions running.old.function ≡ Some function.now }
    ensures known { entered.new ≡ entered.old }
    ensures running { let m = entered.old.program.of_module in running.new ≡ enter_block m function.now (target_at function.now (edge_of m running.old.registers end.now)) running.old }
{
    let target = target_of_edge(
        &running.context(entered.program(), function, entered.slots(running.function)),
        end,
    );
    if let Some(block) = target {
        entered.enter_block(running, function, block);
    }
}

/// The running frame is left: its caller's takes the result. Whether there is one.
fn leave_function(
    alloc: Global,
    running: &mut Frame,
    below: &mut Vec<WaitingFrame>,
    value: Value,
) -> Result<bool, AllocError>
    ensures ok { IfOk result (λ goes_on. frames_unless (not goes_on) running.new (reverse below.new.items) ≡ frames_returned running.old.into value (reverse below.old.items)) }
    ensures err { OnErr result ((running.new ≡ running.old) × (below.new.items ≡ below.old.items)) }
    ensures entered { (tables : List (Option SlotTable)) → WereEntered tables (running.old ∷ below.old.items) → WereEntered tables (running.new ∷ below.new.items) }
{
    let Some(caller) = below.pop() else {
        return Ok(false);
    };
    match caller.running(alloc) {
        Ok(caller) => {
            let into = running.into;
            *running = caller;
            running.set_register(into, value);
            Ok(true)
        }
        Err(caller) => {
            below.push(caller)?;
            Err(AllocError)
        }
    }
}

/// The thread goes on after an instruction of its running frame. Whether it has not ended.
pub fn after_instr(
    alloc: Global,
    entered: &mut Entered<'_>,
    running: &mut Frame,
    below: &mut Vec<WaitingFrame>,
    function: &Function,
    answered: &Answered,
) -> Result<bool, AllocError>
    requires entered { WereEntered entered.old.tables (running.old ∷ below.old.items) }
    requires function { slice_get entered.old.program.of_module.functions running.old.function ≡ Some function.now }
    requires place { running.old.place + 1 < 2 ^ 64 }
    ensures program { entered.new.program ≡ entered.old.program }
    ensures entered { WereEntered entered.new.tables (running.new ∷ below.new.items) }
    ensures ok { let p = entered.old.program in IfOk result (λ goes_on. frames_unless (not goes_on) running.new (reverse below.new.items) ≡ after_instr p function.now answered.now.instr.now answered.now.answer running.old (reverse below.old.items) (function_called p.of_module answered.now.instr.now.op)) }
    ensures err { OnErr result ((running.new ≡ running.old) × (below.new.items ≡ below.old.items)) }
{
    let of_module = entered.program().module();
    if let Op::Call(of_call) = &answered.instr.op {
        if let Some(number) = number_called(of_module, of_call.callee) {
            let called = DefinedCall {
                number,
                into: answered.instr.result,
                arguments: of_call.arguments.as_slice(),
            };
            return call(alloc, entered, running, below, &called);
        }
    }
    go_on(entered, running, function, answered);
    Ok(true)
}

/// The thread goes on after the end of a block of its running frame. Whether it has not ended.
pub fn after_end(
    alloc: Global,
    entered: &mut Entered<'_>,
    running: &mut Frame,
    below: &mut Vec<WaitingFrame>,
    function: &Function,
    end: &End,
) -> Result<bool, AllocError>
    requires entered { WereEntered entered.old.tables (running.old ∷ below.old.items) }
    requires function { slice_get entered.old.program.of_module.functions running.old.function ≡ Some function.now }
    ensures program { entered.new.program ≡ entered.old.program }
    ensures entered { WereEntered entered.new.tables (running.new ∷ below.new.items) }
    ensures ok { IfOk result (λ goes_on. frames_unless (not goes_on) running.new (reverse below.new.items) ≡ after_end entered.old.program function.now running.old (reverse below.old.items) end.now) }
    ensures err { OnErr result ((running.new ≡ running.old) × (below.new.items ≡ below.old.items)) }
{
    match end {
        End::Unreachable => Ok(false),
        End::ReturnVoid | End::Return(_) => {
            let of_module = entered.program().module();
            let value = result_of(of_module, running.registers.as_slice(), end);
            leave_function(alloc, running, below, value)
        }
        End::Jump(_) | End::Branch { .. } | End::Switch { .. } => {
            follow(entered, running, function, end);
            Ok(true)
        }
    }
}
