ghost use Rattle.std.specs.Prelude.{◌≡◌, ◌+◌, ◌<◌, ◌≤◌, ◌^◌, ◌↔◌, ◌∷◌, length, reverse, slice_get, Err, List, None, Option, IfOk, OnOk, OnErr, OnSome, Some};
ghost use Rattle.std.specs.Option.{option_copied};
ghost use Rattle.machine.specs.Endings.{ending};
ghost use Rattle.machine.specs.Machine.{action, after_answer, entry_frame, start, roots, frame_roots, instr_in, end_of};
ghost use Rattle.machine.specs.Start.{takes_reference, argument_fits, arguments_fit, argument_values, StartsByReference, StartsWrongly};
ghost use Rattle.machine.specs.declared.frame.Frame.{Frame as AFrame};
ghost use Rattle.machine.specs.Entered.{WasEntered, WereEntered};
ghost use Rattle.shadow_stack.specs.Slots.{SlotTable};
ghost use Rattle.machine.specs.declared.thread.StartFault.TheVariants.{ReferenceParameter, WrongArguments};

use crate::action::Action;
use crate::answer::Answer;
use crate::asks::op_action;
use crate::calls::function_called;
use crate::ending::{Ending, ending_by};
use crate::ends::end_action;
use crate::entered::{Entered, function_of};
use crate::entry::entry_frame;
use crate::frame::Frame;
use crate::frame_place::FramePlace;
use crate::frame_roots::FrameRoots;
use crate::frames::{Answered, above_callers, after_end, after_instr, with_room};
use crate::integers::wrapped;
use crate::kinds::{bits_at, is_integer};
use crate::value::Value;
use crate::waiting_frame::WaitingFrame;
use ir_ast::{End, FuncId, Function, Instr, Module, Parameter};
use layout::Program;
use std::alloc::{AllocError, Global};
use std::marker::Model;
use thiserror::Error;

/// Why no thread starts.
#[derive(Debug, Drop, Error)]
pub enum StartFault {
    /// K20: the function takes a reference.
    #[error("the function takes a reference")]
    ReferenceParameter,
    /// K13: arguments of another number, or one that does not fit its integer type.
    #[error("arguments that the function does not take")]
    WrongArguments,
    #[error("out of memory")]
    Memory(AllocError),
}

/// A thread of a program.
#[derive(Drop)]
pub struct Thread<'a> {
    alloc: Global,
    entered: Entered<'a>,
    running: Frame,
    /// The frames that wait below it, the newest last.
    below: Vec<WaitingFrame>,
    ended: bool,
}

impl<'a> Model for Thread<'a> {
    ghost use Rattle.std.specs.Prelude.{◌∷◌, reverse};
    ghost use Rattle.machine.specs.Machine.{Run, frames_unless};
    ghost use Rattle.machine.specs.Entered.{WereEntered};

    ghost Value = { Run };

    ghost view = { λ t. record { program = t.entered.program; state = record { frames = frames_unless t.ended t.running (reverse t.below.items) } } };

    ghost invariant = { λ t. WereEntered t.entered.tables (t.running ∷ t.below.items) };
}

impl<'a> Thread<'a> {
    /// A thread at the beginning of a function.
    pub fn start(
        alloc: Global,
        program: &'a Program,
        function: FuncId,
        arguments: &[u64],
    ) -> Result<Thread<'a>, StartFault>
        requires { function < length program.now.of_module.functions }
        ensures ok { IfOk result (λ thread. (thread.program ≡ program.now) × (thread.state ≡ start program.now.of_module (slice_get program.now.of_module.functions function) function (argument_values arguments.now))) }
        ensures reference { (result ≡ Err ReferenceParameter) ↔ StartsByReference program.now function }
        ensures arguments { (result ≡ Err WrongArguments) ↔ StartsWrongly program.now function arguments.now }
    {
        let of_module = program.module();
        let entry = function_of(of_module, function);
        if takes_reference(of_module, entry) {
            return Err(StartFault::ReferenceParameter);
        }
        if !arguments_fit(of_module, entry.parameters.as_slice(), arguments) {
            return Err(StartFault::WrongArguments);
        }
        let thread = Thread::at_entry(alloc, program, entry, function, arguments).map_err(
            StartFault::Memory,
        )?;
        Ok(thread)
    }

    fn at_entry(
        alloc: Global,
        program: &'a Program,
        function: &'a Function,
        number: FuncId,
        arguments: &[u64],
    ) -> Result<Thread<'a>, AllocError>
        requires { slice_get program.now.of_module.functions number ≡ Some function.now }
        ensures { IfOk result (λ thread. (thread.program ≡ program.now) × (thread.state ≡ start program.now.of_module (Some function.now) number (argument_values arguments.now))) }
    {
        let mut entered = Entered::new(alloc, program)?;
        entered.enter(alloc, number)?;
        let running = first_frame(alloc, &entered, function, number, arguments)?;
        Ok(Thread {
            alloc,
            entered,
            running,
            below: Vec::new(alloc),
            ended: false,
        })
    }

    /// What the thread asks for.
    pub fn next(&self) -> Action
        ensures { result ≡ action self.now.program self.now.state }
    {
        if self.ended {
            return Action::End;
        }
        let number = self.running.function;
        let function = self.entered.function(number);
        let context = self.running.context(
            self.entered.program(),
            function,
            self.entered.slots(number),
        );
        let below = self.below.len();
        if let Some(instr) = instr_at(function, self.running.block, self.running.place) {
            let called = function_called(context.of_module(), &instr.op);
            return with_room(called, below, op_action(&context, &instr.op));
        }
        match end_at(function, self.running.block) {
            Some(end) => above_callers(end, below, end_action(&context, self.running.block, end)),
            None => Action::End,
        }
    }

    /// How the thread ends, where it asks to end.
    pub fn ending(&self) -> Ending
        ensures { result ≡ ending self.now.program self.now.state }
    {
        if self.ended || !self.below.is_empty() {
            return Ending::Over;
        }
        let function = self.entered.function(self.running.function);
        if instr_at(function, self.running.block, self.running.place).is_some() {
            return Ending::Over;
        }
        match end_at(function, self.running.block) {
            Some(end) => ending_by(
                self.entered.program().module(),
                self.running.registers.as_slice(),
                end,
            ),
            None => Ending::Over,
        }
    }

    /// The values of the gcroot slots of all frames, the oldest frame first.
    pub fn roots(&self) -> Result<Vec<Value>, AllocError>
        ensures { IfOk result (λ all. all.items ≡ roots self.now.program.of_module self.now.state) }
    {
        let mut all = Vec::new(self.alloc);
        if self.ended {
            return Ok(all);
        }
        for frame in &self.below {
            self.entered.add_roots(frame.frame(), &mut all)?;
        }
        self.entered.add_roots(&self.running, &mut all)?;
        Ok(all)
    }

    /// How many frames there are.
    pub fn frames(&self) -> usize
        ensures { result ≡ length self.now.state.frames }
    {
        if self.ended {
            return 0;
        }
        self.below.len() + 1
    }

    /// The values of the gcroot slots of a frame, the newest frame being number 0.
    pub fn frame_roots(&self, frame: usize) -> FrameRoots<'_>
        requires { frame < length self.now.state.frames }
        ensures { (of : AFrame) → slice_get self.now.state.frames frame ≡ Some of → result ≡ frame_roots self.now.program.of_module of (slice_get self.now.program.of_module.functions of.function) }
    {
        let frame = frame_at(&self.running, self.below.as_slice(), frame);
        self.entered.frame_roots(frame)
    }

    /// Where a frame is, the newest being number 0.
    pub fn frame_place(&self, frame: usize) -> FramePlace
        requires { frame < length self.now.state.frames }
        ensures { (of : AFrame) → slice_get self.now.state.frames frame ≡ Some of → (result.function ≡ of.function) × (result.block ≡ of.block) × (result.place ≡ of.place) }
    {
        let frame = frame_at(&self.running, self.below.as_slice(), frame);
        FramePlace {
            function: frame.function,
            block: frame.block,
            place: frame.place,
        }
    }

    /// The thread goes on with the answer to what it asked for. Without memory it stays as it was.
    pub fn resume(&mut self, answer: Answer) -> Result<(), AllocError>
        ensures ok { OnOk result (self.new ≡ record self.old { state = after_answer self.old.program self.old.state answer }) }
        ensures err { OnErr result (self.new ≡ self.old) }
    {
        if self.ended {
            return Ok(());
        }
        let function = self.entered.function(self.running.function);
        let Thread {
            alloc,
            entered,
            running,
            below,
            ..
        } = self;
        let goes_on = match instr_at(function, running.block, running.place) {
            Some(instr) => {
                let answered = Answered { instr, answer };
                after_instr(*alloc, entered, running, below, function, &answered)?
            }
            None => match end_at(function, running.block) {
                Some(end) => after_end(*alloc, entered, running, below, function, end)?,
                None => true,
            },
        };
        self.ended = !goes_on;
        Ok(())
    }
}

/// The frame in which a thread begins a function that was entered.
fn first_frame(
    alloc: Global,
    entered: &Entered<'_>,
    function: &Function,
    number: FuncId,
    arguments: &[u64],
) -> Result<Frame, AllocError>
    requires entered { WasEntered entered.now.tables number }
    requires function { slice_get entered.now.program.of_module.functions number ≡ Some function.now }
    ensures { IfOk result (λ frame. frame ≡ entry_frame entered.now.program.of_module function.now number None (argument_values arguments.now)) }
{
    let values = argument_values(alloc, arguments)?;
    let code = entered.code(number, function);
    let frame = entry_frame(alloc, &code, number, None, values.as_slice());
    drop(values);
    frame
}

/// A frame of those that run, the newest being number 0; of one that waits all but its registers.
fn frame_at<'a>(running: &'a Frame, below: &'a [WaitingFrame], frame: usize) -> &'a Frame
    requires { frame ≤ length below.now }
    ensures frame { (of : AFrame) → slice_get (running.now ∷ reverse below.now) frame ≡ Some of → of ≡ record result.now { registers = of.registers } }
    ensures entered { (tables : List (Option SlotTable)) → WereEntered tables (running.now ∷ below.now) → WasEntered tables result.now.function }
{
    if frame == 0 {
        return running;
    }
    below[below.len() - frame].frame()
}

fn instr_at(function: &Function, block: usize, place: usize) -> Option<&Instr>
    ensures instr { option_copied result ≡ instr_in place (slice_get function.now.blocks block) }
    ensures within { OnSome result (place + 1 < 2 ^ 64) }
{
    match function.blocks.get(block) {
        Some(block) => {
            if place < block.body.len() {
                block.body.get(place)
            } else {
                None
            }
        }
        None => None,
    }
}

fn end_at(function: &Function, block: usize) -> Option<&End>
    ensures { option_copied result ≡ end_of (slice_get function.now.blocks block) }
{
    match function.blocks.get(block) {
        Some(block) => Some(&block.end),
        None => None,
    }
}

fn takes_reference(of_module: &Module, function: &Function) -> bool
    ensures { result ≡ takes_reference of_module.now function.now }
{
    function
        .parameters
        .as_slice()
        .iter()
        .any(|parameter| !is_integer(of_module, parameter.written))
}

fn argument_fits(of_module: &Module, parameter: Parameter, argument: u64) -> bool
    ensures { result ≡ argument_fits of_module.now parameter argument }
{
    wrapped(bits_at(of_module, parameter.written), argument) == argument
}

#[tactic(auto, using(crate::proofs::Arguments::other_number))]
fn arguments_fit(of_module: &Module, parameters: &[Parameter], arguments: &[u64]) -> bool
    ensures { result ≡ arguments_fit of_module.now parameters.now arguments.now }
{
    if parameters.len() != arguments.len() {
        return false;
    }
    for (parameter, argument) in parameters.iter().zip(arguments.iter()) {
        if !argument_fits(of_module, *parameter, *argument) {
            return false;
        }
    }
    true
}

/// The arguments of a start as values.
fn argument_values(alloc: Global, arguments: &[u64]) -> Result<Vec<Value>, AllocError>
    ensures { IfOk result (λ values. values.items ≡ argument_values arguments.now) }
{
    arguments
        .iter()
        .map(|argument| Value::Number(*argument))
        .collect(alloc)
}
