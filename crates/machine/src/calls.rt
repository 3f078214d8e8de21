//! Calls: what they ask for, what they name, and what an alloc gives.
ghost use Rattle.std.specs.Prelude.{◌≡◌, IfOk, slice_get};
ghost use Rattle.std.specs.Option.{option_copied};
ghost use Rattle.types.specs.RuntimeCall.{runtime_called};
ghost use Rattle.ir_ast.specs.IntegerFunctions.{widths_taken};
ghost use Rattle.machine.specs.Asks.{are_gcroot_types, are_gcread_types, are_gcwrite_types, are_alloc_types, are_safepoint_types, are_of_widths, are_integer_types, written_types, declare_of, are_types_of, declared_with, is_root_place, gcroot_action, gcread_action, gcwrite_action, alloc_of, alloc_action, safepoint_action, integer_action, number_called, function_numbered, arguments_pass, defined_action, outside_action, action_of_call};
ghost use Rattle.machine.specs.Kinds.{slot_at_place, address_at_place};
ghost use Rattle.machine.specs.Machine.{alloc_value, layout_of_call, root_of_call, place_of_call, values_of, function_called};

use crate::action::{Action, only_if};
use crate::answer::Answer;
use crate::elements::are_integers;
use crate::floats::{are_float_types, float_action};
use crate::foreign::{are_outside_arguments, asked_outside};
use crate::frame_context::FrameContext;
use crate::kinds::{is_byte_pointer, is_integer_of, is_place_of_bytes, is_void};
use crate::memory::{barrier_action, read_action};
use crate::operands::{address_at_place, is_usable, operand_value, slot_at_place, value_of};
use crate::value::{Pointee, Value};
use ir_ast::{
    Argument, Call, Declare, FuncId, Function, IntegerFunction, IntegersTaken, Module, Op,
    Parameter, Runtime, SymbolId, SymbolSort, TypeId, integers_taken,
};
use pools::LayoutId;
use shadow_stack::SlotId;
use std::alloc::{AllocError, Global};
use types::{layout_meant, runtime_called};

fn are_gcroot_types(of_module: &Module, returned: TypeId, parameters: &[TypeId]) -> bool
    ensures { result ≡ are_gcroot_types of_module.now returned parameters.now }
{
    match parameters {
        [place, metadata] => {
            is_void(of_module, returned)
                && (is_place_of_bytes(of_module, *place) && is_byte_pointer(of_module, *metadata))
        }
        _ => false,
    }
}

fn are_gcread_types(of_module: &Module, returned: TypeId, parameters: &[TypeId]) -> bool
    ensures { result ≡ are_gcread_types of_module.now returned parameters.now }
{
    match parameters {
        [object, place] => {
            is_byte_pointer(of_module, returned)
                && (is_byte_pointer(of_module, *object) && is_place_of_bytes(of_module, *place))
        }
        _ => false,
    }
}

fn are_gcwrite_types(of_module: &Module, returned: TypeId, parameters: &[TypeId]) -> bool
    ensures { result ≡ are_gcwrite_types of_module.now returned parameters.now }
{
    match parameters {
        [value, object, place] => {
            is_void(of_module, returned)
                && (is_byte_pointer(of_module, *value)
                    && (is_byte_pointer(of_module, *object)
                        && is_place_of_bytes(of_module, *place)))
        }
        _ => false,
    }
}

fn are_alloc_types(of_module: &Module, returned: TypeId, parameters: &[TypeId]) -> bool
    ensures { result ≡ are_alloc_types of_module.now returned parameters.now }
{
    match parameters {
        [layout] => {
            is_byte_pointer(of_module, returned) && is_integer_of(of_module, 32, *layout)
        }
        _ => false,
    }
}

fn are_safepoint_types(of_module: &Module, returned: TypeId, parameters: &[TypeId]) -> bool
    ensures { result ≡ are_safepoint_types of_module.now returned parameters.now }
{
    parameters.is_empty() && is_void(of_module, returned)
}

/// Whether these are integers of the widths that are taken.
fn are_taken(of_module: &Module, taken: IntegersTaken, bits: u64, types: &[TypeId]) -> bool
    ensures { result ≡ are_of_widths of_module.now (widths_taken taken bits) types.now }
{
    match (taken, types) {
        (IntegersTaken::One, [only]) => is_integer_of(of_module, bits, *only),
        (IntegersTaken::Flagged, [only, flag]) => {
            is_integer_of(of_module, bits, *only) && is_integer_of(of_module, 1, *flag)
        }
        (IntegersTaken::Two, [first, second]) => {
            is_integer_of(of_module, bits, *first) && is_integer_of(of_module, bits, *second)
        }
        (IntegersTaken::Three, [first, second, third]) => {
            is_integer_of(of_module, bits, *first)
                && (is_integer_of(of_module, bits, *second)
                    && is_integer_of(of_module, bits, *third))
        }
        _ => false,
    }
}

fn are_integer_types(
    of_module: &Module,
    function: IntegerFunction,
    bits: u64,
    returned: TypeId,
    parameters: &[TypeId],
) -> bool
    ensures { result ≡ are_integer_types of_module.now function bits returned parameters.now }
{
    is_integer_of(of_module, bits, returned)
        && are_taken(of_module, integers_taken(function), bits, parameters)
}

/// The declaration of a global name.
fn declare_of(of_module: &Module, callee: SymbolId) -> Option<&Declare>
    ensures { option_copied result ≡ declare_of of_module.now callee }
{
    match of_module.sorts.get(callee.number() as usize) {
        Some(SymbolSort::Declared(number)) => of_module.declares.get(number.number() as usize),
        _ => None,
    }
}

fn is_root_place(context: &FrameContext<'_>, slot: Option<SlotId>) -> bool
    ensures { result ≡ is_root_place context.now.slots.now slot }
{
    match slot {
        Some(slot) => context.slots.layout(slot).is_some(),
        None => false,
    }
}

fn gcroot_action(context: &FrameContext<'_>, returned: TypeId, arguments: &[Argument]) -> Action
    ensures { result ≡ gcroot_action context.now.program.now.of_module context.now.function.now context.now.slots.now context.now.registers.now returned arguments.now }
{
    match arguments {
        [place, metadata] => only_if(
            are_gcroot_types(
                context.of_module(),
                returned,
                &[place.written, metadata.written],
            ) && (is_root_place(
                context,
                slot_at_place(context, place.written, &place.operand),
            ) && is_usable(context, metadata.written, &metadata.operand)),
            Action::Local,
        ),
        _ => Action::Wrong,
    }
}

fn gcread_action(context: &FrameContext<'_>, returned: TypeId, arguments: &[Argument]) -> Action
    ensures { result ≡ gcread_action context.now.program.now context.now.function.now context.now.slots.now context.now.registers.now returned arguments.now }
{
    match arguments {
        [object, place] => only_if(
            are_gcread_types(
                context.of_module(),
                returned,
                &[object.written, place.written],
            ) && is_usable(context, object.written, &object.operand),
            read_action(
                context.program,
                returned,
                address_at_place(context, place.written, &place.operand),
            ),
        ),
        _ => Action::Wrong,
    }
}

fn gcwrite_action(context: &FrameContext<'_>, returned: TypeId, arguments: &[Argument]) -> Action
    ensures { result ≡ gcwrite_action context.now.program.now context.now.function.now context.now.slots.now context.now.registers.now returned arguments.now }
{
    match arguments {
        [value, object, place] => only_if(
            are_gcwrite_types(
                context.of_module(),
                returned,
                &[value.written, object.written, place.written],
            ) && (is_usable(context, value.written, &value.operand)
                && is_usable(context, object.written, &object.operand)),
            barrier_action(
                context.program,
                value.written,
                value_of(context, value.written, &value.operand),
                address_at_place(context, place.written, &place.operand),
            ),
        ),
        _ => Action::Wrong,
    }
}

fn alloc_of(layout: Option<LayoutId>) -> Action
    ensures { result ≡ alloc_of layout }
{
    match layout {
        Some(layout) => Action::Alloc(layout),
        None => Action::Wrong,
    }
}

fn alloc_action(of_module: &Module, returned: TypeId, arguments: &[Argument]) -> Action
    ensures { result ≡ alloc_action of_module.now returned arguments.now }
{
    match arguments {
        [layout] => only_if(
            are_alloc_types(of_module, returned, &[layout.written]),
            alloc_of(layout_meant(of_module, &layout.operand)),
        ),
        _ => Action::Wrong,
    }
}

/// Whether these are the types of a function of the runtime.
fn are_types_of(
    of_module: &Module,
    runtime: Runtime,
    returned: TypeId,
    parameters: &[TypeId],
) -> bool
    ensures { result ≡ are_types_of of_module.now runtime returned parameters.now }
{
    match runtime {
        Runtime::Alloc => are_alloc_types(of_module, returned, parameters),
        Runtime::Safepoint => are_safepoint_types(of_module, returned, parameters),
        Runtime::GcRoot => are_gcroot_types(of_module, returned, parameters),
        Runtime::GcRead => are_gcread_types(of_module, returned, parameters),
        Runtime::GcWrite => are_gcwrite_types(of_module, returned, parameters),
        Runtime::Integer { function, bits } => {
            are_integer_types(of_module, function, bits, returned, parameters)
        }
        Runtime::Float { function, bits } => {
            are_float_types(of_module, function, bits, returned, parameters)
        }
    }
}

/// Whether a name is declared as a function of the runtime has to be.
fn declares(of_module: &Module, runtime: Runtime, declare: Option<&Declare>) -> bool
    ensures { result ≡ declared_with (are_types_of of_module.now runtime) (option_copied declare.entry) }
{
    match declare {
        Some(declare) => {
            are_types_of(
                of_module,
                runtime,
                declare.returned,
                declare.parameters.as_slice(),
            )
        }
        None => false,
    }
}

fn safepoint_action(of_module: &Module, returned: TypeId, arguments: &[Argument]) -> Action
    ensures { result ≡ safepoint_action of_module.now returned arguments.now }
{
    match arguments {
        [] => only_if(
            are_safepoint_types(of_module, returned, &[]),
            Action::Safepoint,
        ),
        _ => Action::Wrong,
    }
}

/// Whether there is one argument for each width, written as a number of it.
#[tactic(auto, using(crate::proofs::WrittenTypes::other_count))]
pub fn are_written_with(of_module: &Module, widths: &[u64], arguments: &[Argument]) -> bool
    ensures { result ≡ are_of_widths of_module.now widths.now (written_types arguments.now) }
{
    if widths.len() != arguments.len() {
        return false;
    }
    for (bits, argument) in widths.iter().zip(arguments.iter()) {
        if !is_integer_of(of_module, *bits, argument.written) {
            return false;
        }
    }
    true
}

/// Whether a function of integers is called with its types.
fn are_written_types(
    of_module: &Module,
    function: IntegerFunction,
    bits: u64,
    returned: TypeId,
    arguments: &[Argument],
) -> bool
    ensures { result ≡ are_integer_types of_module.now function bits returned (written_types arguments.now) }
{
    is_integer_of(of_module, bits, returned)
        && match integers_taken(function) {
            IntegersTaken::One => are_written_with(of_module, &[bits], arguments),
            IntegersTaken::Flagged => are_written_with(of_module, &[bits, 1], arguments),
            IntegersTaken::Two => are_written_with(of_module, &[bits, bits], arguments),
            IntegersTaken::Three => are_written_with(of_module, &[bits, bits, bits], arguments),
        }
}

fn integer_action(
    context: &FrameContext<'_>,
    function: IntegerFunction,
    bits: u64,
    returned: TypeId,
    arguments: &[Argument],
) -> Action
    ensures { result ≡ integer_action context.now.program.now.of_module context.now.function.now context.now.slots.now context.now.registers.now function bits returned arguments.now }
{
    only_if(
        are_written_types(context.of_module(), function, bits, returned, arguments)
            && are_integers(context, arguments),
        Action::Local,
    )
}

/// The number of the defined function that a global name names.
pub fn number_called(of_module: &Module, callee: SymbolId) -> Option<FuncId>
    ensures { result ≡ number_called of_module.now callee }
{
    match of_module.sorts.get(callee.number() as usize) {
        Some(SymbolSort::Defined(number)) => Some(*number),
        _ => None,
    }
}

/// The defined function that a global name names.
fn function_named(of_module: &Module, callee: SymbolId) -> Option<&Function>
    ensures { option_copied result ≡ function_numbered of_module.now (number_called of_module.now callee) }
{
    match number_called(of_module, callee) {
        Some(number) => of_module.functions.get(number.number() as usize),
        None => None,
    }
}

/// Whether there is one argument for each parameter, of its type and usable.
#[tactic(auto, using(crate::proofs::AsksArguments::other_count))]
fn arguments_pass(
    context: &FrameContext<'_>,
    parameters: &[Parameter],
    arguments: &[Argument],
) -> bool
    ensures { result ≡ arguments_pass context.now.program.now.of_module context.now.function.now context.now.slots.now context.now.registers.now parameters.now arguments.now }
{
    if parameters.len() != arguments.len() {
        return false;
    }
    for (parameter, argument) in parameters.iter().zip(arguments.iter()) {
        if argument.written != parameter.written
            || !is_usable(context, argument.written, &argument.operand)
        {
            return false;
        }
    }
    true
}

fn defined_action(
    context: &FrameContext<'_>,
    returned: TypeId,
    arguments: &[Argument],
    callee: Option<&Function>,
) -> Action
    ensures { result ≡ defined_action context.now.program.now.of_module context.now.function.now context.now.slots.now context.now.registers.now returned arguments.now (option_copied callee.entry) }
{
    match callee {
        Some(callee) => only_if(
            returned == callee.returned
                && arguments_pass(context, callee.parameters.as_slice(), arguments),
            Action::Local,
        ),
        None => Action::Wrong,
    }
}

/// What a call asks for that is of no function of the runtime: of a declared function of a wide text, or else of a defined one.
fn outside_action(
    context: &FrameContext<'_>,
    returned: TypeId,
    arguments: &[Argument],
    declare: Option<&Declare>,
    callee: SymbolId,
) -> Action
    ensures { let m = context.now.program.now.of_module in result ≡ outside_action m context.now.function.now context.now.slots.now context.now.registers.now returned arguments.now (option_copied declare.entry) (function_numbered m (number_called m callee)) }
{
    let of_module = context.of_module();
    let Some(declare) = declare else {
        let function = function_named(of_module, callee);
        return defined_action(context, returned, arguments, function);
    };
    only_if(
        of_module.wide
            && (returned == declare.returned
                && are_outside_arguments(context, declare.parameters.as_slice(), arguments)),
        asked_outside(of_module, returned),
    )
}

/// What a call asks for; no callee is known but the runtime's, declared and called with its types, defined functions, and those outside.
pub fn call_action(context: &FrameContext<'_>, call: &Call) -> Action
    ensures { result ≡ action_of_call context.now.program.now context.now.function.now context.now.slots.now context.now.registers.now call.now }
{
    let Call {
        returned,
        callee,
        arguments,
    } = call;
    let (returned, callee, arguments) = (*returned, *callee, arguments.as_slice());
    let of_module = context.of_module();
    let declare = declare_of(of_module, callee);
    match runtime_called(of_module, callee) {
        Some(Runtime::Alloc) => only_if(
            declares(of_module, Runtime::Alloc, declare),
            alloc_action(of_module, returned, arguments),
        ),
        Some(Runtime::GcRoot) => only_if(
            declares(of_module, Runtime::GcRoot, declare),
            gcroot_action(context, returned, arguments),
        ),
        Some(Runtime::Safepoint) => only_if(
            declares(of_module, Runtime::Safepoint, declare),
            safepoint_action(of_module, returned, arguments),
        ),
        Some(Runtime::GcRead) => only_if(
            declares(of_module, Runtime::GcRead, declare),
            gcread_action(context, returned, arguments),
        ),
        Some(Runtime::GcWrite) => only_if(
            declares(of_module, Runtime::GcWrite, declare),
            gcwrite_action(context, returned, arguments),
        ),
        Some(Runtime::Integer { function, bits }) => only_if(
            declares(of_module, Runtime::Integer { function, bits }, declare),
            integer_action(context, function, bits, returned, arguments),
        ),
        Some(Runtime::Float { function, bits }) => only_if(
            declares(of_module, Runtime::Float { function, bits }, declare),
            float_action(context, function, bits, returned, arguments),
        ),
        None => outside_action(context, returned, arguments, declare, callee),
    }
}

/// The number of the defined function that an instruction calls, if it calls one.
pub fn function_called(of_module: &Module, op: &Op) -> Option<FuncId>
    ensures { result ≡ function_called of_module.now op.now }
{
    match op {
        Op::Call(call) => number_called(of_module, call.callee),
        _ => None,
    }
}

/// What an alloc of this layout gives.
pub fn alloc_value(layout: Option<LayoutId>, answer: Answer) -> Value
    ensures { result ≡ alloc_value layout answer }
{
    match (layout, answer) {
        (_, Answer::Null) => Value::Null,
        (Some(layout), Answer::Cell(at)) => Value::Cell(layout, at),
        _ => Value::Unset,
    }
}

/// The layout that a call of dg_alloc numbers.
pub fn layout_of_call(of_module: &Module, arguments: &[Argument]) -> Option<LayoutId>
    ensures { result ≡ layout_of_call of_module.now arguments.now }
{
    match arguments {
        [argument, ..] => layout_meant(of_module, &argument.operand),
        [] => None,
    }
}

/// The slot that a call of gcroot names.
pub fn root_of_call(context: &FrameContext<'_>, arguments: &[Argument]) -> Option<SlotId>
    ensures { result ≡ root_of_call context.now.program.now.of_module context.now.function.now context.now.slots.now arguments.now }
{
    match arguments {
        [argument, ..] => slot_at_place(context, argument.written, &argument.operand),
        [] => None,
    }
}

/// The address that a call of gcread names.
pub fn place_of_call(context: &FrameContext<'_>, arguments: &[Argument]) -> Option<Pointee>
    ensures { result ≡ place_of_call context.now.program.now.of_module context.now.function.now context.now.slots.now context.now.registers.now arguments.now }
{
    match arguments {
        [_, place, ..] => address_at_place(context, place.written, &place.operand),
        _ => None,
    }
}

/// The values of a call's arguments.
pub fn values_of(
    alloc: Global,
    of_module: &Module,
    registers: &[Value],
    arguments: &[Argument],
) -> Result<Vec<Value>, AllocError>
    ensures { IfOk result (λ values. values.items ≡ values_of of_module.now registers.now arguments.now) }
{
    arguments
        .iter()
        .map(|argument| operand_value(of_module, registers, argument.written, &argument.operand))
        .collect(alloc)
}
