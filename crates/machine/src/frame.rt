ghost use Rattle.std.specs.Prelude.{◌≡◌, ◌≤◌, length, map, take, slice_get, slice_set};
ghost use Rattle.types.specs.RuntimeCall.{runtime_called};
ghost use Rattle.machine.specs.Kinds.{value_of};
ghost use Rattle.machine.specs.Jumps.{put_register, put_each, phi_value, phis_of};
ghost use Rattle.machine.specs.Machine.{initial, set_register, set_slot, load_value, after_call, after_cast, after_memory, after_op, enter};

use crate::answer::Answer;
use crate::calls::{alloc_value, layout_of_call, place_of_call, root_of_call};
use crate::choices::choice_value;
use crate::elements::element_address;
use crate::foreign::given_value;
use crate::frame_code::FrameCode;
use crate::frame_context::FrameContext;
use crate::integer_functions::integers_value;
use crate::jumps::{phi_value, phis_of};
use crate::kinds::is_integer;
use crate::memory::{loaded_from, read_at};
use crate::numbers::number_value;
use crate::operands::{address_at_place, operand_slot, outside_address, slot_at_place, value_of};
use crate::outside::is_usable_outside;
use crate::value::Value;
use ir_ast::{
    BlockId, Call, Cast, FuncId, Function, MemoryOp, Module, Op, Operand, Phi, Runtime, TypeId,
    ValueId,
};
use items::Items;
use layout::Program;
use shadow_stack::{SlotId, Slots};
use types::runtime_called;

/// A running function: its place in it, and what its registers and slots hold.
#[derive(Drop)]
pub struct Frame {
    pub function: FuncId,
    /// The name of the caller's that takes the result.
    pub into: Option<ValueId>,
    pub block: usize,
    pub place: usize,
    pub registers: Items<Value>,
    pub slots: Items<Value>,
}

impl Frame {
    /// What an instruction of the frame looks at.
    pub fn context<'a>(
        &'a self,
        program: &'a Program,
        function: &'a Function,
        slots: &'a Slots,
    ) -> FrameContext<'a>
        ensures program { result.program.now ≡ program.now }
        ensures function { result.function.now ≡ function.now }
        ensures slots { result.slots.now ≡ slots.now }
        ensures registers { result.registers.now ≡ self.now.registers }
    {
        FrameContext {
            program,
            function,
            slots,
            registers: self.registers.as_slice(),
        }
    }

    /// What an instruction that calls no defined function does with the answer.
    pub fn after_op(&mut self, code: &FrameCode, name: Option<ValueId>, op: &Op, answer: Answer)
        ensures { self.new ≡ after_op code.now.program.now code.now.function.now code.now.slots.now name op.now answer self.old }
    {
        let FrameCode {
            program,
            function,
            slots,
        } = *code;
        match op {
            Op::Number(op) => {
                let value = number_value(&self.context(program, function, slots), op, answer);
                self.set_register(name, value);
            }
            Op::Memory(op) => self.after_memory(code, name, op, answer),
            Op::Element(element) => {
                let value = element_address(&self.context(program, function, slots), element);
                self.set_register(name, value);
            }
            Op::Cast(cast) => self.after_cast(code, name, cast),
            Op::Choice(choice) => {
                let value = choice_value(&self.context(program, function, slots), choice);
                self.set_register(name, value);
            }
            Op::Call(call) => self.after_call(code, name, call, answer),
        }
    }

    fn after_cast(&mut self, code: &FrameCode, name: Option<ValueId>, cast: &Cast)
        ensures { self.new ≡ after_cast code.now.program.now code.now.slots.now name cast.now self.old }
    {
        let FrameCode {
            program,
            function,
            slots,
        } = *code;
        let value = value_of(
            &self.context(program, function, slots),
            cast.from,
            &cast.operand,
        );
        if operand_slot(slots, &cast.operand).is_none() {
            self.set_register(name, value);
        }
    }

    /// What a load gives, by whether its place is outside.
    fn load_value(
        &self,
        code: &FrameCode,
        place_type: TypeId,
        place: &Operand,
        answer: Answer,
    ) -> Value
        ensures { result ≡ load_value code.now.program.now code.now.function.now code.now.slots.now self.now place_type place.now answer }
    {
        let context = self.context(code.program, code.function, code.slots);
        if is_usable_outside(&context, place_type, place) {
            return given_value(answer);
        }
        let slot = slot_at_place(&context, place_type, place);
        let address = address_at_place(&context, place_type, place);
        loaded_from(code.program, self.slots.as_slice(), slot, address, answer)
    }

    fn after_memory(
        &mut self,
        code: &FrameCode,
        name: Option<ValueId>,
        op: &MemoryOp,
        answer: Answer,
    )
        ensures { self.new ≡ after_memory code.now.program.now code.now.function.now code.now.slots.now name op.now answer self.old }
    {
        let FrameCode {
            program,
            function,
            slots,
        } = *code;
        let context = self.context(program, function, slots);
        match op {
            MemoryOp::Alloca(_) => {}
            MemoryOp::Buffer { .. } => self.set_register(name, outside_address()),
            MemoryOp::Load {
                place_type,
                place,
                ..
            } => {
                let value = self.load_value(code, *place_type, place, answer);
                self.set_register(name, value);
            }
            MemoryOp::Store {
                stored,
                value,
                place_type,
                place,
            } => {
                let slot = slot_at_place(&context, *place_type, place);
                let value = value_of(&context, *stored, value);
                self.set_slot(slot, value);
            }
        }
    }

    fn after_call(&mut self, code: &FrameCode, name: Option<ValueId>, call: &Call, answer: Answer)
        ensures { self.new ≡ after_call code.now.program.now code.now.function.now code.now.slots.now name call.now.arguments (runtime_called code.now.program.now.of_module call.now.callee) answer self.old }
    {
        let FrameCode {
            program,
            function,
            slots,
        } = *code;
        let context = self.context(program, function, slots);
        let arguments = call.arguments.as_slice();
        match runtime_called(program.module(), call.callee) {
            Some(Runtime::Alloc) => {
                let layout = layout_of_call(program.module(), arguments);
                self.set_register(name, alloc_value(layout, answer));
            }
            Some(Runtime::GcRoot) => {
                let slot = root_of_call(&context, arguments);
                self.set_slot(slot, Value::Null);
            }
            Some(Runtime::GcRead) => {
                let place = place_of_call(&context, arguments);
                self.set_register(name, read_at(program, place, answer));
            }
            Some(Runtime::Integer { function, bits }) => {
                let value = integers_value(&context, function, bits, arguments);
                self.set_register(name, value);
            }
            Some(Runtime::Float { .. }) | None => self.set_register(name, given_value(answer)),
            Some(Runtime::Safepoint | Runtime::GcWrite) => {}
        }
    }

    /// The frame enters a block: its phis take the values of their entries for the block that it leaves.
    pub fn enter(
        &mut self,
        of_module: &Module,
        function: &Function,
        block: BlockId,
        phi_values: &mut Items<Value>,
    )
        requires { length (phis_of (slice_get function.now.blocks block)) ≤ length phi_values.now }
        ensures frame { self.new ≡ enter of_module.now function.now self.old.block block (phis_of (slice_get function.now.blocks block)) self.old }
        ensures room { length phi_values.new ≡ length phi_values.old }
    {
        let phis = phis_of(function, block);
        take_values(
            of_module,
            function,
            self.registers.as_slice(),
            self.block,
            phis,
            phi_values,
        );
        put_values(phis, phi_values.as_slice(), &mut self.registers);
        self.block = block.number() as usize;
        self.place = 0;
    }

    /// A value is put into a register, if there is a name.
    pub fn set_register(&mut self, name: Option<ValueId>, value: Value)
        ensures { self.new ≡ set_register name value self.old }
    {
        put_register(&mut self.registers, name, value);
    }

    fn set_slot(&mut self, slot: Option<SlotId>, value: Value)
        ensures { self.new ≡ set_slot slot value self.old }
    {
        if let Some(slot) = slot {
            put_at(&mut self.slots, slot.number(), value);
        }
    }
}

/// A slot begins with 0 or null.
pub fn initial(of_module: &Module, held: TypeId) -> Value
    ensures { result ≡ initial of_module.now held }
{
    if is_integer(of_module, held) {
        Value::Number(0)
    } else {
        Value::Null
    }
}

/// A value is put into a register.
pub fn put(registers: &mut Items<Value>, name: ValueId, value: Value)
    ensures { registers.new ≡ slice_set registers.old name value }
{
    put_at(registers, name.number() as usize, value);
}

/// A value is put in the place of another; past the end nothing is put.
pub fn put_at(values: &mut Items<Value>, at: usize, value: Value)
    ensures { values.new ≡ slice_set values.old at value }
{
    if at >= values.len() {
        return;
    }
    // Both arms do the same. The first names the place: the prover has to see its type where it sets a value.
    match value {
        Value::Address(place) => values.set(at, Value::Address(place)),
        value => values.set(at, value),
    }
}

/// A value is put into a register, if there is a name.
fn put_register(registers: &mut Items<Value>, name: Option<ValueId>, value: Value)
    ensures { registers.new ≡ put_register name value registers.old }
{
    if let Some(name) = name {
        put(registers, name, value);
    }
}

/// The values of some phis, each by the registers as they are, are kept in order.
fn take_values(
    of_module: &Module,
    function: &Function,
    registers: &[Value],
    from: usize,
    phis: &[Phi],
    values: &mut Items<Value>,
)
    requires { length phis.now ≤ length values.now }
    ensures values { take (length phis.now) values.new ≡ map (phi_value of_module.now function.now registers.now from) phis.now }
    ensures room { length values.new ≡ length values.old }
{
    for place in 0..phis.len() {
        let value = phi_value(of_module, function, registers, from, &phis[place]);
        put_at(values, place, value);
    }
}

/// Each phi takes its value.
fn put_values(phis: &[Phi], values: &[Value], registers: &mut Items<Value>)
    ensures { registers.new ≡ put_each phis.now values.now registers.old }
{
    for (phi, value) in phis.iter().zip(values.iter()) {
        put(registers, phi.value, *value);
    }
}
