//! What the text of a module tells of the layouts of its references.
use crate::evidence::{Access, Evidence, WordUse};
use crate::kinds::{PointerKind, PointerKinds};
use crate::numbers::ValueNumbers;
use ir_ast::{
    Argument, Block, Call, Cast, Choice, Constant, Element, End, FuncId, Function, Instr, IrType,
    MemoryOp, Module, Op, Operand, Phi, Runtime, SymbolId, SymbolSort, TypeId, ValueId,
};
use layout::{Program, Step};
use number_tables::{put, row_or};
use outside_names::is_outside_operand;
use pools::LayoutId;
use std::alloc::{AllocError, Global};
use types::{is_outside, layout_meant, runtime_called};

/// Where a pointer leads, as far as the text of its function tells.
#[derive(Clone, Copy)]
enum Place {
    Unknown,
    /// To a word that holds a reference to a cell of this layout.
    Holds(LayoutId),
    /// To a word of the cell of the reference with this number.
    Word { base: u32, word: u32 },
    /// To a slot of integers.
    Integers,
    /// Outside of the module.
    Outside,
}

/// A walk over the functions of a module.
#[derive(Drop)]
struct Reading<'a> {
    program: &'a Program,
    kinds: &'a PointerKinds,
    numbers: &'a ValueNumbers,
    func: FuncId,
    /// Where each value of the function leads.
    places: Vec<Place>,
    evidence: Evidence,
}

/// What the text of a program's module tells.
pub fn evidence_of(
    alloc: Global,
    program: &Program,
    numbers: &ValueNumbers,
) -> Result<Evidence, AllocError> {
    let kinds = PointerKinds::of(alloc, program.module())?;
    let evidence = evidence_by(alloc, program, numbers, &kinds);
    drop(kinds);
    evidence
}

fn evidence_by(
    alloc: Global,
    program: &Program,
    numbers: &ValueNumbers,
    kinds: &PointerKinds,
) -> Result<Evidence, AllocError> {
    let mut reading = Reading {
        program,
        kinds,
        numbers,
        func: FuncId::new(0),
        places: Vec::new(alloc),
        evidence: Evidence::new(alloc),
    };
    match reading.module() {
        Ok(()) => Ok(reading.into_evidence()),
        Err(refused) => {
            drop(reading);
            Err(refused)
        }
    }
}

impl<'a> Reading<'a> {
    fn into_evidence(self) -> Evidence {
        self.evidence
    }

    fn module(&mut self) -> Result<(), AllocError> {
        let mut number = 0u32;
        for function in self.program.module().functions.as_slice() {
            self.func = FuncId::new(number);
            self.function(function)?;
            number = number.saturating_add(1);
        }
        Ok(())
    }

    fn function(&mut self, function: &Function) -> Result<(), AllocError> {
        self.places.clear();
        for _ in 0..function.locals.count() {
            self.places.push(Place::Unknown)?;
        }
        for block in function.blocks.as_slice() {
            self.block(function, block)?;
        }
        Ok(())
    }

    fn block(&mut self, function: &Function, block: &Block) -> Result<(), AllocError> {
        for phi in block.phis.as_slice() {
            self.phi(phi)?;
        }
        for instr in block.body.as_slice() {
            self.instr(function, instr)?;
        }
        match &block.end {
            End::Return(argument) if self.kinds.is_any(argument.written) => {
                let result = self.numbers.of_result(self.func);
                self.flow(&argument.operand, result)
            }
            _ => Ok(()),
        }
    }

    fn phi(&mut self, phi: &Phi) -> Result<(), AllocError> {
        if !self.kinds.is_any(phi.written) {
            return Ok(());
        }
        let number = self.number(phi.value);
        for entry in phi.incoming.as_slice() {
            self.flow(&entry.operand, number)?;
        }
        Ok(())
    }

    fn instr(&mut self, function: &Function, instr: &Instr) -> Result<(), AllocError> {
        match (&instr.op, instr.result) {
            (Op::Memory(memory), defined) => self.memory(function, memory, defined),
            (Op::Call(call), defined) => self.call(call, defined),
            (Op::Element(element), Some(value)) => self.element(element, value),
            (Op::Cast(cast), Some(value)) => self.cast(cast, value),
            (Op::Choice(choice), Some(value)) => self.choice(choice, value),
            _ => Ok(()),
        }
    }

    fn memory(
        &mut self,
        function: &Function,
        memory: &MemoryOp,
        defined: Option<ValueId>,
    ) -> Result<(), AllocError> {
        match memory {
            MemoryOp::Alloca(held) => {
                if let Some(slot) = defined {
                    self.slot(function, *held, slot);
                }
                Ok(())
            }
            MemoryOp::Buffer { .. } => match defined {
                Some(value) => {
                    let value = self.number(value);
                    self.evidence.add_outside(value)
                }
                None => Ok(()),
            },
            MemoryOp::Load {
                loaded,
                place_type,
                place,
            } => match defined {
                Some(value) if self.kinds.is_any(*loaded) => self.load(place, value),
                _ => self.integer(*loaded, *place_type, place),
            },
            MemoryOp::Store {
                stored,
                value,
                place_type,
                place,
            } => {
                if self.kinds.is_any(*stored) {
                    self.store(place, value)
                } else {
                    self.integer(*stored, *place_type, place)
                }
            }
        }
    }

    fn slot(&mut self, function: &Function, held: TypeId, slot: ValueId) {
        let place = if self.kinds.is_any(held) {
            let name = function.locals.name_at(slot.number() as usize);
            place_holding(self.module_read().root_shape(function.symbol, name))
        } else {
            Place::Integers
        };
        self.set_place(slot, place);
    }

    /// A number is read or written at a place: where that is a reference, its cell begins with such a number.
    fn integer(
        &mut self,
        written: TypeId,
        place_type: TypeId,
        place: &Operand,
    ) -> Result<(), AllocError> {
        let Operand::Local(base) = place else {
            return Ok(());
        };
        if !self.kinds.is_any(place_type) {
            return Ok(());
        }
        match (self.place(*base), self.module_read().types.get(written)) {
            (Place::Unknown, Some(written)) => match word_bits(written) {
                Some(bits) => {
                    let base = self.number(*base);
                    self.evidence.add_integer(base, bits)
                }
                None => Ok(()),
            },
            _ => Ok(()),
        }
    }

    fn load(&mut self, place: &Operand, value: ValueId) -> Result<(), AllocError> {
        let value = self.number(value);
        match self.place_of(place) {
            Place::Unknown | Place::Integers => Ok(()),
            Place::Holds(layout) => self.evidence.add_given(value, layout),
            Place::Outside => self.evidence.add_outside(value),
            Place::Word { base, word } => {
                let access = Access::Load;
                self.evidence.add_use(
                    base,
                    WordUse {
                        value,
                        word,
                        access,
                    },
                )
            }
        }
    }

    fn store(&mut self, place: &Operand, stored: &Operand) -> Result<(), AllocError> {
        let Operand::Local(value) = stored else {
            return Ok(());
        };
        let value = self.number(*value);
        match self.place_of(place) {
            Place::Unknown | Place::Integers | Place::Outside => Ok(()),
            Place::Holds(layout) => self.evidence.add_wanted(value, layout),
            Place::Word { base, word } => {
                let access = Access::Store;
                self.evidence.add_use(
                    base,
                    WordUse {
                        value,
                        word,
                        access,
                    },
                )
            }
        }
    }

    fn call(&mut self, call: &Call, defined: Option<ValueId>) -> Result<(), AllocError> {
        let arguments = call.arguments.as_slice();
        match callee_of(self.module_read(), call.callee) {
            Callee::Defined(callee) => {
                self.pass(callee, arguments)?;
                match defined {
                    Some(value) if self.kinds.is_any(call.returned) => {
                        let to = self.number(value);
                        self.evidence.add_flow(self.numbers.of_result(callee), to)
                    }
                    _ => Ok(()),
                }
            }
            Callee::Runtime(runtime) => self.runtime_call(runtime, arguments, defined),
            Callee::Outside => self.given_outside(call.returned, defined),
            Callee::Unknown => Ok(()),
        }
    }

    /// A pointer that a function outside gives is an address outside.
    fn given_outside(
        &mut self,
        returned: TypeId,
        defined: Option<ValueId>,
    ) -> Result<(), AllocError> {
        match defined {
            Some(value) if self.kinds.is_any(returned) => {
                let value = self.number(value);
                self.evidence.add_outside(value)
            }
            _ => Ok(()),
        }
    }

    /// Arguments become the parameters of what is called.
    fn pass(&mut self, callee: FuncId, arguments: &[Argument]) -> Result<(), AllocError> {
        let Some(function) = self.module_read().functions.get(callee.number() as usize) else {
            return Ok(());
        };
        for (argument, parameter) in arguments.iter().zip(function.parameters.as_slice().iter()) {
            if self.kinds.is_any(argument.written) {
                let to = self.numbers.of_value(callee, parameter.value);
                self.flow(&argument.operand, to)?;
            }
        }
        Ok(())
    }

    fn runtime_call(
        &mut self,
        runtime: Runtime,
        arguments: &[Argument],
        defined: Option<ValueId>,
    ) -> Result<(), AllocError> {
        match (runtime, arguments, defined) {
            (Runtime::Alloc, [layout], Some(value)) => self.allocated(layout, value),
            (Runtime::GcRead, [_object, place], Some(value)) => self.load(&place.operand, value),
            (Runtime::GcWrite, [value, _object, place], _) => {
                self.store(&place.operand, &value.operand)
            }
            _ => Ok(()),
        }
    }

    fn allocated(&mut self, layout: &Argument, value: ValueId) -> Result<(), AllocError> {
        match layout_meant(self.module_read(), &layout.operand) {
            Some(layout) => {
                let value = self.number(value);
                self.evidence.add_given(value, layout)
            }
            None => Ok(()),
        }
    }

    fn element(&mut self, element: &Element, value: ValueId) -> Result<(), AllocError> {
        if is_outside_operand(self.module_read(), &element.base) {
            let value = self.number(value);
            return self.evidence.add_outside(value);
        }
        let Operand::Local(base) = &element.base else {
            return Ok(());
        };
        if !self.kinds.is_any(element.base_type) {
            return Ok(());
        }
        let (from, to) = (self.number(*base), self.number(value));
        self.evidence.add_element(from, to)?;
        self.bare(from, element.source)?;
        self.want_struct(*base, element.source)?;
        self.place_element(element, value);
        Ok(())
    }

    /// A getelementptr of this base and type. Where the wide forms may stand and it names no struct, the base may be an address outside.
    fn bare(&mut self, base: u32, source: TypeId) -> Result<(), AllocError> {
        let module = self.module_read();
        if module.wide && layout_of_struct(module, source).is_none() {
            self.evidence.add_bare(base)
        } else {
            Ok(())
        }
    }

    /// An element of a struct asks the layout of the struct of its base, unless that leads elsewhere.
    fn want_struct(&mut self, base: ValueId, source: TypeId) -> Result<(), AllocError> {
        let Some(layout) = layout_of_struct(self.module_read(), source) else {
            return Ok(());
        };
        match self.place(base) {
            Place::Unknown => {
                let number = self.number(base);
                self.evidence.add_wanted(number, layout)
            }
            _ => Ok(()),
        }
    }

    /// The value of an element leads to the word to which its indices lead.
    fn place_element(&mut self, element: &Element, value: ValueId) {
        let Place::Word { base, word } = self.place_of(&element.base) else {
            return;
        };
        if let Some(words) = self.words_over(element) {
            let word = word.saturating_add(words);
            self.set_place(value, Place::Word { base, word });
        }
    }

    /// How many words the indices lead over; where one is not known, it is taken to be 0.
    fn words_over(&self, element: &Element) -> Option<u32> {
        let mut part = element.source;
        let mut over = 0u32;
        for index in element.indices.as_slice().iter().skip(1) {
            match self.program.step(part, *index)? {
                Step::Field { words, part: field } => {
                    over = over.saturating_add(words);
                    part = field;
                }
                Step::Elements {
                    words,
                    part: element,
                    ..
                } => {
                    over = over.saturating_add(words.saturating_mul(constant_index(index)));
                    part = element;
                }
            }
        }
        Some(over)
    }

    fn cast(&mut self, cast: &Cast, value: ValueId) -> Result<(), AllocError> {
        match self.kinds.kind(cast.from) {
            PointerKind::Reference(layout) => {
                let number = self.number(value);
                self.evidence.add_given(number, layout)
            }
            PointerKind::AnyReference => self.cast_of_any(cast, value),
            PointerKind::Place(layout) => {
                self.set_place(value, Place::Holds(layout));
                Ok(())
            }
            PointerKind::Other => Ok(()),
        }
    }

    /// A cast of an `i8*` or a `ptr`.
    fn cast_of_any(&mut self, cast: &Cast, value: ValueId) -> Result<(), AllocError> {
        match self.kinds.kind(cast.to) {
            PointerKind::Reference(layout) => self.want(&cast.operand, layout),
            PointerKind::AnyReference => {
                self.rename(&cast.operand, value);
                let number = self.number(value);
                self.flow(&cast.operand, number)
            }
            PointerKind::Place(_) | PointerKind::Other => Ok(()),
        }
    }

    /// A use of an operand asks a layout.
    fn want(&mut self, operand: &Operand, layout: LayoutId) -> Result<(), AllocError> {
        match operand {
            Operand::Local(value) => {
                let number = self.number(*value);
                self.evidence.add_wanted(number, layout)
            }
            _ => Ok(()),
        }
    }

    /// Another name leads where this operand does.
    fn rename(&mut self, operand: &Operand, name: ValueId) {
        if let Operand::Local(value) = operand {
            self.set_place(name, self.place(*value));
        }
    }

    fn choice(&mut self, choice: &Choice, value: ValueId) -> Result<(), AllocError> {
        if !self.kinds.is_any(choice.written) {
            return Ok(());
        }
        let number = self.number(value);
        self.flow(&choice.chosen, number)?;
        self.flow(&choice.other, number)
    }

    fn flow(&mut self, operand: &Operand, to: u32) -> Result<(), AllocError> {
        match operand {
            Operand::Local(value) => {
                let from = self.number(*value);
                self.evidence.add_flow(from, to)
            }
            operand => {
                if is_outside_operand(self.module_read(), operand) {
                    self.evidence.add_outside(to)
                } else {
                    Ok(())
                }
            }
        }
    }

    /// Where an operand leads that is used as a place: a reference leads to the first word of its cell.
    fn place_of(&self, operand: &Operand) -> Place {
        if is_outside_operand(self.module_read(), operand) {
            return Place::Outside;
        }
        match operand {
            Operand::Local(value) => {
                match self.place(*value) {
                    Place::Unknown => Place::Word {
                        base: self.number(*value),
                        word: 0,
                    },
                    place => place,
                }
            }
            Operand::Global(global) => place_holding(self.module_read().global_shape(*global)),
            Operand::CastGlobal { from, .. } => match self.kinds.kind(*from) {
                PointerKind::Place(layout) => Place::Holds(layout),
                _ => Place::Unknown,
            },
            Operand::Constant(_) => Place::Unknown,
        }
    }

    /// Where a value leads.
    fn place(&self, value: ValueId) -> Place {
        row_or(&self.places, value.number() as usize, Place::Unknown)
    }

    /// A value leads there from now on.
    fn set_place(&mut self, value: ValueId, place: Place) {
        put(&mut self.places, value.number() as usize, place);
    }

    fn number(&self, value: ValueId) -> u32 {
        self.numbers.of_value(self.func, value)
    }

    fn module_read(&self) -> &'a Module {
        self.program.module()
    }
}

/// What is called.
#[derive(Clone, Copy)]
enum Callee {
    Defined(FuncId),
    Runtime(Runtime),
    /// A function outside of the module.
    Outside,
    Unknown,
}

fn callee_of(module: &Module, symbol: SymbolId) -> Callee {
    if let Some(SymbolSort::Defined(number)) = module.sorts.get(symbol.number() as usize) {
        return Callee::Defined(*number);
    }
    match runtime_called(module, symbol) {
        Some(runtime) => Callee::Runtime(runtime),
        None if is_outside(module, symbol) => Callee::Outside,
        None => Callee::Unknown,
    }
}

/// The bits of a word that holds numbers of this type.
fn word_bits(written: IrType) -> Option<u32> {
    match written {
        IrType::Integer(bits) => Some(bits),
        IrType::Float => Some(32),
        IrType::Double => Some(64),
        _ => None,
    }
}

fn place_holding(shape: Option<LayoutId>) -> Place {
    match shape {
        Some(layout) => Place::Holds(layout),
        None => Place::Unknown,
    }
}

/// The layout of a named struct.
fn layout_of_struct(module: &Module, written: TypeId) -> Option<LayoutId> {
    match module.types.get(written)? {
        IrType::Named(name) => match module.struct_of.get(name.number() as usize) {
            Some(layout) => *layout,
            None => None,
        },
        _ => None,
    }
}

/// An index, or 0 where it is not known.
fn constant_index(index: &Argument) -> u32 {
    match index.operand {
        Operand::Constant(Constant::Number(number)) => u32::try_from(number).unwrap_or(u32::MAX),
        _ => 0,
    }
}
