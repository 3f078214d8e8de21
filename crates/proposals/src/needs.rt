//! What integers have to be below, for the indices that they are.
use crate::call_graph::defined;
use crate::inferred::smaller;
use crate::numbers::bounded_operand;
use crate::summaries::Summaries;
use ir_ast::{Block, Call, Element, Function, Instr, Module, Op, Operand, Phi, TypeId};
use layout::{Program, Step};
use number_tables::{put, row_or};
use std::alloc::{AllocError, Global};

/// What each value of a function has to be below, as far as the text tells.
#[derive(Drop)]
struct Needs<'a> {
    program: &'a Program,
    summaries: &'a Summaries,
    each: Vec<Option<u64>>,
}

/// What each value of a function has to be below: it goes back over the text once.
pub fn needs_of(
    alloc: Global,
    program: &Program,
    function: &Function,
    summaries: &Summaries,
) -> Result<Vec<Option<u64>>, AllocError> {
    let mut needs = Needs {
        program,
        summaries,
        each: vec![in alloc; None; function.locals.count()]?,
    };
    for block in function.blocks.as_slice().iter().rev() {
        needs.record_block(block);
    }
    Ok(needs.each)
}

impl<'a> Needs<'a> {
    fn record_block(&mut self, block: &Block) {
        for instr in block.body.as_slice().iter().rev() {
            self.record_one(instr);
        }
        for phi in block.phis.as_slice() {
            self.record_phi(phi);
        }
    }

    fn record_one(&mut self, instr: &Instr) {
        let need = match instr.result {
            Some(value) => row_or(&self.each, value.number() as usize, None),
            None => None,
        };
        match &instr.op {
            Op::Element(element) => self.record_element(element),
            Op::Number(op) => {
                if let Some(operand) = bounded_operand(op) {
                    self.need(&operand, need);
                }
            }
            Op::Cast(cast) => self.need(&cast.operand, need),
            Op::Choice(choice) => {
                self.need(&choice.chosen, need);
                self.need(&choice.other, need);
            }
            Op::Call(call) => self.record_call(call),
            Op::Memory(_) => {}
        }
    }

    /// Each index of an array has to be below its length.
    fn record_element(&mut self, element: &Element) {
        let mut part = element.source;
        for index in element.indices.as_slice().iter().skip(1) {
            let Some(step) = self.program.step(part, *index) else {
                return;
            };
            self.need(&index.operand, length_of(&step));
            part = part_of(&step);
        }
    }

    fn record_call(&mut self, call: &Call) {
        let Some(callee) = defined(self.program.module(), call.callee) else {
            return;
        };
        let mut place = 0usize;
        for argument in call.arguments.as_slice() {
            let need = self.summaries.parameter(callee, place).below();
            self.need(&argument.operand, need);
            place = place.saturating_add(1);
        }
    }

    fn record_phi(&mut self, phi: &Phi) {
        let need = row_or(&self.each, phi.value.number() as usize, None);
        for entry in phi.incoming.as_slice() {
            self.need(&entry.operand, need);
        }
    }

    fn need(&mut self, operand: &Operand, below: Option<u64>) {
        if let Operand::Local(value) = operand {
            let at = value.number() as usize;
            let before = row_or(&self.each, at, None);
            put(&mut self.each, at, smaller(before, below));
        }
    }
}

/// The length of the array into which a step leads.
fn length_of(step: &Step) -> Option<u64> {
    match step {
        Step::Elements { length, .. } => Some(*length),
        Step::Field { .. } => None,
    }
}

fn part_of(step: &Step) -> TypeId {
    match step {
        Step::Elements { part, .. } => *part,
        Step::Field { part, .. } => *part,
    }
}
