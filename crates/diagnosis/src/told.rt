//! What fills the holes of a sentence: names of the refused instruction, as `{it} is stored into {place}` has them.
use crate::scene::{Scene, There};
use ir_ast::{BlockId, Call, FuncId, Op, Operand, SymbolId, ValueId};

/// The value that an operand names.
pub fn local(operand: Operand) -> Option<ValueId> {
    match operand {
        Operand::Local(value) => Some(value),
        _ => None,
    }
}

/// The value that an operand names, if there is an operand.
pub(crate) fn value_in(operand: Option<Operand>) -> Option<ValueId> {
    match operand {
        Some(operand) => local(operand),
        None => None,
    }
}

/// What fills the holes of a sentence on an instruction of a function.
#[derive(Clone, Copy)]
pub struct Holes {
    /// The function whose names these are.
    pub func: FuncId,
    /// The block of the instruction.
    pub here: BlockId,
    /// The function that the instruction calls.
    pub callee: Option<SymbolId>,
    /// What the sentence speaks of.
    pub it: Option<Operand>,
    /// The place of a load or a store, or an argument's.
    pub place: Option<Operand>,
    /// The reference in whose cell the place is.
    pub base: Option<Operand>,
    /// Another block.
    pub other: Option<BlockId>,
    /// The block that defines what the sentence speaks of, where that is said.
    pub by: Option<BlockId>,
    pub number: u64,
}

/// A scene, and what fills the holes of sentences on it.
#[derive(Clone, Copy)]
pub(crate) struct Told<'a> {
    pub(crate) scene: &'a Scene<'a>,
    pub(crate) holes: Holes,
}

impl<'a> Told<'a> {
    /// Sentences of one operand.
    pub(crate) fn of(scene: &'a Scene<'a>, it: Option<Operand>) -> Told<'a> {
        let holes = Holes {
            func: scene.refusal.func,
            here: scene.refusal.block,
            callee: match call_of(scene) {
                Some(call) => Some(call.callee),
                None => None,
            },
            it,
            place: None,
            base: None,
            other: None,
            by: None,
            number: 0,
        };
        Told { scene, holes }
    }

    /// Sentences with other holes.
    pub(crate) fn with(&self, holes: Holes) -> Told<'a> {
        Told { holes, ..*self }
    }

    /// Sentences of another operand.
    pub(crate) fn with_it(&self, it: Option<Operand>) -> Told<'a> {
        self.with(Holes { it, ..self.holes })
    }

    /// Sentences with this place, or with what else leads to the cell.
    pub(crate) fn with_place(&self, place: Option<Operand>) -> Told<'a> {
        self.with(Holes {
            place,
            ..self.holes
        })
    }

    /// Sentences with a block that defines what they speak of.
    pub(crate) fn with_definer(&self, by: Option<BlockId>) -> Told<'a> {
        self.with(Holes { by, ..self.holes })
    }

    /// Sentences with another block.
    pub(crate) fn with_block(&self, other: Option<BlockId>) -> Told<'a> {
        self.with(Holes {
            other,
            ..self.holes
        })
    }
}

/// The operation of the refused instruction, if it has one.
pub(crate) fn op_of<'a>(scene: &Scene<'a>) -> Option<&'a Op> {
    match scene.there() {
        There::Body(instr) => Some(&instr.op),
        _ => None,
    }
}

/// The refused call.
pub(crate) fn call_of<'a>(scene: &Scene<'a>) -> Option<&'a Call> {
    match op_of(scene)? {
        Op::Call(call) => Some(call),
        _ => None,
    }
}
