//! What is wrong with a refused instruction, what is known there, and what mends it, as one value.
use crate::cases::{Case, Mending, Seen};
use crate::known::known_claims;
use crate::scene::{Scene, Spot};
use crate::told::{Holes, Told};
use block_rules::Refusal;
use certs::Claim;
use ir_ast::{BlockId, FuncId, Operand, ValueId};
use items::Items;
use pools::LayoutId;
use std::alloc::AllocError;

/// A line of the certificate of a function.
#[derive(Clone, Copy)]
pub enum Sought {
    Function,
    Param(ValueId),
    Result,
    Block(BlockId),
    /// The claim of a block with this number, from 0.
    Claim(BlockId, usize),
}

/// Where something is seen.
#[derive(Clone, Copy)]
pub enum At {
    /// At an instruction of the function that the holes speak of, with a caret under an operand of it.
    Instruction(Spot, Option<Operand>),
    /// At a line of the certificate of a function, if it is there.
    Certificate(FuncId, Sought),
}

/// What is seen at another place.
#[derive(Clone, Copy)]
pub struct Note {
    pub at: At,
    pub seen: Seen,
    pub holes: Holes,
}

/// A way that mends what is wrong, or a further line of one.
#[derive(Clone, Copy)]
pub struct Mend {
    pub mending: Mending,
    pub holes: Holes,
}

/// A block that has to list a value, and does not.
#[derive(Clone, Copy)]
pub struct Unlisted {
    pub block: BlockId,
    /// Whether each edge into it shows that the value is not null.
    pub nonnull: bool,
    /// Whether each edge into it shows that the value is fresh.
    pub fresh: bool,
}

/// What is wrong with a refused instruction. Its text is its case, the line of the instruction, what is seen elsewhere, what is known,
/// the words of a layout, and what mends it, in this order.
#[derive(Drop)]
pub struct Diagnosis {
    pub refusal: Refusal,
    pub case: Case,
    pub holes: Holes,
    /// The operand under which a caret stands.
    pub caret: Option<Operand>,
    pub notes: Vec<Note>,
    /// What is known before the instruction of what it has to do with.
    pub known: Items<Claim>,
    /// The layout whose words are shown.
    pub words: Option<LayoutId>,
    pub mends: Vec<Mend>,
    /// The blocks that have to list a value.
    pub unlisted: Vec<Unlisted>,
}

impl Diagnosis {
    /// Where the refused instruction is.
    pub fn spot(&self) -> Spot {
        Spot {
            block: self.refusal.block,
            place: self.refusal.instr,
        }
    }

    /// Another function of which something is seen, if there is one.
    pub fn other_function(&self) -> Option<FuncId> {
        let own = self.refusal.func;
        let note = self.notes.iter().find(|note| note.holes.func != own)?;
        Some(note.holes.func)
    }
}

/// A diagnosis that is being made. Where memory is refused it says so at the end.
#[derive(Drop)]
pub(crate) struct Draft {
    diagnosis: Diagnosis,
    state: Result<(), AllocError>,
}

impl Draft {
    /// Nothing is found yet but that a rule is broken.
    pub(crate) fn new(scene: &Scene) -> Draft {
        let alloc = scene.alloc;
        Draft {
            diagnosis: Diagnosis {
                refusal: scene.refusal,
                case: Case::Rule(scene.refusal.rule),
                holes: Told::of(scene, None).holes,
                caret: None,
                notes: Vec::new(alloc),
                known: Items::new(alloc),
                words: None,
                mends: Vec::new(alloc),
                unlisted: Vec::new(alloc),
            },
            state: Ok(()),
        }
    }

    /// This is wrong, and a caret stands under what it speaks of.
    pub(crate) fn case(&mut self, told: &Told, case: Case) {
        self.case_under(told, case, told.holes.it)
    }

    /// This is wrong, and a caret stands under an operand.
    pub(crate) fn case_under(&mut self, told: &Told, case: Case, caret: Option<Operand>) {
        self.diagnosis.case = case;
        self.diagnosis.holes = told.holes;
        self.diagnosis.caret = caret;
    }

    /// This is seen at an instruction, under an operand of it.
    pub(crate) fn note(&mut self, told: &Told, spot: &Spot, operand: Option<Operand>, seen: Seen) {
        self.add_note(told, At::Instruction(*spot, operand), seen)
    }

    /// This is seen at a line of the function's certificate.
    pub(crate) fn cert_note(&mut self, told: &Told, line: Sought, seen: Seen) {
        let func = told.scene.refusal.func;
        self.add_note(told, At::Certificate(func, line), seen)
    }

    pub(crate) fn add_note(&mut self, told: &Told, at: At, seen: Seen) {
        let holes = told.holes;
        if self.diagnosis.notes.push(Note { at, seen, holes }).is_err() {
            self.refuse();
        }
    }

    /// What is known of some operands is listed.
    pub(crate) fn know(&mut self, scene: &Scene, operands: &[Operand]) {
        match known_claims(scene, operands) {
            Ok(known) => self.diagnosis.known = known,
            Err(_) => self.refuse(),
        }
    }

    /// The words of a layout are shown.
    pub(crate) fn words(&mut self, layout: LayoutId) {
        self.diagnosis.words = Some(layout);
    }

    /// This mends it, or is a further line of what does.
    pub(crate) fn mend(&mut self, told: &Told, mending: Mending) {
        let holes = told.holes;
        if self.diagnosis.mends.push(Mend { mending, holes }).is_err() {
            self.refuse();
        }
    }

    /// These blocks have to list a value.
    pub(crate) fn unlisted(&mut self, blocks: Vec<Unlisted>) {
        self.diagnosis.unlisted = blocks;
    }

    /// Memory was refused for what would come next.
    pub(crate) fn refuse(&mut self) {
        self.state = Err(AllocError);
    }

    /// The whole diagnosis, if memory was not refused.
    pub(crate) fn finish(self) -> Result<Diagnosis, AllocError> {
        let Draft { diagnosis, state } = self;
        match state {
            Ok(()) => Ok(diagnosis),
            Err(refused) => {
                drop(diagnosis);
                Err(refused)
            }
        }
    }
}
