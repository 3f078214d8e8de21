//! What is read so far of a certificate.
ghost use Rattle.std.specs.Prelude.{◌≡◌, ◌==◌, [], OnOk};
ghost use Rattle.std.specs.List.{list_any};
ghost use Rattle.certificate.specs.Input as spec;
ghost use Rattle.certificate.specs.Drafts.{no_draft, first_missing};
ghost use Rattle.certificate.specs.ShapeDrafts.{with_word_shape, with_global_shape, with_root_shape};
ghost use Rattle.certs.specs.NumbersFit.{has_layout, has_number};
ghost use Rattle.certs.specs.declared.section.Claim.TheVariants as a_line;

use crate::draft::{RequiredValue, SectionDraft};
use crate::shape_draft::ShapeDraft;
use certs::{Claim, Fact, Mark, Promise, Section, has_layout, has_number};
use ir_ast::{BlockId, FuncId, Function, LayoutNumber, Module, SymbolId, SymbolList, ValueId};
use items::Items;
use pools::LayoutId;
use std::alloc::{AllocError, Global};
use std::marker::Model;
use std::mem;

/// A section that is read.
#[derive(Drop)]
pub struct Kept {
    pub section: Section,
    /// The first block that it leaves out.
    pub missing: Option<usize>,
}

/// The sections that are read, the draft of the next one, the shapes, the functions outside that are trusted, and the numbers of layouts.
#[derive(Drop)]
pub struct Progress {
    sections: Vec<Option<Kept>>,
    draft: SectionDraft,
    shapes: ShapeDraft,
    foreign: SymbolList,
    numbers: Items<LayoutNumber>,
}

impl Model for Progress {
    ghost use Rattle.certificate.specs.Input.{Progress};

    ghost Value = { Progress };

    ghost use Rattle.certificate.specs.View.{progress_of};

    ghost view = { progress_of };
}

impl Progress {
    /// No section is begun.
    pub fn new(alloc: Global, sections: Vec<Option<Kept>>, shapes: ShapeDraft) -> Progress
        ensures { result ≡ record { sections = sections.items; draft = no_draft; shapes = shapes; foreign = []; numbers = [] } }
    {
        Progress {
            sections,
            draft: SectionDraft::none(alloc),
            shapes,
            foreign: SymbolList::new(alloc),
            numbers: Items::new(alloc),
        }
    }

    /// The sections of the functions, by their numbers.
    pub fn sections(&self) -> &[Option<Kept>]
        ensures { result.now ≡ self.now.sections }
    {
        self.sections.as_slice()
    }

    /// What is read so far of the section.
    pub fn draft(&self) -> &SectionDraft
        ensures { result.now ≡ self.now.draft }
    {
        &self.draft
    }

    /// The shapes that are read so far.
    pub fn shapes(&self) -> &ShapeDraft
        ensures { result.now ≡ self.now.shapes }
    {
        &self.shapes
    }

    /// Gives the shape of a word.
    #[tactic(auto, unfolding(crate::specs::Input::shaping))]
    pub fn shape_word(
        &mut self,
        alloc: Global,
        module: &Module,
        layout: LayoutId,
        word: usize,
        target: LayoutId,
    )
        ensures { self.new ≡ spec.shaping (with_word_shape «module».now layout word target) self.old }
    {
        self.shapes.put_word(alloc, module, layout, word, target);
    }

    /// Gives the shape of a global.
    #[tactic(auto, unfolding(crate::specs::Input::shaping))]
    pub fn shape_global(&mut self, symbol: SymbolId, target: LayoutId)
        ensures { self.new ≡ spec.shaping (with_global_shape symbol target) self.old }
    {
        self.shapes.put_global(symbol, target);
    }

    /// Gives the shape of a root slot of a function.
    #[tactic(auto, unfolding(crate::specs::Input::shaping))]
    pub fn shape_root(
        &mut self,
        alloc: Global,
        function: &Function,
        slot: ValueId,
        target: LayoutId,
    ) -> Result<(), AllocError>
        ensures { OnOk result (self.new ≡ spec.shaping (with_root_shape function.now slot target) self.old) }
    {
        self.shapes.put_root(alloc, function, slot, target)
    }

    /// Takes the shapes out.
    #[tactic(auto, unfolding(crate::specs::Input::unshaped))]
    pub fn take_shapes(&mut self, alloc: Global) -> ShapeDraft
        ensures shapes { result ≡ self.old.shapes }
        ensures rest { self.new ≡ spec.unshaped self.old }
    {
        mem::replace(&mut self.shapes, ShapeDraft::none(alloc))
    }

    /// Whether this function outside is listed so far.
    pub fn lists_foreign(&self, symbol: SymbolId) -> bool
        ensures { result ≡ list_any (λ t. t == symbol) self.now.foreign }
    {
        self.foreign.contains(symbol)
    }

    /// Lists a function outside.
    #[tactic(auto, unfolding(crate::specs::Input::with_foreign))]
    pub fn put_foreign(&mut self, symbol: SymbolId) -> Result<(), AllocError>
        ensures { OnOk result (self.new ≡ spec.with_foreign symbol self.old) }
    {
        self.foreign.push(symbol)?;
        Ok(())
    }

    /// Takes the functions outside out.
    #[tactic(auto, unfolding(crate::specs::Input::without_foreign))]
    pub fn take_foreign(&mut self, alloc: Global) -> SymbolList
        ensures symbols { result ≡ self.old.foreign }
        ensures rest { self.new ≡ spec.without_foreign self.old }
    {
        mem::replace(&mut self.foreign, SymbolList::new(alloc))
    }

    /// Whether this layout has a number so far.
    pub fn has_numbered(&self, layout: LayoutId) -> bool
        ensures { result ≡ has_layout self.now.numbers layout }
    {
        has_layout(self.numbers.as_slice(), layout)
    }

    /// Whether a layout has this number so far.
    pub fn has_number(&self, number: u64) -> bool
        ensures { result ≡ has_number self.now.numbers number }
    {
        has_number(self.numbers.as_slice(), number)
    }

    /// Lists the number of a layout.
    #[tactic(auto, unfolding(crate::specs::Input::with_number))]
    pub fn put_number(&mut self, layout: LayoutId, number: u64) -> Result<(), AllocError>
        ensures { OnOk result (self.new ≡ spec.with_number (record { layout = layout; number = number }) self.old) }
    {
        self.numbers.push(LayoutNumber { layout, number })?;
        Ok(())
    }

    /// Takes the numbers of layouts out.
    #[tactic(auto, unfolding(crate::specs::Input::without_numbers))]
    pub fn take_numbers(&mut self, alloc: Global) -> Items<LayoutNumber>
        ensures numbers { result ≡ self.old.numbers }
        ensures rest { self.new ≡ spec.without_numbers self.old }
    {
        mem::replace(&mut self.numbers, Items::new(alloc))
    }

    /// Begins the section of a function.
    #[tactic(auto, unfolding(crate::specs::Input::begun))]
    pub fn begin(
        &mut self,
        alloc: Global,
        module: &Module,
        function: &Function,
    ) -> Result<(), AllocError>
        ensures { OnOk result (self.new ≡ spec.begun «module».now function.now self.old) }
    {
        self.draft = SectionDraft::of(alloc, module, function)?;
        Ok(())
    }

    /// Promises this of the parameter at this place; where there is none it is ignored.
    #[tactic(auto, unfolding(crate::specs::Input::with_promise))]
    pub fn promise(&mut self, place: usize, promise: &Promise)
        ensures { self.new ≡ spec.with_promise place promise.now self.old }
    {
        if place < self.draft.parameters.len() {
            self.draft.parameters.set(place, Some(*promise));
        }
    }

    /// A value is named that the block has to list, where this much of the text is left.
    #[tactic(auto, unfolding(crate::specs::Input::wants))]
    pub fn want(&mut self, value: ValueId, left: usize) -> Result<(), AllocError>
        ensures { OnOk result (self.new ≡ spec.wants value left self.old) }
    {
        self.draft.wanted.push(RequiredValue { value, left })?;
        Ok(())
    }

    /// Adds a claim about a value to the claims of the block.
    #[tactic(auto, unfolding(crate::specs::Input::with_claim))]
    pub fn put_value(
        &mut self,
        block: BlockId,
        value: ValueId,
        fact: &Fact,
    ) -> Result<(), AllocError>
        ensures { OnOk result (self.new ≡ spec.with_claim block value (a_line.Value value fact.now) self.old) }
    {
        let fact = *fact;
        self.draft.lines.push(Claim::Value { value, fact })?;
        let at = value.number() as usize;
        if at < self.draft.values.len() {
            self.draft.values.set(at, Some(block));
        }
        Ok(())
    }

    /// Adds a claim about a slot to the claims of the block.
    #[tactic(auto, unfolding(crate::specs::Input::with_slot_claim))]
    pub fn put_slot(
        &mut self,
        block: BlockId,
        slot: ValueId,
        line: &Claim,
    ) -> Result<(), AllocError>
        ensures { OnOk result (self.new ≡ spec.with_slot_claim block slot line.now self.old) }
    {
        match *line {
            Claim::Value { value, fact } => self.draft.lines.push(Claim::Value { value, fact })?,
            Claim::Slot {
                slot,
                nonnull,
                holds,
            } => self.draft.lines.push(Claim::Slot {
                slot,
                nonnull,
                holds,
            })?,
        }
        let at = slot.number() as usize;
        if at < self.draft.slots.len() {
            self.draft.slots.set(at, Some(block));
        }
        Ok(())
    }

    /// Ends the claims of a block.
    #[tactic(auto, unfolding(crate::specs::Input::with_block))]
    pub fn end_block(&mut self, alloc: Global, block: BlockId)
        ensures { self.new ≡ spec.with_block block self.old }
    {
        let lines = mem::replace(&mut self.draft.lines, Items::new(alloc));
        self.draft.wanted.clear();
        let at = block.number() as usize;
        if at < self.draft.blocks.len() {
            self.draft.blocks.set(at, lines);
        }
        if at < self.draft.given.len() {
            self.draft.given.set(at, true);
        }
    }

    /// The first block that has not had its claims.
    fn first_missing(&self) -> Option<usize>
        ensures { result ≡ first_missing self.now.draft }
    {
        self.draft.given.as_slice().iter().position(|given| !*given)
    }

    /// Ends the section of a function.
    #[tactic(auto, unfolding(crate::specs::Input::with_section))]
    pub fn end_section(
        &mut self,
        alloc: Global,
        function: FuncId,
        mark: Mark,
        promise: &Option<Promise>,
    )
        ensures { self.new ≡ spec.with_section function mark promise.now self.old }
    {
        let missing = self.first_missing();
        let draft = mem::replace(&mut self.draft, SectionDraft::none(alloc));
        let at = function.number() as usize;
        if at < self.sections.len() {
            self.sections[at] = Some(Kept {
                section: Section {
                    mark,
                    parameters: draft.parameters,
                    result: *promise,
                    blocks: draft.blocks,
                },
                missing,
            });
        }
    }

    /// Takes the sections out.
    #[tactic(auto, unfolding(crate::specs::Input::emptied))]
    pub fn take_sections(&mut self, alloc: Global) -> Vec<Option<Kept>>
        ensures sections { result.items ≡ self.old.sections }
        ensures rest { self.new ≡ spec.emptied self.old }
    {
        mem::replace(&mut self.sections, Vec::new(alloc))
    }
}
