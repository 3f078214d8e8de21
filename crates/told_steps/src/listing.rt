//! The text of a module, line by line, with the lines at which blocks begin.
use ir_ast::{Block, Function, Module};
use ir_print::print;
use items::Items;
use machine::FramePlace;
use messages::{Message, line_at};
use name_text::Blank;
use std::alloc::{AllocError, Global};

/// The text of a module as it is printed: an instruction a line.
#[derive(Drop)]
pub struct Listing {
    text: Vec<u8>,
    /// Where each line begins.
    starts: Items<usize>,
    /// For each function the place of its first block in the list below.
    functions: Items<usize>,
    /// For each block the line of the first instruction of its body, and how many phis come before.
    blocks: Items<BlockLines>,
}

/// Where the text of a block's body begins.
#[derive(Clone, Copy)]
struct BlockLines {
    body: usize,
    phis: usize,
}

/// Where each line of a text begins.
fn line_starts(alloc: Global, text: &[u8]) -> Result<Items<usize>, AllocError> {
    let mut starts = Items::new(alloc);
    starts.push(0)?;
    for (place, byte) in text.iter().enumerate() {
        if *byte == b'\n' {
            starts.push(place.saturating_add(1))?;
        }
    }
    Ok(starts)
}

/// The line after a block whose label is at this line.
fn after_block(block: &Block, line: usize) -> usize {
    let instructions = block.phis.len().saturating_add(block.body.len());
    line.saturating_add(2).saturating_add(instructions)
}

/// Adds the blocks of a function whose head is at this line. Returns the line after the function.
fn add_blocks(
    blocks: &mut Items<BlockLines>,
    function: &Function,
    head: usize,
) -> Result<usize, AllocError> {
    let mut line = head.saturating_add(1);
    for block in function.blocks.as_slice() {
        let phis = block.phis.len();
        blocks.push(BlockLines {
            body: line.saturating_add(1).saturating_add(phis),
            phis,
        })?;
        line = after_block(block, line);
    }
    Ok(line.saturating_add(1))
}

/// The blocks of all functions, and for each function the place of its first one.
fn blocks_of(
    alloc: Global,
    module: &Module,
) -> Result<(Items<usize>, Items<BlockLines>), AllocError> {
    let mut functions = Items::new(alloc);
    let mut blocks = Items::new(alloc);
    let mut line = module
        .structs
        .len()
        .saturating_add(module.globals.len())
        .saturating_add(module.declares.len());
    for function in module.functions.as_slice() {
        functions.push(blocks.len())?;
        line = add_blocks(&mut blocks, function, line)?;
    }
    Ok((functions, blocks))
}

impl Listing {
    pub fn new(alloc: Global, module: &Module) -> Result<Self, AllocError> {
        let (functions, blocks) = blocks_of(alloc, module)?;
        let text = print(alloc, module)?;
        let starts = line_starts(alloc, text.as_slice())?;
        Ok(Listing {
            text,
            starts,
            functions,
            blocks,
        })
    }

    /// How many lines there are.
    pub fn lines(&self) -> usize {
        self.starts.len().saturating_sub(1)
    }

    /// A line, without its end.
    pub fn line(&self, number: usize) -> &[u8] {
        match self.starts.get(number) {
            Some(start) if *start <= self.text.len() => line_at(self.text.as_slice(), *start).bytes,
            _ => &[],
        }
    }

    fn block_at(&self, place: &FramePlace) -> Option<&BlockLines> {
        let first = self.functions.get(place.function.number() as usize)?;
        self.blocks.get(first.saturating_add(place.block))
    }

    /// The line of an instruction, from 0.
    pub fn line_of(&self, place: &FramePlace) -> Option<usize> {
        let block = self.block_at(place)?;
        Some(block.body.saturating_add(place.place))
    }

    /// The place of an instruction: `@swap %again 1`.
    pub fn put_place(&self, out: &mut Message, module: &Module, place: &FramePlace) {
        let Some(function) = module.functions.get(place.function.number() as usize) else {
            return;
        };
        out.put_global(module, function.symbol, Blank::Kept);
        let Some(block) = function.blocks.get(place.block) else {
            return;
        };
        out.put_byte(b' ');
        out.put_local(&function.locals, block.label, Blank::Kept);
        out.put_byte(b' ');
        let number = block.phis.len().saturating_add(place.place);
        out.put_number(number as u64)
    }
}

/// A line without the blanks before it.
pub fn unindented(line: &[u8]) -> &[u8] {
    match line {
        [b' ', b' ', rest @ ..] => rest,
        _ => line,
    }
}
