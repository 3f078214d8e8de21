//! The blocks of a function.
ghost use Rattle.std.specs.Prelude.{◌≡◌, ◌<◌, IfOk};
ghost use Rattle.ir_forms.specs.Input.{Reads};
ghost use Rattle.ir_text.specs.Blocks as form;

use ir_ast::{Block, BlockId, ValueId};
use ir_forms::{Fault, Following, Input, block_end, body, debug_records, many_with, phis};
use ir_tokens::Kind;
use items::Items;
use std::alloc::Global;

/// How many blocks a function has at most.
const BLOCK_LIMIT: u32 = 65535;

/// The label of a block, or its number among the names, which may be left out.
#[tactic(auto, unfolding(crate::specs::Blocks::block_label))]
pub fn block_label(alloc: Global, input: &mut Input<'_>, number: BlockId) -> Result<ValueId, Fault>
    ensures outcome { Reads ((form.block_label number).read input.old) result input.new }
    ensures within { IfOk result (λ _. number < 65535) }
{
    if number.number() >= BLOCK_LIMIT {
        return Err(input.limit());
    }
    match input.kind() {
        Kind::LabelName => input.new_label(alloc, number),
        Kind::LabelNumber => input.numbered_label(alloc, number),
        _ => input.unnamed_label(alloc, number),
    }
}

/// A block: its label, its phis, the instructions of its body, and its end.
#[tactic(auto, unfolding(crate::specs::Blocks::block))]
fn block(alloc: Global, input: &mut Input<'_>, number: BlockId) -> Result<Block, Fault>
    ensures outcome { Reads ((form.block number).read input.old) result input.new }
    ensures within { IfOk result (λ _. number < 65535) }
{
    let label = block_label(alloc, input, number)?;
    debug_records(alloc, input)?;
    let phis = phis(alloc, input)?;
    let body = body(alloc, input, number)?;
    let end = block_end(alloc, input)?;
    Ok(Block {
        label,
        phis,
        body,
        end,
    })
}

/// The blocks of a function so far.
#[derive(Clone, Copy)]
pub struct Blocks {
    pub count: u32,
}

impl Following for Blocks {
    ghost use Rattle.ir_text.specs.Blocks.{further, at_close, after_block};

    type Item = Block;

    ghost form = { λ b. (further b).read };

    ghost ends = { at_close };

    ghost next = { after_block };

    fn ends(&self, input: &Input<'_>) -> bool {
        self.count > 0 && input.sees(Kind::CloseBrace)
    }

    fn read(&mut self, alloc: Global, input: &mut Input<'_>) -> Result<Block, Fault> {
        let read = block(alloc, input, BlockId::new(self.count))?;
        self.count += 1;
        Ok(read)
    }
}

/// The blocks of a function, of which there is one at least.
#[tactic(auto, unfolding(crate::specs::Blocks::blocks))]
pub fn all_blocks(alloc: Global, input: &mut Input<'_>) -> Result<Items<Block>, Fault>
    ensures { Reads (form.blocks.read input.old) result input.new }
{
    many_with(alloc, input, Blocks { count: 0 })
}
