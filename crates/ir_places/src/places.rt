//! The body of a function, read by the forms of the reader, with how many tokens are left before each instruction.
ghost use Rattle.std.specs.Prelude.{◌≡◌, ◌<◌, Some, IfOk, IfSome};
ghost use Rattle.ir_forms.specs.Input.{Reads};
ghost use Rattle.ir_forms.specs.Sites.{first_of};
ghost use Rattle.ir_places.specs.Places as form;

use ir_ast::BlockId;
use ir_forms::{
    Fault, Following, Input, Listed, Site, begins_phi, block_end, debug_records, ends_block, many,
    many_with, phi,
};
use ir_text::{block_label, open_body};
use ir_tokens::Kind;
use items::Items;
use std::alloc::Global;

/// A phi. Returns how many tokens are left before it.
#[tactic(auto, unfolding(crate::specs::Places::phi_place))]
fn phi_place(alloc: Global, input: &mut Input<'_>) -> Result<usize, Fault>
    ensures { Reads (form.phi_place.read input.old) result input.new }
{
    let left = input.left();
    let read = phi(alloc, input)?;
    drop(read);
    Ok(left)
}

/// Phis, up to where none begins.
struct PhiPlaces;

impl Listed for PhiPlaces {
    ghost use Rattle.ir_forms.specs.Choices.{at_no_phi};
    ghost use Rattle.ir_places.specs.Places.{phi_place};

    type Item = usize;

    ghost form = { phi_place.read };

    ghost ends = { at_no_phi };

    fn ends(input: &Input<'_>) -> bool {
        !begins_phi(input)
    }

    fn read(alloc: Global, input: &mut Input<'_>) -> Result<usize, Fault> {
        phi_place(alloc, input)
    }
}

/// The instructions of a body so far.
#[derive(Clone, Copy)]
pub struct SoFar {
    pub site: Site,
}

impl SoFar {
    /// Before the first instruction of the body of a block.
    fn first_in(block: BlockId) -> SoFar
        ensures { result ≡ record { site = first_of block } }
    {
        SoFar {
            site: Site::first_of(block),
        }
    }
}

impl Following for SoFar {
    ghost use Rattle.ir_places.specs.Places.{instruction_place, at_end, after_instruction};

    type Item = usize;

    ghost form = { λ so_far. (instruction_place so_far).read };

    ghost ends = { at_end };

    ghost next = { after_instruction };

    fn ends(&self, input: &Input<'_>) -> bool {
        ends_block(input.kind())
    }

    fn read(&mut self, alloc: Global, input: &mut Input<'_>) -> Result<usize, Fault> {
        let left = input.left();
        let read = self.site.read(alloc, input)?;
        drop(read);
        Ok(left)
    }
}

/// How many tokens are left before each instruction of the body of the block with this number.
#[tactic(auto, unfolding(crate::specs::Places::instruction_places))]
fn instruction_places(
    alloc: Global,
    input: &mut Input<'_>,
    number: BlockId,
) -> Result<Items<usize>, Fault>
    ensures { Reads ((form.instruction_places number).read input.old) result input.new }
{
    many_with(alloc, input, SoFar::first_in(number))
}

/// How many tokens are left before each phi of a block, before each instruction of its body, and before its end.
#[derive(Debug, Drop)]
pub struct BlockPlaces {
    pub phis: Items<usize>,
    pub body: Items<usize>,
    pub end: usize,
}

impl BlockPlaces {
    /// How many tokens are left before an instruction: phis are counted first, and the end is the last one.
    pub fn get(&self, place: usize) -> Option<usize>
        ensures { IfSome result (λ left. form.place_in self.now place ≡ Some left) }
    {
        if let Some(left) = self.phis.get(place) {
            return Some(*left);
        }
        let place = place.checked_sub(self.phis.len())?;
        if let Some(left) = self.body.get(place) {
            return Some(*left);
        }
        if place == self.body.len() {
            Some(self.end)
        } else {
            None
        }
    }
}

/// The block with this number.
#[tactic(auto, unfolding(crate::specs::Places::block_places))]
fn block_places(alloc: Global, input: &mut Input<'_>, number: BlockId) -> Result<BlockPlaces, Fault>
    ensures outcome { Reads ((form.block_places number).read input.old) result input.new }
    ensures within { IfOk result (λ _. number < 65535) }
{
    block_label(alloc, input, number)?;
    debug_records(alloc, input)?;
    let phis = many::<PhiPlaces>(alloc, input)?;
    let body = instruction_places(alloc, input, number)?;
    let end = input.left();
    let read = block_end(alloc, input)?;
    drop(read);
    Ok(BlockPlaces { phis, body, end })
}

/// The blocks of a function so far.
#[derive(Clone, Copy)]
pub struct BlocksSoFar {
    pub count: u32,
}

impl Following for BlocksSoFar {
    ghost use Rattle.ir_places.specs.Places.{further, at_close, after_block};

    type Item = BlockPlaces;

    ghost form = { λ so_far. (further so_far).read };

    ghost ends = { at_close };

    ghost next = { after_block };

    fn ends(&self, input: &Input<'_>) -> bool {
        self.count > 0 && input.sees(Kind::CloseBrace)
    }

    fn read(&mut self, alloc: Global, input: &mut Input<'_>) -> Result<BlockPlaces, Fault> {
        let read = block_places(alloc, input, BlockId::new(self.count))?;
        self.count += 1;
        Ok(read)
    }
}

/// The body of a function in its braces.
#[tactic(auto, unfolding(crate::specs::Places::body_places))]
pub fn body_places(alloc: Global, input: &mut Input<'_>) -> Result<Items<BlockPlaces>, Fault>
    ensures { Reads (form.body_places.read input.old) result input.new }
{
    open_body(input)?;
    let blocks = many_with(alloc, input, BlocksSoFar { count: 0 })?;
    input.expect(Kind::CloseBrace)?;
    Ok(blocks)
}
