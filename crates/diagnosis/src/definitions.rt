//! Where a value is defined, and which blocks on the way from there do not list it.
use crate::before::claims_of;
use crate::known::is_of;
use crate::known_claims::claim_of;
use crate::scene::{Scene, Spot, block_at, block_id, instr_in};
use crate::ways::defines;
use certs::Claim;
use ir_ast::{BlockId, Function, Instr, ValueId};
use number_tables::{put, row_or};
use std::alloc::{AllocError, Global};

/// How many blocks are gone over at most.
const FAR: usize = 4096;

/// Where a value comes from.
#[derive(Clone, Copy)]
pub(crate) enum Definition {
    /// A parameter, by its number.
    Parameter(usize),
    /// A phi, or an instruction of a body.
    At(Spot),
    Nowhere,
}

impl Definition {
    /// The block in which the value is there from then on.
    pub(crate) fn block(&self) -> Option<BlockId> {
        match self {
            Definition::Parameter(_) => Some(BlockId::new(0)),
            Definition::At(spot) => Some(spot.block),
            Definition::Nowhere => None,
        }
    }
}

/// Where a block defines a value.
fn place_in(function: &Function, block: BlockId, value: ValueId) -> Option<usize> {
    let block = block_at(function, block)?;
    let phis = block.phis.as_slice();
    if let Some(place) = phis.iter().position(|phi| phi.value == value) {
        return Some(place);
    }
    let place = block
        .body
        .as_slice()
        .iter()
        .position(|instr| defines(instr, value))?;
    Some(phis.len().saturating_add(place))
}

fn parameter_number(function: &Function, value: ValueId) -> Option<usize> {
    function
        .parameters
        .as_slice()
        .iter()
        .position(|parameter| parameter.value == value)
}

/// Where a value of the function is defined.
pub(crate) fn definition_of(function: &Function, value: ValueId) -> Definition {
    if let Some(number) = parameter_number(function, value) {
        return Definition::Parameter(number);
    }
    for number in 0..function.blocks.len() {
        if let Some(block) = block_id(number) {
            if let Some(place) = place_in(function, block, value) {
                return Definition::At(Spot { block, place });
            }
        }
    }
    Definition::Nowhere
}

/// Where a value is defined in the body of a block, or by a phi.
pub(crate) fn spot_of(scene: &Scene, value: ValueId) -> Option<Spot> {
    match definition_of(scene.context.function, value) {
        Definition::At(spot) => Some(spot),
        _ => None,
    }
}

/// The instruction that defines a value.
pub(crate) fn defining(function: &Function, value: ValueId) -> Option<&Instr> {
    match definition_of(function, value) {
        Definition::At(spot) => instr_in(function, &spot),
        _ => None,
    }
}

/// Whether a block lists a value.
fn lists(scene: &Scene, block: BlockId, value: ValueId) -> bool {
    let claims = claims_of(&scene.context, scene.refusal.func, block);
    claims.iter().any(|claim| is_of(claim, value))
}

/// What would be claimed of a value: what is known of it where it is defined. It is not claimed to be fresh.
pub(crate) fn claim_after(
    scene: &Scene,
    definition: &Definition,
    value: ValueId,
) -> Result<Option<Claim>, AllocError> {
    let spot = match definition {
        Definition::Nowhere => return Ok(None),
        Definition::Parameter(_) => Spot {
            block: BlockId::new(0),
            place: 0,
        },
        Definition::At(spot) => Spot {
            block: spot.block,
            place: spot.place.saturating_add(1),
        },
    };
    let facts = scene.facts_at(&spot)?;
    Ok(claim_of(&facts, value))
}

/// Blocks of a function, each once, in the order in which they were found.
#[derive(Drop)]
struct Gathered {
    blocks: Vec<BlockId>,
    /// Whether each block of the function is among them.
    seen: Vec<bool>,
}

impl Gathered {
    fn new(alloc: Global, function: &Function) -> Result<Gathered, AllocError> {
        let seen = vec![in alloc; false; function.blocks.len()]?;
        Ok(Gathered {
            blocks: Vec::new(alloc),
            seen,
        })
    }

    fn add(&mut self, block: BlockId) -> Result<(), AllocError> {
        let at = block.number() as usize;
        if row_or(&self.seen, at, true) {
            return Ok(());
        }
        put(&mut self.seen, at, true);
        self.blocks.push(block)?;
        Ok(())
    }

    fn add_each(&mut self, blocks: &[u32]) -> Result<(), AllocError> {
        for number in blocks {
            self.add(BlockId::new(*number))?;
        }
        Ok(())
    }

    fn into_blocks(self) -> Vec<BlockId> {
        self.blocks
    }
}

/// The blocks on the ways to a block, itself first, back to the one that defines a value, which is left out.
pub(crate) fn blocks_between(
    scene: &Scene,
    from: &Option<BlockId>,
    to: BlockId,
) -> Result<Vec<BlockId>, AllocError> {
    let mut gathered = Gathered::new(scene.alloc, scene.context.function)?;
    gathered.add(to)?;
    for turn in 0..FAR {
        let Some(block) = gathered.blocks.get(turn).copied() else {
            return Ok(gathered.into_blocks());
        };
        if !is_first(from, block) {
            gathered.add_each(scene.entered.group(block.number() as usize))?;
        }
    }
    Ok(gathered.into_blocks())
}

/// Whether a block is the one that defines the value.
fn is_first(from: &Option<BlockId>, block: BlockId) -> bool {
    *from == Some(block)
}

/// Whether a way from the beginning of the function leads to a block past the one that defines a value.
pub(crate) fn is_bypassed(
    scene: &Scene,
    from: &Option<BlockId>,
    to: BlockId,
) -> Result<bool, AllocError> {
    let entry = BlockId::new(0);
    match from {
        Some(from) if from.number() != 0 => {
            let blocks = blocks_between(scene, &Some(*from), to)?;
            Ok(blocks.contains(&entry))
        }
        _ => Ok(false),
    }
}

/// Whether a value has to be listed at a block, and is not.
pub(crate) fn is_missing(
    scene: &Scene,
    from: &Option<BlockId>,
    block: BlockId,
    value: ValueId,
) -> bool {
    !is_first(from, block) && block.number() != 0 && !lists(scene, block, value)
}
