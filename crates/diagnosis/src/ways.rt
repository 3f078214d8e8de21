//! The ways through a function that lead to an instruction, gone back over block by block.
use crate::changes::{Change, CodeAt, last_change};
use crate::operands::reference_of;
use crate::scene::{Scene, Spot, block_at, defined_as};
use crate::told::local;
use certs::Mark;
use ir_ast::{Block, BlockId, Function, Incoming, Instr, Op, Phi, Runtime, ValueId};
use number_tables::{put, row_or};
use std::alloc::{AllocError, Global};
use types::{runtime_called, target_of};

/// How many blocks are gone over at most.
const FAR: usize = 4096;

/// A place up to which the ways lead, and the value that is followed there.
#[derive(Clone, Copy, PartialEq, Eq)]
struct Way {
    block: BlockId,
    value: ValueId,
    /// How many instructions of the block's body come before it.
    upto: usize,
}

/// A call that may reach a safepoint, and the value that is stale after it.
#[derive(Clone, Copy)]
pub(crate) struct Lost {
    pub(crate) spot: Spot,
    pub(crate) value: ValueId,
}

/// What is met first from there back.
#[derive(Clone, Copy)]
enum Met {
    /// A call that may reach a safepoint, and the value over it.
    Safepoint(usize, ValueId),
    Definition,
    Beginning,
}

/// Whether a label is that of a block.
pub(crate) fn is_block(function: &Function, label: ValueId, block: BlockId) -> bool {
    target_of(function, label) == Some(block)
}

/// Whether an instruction is a call that may reach a safepoint.
fn may_reach_safepoint(scene: &Scene, instr: &Instr) -> bool {
    let module = scene.context.module();
    match &instr.op {
        Op::Call(call) => match runtime_called(module, call.callee) {
            Some(runtime) => matches!(runtime, Runtime::Safepoint),
            None => match defined_as(module, call.callee) {
                Some(func) => matches!(scene.context.certs.mark(func), Some(Mark::May)),
                None => false,
            },
        },
        _ => false,
    }
}

/// The other value of which an instruction gives the same reference, or a place in its cell.
pub(crate) fn same_under_other_name(instr: &Instr) -> Option<ValueId> {
    match &instr.op {
        Op::Cast(cast) => local(cast.operand),
        Op::Element(element) => local(element.base),
        _ => None,
    }
}

/// Whether an instruction gives a value its name.
pub(crate) fn defines(instr: &Instr, value: ValueId) -> bool {
    instr.result == Some(value)
}

/// The first instructions, as many as there are up to this number.
fn before(body: &[Instr], count: usize) -> &[Instr] {
    body.get(..count).unwrap_or(body)
}

/// What is met in a block from an instruction of its body back.
fn met_in(scene: &Scene, body: &[Instr], way: &Way) -> Met {
    let mut value = way.value;
    for (index, instr) in before(body, way.upto).iter().enumerate().rev() {
        if defines(instr, value) {
            match same_under_other_name(instr) {
                Some(other) => value = other,
                None => return Met::Definition,
            }
        } else if may_reach_safepoint(scene, instr) {
            return Met::Safepoint(index, value);
        }
    }
    Met::Beginning
}

fn phi_of(phis: &[Phi], value: ValueId) -> Option<&Phi> {
    phis.iter().find(|phi| phi.value == value)
}

/// Places up to which ways lead, each once, in the order in which they were found.
#[derive(Drop)]
struct Ways {
    ways: Vec<Way>,
    /// For each block one more than the number of the last of its ways, or 0.
    last: Vec<usize>,
    /// For each way one more than the number of the one of its block before it, or 0.
    earlier: Vec<usize>,
}

impl Ways {
    fn new(alloc: Global, function: &Function) -> Result<Ways, AllocError> {
        Ok(Ways {
            ways: Vec::new(alloc),
            last: vec![in alloc; 0usize; function.blocks.len()]?,
            earlier: Vec::new(alloc),
        })
    }

    fn has(&self, way: &Way) -> bool {
        let mut next = row_or(&self.last, way.block.number() as usize, 0);
        for _step in 0..self.ways.len() {
            let Some(number) = next.checked_sub(1) else {
                return false;
            };
            if self.ways.get(number) == Some(way) {
                return true;
            }
            next = row_or(&self.earlier, number, 0);
        }
        false
    }

    fn push(&mut self, way: Way) -> Result<(), AllocError> {
        let block = way.block.number() as usize;
        self.earlier.push(row_or(&self.last, block, 0))?;
        self.ways.push(way)?;
        put(&mut self.last, block, self.ways.len());
        Ok(())
    }

    /// A block before which the value is followed, if it was not found before.
    fn add(&mut self, block: BlockId, value: ValueId) -> Result<(), AllocError> {
        let way = Way {
            block,
            value,
            upto: usize::MAX,
        };
        // No way beyond these is gone over.
        if self.ways.len() >= FAR || self.has(&way) {
            return Ok(());
        }
        self.push(way)
    }
}

/// The ways over which the entries of a phi come in.
fn add_entries(
    function: &Function,
    ways: &mut Ways,
    incoming: &[Incoming],
) -> Result<(), AllocError> {
    for entry in incoming {
        if let (Some(value), Some(block)) = (
            local(entry.operand),
            target_of(function, entry.from),
        ) {
            ways.add(block, value)?;
        }
    }
    Ok(())
}

/// The ways over which a block is entered from these blocks.
fn add_predecessors(ways: &mut Ways, blocks: &[u32], value: ValueId) -> Result<(), AllocError> {
    for number in blocks {
        ways.add(BlockId::new(*number), value)?;
    }
    Ok(())
}

fn add_ways(
    scene: &Scene,
    ways: &mut Ways,
    block: BlockId,
    phis: &[Phi],
    value: ValueId,
) -> Result<(), AllocError> {
    match phi_of(phis, value) {
        Some(phi) => add_entries(scene.context.function, ways, phi.incoming.as_slice()),
        None => add_predecessors(ways, scene.entered.group(block.number() as usize), value),
    }
}

/// The name of a value at the beginning of a block, if it is defined before.
fn name_before(body: &[Instr], way: &Way) -> Option<ValueId> {
    let mut value = way.value;
    for instr in before(body, way.upto).iter().rev() {
        if defines(instr, value) {
            value = same_under_other_name(instr)?;
        }
    }
    Some(value)
}

/// The reference that a value is before an instruction, or that leads to its cell.
fn reference_at(scene: &Scene, spot: &Spot, value: ValueId) -> Result<ValueId, AllocError> {
    let facts = scene.facts_at(spot)?;
    Ok(reference_of(&facts, value))
}

/// The instruction at which a reference becomes stale, up to this one of its block.
fn last_stale(scene: &Scene, spot: &Spot, reference: ValueId) -> Result<Option<usize>, AllocError> {
    let at = CodeAt {
        func: scene.refusal.func,
        block: spot.block,
        place: spot.place.saturating_add(1),
    };
    last_change(scene.alloc, &scene.context, at, reference, Change::Stale)
}

/// What is found of a value in a block.
#[derive(Clone, Copy)]
enum Found {
    /// A call at which it becomes stale.
    Since(Lost),
    /// A call before which it is not known, or stale already.
    Over(Lost),
    Nothing,
}

/// What is found of a value in a block up to a call that may reach a safepoint.
fn found_at(scene: &Scene, spot: &Spot, value: ValueId) -> Result<Found, AllocError> {
    let reference = reference_at(scene, spot, value)?;
    match last_stale(scene, spot, reference)? {
        Some(index) => Ok(Found::Since(Lost {
            spot: scene.spot_in(spot.block, index),
            value: reference,
        })),
        None => Ok(Found::Over(Lost { spot: *spot, value })),
    }
}

/// Goes on from one place back to the blocks before.
fn go_on(scene: &Scene, ways: &mut Ways, way: &Way, block: &Block) -> Result<(), AllocError> {
    match name_before(block.body.as_slice(), way) {
        Some(value) => add_ways(scene, ways, way.block, block.phis.as_slice(), value),
        None => Ok(()),
    }
}

/// What is found in a block from one place of it back.
fn found_in(scene: &Scene, way: &Way, block: &Block) -> Result<Found, AllocError> {
    match met_in(scene, block.body.as_slice(), way) {
        Met::Safepoint(index, value) => {
            let spot = scene.spot_in(way.block, index);
            found_at(scene, &spot, value)
        }
        Met::Definition | Met::Beginning => Ok(Found::Nothing),
    }
}

/// Goes on from one place back, if the value does not become stale in its block.
fn go_back(scene: &Scene, ways: &mut Ways, way: &Way) -> Result<Found, AllocError> {
    let Some(block) = block_at(scene.context.function, way.block) else {
        return Ok(Found::Nothing);
    };
    let found = found_in(scene, way, block)?;
    if !matches!(found, Found::Since(_)) {
        go_on(scene, ways, way, block)?;
    }
    Ok(found)
}

/// The call on a way from the definition of a value to an instruction at which the value becomes stale. Where none is found, the nearest
/// call that may reach a safepoint.
pub(crate) fn safepoint_before(
    scene: &Scene,
    spot: &Spot,
    value: ValueId,
) -> Result<Option<Lost>, AllocError> {
    let mut ways = Ways::new(scene.alloc, scene.context.function)?;
    ways.push(Way {
        block: spot.block,
        value,
        upto: spot.place.saturating_sub(scene.phis_of(spot.block)),
    })?;
    let mut nearest = None;
    for turn in 0..FAR {
        let Some(way) = ways.ways.get(turn).copied() else {
            return Ok(nearest);
        };
        match go_back(scene, &mut ways, &way)? {
            Found::Since(lost) => return Ok(Some(lost)),
            Found::Over(lost) => nearest = nearest.or(Some(lost)),
            Found::Nothing => {}
        }
    }
    Ok(nearest)
}
