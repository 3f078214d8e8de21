//! The section that is read.
ghost use Rattle.std.specs.Prelude.{◌≡◌, None, [], map, length, replicate, slice_set, IfOk, true, false};
ghost use Rattle.certificate.specs.Allocas as allocas;
ghost use Rattle.certs.specs.RootNames as root_spec;
ghost use Rattle.certificate.specs.Drafts as spec;
ghost use Rattle.certificate.specs.declared.draft.SectionDraft.{SectionDraft as ADraft};

use certs::{Claim, Promise};
use ir_ast::{Block, BlockId, Function, Instr, MemoryOp, Module, Op, ValueId};
use items::Items;
use shadow_stack::{Slots, slots_of};
use std::alloc::{AllocError, Global};

/// A value that the block has to list.
#[derive(Clone, Copy)]
pub struct RequiredValue {
    pub value: ValueId,
    /// How much of the text is left where it is named.
    pub left: usize,
}

/// What is read so far of the section of a function, and of the block that is read.
#[derive(Drop)]
pub struct SectionDraft {
    /// Whether each local name is that of a root slot.
    pub roots: Items<bool>,
    pub parameters: Items<Option<Promise>>,
    /// Whether each block has had its claims; the entry has none, and no more are to come.
    pub given: Items<bool>,
    pub blocks: Items<Items<Claim>>,
    /// The claims of the block that is read.
    pub lines: Items<Claim>,
    /// The block that lists each value last.
    pub values: Items<Option<BlockId>>,
    /// The block that lists each slot last, by the names of slots.
    pub slots: Items<Option<BlockId>>,
    /// What the block has to list, in the order of the text.
    pub wanted: Items<RequiredValue>,
}

fn is_root(slots: &Slots, value: ValueId) -> bool
    ensures { result ≡ root_spec.is_root slots.now value }
{
    match slots.slot_of(value) {
        Some(slot) => slots.is_root(slot),
        None => false,
    }
}

fn record_root(roots: &mut Items<bool>, slots: &Slots, instr: &Instr)
    ensures { roots.new ≡ root_spec.root_recorded slots.now instr.now.op instr.now.result roots.old }
{
    match (&instr.op, instr.result) {
        (Op::Memory(MemoryOp::Alloca(_)), Some(value)) => {
            let at = value.number() as usize;
            if at < roots.len() {
                roots.set(at, is_root(slots, value));
            }
        }
        _ => {}
    }
}

fn record_roots(roots: &mut Items<bool>, slots: &Slots, body: &[Instr])
    ensures { roots.new ≡ root_spec.roots_recorded slots.now body.now roots.old }
{
    for instr in body {
        record_root(roots, slots, instr);
    }
}

fn record_blocks(roots: &mut Items<bool>, slots: &Slots, blocks: &[Block])
    ensures { roots.new ≡ root_spec.roots_of_blocks slots.now blocks.now roots.old }
{
    for block in blocks {
        record_roots(roots, slots, block.body.as_slice());
    }
}

fn is_alloca(instr: &Instr) -> bool
    ensures { result ≡ allocas.is_alloca instr.now.op }
{
    matches!(&instr.op, Op::Memory(MemoryOp::Alloca(_)))
}

fn has_alloca(body: &[Instr]) -> bool
    ensures { result ≡ allocas.has_alloca body.now }
{
    body.iter().any(|instr| is_alloca(instr))
}

/// Whether a function of these blocks has a slot.
fn makes_slots(blocks: &[Block]) -> bool
    ensures { result ≡ allocas.makes_slots blocks.now }
{
    blocks.iter().any(|block| has_alloca(block.body.as_slice()))
}

/// Whether each local name is that of a root slot: of its alloca.
pub fn root_names(
    alloc: Global,
    module: &Module,
    function: &Function,
) -> Result<Items<bool>, AllocError>
    ensures { IfOk result (λ roots. roots ≡ root_spec.root_names «module».now function.now) }
{
    let none = vec![in alloc; false; function.locals.count()]?;
    let mut roots = Items::from_vec(none);
    if !makes_slots(function.blocks.as_slice()) {
        return Ok(roots);
    }
    let slots = slots_of(alloc, module, function)?;
    record_blocks(&mut roots, &slots, function.blocks.as_slice());
    Ok(roots)
}

/// No block has a claim.
fn no_lines(alloc: Global, function: &Function) -> Result<Items<Items<Claim>>, AllocError>
    ensures { IfOk result (λ blocks. blocks ≡ map (λ _. []) function.now.blocks) }
{
    let mut blocks = Items::new(alloc);
    for _block in function.blocks.as_slice() {
        blocks.push(Items::new(alloc))?;
    }
    Ok(blocks)
}

/// The entry alone has had its claims.
fn entry_given(alloc: Global, function: &Function) -> Result<Items<bool>, AllocError>
    ensures { IfOk result (λ given. given ≡ slice_set (replicate (length function.now.blocks) false) 0 true) }
{
    let none = vec![in alloc; false; function.blocks.len()]?;
    let mut given = Items::from_vec(none);
    if 0 < given.len() {
        given.set(0, true);
    }
    Ok(given)
}

fn unlisted(alloc: Global, function: &Function) -> Result<Items<Option<BlockId>>, AllocError>
    ensures { IfOk result (λ listed. listed ≡ replicate (length function.now.locals) None) }
{
    let none = vec![in alloc; None; function.locals.count()]?;
    Ok(Items::from_vec(none))
}

/// As many parameters with this promise.
fn promised_alike(
    alloc: Global,
    count: usize,
    promise: Option<Promise>,
) -> Result<Items<Option<Promise>>, AllocError>
    ensures { IfOk result (λ promises. promises ≡ replicate count promise) }
{
    let alike = match promise {
        None => None,
        Some(
            Promise {
                layout,
                nonnull,
                below,
                number,
            },
        ) => Some(Promise {
            layout,
            nonnull,
            below,
            number,
        }),
    };
    let promises = vec![in alloc; alike; count]?;
    Ok(Items::from_vec(promises))
}

/// Nothing is promised.
fn no_promise() -> Option<Promise>
    ensures { result ≡ None }
{
    None
}

impl SectionDraft {
    /// No section is read.
    pub fn none(alloc: Global) -> SectionDraft
        ensures { result ≡ spec.no_draft }
    {
        SectionDraft {
            roots: Items::new(alloc),
            parameters: Items::new(alloc),
            given: Items::new(alloc),
            blocks: Items::new(alloc),
            lines: Items::new(alloc),
            values: Items::new(alloc),
            slots: Items::new(alloc),
            wanted: Items::new(alloc),
        }
    }

    /// Nothing is read so far of the section of this function.
    pub fn of(
        alloc: Global,
        module: &Module,
        function: &Function,
    ) -> Result<SectionDraft, AllocError>
        ensures { IfOk result (λ draft. draft ≡ spec.draft_of «module».now function.now) }
    {
        Ok(SectionDraft {
            roots: root_names(alloc, module, function)?,
            parameters: promised_alike(alloc, function.parameters.len(), no_promise())?,
            given: entry_given(alloc, function)?,
            blocks: no_lines(alloc, function)?,
            lines: Items::new(alloc),
            values: unlisted(alloc, function)?,
            slots: unlisted(alloc, function)?,
            wanted: Items::new(alloc),
        })
    }
}
