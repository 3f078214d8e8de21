//! The blocks from which each block is entered.
ghost use Rattle.std.specs.Prelude.{◌≡◌, [], Some, map, length, slice_index_or, OnOk, IfOk};
ghost use Rattle.std.specs.List.{list_any};
ghost use Rattle.types.specs.ValueTypes.{target_of};
ghost use Rattle.block_rules.specs.Edges.{is_number, open_edge, end_leads, is_predecessor};
ghost use Rattle.block_check.specs.Predecessors.{is_listed, Adds, ArePredecessors};

use crate::block_set::BlockSet;
use crate::under_check::end_of;
use ir_ast::{Block, BlockId, Case, End, Function};
use std::alloc::{AllocError, Global};
use std::marker::Model;
use types::target_of;

/// For each block, the blocks from which it is entered.
#[derive(Drop)]
pub struct Predecessors {
    lists: Vec<BlockSet>,
}

impl Model for Predecessors {
    ghost use Rattle.std.specs.Prelude.{List, ℕ};

    ghost Value = { List (List ℕ) };

    ghost view = { λ predecessors. predecessors.lists.items };
}

impl Predecessors {
    /// The predecessors of each block of a function.
    pub fn of(alloc: Global, function: &Function) -> Result<Predecessors, AllocError>
        ensures { IfOk result (λ lists. ArePredecessors function.now lists) }
    {
        // No memory holds more blocks than there are numbers for them.
        let Ok(count) = u32::try_from(function.blocks.len()) else {
            return Err(AllocError);
        };
        let mut lists = no_blocks(alloc, function.blocks.as_slice())?;
        record_blocks(&mut lists, function, count)?;
        Ok(Predecessors { lists })
    }

    /// The numbers of a block's predecessors.
    pub fn list(&self, to: BlockId) -> &[u32]
        ensures { result.now ≡ slice_index_or self.now to [] }
    {
        match self.lists.get(to.number() as usize) {
            Some(list) => list.numbers(),
            None => &[],
        }
    }

    /// Whether a block is a predecessor of another.
    pub fn has(&self, to: BlockId, from: BlockId) -> bool
        ensures { result ≡ is_listed self.now to from }
    {
        match self.lists.get(to.number() as usize) {
            Some(list) => list.has(from),
            None => false,
        }
    }
}

/// No block is recorded.
fn no_blocks(alloc: Global, blocks: &[Block]) -> Result<Vec<BlockSet>, AllocError>
    ensures { IfOk result (λ lists. lists.items ≡ map (λ _. []) blocks.now) }
{
    let mut lists = Vec::new(alloc);
    for _block in blocks {
        lists.push(BlockSet::new(alloc))?;
    }
    Ok(lists)
}

fn record_blocks(lists: &mut [BlockSet], function: &Function, count: u32) -> Result<(), AllocError>
    requires blocks { length function.now.blocks ≡ count }
    requires none { lists.old ≡ map (λ _. []) function.now.blocks }
    ensures { OnOk result (ArePredecessors function.now lists.new) }
{
    for number in 0..count {
        record_block(lists, function, BlockId::new(number))?;
    }
    Ok(())
}

fn record_block(
    lists: &mut [BlockSet],
    function: &Function,
    from: BlockId,
) -> Result<(), AllocError>
    ensures { OnOk result (Adds lists.old lists.new from (λ to. is_predecessor function.now to from)) }
{
    match end_of(function, from) {
        Some(end) => record_end(lists, function, from, end),
        None => Ok(()),
    }
}

fn record_end(
    lists: &mut [BlockSet],
    function: &Function,
    from: BlockId,
    end: &End,
) -> Result<(), AllocError>
    ensures { OnOk result (Adds lists.old lists.new from (λ to. end_leads function.now to end.now)) }
{
    match end {
        End::Jump(target) => record_one(lists, from, target_of(function, *target)),
        End::Branch { taken, other, .. } => {
            record_one(lists, from, target_of(function, *taken))?;
            record_one(lists, from, target_of(function, *other))
        }
        End::Switch {
            otherwise,
            cases,
            ..
        } => {
            record_one(lists, from, target_of(function, *otherwise))?;
            record_cases(lists, function, from, cases.as_slice())
        }
        End::Unreachable | End::ReturnVoid | End::Return(_) => Ok(()),
    }
}

fn record_cases(
    lists: &mut [BlockSet],
    function: &Function,
    from: BlockId,
    cases: &[Case],
) -> Result<(), AllocError>
    ensures { OnOk result (Adds lists.old lists.new from (λ to. list_any (λ edge. is_number to (target_of function.now edge.target)) (map (λ case. open_edge case.target) cases.now))) }
{
    for case in cases {
        record_one(lists, from, target_of(function, case.target))?;
    }
    Ok(())
}

/// Records a block as a predecessor of another, if there is one.
fn record_one(lists: &mut [BlockSet], from: BlockId, to: Option<BlockId>) -> Result<(), AllocError>
    ensures { OnOk result (Adds lists.old lists.new from (λ other. is_number other to)) }
{
    match to {
        Some(to) => record_at(lists, from, to),
        None => Ok(()),
    }
}

fn record_at(lists: &mut [BlockSet], from: BlockId, to: BlockId) -> Result<(), AllocError>
    ensures { OnOk result (Adds lists.old lists.new from (λ other. is_number other (Some to))) }
{
    let at = to.number() as usize;
    if at >= lists.len() {
        return Ok(());
    }
    lists[at].add(from)
}
