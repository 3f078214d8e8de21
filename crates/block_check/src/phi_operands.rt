//! The operands that come in to the phis of each block, looked up by their hashes.
ghost use Rattle.std.specs.Prelude.{◌≡◌, ◌==◌, if◌then◌else◌, ◌∷◌, [], Some, None, OnOk, IfOk};
ghost use Rattle.block_rules.specs.Edges.{operand_from};
ghost use Rattle.block_check.specs.PhiOperands.{operand_at, AddsAt, AreOperands, AreOperandTables};

use indexmap::IndexMap;
use ir_ast::{BlockId, Function, Incoming, Operand, Phi};
use std::alloc::{AllocError, Global};
use std::marker::Model;
use types::target_of;

/// For each place of a block and each block that it is entered from, the operand that comes in to the phi there.
#[derive(Drop)]
pub struct PhiOperands {
    each: IndexMap<(usize, u32), Operand>,
}

impl Model for PhiOperands {
    ghost use Rattle.block_check.specs.PhiOperands.{OperandTable};

    ghost Value = { OperandTable };

    ghost view = { λ operands. operands.each.entries };
}

impl PhiOperands {
    /// What comes in to the phis of a block.
    fn of(alloc: Global, function: &Function, phis: &[Phi]) -> Result<PhiOperands, AllocError>
        ensures { IfOk result (AreOperands function.now phis.now) }
    {
        let mut operands = PhiOperands {
            each: IndexMap::new(alloc),
        };
        for (place, phi) in phis.iter().enumerate() {
            operands.record_entries(function, place, phi.incoming.as_slice())?;
        }
        Ok(operands)
    }

    /// The operand that comes in to the phi at a place from a block.
    pub fn operand_from(&self, place: usize, from: BlockId) -> Option<Operand>
        ensures { result ≡ operand_at self.now place from }
    {
        self.each.get(&(place, from.number())).copied()
    }

    fn record_entries(
        &mut self,
        function: &Function,
        place: usize,
        incoming: &[Incoming],
    ) -> Result<(), AllocError>
        ensures { OnOk result (AddsAt self.old self.new place (λ from. operand_from function.now from incoming.now)) }
    {
        for entry in incoming {
            self.record_entry(function, place, *entry)?;
        }
        Ok(())
    }

    fn record_entry(
        &mut self,
        function: &Function,
        place: usize,
        entry: Incoming,
    ) -> Result<(), AllocError>
        ensures { OnOk result (AddsAt self.old self.new place (λ from. operand_from function.now from (entry ∷ []))) }
    {
        match target_of(function, entry.from) {
            Some(from) => self.record_one(place, from, entry.operand),
            None => Ok(()),
        }
    }

    /// Records an operand, unless one is recorded for this place and this block.
    fn record_one(
        &mut self,
        place: usize,
        from: BlockId,
        operand: Operand,
    ) -> Result<(), AllocError>
        ensures { OnOk result (AddsAt self.old self.new place (λ other. if from == other then Some operand else None)) }
    {
        match self.operand_from(place, from) {
            Some(_) => Ok(()),
            None => {
                self.each.insert((place, from.number()), operand)?;
                Ok(())
            }
        }
    }
}

/// What comes in to the phis of each block of a function.
pub fn operands_of(alloc: Global, function: &Function) -> Result<Vec<PhiOperands>, AllocError>
    ensures { IfOk result (λ tables. AreOperandTables function.now function.now.blocks tables.items) }
{
    let mut tables = Vec::new(alloc);
    for block in function.blocks.as_slice() {
        let operands = PhiOperands::of(alloc, function, block.phis.as_slice())?;
        tables.push(operands)?;
    }
    Ok(tables)
}
