//! The first refusal of each block of a function, where what is found of the function is found once.
ghost use Rattle.std.specs.Prelude.{◌<◌, ◌+◌, length, IfOk, OnOk};
ghost use Rattle.block_rules.specs.Functions.{blocks_in};
ghost use Rattle.block_check.specs.FunctionUnderCheck.{IsReady};
ghost use Rattle.block_check.specs.RefusedBlocks.{AreOfBlocks};

use crate::check::answer;
use crate::function_tables::FunctionTables;
use crate::rooms::CheckRooms;
use crate::under_check::{FunctionUnderCheck, function_of};
use block_rules::{BlockFault, Refusal, RuleContext};
use certs::Certs;
use ir_ast::{BlockId, FuncId};
use layout::Program;
use std::alloc::{AllocError, Global};

/// The first refusals of those blocks of a function that are not certified, each by the lines of its own block alone, in the order of
/// the blocks. They take the time of a check of the function.
pub fn refused_blocks(
    alloc: Global,
    program: &Program,
    certs: &Certs,
    func: FuncId,
) -> Result<Vec<Refusal>, AllocError>
    requires func { func < length program.now.of_module.functions }
    ensures { IfOk result (λ found. AreOfBlocks program.now certs.now.sections func (blocks_in program.now func) found.items) }
{
    let function = function_of(program.module(), func);
    // No memory holds more blocks than there are numbers for them.
    let Ok(count) = u32::try_from(function.blocks.len()) else {
        return Err(AllocError);
    };
    let tables = FunctionTables::of(alloc, program.module(), function)?;
    let context = RuleContext {
        program,
        certs,
        function,
        slots: &tables.slots,
    };
    let found = refused_of(alloc, &tables.under_check(context, func, &[]), count);
    drop(tables);
    found
}

/// Those of the first `count` blocks.
fn refused_of(
    alloc: Global,
    under_check: &FunctionUnderCheck,
    count: u32,
) -> Result<Vec<Refusal>, AllocError>
    requires { IsReady under_check.now }
    ensures { IfOk result (λ found. AreOfBlocks under_check.now.context.program.now under_check.now.context.certs.now.sections under_check.now.func count found.items) }
{
    let mut rooms = CheckRooms::new(alloc)?;
    let found = refused_with(alloc, under_check, &mut rooms, count);
    drop(rooms);
    found
}

/// The same in a room, which is written anew for each block.
fn refused_with(
    alloc: Global,
    under_check: &FunctionUnderCheck,
    rooms: &mut CheckRooms,
    count: u32,
) -> Result<Vec<Refusal>, AllocError>
    requires { IsReady under_check.now }
    ensures { IfOk result (λ found. AreOfBlocks under_check.now.context.program.now under_check.now.context.certs.now.sections under_check.now.func count found.items) }
{
    let mut found = Vec::new(alloc);
    for number in 0..count {
        add_block(alloc, under_check, rooms, BlockId::new(number), &mut found)?;
    }
    Ok(found)
}

/// The refusals with that of the next block, if it is not certified.
fn add_block(
    alloc: Global,
    under_check: &FunctionUnderCheck,
    rooms: &mut CheckRooms,
    block: BlockId,
    found: &mut Vec<Refusal>,
) -> Result<(), AllocError>
    requires ready { IsReady under_check.now }
    requires before { AreOfBlocks under_check.now.context.program.now under_check.now.context.certs.now.sections under_check.now.func block found.old.items }
    ensures { OnOk result (AreOfBlocks under_check.now.context.program.now under_check.now.context.certs.now.sections under_check.now.func (block + 1) found.new.items) }
{
    match answer(alloc, under_check, rooms, block) {
        Ok(()) => Ok(()),
        Err(BlockFault::Refused(refusal)) => {
            found.push(refusal)?;
            Ok(())
        }
        Err(BlockFault::Memory) => Err(AllocError),
    }
}
