ghost use Rattle.std.specs.Prelude.{◌≡◌, ◌<◌, ◌⊎◌, length, Err, IsOkUnless, MatchOption, MatchResult};
ghost use Rattle.block_rules.specs.Certified.{BlockCertified, FirstRefusal, IfRefused};
ghost use Rattle.block_rules.specs.declared.block_fault.BlockFault.TheVariants.{Refused, Memory};
ghost use Rattle.block_check.specs.Rows.{AreRowsOf, AreEntryFactsOf};
ghost use Rattle.block_check.specs.FunctionUnderCheck.{IsReady};
ghost use Rattle.block_rules.specs.Functions.{blocks_in, AreBlocksCertified, IsFunctionCertified, IsFirstInFunction, IsFunctionFault};

use crate::block_walk::BlockWalk;
use crate::function_tables::FunctionTables;
use crate::kept_rows::Rows;
use crate::rooms::CheckRooms;
use crate::under_check::{FunctionUnderCheck, function_of};
use block_rules::{BlockFault, Refusal, RuleContext};
use certs::Certs;
use facts::KeptFacts;
use ir_ast::{BlockId, FuncId};
use layout::Program;
use std::alloc::Global;

/// Whether a block obeys the rules. What is found of its function is found anew, in time linear in the function.
pub fn check_block(
    alloc: Global,
    program: &Program,
    certs: &Certs,
    func: FuncId,
    block: BlockId,
) -> Result<(), BlockFault>
    requires func { func < length program.now.of_module.functions }
    ensures answer { MatchResult result (λ _. BlockCertified program.now certs.now.sections func block) (λ fault. IfRefused fault (FirstRefusal program.now certs.now.sections func block)) }
    ensures certified { BlockCertified program.now certs.now.sections func block → IsOkUnless result Memory }
    ensures refused { (refusal : Refusal) → FirstRefusal program.now certs.now.sections func block refusal → (result ≡ Err (Refused refusal)) ⊎ (result ≡ Err Memory) }
{
    answer_block(alloc, program, certs, &[], func, block)
}

/// The same, where it was found before what the blocks of the function begin with.
pub fn check_rows(
    alloc: Global,
    program: &Program,
    certs: &Certs,
    rows: &Rows,
    func: FuncId,
    block: BlockId,
) -> Result<(), BlockFault>
    requires func { func < length program.now.of_module.functions }
    requires rows { AreRowsOf program.now certs.now.sections func rows.now }
    ensures answer { MatchResult result (λ _. BlockCertified program.now certs.now.sections func block) (λ fault. IfRefused fault (FirstRefusal program.now certs.now.sections func block)) }
    ensures certified { BlockCertified program.now certs.now.sections func block → IsOkUnless result Memory }
    ensures refused { (refusal : Refusal) → FirstRefusal program.now certs.now.sections func block refusal → (result ≡ Err (Refused refusal)) ⊎ (result ≡ Err Memory) }
{
    answer_block(alloc, program, certs, rows.blocks(), func, block)
}

/// Whether each block of a function obeys the rules; the first instruction in text order that breaks one is refused.
pub fn check_function(
    alloc: Global,
    program: &Program,
    certs: &Certs,
    func: FuncId,
) -> Result<(), BlockFault>
    requires func { func < length program.now.of_module.functions }
    ensures answer { MatchResult result (λ _. IsFunctionCertified program.now certs.now.sections func) (IsFunctionFault program.now certs.now.sections func (blocks_in program.now func)) }
    ensures certified { IsFunctionCertified program.now certs.now.sections func → IsOkUnless result Memory }
    ensures refused { (refusal : Refusal) → IsFirstInFunction program.now certs.now.sections func (blocks_in program.now func) refusal → (result ≡ Err (Refused refusal)) ⊎ (result ≡ Err Memory) }
{
    let mut rooms = CheckRooms::new(alloc)?;
    let answer = answer_function(alloc, &mut rooms, program, certs, &[], func);
    drop(rooms);
    answer
}

/// The same in a room that was made before.
pub fn check_function_in(
    alloc: Global,
    rooms: &mut CheckRooms,
    program: &Program,
    certs: &Certs,
    func: FuncId,
) -> Result<(), BlockFault>
    requires func { func < length program.now.of_module.functions }
    ensures answer { MatchResult result (λ _. IsFunctionCertified program.now certs.now.sections func) (IsFunctionFault program.now certs.now.sections func (blocks_in program.now func)) }
    ensures certified { IsFunctionCertified program.now certs.now.sections func → IsOkUnless result Memory }
    ensures refused { (refusal : Refusal) → IsFirstInFunction program.now certs.now.sections func (blocks_in program.now func) refusal → (result ≡ Err (Refused refusal)) ⊎ (result ≡ Err Memory) }
{
    answer_function(alloc, rooms, program, certs, &[], func)
}

/// The same, where it was found before what the blocks of the function begin with.
pub fn check_function_rows(
    alloc: Global,
    program: &Program,
    certs: &Certs,
    rows: &Rows,
    func: FuncId,
) -> Result<(), BlockFault>
    requires func { func < length program.now.of_module.functions }
    requires rows { AreRowsOf program.now certs.now.sections func rows.now }
    ensures answer { MatchResult result (λ _. IsFunctionCertified program.now certs.now.sections func) (IsFunctionFault program.now certs.now.sections func (blocks_in program.now func)) }
    ensures certified { IsFunctionCertified program.now certs.now.sections func → IsOkUnless result Memory }
    ensures refused { (refusal : Refusal) → IsFirstInFunction program.now certs.now.sections func (blocks_in program.now func) refusal → (result ≡ Err (Refused refusal)) ⊎ (result ≡ Err Memory) }
{
    let mut rooms = CheckRooms::new(alloc)?;
    let answer = answer_function(alloc, &mut rooms, program, certs, rows.blocks(), func);
    drop(rooms);
    answer
}

fn answer_block(
    alloc: Global,
    program: &Program,
    certs: &Certs,
    rows: &[KeptFacts],
    func: FuncId,
    block: BlockId,
) -> Result<(), BlockFault>
    requires func { func < length program.now.of_module.functions }
    requires rows { AreEntryFactsOf program.now certs.now.sections func rows.now }
    ensures { MatchResult result (λ _. BlockCertified program.now certs.now.sections func block) (λ fault. IfRefused fault (FirstRefusal program.now certs.now.sections func block)) }
{
    let function = function_of(program.module(), func);
    let tables = FunctionTables::of(alloc, program.module(), function)?;
    let context = RuleContext {
        program,
        certs,
        function,
        slots: &tables.slots,
    };
    let answer = answer_alone(alloc, &tables.under_check(context, func, rows), block);
    drop(tables);
    answer
}

fn answer_alone(
    alloc: Global,
    under_check: &FunctionUnderCheck,
    block: BlockId,
) -> Result<(), BlockFault>
    requires { IsReady under_check.now }
    ensures { MatchResult result (λ _. BlockCertified under_check.now.context.program.now under_check.now.context.certs.now.sections under_check.now.func block) (λ fault. IfRefused fault (FirstRefusal under_check.now.context.program.now under_check.now.context.certs.now.sections under_check.now.func block)) }
{
    let mut rooms = CheckRooms::new(alloc)?;
    let answer = answer(alloc, under_check, &mut rooms, block);
    drop(rooms);
    answer
}

fn answer_function(
    alloc: Global,
    rooms: &mut CheckRooms,
    program: &Program,
    certs: &Certs,
    rows: &[KeptFacts],
    func: FuncId,
) -> Result<(), BlockFault>
    requires func { func < length program.now.of_module.functions }
    requires rows { AreEntryFactsOf program.now certs.now.sections func rows.now }
    ensures { MatchResult result (λ _. IsFunctionCertified program.now certs.now.sections func) (IsFunctionFault program.now certs.now.sections func (blocks_in program.now func)) }
{
    let function = function_of(program.module(), func);
    // No memory holds more blocks than there are numbers for them.
    let Ok(count) = u32::try_from(function.blocks.len()) else {
        return Err(BlockFault::Memory);
    };
    let tables = FunctionTables::of(alloc, program.module(), function)?;
    let context = RuleContext {
        program,
        certs,
        function,
        slots: &tables.slots,
    };
    let answer = answer_blocks(
        alloc,
        rooms,
        &tables.under_check(context, func, rows),
        count,
    );
    drop(tables);
    answer
}

fn answer_blocks(
    alloc: Global,
    rooms: &mut CheckRooms,
    under_check: &FunctionUnderCheck,
    count: u32,
) -> Result<(), BlockFault>
    requires { IsReady under_check.now }
    ensures { MatchResult result (λ _. AreBlocksCertified under_check.now.context.program.now under_check.now.context.certs.now.sections under_check.now.func count) (IsFunctionFault under_check.now.context.program.now under_check.now.context.certs.now.sections under_check.now.func count) }
{
    rooms.scratch.make_room(alloc, under_check)?;
    match first_fault(alloc, rooms, under_check, count) {
        Some(fault) => Err(fault),
        None => Ok(()),
    }
}

/// The first fault in the first `count` blocks, in text order.
fn first_fault(
    alloc: Global,
    rooms: &mut CheckRooms,
    under_check: &FunctionUnderCheck,
    count: u32,
) -> Option<BlockFault>
    requires { IsReady under_check.now }
    ensures { MatchOption result (AreBlocksCertified under_check.now.context.program.now under_check.now.context.certs.now.sections under_check.now.func count) (IsFunctionFault under_check.now.context.program.now under_check.now.context.certs.now.sections under_check.now.func count) }
{
    for number in 0..count {
        if let Err(fault) = answer(alloc, under_check, rooms, BlockId::new(number)) {
            return Some(fault);
        }
    }
    None
}

/// Whether a block of the function obeys the rules. What is in the room is written anew.
pub(crate) fn answer(
    alloc: Global,
    under_check: &FunctionUnderCheck,
    rooms: &mut CheckRooms,
    block: BlockId,
) -> Result<(), BlockFault>
    requires { IsReady under_check.now }
    ensures { MatchResult result (λ _. BlockCertified under_check.now.context.program.now under_check.now.context.certs.now.sections under_check.now.func block) (λ fault. IfRefused fault (FirstRefusal under_check.now.context.program.now under_check.now.context.certs.now.sections under_check.now.func block)) }
{
    let walk = BlockWalk::over(under_check, block);
    match walk.first_breach(alloc, &mut rooms.facts, &mut rooms.scratch)? {
        None => Ok(()),
        Some((instr, broken)) => Err(BlockFault::Refused(Refusal {
            func: under_check.func,
            block,
            instr,
            rule: broken.rule,
            detail: broken.detail,
        })),
    }
}
