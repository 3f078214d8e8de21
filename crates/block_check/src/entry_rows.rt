//! What the blocks of a function begin with, found once.
ghost use Rattle.std.specs.Prelude.{◌≡◌, ◌<◌, length, IfOk};
ghost use Rattle.block_rules.specs.Edges.{entry_facts_at};
ghost use Rattle.block_check.specs.Rows.{first_entry_facts, AreRowsOf};
ghost use Rattle.block_check.specs.FunctionUnderCheck.{seen, IsReady};

use crate::entry_facts::{begin_block, blank_facts};
use crate::function_tables::FunctionTables;
use crate::kept_rows::Rows;
use crate::under_check::{FunctionUnderCheck, function_of};
use block_rules::RuleContext;
use certs::Certs;
use facts::{Facts, KeptFacts, SpareRows};
use ir_ast::{BlockId, FuncId};
use layout::Program;
use std::alloc::{AllocError, Global};

/// What each block of a function begins with, for `check_rows`. It is found in time linear in the function.
pub fn rows(
    alloc: Global,
    program: &Program,
    certs: &Certs,
    func: FuncId,
) -> Result<Rows, AllocError>
    requires func { func < length program.now.of_module.functions }
    ensures { IfOk result (λ rows. AreRowsOf program.now certs.now.sections func rows) }
{
    let function = function_of(program.module(), func);
    // No memory holds more blocks than there are numbers for them.
    let Ok(count) = u32::try_from(function.blocks.len()) else {
        return Err(AllocError);
    };
    let tables = FunctionTables::of(alloc, program.module(), function)?;
    let context = RuleContext {
        program,
        certs,
        function,
        slots: &tables.slots,
    };
    let blocks = first_entry_facts(alloc, &tables.under_check(context, func, &[]), count);
    drop(tables);
    Ok(Rows { blocks: blocks? })
}

/// What the first `count` blocks begin with.
fn first_entry_facts(
    alloc: Global,
    under_check: &FunctionUnderCheck,
    count: u32,
) -> Result<Vec<KeptFacts>, AllocError>
    requires { IsReady under_check.now }
    ensures { IfOk result (λ blocks. blocks.items ≡ first_entry_facts (seen under_check.now) count) }
{
    let mut facts = blank_facts(alloc, under_check)?;
    let mut spare = SpareRows::none();
    let mut blocks = Vec::new(alloc);
    for number in 0..count {
        let block = BlockId::new(number);
        let kept = keep_entry_facts(alloc, under_check, &mut facts, &mut spare, block)?;
        blocks.push(kept)?;
    }
    Ok(blocks)
}

/// What a block begins with is kept.
fn keep_entry_facts(
    alloc: Global,
    under_check: &FunctionUnderCheck,
    facts: &mut Facts,
    spare: &mut SpareRows,
    block: BlockId,
) -> Result<KeptFacts, AllocError>
    requires { IsReady under_check.now }
    ensures { IfOk result (λ kept. kept ≡ entry_facts_at (seen under_check.now) block) }
{
    begin_block(alloc, under_check, facts, spare, block)?;
    facts.keep(alloc)
}
