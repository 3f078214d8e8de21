ghost use Rattle.std.specs.Prelude.{◌≡◌, ◌<◌, length, slice_get, Some};
ghost use Rattle.std.specs.Option.{option_copied};
ghost use Rattle.block_rules.specs.InstrContext.{phis_of, body_of, end_of};
ghost use Rattle.block_rules.specs.Promises.{promises_in, promised_in, own_mark};
ghost use Rattle.block_rules.specs.Edges.{claims_in};
ghost use Rattle.block_check.specs.Entries.{recorded_from};

use crate::phi_operands::PhiOperands;
use crate::predecessors::Predecessors;
use block_rules::RuleContext;
use certs::{Claim, Mark, Promise};
use facts::KeptFacts;
use ir_ast::{BlockId, End, FuncId, Function, Instr, Module, Operand, Phi};

/// The function that is checked, with what is found of it once.
#[derive(Clone, Copy)]
pub struct FunctionUnderCheck<'a> {
    pub func: FuncId,
    pub context: RuleContext<'a>,
    pub predecessors: &'a Predecessors,
    /// What comes in to the phis of each block.
    pub operands: &'a [PhiOperands],
    /// What the first blocks begin with, as far as it was found before.
    pub rows: &'a [KeptFacts],
}

impl<'a> FunctionUnderCheck<'a> {
    /// The claims of a block in the certificate.
    pub fn claims(&self, block: BlockId) -> &'a [Claim]
        ensures { result.now ≡ claims_in (slice_get self.now.context.certs.now.sections self.now.func) block }
    {
        match self.context.certs.section(self.func) {
            Some(section) => match section.blocks.get(block.number() as usize) {
                Some(claims) => claims.as_slice(),
                None => &[],
            },
            None => &[],
        }
    }

    /// The operand that is recorded for a block, at a place of another.
    pub fn recorded_from(&self, to: BlockId, place: usize, from: BlockId) -> Option<Operand>
        ensures { result ≡ recorded_from self.now to place from }
    {
        match self.operands.get(to.number() as usize) {
            Some(operands) => operands.operand_from(place, from),
            None => None,
        }
    }

    /// What a block begins with, if it was found before.
    pub fn kept(&self, block: BlockId) -> Option<&'a KeptFacts>
        ensures { option_copied result ≡ slice_get self.now.rows.now block }
    {
        self.rows.get(block.number() as usize)
    }

    /// What is promised of each parameter.
    pub fn promises(&self) -> &'a [Option<Promise>]
        ensures { result.now ≡ promises_in (slice_get self.now.context.certs.now.sections self.now.func) }
    {
        match self.context.certs.section(self.func) {
            Some(section) => section.parameters.as_slice(),
            None => &[],
        }
    }

    /// What is promised of the result.
    pub fn promised(&self) -> Option<Promise>
        ensures { result ≡ promised_in (slice_get self.now.context.certs.now.sections self.now.func) }
    {
        match self.context.certs.section(self.func) {
            Some(section) => section.result,
            None => None,
        }
    }

    /// How it is marked.
    pub fn mark(&self) -> Mark
        ensures { result ≡ own_mark (slice_get self.now.context.certs.now.sections self.now.func) }
    {
        match self.context.certs.section(self.func) {
            Some(section) => section.mark,
            None => Mark::None,
        }
    }
}

/// A function of a module.
pub fn function_of(module: &Module, func: FuncId) -> &Function
    requires { func < length «module».now.functions }
    ensures { slice_get «module».now.functions func ≡ Some result.now }
{
    &module.functions.as_slice()[func.number() as usize]
}

/// The phis of a block; a block that does not exist has none.
pub fn phis_of(function: &Function, block: BlockId) -> &[Phi]
    ensures { result.now ≡ phis_of function.now block }
{
    match function.blocks.get(block.number() as usize) {
        Some(block) => block.phis.as_slice(),
        None => &[],
    }
}

/// The instructions of its body.
pub fn body_of(function: &Function, block: BlockId) -> &[Instr]
    ensures { result.now ≡ body_of function.now block }
{
    match function.blocks.get(block.number() as usize) {
        Some(block) => block.body.as_slice(),
        None => &[],
    }
}

/// How it ends.
pub fn end_of(function: &Function, block: BlockId) -> Option<&End>
    ensures { option_copied result ≡ end_of function.now block }
{
    match function.blocks.get(block.number() as usize) {
        Some(block) => Some(&block.end),
        None => None,
    }
}
