ghost use Rattle.std.specs.Prelude.{◌≡◌};
ghost use Rattle.block_rules.specs.declared.block_fault.BlockFault.TheVariants.{Memory};

use crate::rule::Rule;
use ir_ast::{BlockId, FuncId};
use std::alloc::AllocError;
use thiserror::Error;

/// What a refusal says besides its rule: of a claim that an edge does not imply, the target and the claim's place.
#[derive(Clone, Copy, Debug, PartialEq, Eq)]
pub struct Detail {
    pub target: BlockId,
    pub claim: usize,
}

/// What an instruction breaks: a rule, and for a claim that an edge does not imply where that one is.
#[derive(Clone, Copy)]
pub struct Breach {
    pub rule: Rule,
    pub detail: Option<Detail>,
}

/// The first instruction of a block that breaks a rule.
#[derive(Clone, Copy, Debug, PartialEq, Eq)]
pub struct Refusal {
    pub func: FuncId,
    pub block: BlockId,
    /// The place of the instruction in its block, from 0.
    pub instr: usize,
    pub rule: Rule,
    pub detail: Option<Detail>,
}

/// Why a block is not found to be certified.
#[derive(Debug, Drop, Error)]
pub enum BlockFault {
    #[error("a rule is broken")]
    Refused(Refusal),
    #[error("out of memory")]
    Memory,
}

impl From<AllocError> for BlockFault {
    ghost from_gives = { λ _ e. e ≡ Memory };

    fn from(_error: AllocError) -> Self {
        BlockFault::Memory
    }
}
