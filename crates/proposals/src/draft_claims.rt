use certs::Claim;
use ir_ast::BlockId;
use items::Items;
use number_tables::{put, row_or};
use std::alloc::{AllocError, Global};

/// The claims of a block, and how often the bound of each has grown.
#[derive(Drop)]
pub struct BlockClaims {
    pub claims: Items<Claim>,
    pub grown: Vec<u8>,
}

/// The claims of a function's blocks, as far as they were found.
#[derive(Drop)]
pub struct DraftClaims {
    /// None where no edge to the block was walked.
    blocks: Vec<Option<BlockClaims>>,
    /// The blocks that are to be walked over, in this order; those from the front were.
    queue: Vec<u32>,
    waiting: Vec<bool>,
}

impl BlockClaims {
    pub fn new(alloc: Global) -> BlockClaims {
        BlockClaims {
            claims: Items::new(alloc),
            grown: Vec::new(alloc),
        }
    }

    /// A claim more, whose bound has grown so often.
    pub fn add(&mut self, claim: Claim, grown: u8) -> Result<(), AllocError> {
        self.grown.push(grown)?;
        match claim {
            Claim::Value { value, fact } => self.claims.push(Claim::Value { value, fact }),
            Claim::Slot {
                slot,
                nonnull,
                holds,
            } => self.claims.push(Claim::Slot {
                slot,
                nonnull,
                holds,
            }),
        }
    }
}

impl DraftClaims {
    /// No edge to any of `count` blocks was walked, but to the first one.
    pub fn new(alloc: Global, count: usize) -> Result<DraftClaims, AllocError> {
        let blocks = no_claims(alloc, count)?;
        let Ok(waiting) = vec![in alloc; false; count] else {
            drop(blocks);
            return Err(AllocError);
        };
        let mut draft = DraftClaims {
            blocks,
            queue: Vec::new(alloc),
            waiting,
        };
        draft.set(BlockId::new(0), BlockClaims::new(alloc));
        Ok(draft)
    }

    /// The claims of a block, if an edge to it was walked.
    pub fn claims(&self, block: BlockId) -> Option<&BlockClaims> {
        match self.blocks.get(block.number() as usize) {
            Some(Some(listed)) => Some(listed),
            _ => None,
        }
    }

    /// These are the claims of a block.
    pub fn set(&mut self, block: BlockId, listed: BlockClaims) {
        let at = block.number() as usize;
        if at < self.blocks.len() {
            self.blocks[at] = Some(listed);
        }
    }

    /// All blocks to which an edge was walked are to be walked over.
    pub fn wake_all(&mut self) -> Result<(), AllocError> {
        self.queue.clear();
        let Ok(count) = u32::try_from(self.blocks.len()) else {
            return Ok(());
        };
        for block in 0..count {
            self.wake(BlockId::new(block))?;
        }
        Ok(())
    }

    /// A block is to be walked over.
    pub fn wake(&mut self, block: BlockId) -> Result<(), AllocError> {
        let at = block.number() as usize;
        if !row_or(&self.waiting, at, true) {
            put(&mut self.waiting, at, true);
            self.queue.push(block.number())?;
        }
        Ok(())
    }

    /// The block that is to be walked over after this number of others.
    pub fn next(&mut self, at: usize) -> Option<BlockId> {
        let block = self.queue.get(at).copied()?;
        put(&mut self.waiting, block as usize, false);
        Some(BlockId::new(block))
    }

    /// The claims of each block.
    pub fn each_claims(&self, alloc: Global) -> Result<Items<Items<Claim>>, AllocError> {
        let mut each = Items::new(alloc);
        for listed in self.blocks.as_slice() {
            let claims = claims_in(alloc, listed)?;
            each.push(claims)?;
        }
        Ok(each)
    }
}

fn claims_in(alloc: Global, listed: &Option<BlockClaims>) -> Result<Items<Claim>, AllocError> {
    match listed {
        Some(listed) => Items::from_slice(alloc, listed.claims.as_slice()),
        None => Ok(Items::new(alloc)),
    }
}

/// No claims are found of `count` blocks.
fn no_claims(alloc: Global, count: usize) -> Result<Vec<Option<BlockClaims>>, AllocError> {
    let mut blocks = Vec::new(alloc);
    for _ in 0..count {
        blocks.push(None)?;
    }
    Ok(blocks)
}
