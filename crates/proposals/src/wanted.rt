//! Which values and slots are read at a block or after it, before they are written again.
use crate::scan::Scan;
use number_tables::{Buckets, put, row_or};
use std::alloc::{AllocError, Global};

/// The blocks that read and write each value and slot, and the edges between blocks.
#[derive(Drop)]
struct BlockUses<'a> {
    /// The blocks from which each block is entered.
    predecessors: &'a Buckets,
    /// The blocks that read each value and slot.
    reads: Buckets,
    /// The blocks that write each.
    ends: Buckets,
}

/// The way back from the blocks that read one value or slot.
#[derive(Drop)]
struct BackwardWalk {
    /// The last value or slot that was looked at and is written in each block.
    ended: Vec<Option<usize>>,
    /// The last one that is wanted at each block.
    seen: Vec<Option<usize>>,
    todo: Vec<u32>,
    wanted: Vec<(usize, u32)>,
}

/// For each of `count` blocks the numbers of what is wanted where it begins, in their order.
pub fn wanted_of(
    alloc: Global,
    count: usize,
    predecessors: &Buckets,
    scan: &Scan<'_>,
) -> Result<Buckets, AllocError> {
    let uses = BlockUses::of(alloc, predecessors, scan)?;
    let Ok(mut walk) = BackwardWalk::new(alloc, count) else {
        drop(uses);
        return Err(AllocError);
    };
    let wanted = match walk.go(&uses, scan) {
        Ok(()) => Buckets::of(alloc, &walk.wanted, count),
        Err(refused) => Err(refused),
    };
    drop(walk);
    drop(uses);
    wanted
}

impl<'a> BlockUses<'a> {
    fn of(
        alloc: Global,
        predecessors: &'a Buckets,
        scan: &Scan<'_>,
    ) -> Result<BlockUses<'a>, AllocError> {
        let reads = Buckets::of(alloc, &scan.read, scan.count())?;
        let Ok(ends) = Buckets::of(alloc, &scan.ended, scan.count()) else {
            drop(reads);
            return Err(AllocError);
        };
        Ok(BlockUses {
            predecessors,
            reads,
            ends,
        })
    }
}

impl BackwardWalk {
    fn new(alloc: Global, blocks: usize) -> Result<BackwardWalk, AllocError> {
        let ended = vec![in alloc; None; blocks]?;
        let Ok(seen) = vec![in alloc; None; blocks] else {
            drop(ended);
            return Err(AllocError);
        };
        Ok(BackwardWalk {
            ended,
            seen,
            todo: Vec::new(alloc),
            wanted: Vec::new(alloc),
        })
    }

    fn go(&mut self, uses: &BlockUses<'_>, scan: &Scan<'_>) -> Result<(), AllocError> {
        let Ok(count) = u32::try_from(scan.count()) else {
            return Err(AllocError);
        };
        for number in 0..count {
            self.from(uses, scan, number)?;
        }
        Ok(())
    }

    fn from(
        &mut self,
        uses: &BlockUses<'_>,
        scan: &Scan<'_>,
        number: u32,
    ) -> Result<(), AllocError> {
        let name = number as usize;
        for block in uses.ends.group(name) {
            put(&mut self.ended, *block as usize, Some(name));
        }
        self.todo.clear();
        for block in uses.reads.group(name) {
            self.todo.push(*block)?;
        }
        for at in 0..usize::MAX {
            let Some(block) = self.todo.get(at).copied() else {
                break;
            };
            self.reach(uses, scan, number, block)?;
        }
        Ok(())
    }

    fn reach(
        &mut self,
        uses: &BlockUses<'_>,
        scan: &Scan<'_>,
        number: u32,
        block: u32,
    ) -> Result<(), AllocError> {
        let name = number as usize;
        let at = block as usize;
        if row_or(&self.seen, at, Some(name)) == Some(name) {
            return Ok(());
        }
        put(&mut self.seen, at, Some(name));
        self.wanted.push((at, number))?;
        if row_or(&scan.phis, name, None) == Some(block) {
            return Ok(());
        }
        for from in uses.predecessors.group(at) {
            if row_or(&self.ended, *from as usize, None) != Some(name) {
                self.todo.push(*from)?;
            }
        }
        Ok(())
    }
}
