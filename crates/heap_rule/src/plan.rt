use pools::{Layouts, Pools, WordKind};
use std::marker::Model;

/// What a heap is set up from. The rule of its table is about this heap.
#[derive(Drop)]
pub struct Plan<'a> {
    pub pools: &'a Pools,
    pub layouts: &'a Layouts,
    /// The kinds of the words of the globals' cell.
    pub globals: &'a [WordKind],
    /// What these words hold at the start.
    pub values: &'a [u64],
    pub threads: usize,
    /// Which threads are absent at the start. One that is not named is present.
    pub late: &'a [bool],
}

impl<'a> Model for Plan<'a> {
    ghost use Rattle.pools.specs.Heap.{Setup};

    ghost Value = { Setup };

    ghost view = { λ p. record { threads = p.threads; late = p.late.now; layouts = p.layouts.now; pools = p.pools.now; globals = p.globals.now; values = p.values.now } };
}
