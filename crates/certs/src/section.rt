use ir_ast::{SymbolId, ValueId};
use items::Items;
use pools::{LayoutId, WordSet};

/// Whether a function may reach a safepoint.
#[derive(Clone, Copy)]
pub enum Mark {
    May,
    None,
}

/// What is promised of a parameter or of the result.
#[derive(Clone, Copy, PartialEq, Eq)]
pub struct Promise {
    /// `ref L`, where it is written.
    pub layout: Option<LayoutId>,
    pub nonnull: bool,
    /// `below n`, from 1.
    pub below: Option<u64>,
    /// `i64` of a pointer: it is an address outside of the module.
    pub number: bool,
}

/// Whether a reference was published, or has lost its cell.
#[derive(Clone, Copy)]
pub enum Age {
    /// No word points to its cell, and no name but those of the same reference.
    Fresh,
    Held,
    /// A safepoint came between.
    Stale,
}

/// What a claim of a block says of its value.
#[derive(Clone, Copy)]
pub enum Fact {
    Number {
        bits: u32,
        /// From 1.
        below: Option<u64>,
    },
    Reference {
        layout: LayoutId,
        nonnull: bool,
        age: Age,
        same: Option<ValueId>,
    },
    /// A word of the cell that the value `base` refers to.
    Address {
        base: ValueId,
        words: WordSet,
    },
    GlobalAddress(SymbolId),
}

/// A claim of a block.
#[derive(Clone, Copy)]
pub enum Claim {
    Value {
        value: ValueId,
        fact: Fact,
    },
    /// The slot is named by its alloca.
    Slot {
        slot: ValueId,
        nonnull: bool,
        holds: Option<ValueId>,
    },
}

/// What the certificate of a function says.
#[derive(Drop)]
pub struct Section {
    pub mark: Mark,
    /// One for each parameter; none where no claim names it.
    pub parameters: Items<Option<Promise>>,
    pub result: Option<Promise>,
    /// The claims of each block, by its number; the entry has none.
    pub blocks: Items<Items<Claim>>,
}
