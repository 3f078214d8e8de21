ghost use Rattle.std.specs.Prelude.{◌≡◌};
ghost use Rattle.fact_tables.specs.Rows.{open_slot, lost_class};

use crate::class_id::ClassId;
use ir_ast::{Comparison, Constant, SymbolId, ValueId};
use pools::{LayoutId, WordSet};

/// What is known of a class of references, which are equal.
#[derive(Clone, Copy)]
pub struct Class {
    pub nonnull: bool,
    /// Null, or a cell that this thread claimed and that nothing outside the class names.
    pub fresh: bool,
}

/// What is known of a value.
#[derive(Clone, Copy)]
pub enum Known {
    Nothing,
    /// An integer of this number of bits, which is below a number.
    Number {
        bits: u32,
        below: Option<u64>,
    },
    /// A reference to this layout. Where it is stale the cell may be gone.
    Cell {
        class: ClassId,
        layout: LayoutId,
        stale: bool,
    },
    /// Null, which refers to each layout.
    Null,
    /// The cell that another value refers to, with one of these words.
    Address {
        base: ValueId,
        words: WordSet,
    },
    GlobalAddress(SymbolId),
}

/// A comparison that gave a value: what it asked of another, whose operand was the first.
#[derive(Clone, Copy)]
pub struct Test {
    pub tested: ValueId,
    pub kind: Comparison,
    pub constant: Constant,
}

/// What is known of a slot.
#[derive(Clone, Copy)]
pub struct SlotFact {
    /// A gcroot came in this block.
    pub rooted: bool,
    pub nonnull: bool,
    /// The class of what it holds.
    pub holds: Option<ClassId>,
}

impl Class {
    /// A class of which nothing is known.
    pub fn lost() -> Self
        ensures { result ≡ lost_class }
    {
        Class {
            nonnull: false,
            fresh: false,
        }
    }
}

impl SlotFact {
    /// A slot of which nothing is known.
    pub fn open() -> Self
        ensures { result ≡ open_slot }
    {
        SlotFact {
            rooted: false,
            nonnull: false,
            holds: None,
        }
    }
}
