ghost use Rattle.std.specs.Prelude.{◌≡◌, ◌<◌, ◌↔◌, [], ◌∷◌, ℕ, List, IfOk, IsTrue, IsFalse, true, false};
ghost use Rattle.lemmas.specs.Lists.{IsIn};
ghost use Rattle.pools.specs.Heap.{Setup, cells, kind_of};
ghost use Rattle.pools.specs.Layouts.{is_reference_kind};
ghost use Rattle.colours.specs.Steps.{Step, ReadWord, ReadOldValue, Mark, StorePlain, StoreAfterBarrier, Claim, ReadPosted, StoreStage, ReadPostedFirst, EnterStage, ReadPostedAgain};
ghost use Rattle.colours.specs.Mutator.{Held, Fresh, MayUse};
ghost use Rattle.watch.specs.Knows.{Knows};

use crate::cell_set::CellSet;
use std::alloc::{AllocError, Global};

/// What a thread holds, and which of it is fresh.
#[derive(Drop)]
pub struct Holdings {
    held: CellSet,
    fresh: CellSet,
}

impl Holdings {
    /// Nothing, before a thread's first step. There are two stamps of 32 bits for each cell of the heap.
    pub fn new(alloc: Global, count: u32) -> Result<Self, AllocError>
        ensures { IfOk result (λ known. (s : Setup) → cells s ≡ count → Knows s [] known) }
    {
        let held = CellSet::new(alloc, count)?;
        let fresh = CellSet::new(alloc, count)?;
        Ok(Holdings { held, fresh })
    }

    /// Whether the thread holds the cell, which is then one of the heap and not null.
    pub fn holds(&self, cell: u32) -> bool
        ensures held { (s : Setup) (log : List Step) → Knows s log self.now → IsTrue result ↔ Held s log cell }
        ensures cell { (s : Setup) (log : List Step) → Knows s log self.now → IsTrue result → (0 < cell) × (cell < cells s) }
    {
        self.held.has(cell)
    }

    /// Whether the cell is fresh.
    pub fn is_fresh(&self, cell: u32) -> bool
        ensures { (s : Setup) (log : List Step) → Knows s log self.now → IsTrue result ↔ Fresh s log cell }
    {
        self.fresh.has(cell)
    }

    /// The thread found this cell, or null, in a word of references.
    pub fn found(&mut self, cell: u32)
        ensures read { (s : Setup) (log : List Step) (base word : ℕ) → IsTrue (is_reference_kind (kind_of s base word)) → cell < cells s → Knows s log self.old → Knows s (ReadWord base word cell ∷ log) self.new }
        ensures read_old { (s : Setup) (log : List Step) (base word : ℕ) → IsTrue (is_reference_kind (kind_of s base word)) → cell < cells s → Knows s log self.old → Knows s (ReadOldValue base word cell ∷ log) self.new }
    {
        if cell != 0 {
            self.held.add(cell);
        }
    }

    /// The thread won this cell, which is not null.
    pub fn won(&mut self, cell: u32)
        ensures { (s : Setup) (log : List Step) → 0 < cell → cell < cells s → Knows s log self.old → Knows s (Claim cell true ∷ log) self.new }
    {
        self.held.add(cell);
        self.fresh.add(cell);
    }

    /// The thread stored a reference to this cell, or null, in a word of references.
    pub fn stored(&mut self, cell: u32)
        ensures plain { (s : Setup) (log : List Step) (base word : ℕ) → IsTrue (is_reference_kind (kind_of s base word)) → Knows s log self.old → Knows s (StorePlain base word cell ∷ log) self.new }
        ensures barrier { (s : Setup) (log : List Step) (base word : ℕ) → IsTrue (is_reference_kind (kind_of s base word)) → Knows s log self.old → Knows s (StoreAfterBarrier base word cell ∷ log) self.new }
    {
        self.fresh.remove(cell);
    }

    /// The thread stored a stage, with these roots, each of which is null or held.
    pub fn answered(&mut self, roots: &[u32])
        ensures { (s : Setup) (log : List Step) (stage : ℕ) → ((root : ℕ) → IsIn root roots.now → MayUse s log root) → Knows s log self.old → Knows s (StoreStage stage roots.now ∷ log) self.new }
    {
        self.fresh.clear();
        self.held.clear();
        self.held.add_all(roots);
    }
}

/// The law of a thread's other steps: they leave what is held and what is fresh.
pub fn others_law()
    ensures read { (s : Setup) (log : List Step) (known : _) (base word value : ℕ) → IsFalse (is_reference_kind (kind_of s base word)) → Knows s log known → Knows s (ReadWord base word value ∷ log) known }
    ensures mark { (s : Setup) (log : List Step) (known : _) (cell : ℕ) → Knows s log known → Knows s (Mark cell ∷ log) known }
    ensures integer { (s : Setup) (log : List Step) (known : _) (base word value : ℕ) → IsFalse (is_reference_kind (kind_of s base word)) → Knows s log known → Knows s (StorePlain base word value ∷ log) known }
    ensures lost { (s : Setup) (log : List Step) (known : _) (cell : ℕ) → Knows s log known → Knows s (Claim cell false ∷ log) known }
    ensures posted { (s : Setup) (log : List Step) (known : _) (stage : ℕ) → Knows s log known → Knows s (ReadPosted stage ∷ log) known }
    ensures first { (s : Setup) (log : List Step) (known : _) (stage : ℕ) → Knows s log known → Knows s (ReadPostedFirst stage ∷ log) known }
    ensures enter { (s : Setup) (log : List Step) (known : _) (stage : ℕ) → Knows s log known → Knows s (EnterStage stage ∷ log) known }
    ensures again { (s : Setup) (log : List Step) (known : _) (stage : ℕ) → Knows s log known → Knows s (ReadPostedAgain stage ∷ log) known }
{}
