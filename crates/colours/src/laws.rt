ghost use Rattle.std.specs.Prelude.{◌≡◌, ◌<◌, ◌≤◌, ℕ, List, [], ◌∷◌, length, slice_index};
ghost use Rattle.pools.specs.Heap.{Setup};
ghost use Rattle.pools.specs.Pools.{first_cell};
ghost use Rattle.colours.specs.Colours.{done};
ghost use Rattle.colours.specs.Steps.{StorePlain, StoreStage};
ghost use Rattle.colours.specs.Calls.{Reading, Replacing, Trying, Beginning, Steps, MakesExactly, IsRead, IsPlainStore, IsReplacement, IsAllocation, IsPoolInOrder, IsTryToBegin, IsFinish, cells_from};

/// The law of the calls: for each call the lists of operations and results are exactly those that the order of a thread's
/// steps allows. Those of `alloc` are the ones that try a pool's cells in one order, and the order from a hint on is such a one.
/// Those of `begin` are the whole tries of a late thread.
pub fn op_law()
    ensures read { (s : Setup) (thread stage cell word : ℕ) → MakesExactly thread stage (Reading cell word) (IsRead s stage cell word) }
    ensures store_plain { (s : Setup) (thread stage cell word value : ℕ) → MakesExactly thread stage (Steps (StorePlain cell word value ∷ [])) (IsPlainStore s stage cell word value) }
    ensures write { (s : Setup) (thread stage cell word new : ℕ) → MakesExactly thread stage (Replacing cell word new) (IsReplacement s stage cell word new) }
    ensures alloc { (s : Setup) (thread stage layout cell : ℕ) (cells : List ℕ) → IsPoolInOrder s layout (cell ∷ cells) → MakesExactly thread stage (Trying cell cells) (IsAllocation s stage cell cells) }
    ensures hints { (s : Setup) (layout hint : ℕ) → layout < length s.pools → hint ≤ slice_index s.pools layout
        → IsPoolInOrder s layout (cells_from (first_cell s.pools layout) (slice_index s.pools layout) hint) }
    ensures begin { (s : Setup) (thread own stage : ℕ) → MakesExactly thread own Beginning (IsTryToBegin s stage) }
    ensures finish { (s : Setup) (thread stage : ℕ) → MakesExactly thread stage (Steps (StoreStage done [] ∷ [])) (IsFinish s stage) }
{}
