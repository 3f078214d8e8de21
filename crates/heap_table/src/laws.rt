ghost use Rattle.std.specs.Prelude.{List};
ghost use Rattle.pools.specs.Heap.{Setup};
ghost use Rattle.colours.specs.Runs.{Event};
ghost use Rattle.heap_table.specs.OwnWords.{HoldsOwn, ReadsOwn};

/// The law of a word in which one thread alone stores, and which the collector does not clear. It holds what that thread stored there
/// last, and each read of it finds that.
pub fn own_word_law()
    ensures holds { (s : Setup) (run : List Event) → HoldsOwn s run }
    ensures reads { (s : Setup) (run : List Event) → ReadsOwn s run }
{}
