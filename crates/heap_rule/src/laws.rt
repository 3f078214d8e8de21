ghost use Rattle.std.specs.Prelude.{ℕ, List};
ghost use Rattle.pools.specs.Heap.{Setup};
ghost use Rattle.colours.specs.declared.ask.Ask.{Ask};
ghost use Rattle.colours.specs.Runs.{Event};
ghost use Rattle.heap_rule.specs.View.{Share, View};
ghost use Rattle.heap_rule.specs.Laws.{MakesRun, KeepsRule, OpensRule, DealsThread, JoinsShares};

/// The law of the rule, one for all kinds of steps of threads and collector. A run, with one more step that its actor may make
/// on the words as they stand, is a run. A new table meets the rule. A table that meets it meets it after such a step on one of its
/// words, after a thread got a seat of its own, and after the shares of one seat went into another.
pub fn rule_law()
    ensures run { (s : Setup) (share : Share) (event : Event) (ask : Ask) (found : ℕ) → MakesRun s share event ask found }
    ensures opens { (s : Setup) (words : List ℕ) → OpensRule s words }
    ensures deals { (s : Setup) (seat thread : ℕ) → DealsThread s seat thread }
    ensures keeps { (s : Setup) (share : Share) (event : Event) (ask : Ask) → KeepsRule s share event ask }
    ensures joins { (s : Setup) (seat : ℕ) (v : View) (other : ℕ) (w : View) → JoinsShares s seat v other w }
{}
